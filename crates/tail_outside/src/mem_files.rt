//! Files in memory, which tell their bytes: the files of tests and of proofs, whose calls fail where one says so.

ghost use Rattle.std.specs.Prelude.{◌≡◌, ◌≤◌, ◌^◌, ◌↔◌, ◌⊎◌, ◌++◌, [], ◌∷◌, length, option_map, position, IsTrue, IsOk, IfOk, IfSome, IsErr, OnOk, OnErr, IsErrOf};
ghost use Rattle.std.specs.Str.{bytes_eq};
ghost use Rattle.tail_outside.specs.inside.Held.{bytes_under, fails_next, one_more, files_at_first};
ghost use Rattle.tail_book.specs.Faults.{HasRisen};
ghost use Rattle.tail_outside.specs.inside.Outside.{IsRead, SameOthers, with_piece};

use crate::calls::Calls;
use crate::{Failed, Fault, Files};
use std::alloc::Global;
use std::marker::Model;
use tail_book::Memory;

/// A file in memory. Clauses see its name and its bytes as lists.
#[derive(Drop)]
pub struct MemFile {
    /// The name under which it is found.
    pub name: String,
    /// What it holds.
    pub bytes: Vec<u8>,
}

impl Model for MemFile {
    ghost use Rattle.std.specs.Prelude.{string_bytes};
    ghost use Rattle.tail_outside.specs.inside.Seen.{FileSeen};

    ghost Value = { FileSeen };

    ghost view = { λ f. record { name = string_bytes f.name; bytes = f.bytes.items } };
}

impl MemFile {
    fn is_named(&self, name: &str) -> bool
        ensures { result ≡ bytes_eq self.now.name name.now }
    {
        self.name.as_str() == name
    }
}

/// Files in memory. The calls whose numbers are listed fail, and so do reads under a name that no file has.
/// A write under such a name makes the file. Where two files are handed in under one name, it is the first that is meant.
#[derive(Drop)]
pub struct MemFiles {
    alloc: Global,
    files: Vec<MemFile>,
    calls: Calls,
    read_faults: u64,
    write_faults: u64,
}

impl Model for MemFiles {
    ghost use Rattle.tail_outside.specs.inside.Seen.{MemFilesSeen};

    ghost Value = { MemFilesSeen };

    ghost view = { λ f. record {
      files = f.files.items;
      calls = f.calls;
      read_faults = f.read_faults;
      write_faults = f.write_faults;
    } };
}

impl MemFiles {
    /// These files. The calls with the numbers in `failing`, counted from 1, will fail.
    pub fn new(alloc: Global, files: Vec<MemFile>, failing: Vec<u64>) -> Result<MemFiles, Memory>
        ensures ok { IsOk result }
        ensures made { IfOk result (λ made. made ≡ files_at_first files.items failing.items) }
    {
        Ok(MemFiles {
            alloc,
            files,
            calls: Calls::new(failing),
            read_faults: 0,
            write_faults: 0,
        })
    }

    /// The bytes of a file.
    pub fn bytes(&self, name: &str) -> Option<&[u8]>
        ensures { option_map (λ s. s.now) result ≡ bytes_under self.now.files name.now }
    {
        let file = self.files.iter().find(|file| file.is_named(name))?;
        Some(file.bytes.as_slice())
    }
}

// The place of the first file of this name.
fn place_of(files: &[MemFile], name: &str) -> Option<usize>
    ensures { result ≡ position (λ file. bytes_eq file.name name.now) files.now }
{
    files.iter().position(|file| file.is_named(name))
}

// Adds the piece to the file of this name, which is made where it isn't there.
fn extend(alloc: Global, files: &mut Vec<MemFile>, name: &str, piece: &[u8]) -> Result<(), Memory>
    ensures added { OnOk result (bytes_under files.new.items name.now
        ≡ with_piece (bytes_under files.old.items name.now) piece.now) }
    ensures others { SameOthers (bytes_under files.old.items) (bytes_under files.new.items) name.now }
    ensures memory { OnErr result (files.new.items ≡ files.old.items) }
{
    match place_of(files, name) {
        Some(place) => {
            let file = &mut files[place];
            file.bytes.extend_from_slice(piece)?;
        }
        None => add_file(alloc, files, name, piece)?,
    }
    Ok(())
}

// Adds a file of this name and these bytes behind the others.
fn add_file(alloc: Global, files: &mut Vec<MemFile>, name: &str, bytes: &[u8]) -> Result<(), Memory>
    ensures added { OnOk result (files.new.items
        ≡ files.old.items ++ record { name = name.now; bytes = bytes.now } ∷ []) }
    ensures memory { OnErr result (files.new.items ≡ files.old.items) }
{
    let file = MemFile {
        name: String::from_str(alloc, name)?,
        bytes: Vec::from_slice(alloc, bytes)?,
    };
    files.push(file)?;
    Ok(())
}

// Empties the file of this name, which is made where it isn't there.
fn empty(alloc: Global, files: &mut Vec<MemFile>, name: &str) -> Result<(), Memory>
    ensures emptied { OnOk result (bytes_under files.new.items name.now ≡ Some []) }
    ensures others { SameOthers (bytes_under files.old.items) (bytes_under files.new.items) name.now }
    ensures memory { OnErr result (files.new.items ≡ files.old.items) }
{
    match place_of(files, name) {
        Some(place) => {
            let emptied = &mut files[place];
            emptied.bytes.clear();
        }
        None => add_file(alloc, files, name, &[])?,
    }
    Ok(())
}

impl Files for MemFiles {
    ghost use Rattle.std.specs.Prelude.{true, false};
    ghost use Rattle.std.proofs.lemmas.Bool.{false≢true};

    ghost shows = { λ f. record {
      holds = bytes_under f.files;
      lets_read = λ name. true;
      lets_write = λ name. true;
      ceased = λ name. false;
      read_faults = f.read_faults;
      write_faults = f.write_faults;
    } };

    ghost ceased_tells_nothing = { λ f name gone. absurd (false≢true gone) };

    fn read_at(&mut self, name: &str, at: u64, into: &mut [u8]) -> Result<usize, Failed>
        requires { at ≤ 2 ^ 40 }
        ensures fits { IfOk result (λ n. n ≤ length into.old) }
        ensures read { IfOk result (λ n. IfSome (bytes_under self.old.files name.now)
            (λ bytes. IsRead bytes at into.new n)) }
        ensures failed { IsErr result
            ↔ (IsTrue (fails_next self.old.calls) ⊎ (bytes_under self.old.files name.now ≡ None)) }
        ensures files { self.new.files ≡ self.old.files }
        ensures called { self.new.calls ≡ one_more self.old.calls }
        ensures writes { self.new.write_faults ≡ self.old.write_faults }
        ensures counts { self.old.read_faults ≤ self.new.read_faults }
        ensures cause { IsErr result → HasRisen self.old.read_faults self.new.read_faults }
        ensures quiet { OnOk result (self.new.read_faults ≡ self.old.read_faults) }
    {
        if self.calls.fails() {
            self.read_faults = self.read_faults.saturating_add(1);
            return Err(Failed);
        }
        match self.bytes(name) {
            Some(bytes) => Ok(copy(bytes, at, into)),
            None => {
                self.read_faults = self.read_faults.saturating_add(1);
                Err(Failed)
            }
        }
    }

    fn begin(&mut self, name: &str) -> Result<(), Fault>
        ensures empty { OnOk result (bytes_under self.new.files name.now ≡ Some []) }
        ensures same { OnErr result (self.new.files ≡ self.old.files) }
        ensures others { SameOthers (bytes_under self.old.files) (bytes_under self.new.files) name.now }
        ensures failed { IsErrOf result Fault.Failed ↔ IsTrue (fails_next self.old.calls) }
        ensures called { self.new.calls ≡ one_more self.old.calls }
        ensures reads { self.new.read_faults ≡ self.old.read_faults }
        ensures counts { self.old.write_faults ≤ self.new.write_faults }
        ensures cause { IsErrOf result Fault.Failed →
            HasRisen self.old.write_faults self.new.write_faults }
        ensures memory { IsErrOf result Fault.Memory →
            self.new.write_faults ≡ self.old.write_faults }
        ensures quiet { OnOk result (self.new.write_faults ≡ self.old.write_faults) }
    {
        if self.calls.fails() {
            self.write_faults = self.write_faults.saturating_add(1);
            return Err(Fault::Failed);
        }
        match empty(self.alloc, &mut self.files, name) {
            Ok(()) => Ok(()),
            Err(Memory) => Err(Fault::Memory),
        }
    }

    fn append(&mut self, name: &str, piece: &[u8]) -> Result<(), Fault>
        ensures added { OnOk result (bytes_under self.new.files name.now
            ≡ with_piece (bytes_under self.old.files name.now) piece.now) }
        ensures same { OnErr result (self.new.files ≡ self.old.files) }
        ensures others { SameOthers (bytes_under self.old.files) (bytes_under self.new.files) name.now }
        ensures failed { IsErrOf result Fault.Failed ↔ IsTrue (fails_next self.old.calls) }
        ensures called { self.new.calls ≡ one_more self.old.calls }
        ensures reads { self.new.read_faults ≡ self.old.read_faults }
        ensures counts { self.old.write_faults ≤ self.new.write_faults }
        ensures cause { IsErrOf result Fault.Failed →
            HasRisen self.old.write_faults self.new.write_faults }
        ensures memory { IsErrOf result Fault.Memory →
            self.new.write_faults ≡ self.old.write_faults }
        ensures quiet { OnOk result (self.new.write_faults ≡ self.old.write_faults) }
    {
        if self.calls.fails() {
            self.write_faults = self.write_faults.saturating_add(1);
            return Err(Fault::Failed);
        }
        match extend(self.alloc, &mut self.files, name, piece) {
            Ok(()) => Ok(()),
            Err(Memory) => Err(Fault::Memory),
        }
    }
}

// Copies what is there at a place into the buffer, as far as both reach.
pub(crate) fn copy(bytes: &[u8], at: u64, into: &mut [u8]) -> usize
    requires { at ≤ 2 ^ 40 }
    ensures fits { result ≤ length into.old }
    ensures read { IsRead bytes.now at into.new result }
{
    if at >= bytes.len() as u64 {
        return 0;
    }
    let rest = &bytes[at as usize..];
    let count = rest.len().min(into.len());
    into[..count].copy_from_slice(&rest[..count]);
    count
}
