//! Files in memory that never fail: each takes its room when they are made.
//! A piece that passes its file's room is dropped, and nothing is told of that file from then on.
//! Under any other name there is nothing to read, and a write leaves nothing behind.

ghost use Rattle.std.specs.Prelude.{◌≡◌, ◌≢◌, ◌≤◌, ◌^◌, ℕ, List, length, map, option_map, position, IfOk, IsOk};
ghost use Rattle.std.specs.Str.{bytes_eq};
ghost use Rattle.tail_outside.specs.inside.Outside.{IsRead};
ghost use Rattle.tail_outside.specs.inside.Sure.{file_with_room, after_piece, emptied, sink_under, held_under, read_under};

use crate::mem_files::copy;
use crate::{Failed, Fault, Files, MemFile, SureSink};
use std::alloc::Global;
use std::marker::Model;
use tail_book::Memory;

// A file in memory, with its room.
#[derive(Drop)]
struct SureFile {
    name: String,
    sink: SureSink,
}

impl Model for SureFile {
    ghost use Rattle.std.specs.Prelude.{string_bytes};
    ghost use Rattle.tail_outside.specs.inside.Seen.{SureFileSeen};

    ghost Value = { SureFileSeen };

    ghost view = { λ f. record { name = string_bytes f.name; sink = f.sink } };
}

impl SureFile {
    fn new(file: MemFile, room: usize) -> Result<SureFile, Memory>
        ensures { IfOk result (λ made. made ≡ file_with_room room file) }
    {
        let MemFile { name, bytes } = file;
        let sink = SureSink::over(bytes, room)?;
        Ok(SureFile { name, sink })
    }

    fn is_named(&self, name: &str) -> bool
        ensures { result ≡ bytes_eq self.now.name name.now }
    {
        self.name.as_str() == name
    }
}

/// Files in memory that never fail, each with room for so many bytes. Of two with one name the first counts.
#[derive(Drop)]
pub struct SureFiles {
    files: Vec<SureFile>,
}

impl Model for SureFiles {
    ghost use Rattle.std.specs.Prelude.{List};
    ghost use Rattle.tail_outside.specs.inside.Seen.{SureFileSeen};

    ghost Value = { List SureFileSeen };

    ghost view = { λ f. f.files.items };
}

impl SureFiles {
    /// These files, each with room for so many more bytes.
    pub fn new(alloc: Global, files: Vec<MemFile>, room: usize) -> Result<SureFiles, Memory>
        ensures { IfOk result (λ made. made ≡ map (file_with_room room) files.items) }
    {
        let mut made = Vec::new(alloc);
        for file in files {
            made.push(SureFile::new(file, room)?)?;
        }
        Ok(SureFiles { files: made })
    }

    /// The bytes of a file, also of one that has ceased.
    pub fn bytes(&self, name: &str) -> Option<&[u8]>
        ensures { option_map (λ s. s.now) result ≡ held_under self.now name.now }
    {
        let file = self.files.iter().find(|file| file.is_named(name))?;
        Some(file.sink.bytes())
    }
}

// The place of the first file of this name.
fn place_of(files: &[SureFile], name: &str) -> Option<usize>
    ensures { result ≡ position (λ file. bytes_eq file.name name.now) files.now }
{
    files.iter().position(|file| file.is_named(name))
}

// Empties the file of this name.
fn empty(files: &mut Vec<SureFile>, name: &str)
    ensures emptied { sink_under files.new.items name.now
        ≡ option_map emptied (sink_under files.old.items name.now) }
    ensures others { (other : List ℕ) → other ≢ name.now →
        sink_under files.new.items other ≡ sink_under files.old.items other }
{
    if let Some(place) = place_of(files, name) {
        let file = &mut files[place];
        file.sink.empty();
    }
}

// Gives the piece to the file of this name.
fn extend(files: &mut Vec<SureFile>, name: &str, piece: &[u8])
    ensures after { sink_under files.new.items name.now
        ≡ option_map (λ sink. after_piece sink piece.now) (sink_under files.old.items name.now) }
    ensures others { (other : List ℕ) → other ≢ name.now →
        sink_under files.new.items other ≡ sink_under files.old.items other }
{
    if let Some(place) = place_of(files, name) {
        let file = &mut files[place];
        file.sink.take(piece);
    }
}

impl Files for SureFiles {
    ghost use Rattle.std.specs.Prelude.{true};
    ghost use Rattle.tail_outside.specs.inside.Sure.{told_under, ceased_under, told_under-ceased};

    ghost shows = { λ f. record {
      holds = told_under f;
      lets_read = λ name. true;
      lets_write = λ name. true;
      ceased = ceased_under f;
      read_faults = 0;
      write_faults = 0;
    } };

    ghost ceased_tells_nothing = { told_under-ceased };

    fn read_at(&mut self, name: &str, at: u64, into: &mut [u8]) -> Result<usize, Failed>
        requires { at ≤ 2 ^ 40 }
        ensures ok { IsOk result }
        ensures fits { IfOk result (λ n. n ≤ length into.old) }
        ensures read { IfOk result (λ n. IsRead (read_under self.old name.now) at into.new n) }
        ensures same { self.new ≡ self.old }
    {
        match self.bytes(name) {
            Some(bytes) => Ok(copy(bytes, at, into)),
            None => Ok(0),
        }
    }

    fn begin(&mut self, name: &str) -> Result<(), Fault>
        ensures ok { IsOk result }
        ensures emptied { sink_under self.new name.now
            ≡ option_map emptied (sink_under self.old name.now) }
        ensures others { (other : List ℕ) → other ≢ name.now →
            sink_under self.new other ≡ sink_under self.old other }
    {
        empty(&mut self.files, name);
        Ok(())
    }

    fn append(&mut self, name: &str, piece: &[u8]) -> Result<(), Fault>
        ensures ok { IsOk result }
        ensures after { sink_under self.new name.now
            ≡ option_map (λ sink. after_piece sink piece.now) (sink_under self.old name.now) }
        ensures others { (other : List ℕ) → other ≢ name.now →
            sink_under self.new other ≡ sink_under self.old other }
    {
        extend(&mut self.files, name, piece);
        Ok(())
    }
}
