//! The file system and the standard output. They tell nothing of bytes, and keep no buffer of their own.
//!
//! The file that was read last stays open, so that a pipe can be read to its end without going back. So does the one that was
//! written last: a pipe whose reader sees an end when it is closed is opened once.

ghost use Rattle.std.specs.Prelude.{◌≡◌, ◌≤◌, length, IfOk, IfErr, IsErr, OnOk};
ghost use Rattle.tail_book.specs.Faults.{HasRisen};

use crate::{Failed, Fault, Files, Sink};
use std::alloc::Global;
use std::fs::OpenOptions;
use std::io::{ErrorKind, Read, Seek, SeekFrom, Write};
use std::marker::Model;
use std::{fs, io, rt};

/// Files of the file system. A read goes on in the file that was read last, where it ended there, and a piece is added to the
/// file that was begun or added to last; every other call opens its file anew.
#[derive(Drop)]
pub struct RealFiles<R: rt::Files + Drop> {
    alloc: Global,
    runtime: R,
    reading: Option<Reading<R::File>>,
    writing: Option<Writing<R::File>>,
    read_faults: u64,
    write_faults: u64,
}

impl<R: rt::Files + Drop> Model for RealFiles<R> {
    ghost use Rattle.tail_outside.specs.inside.Seen.{RealFilesSeen};

    ghost Value = { RealFilesSeen };

    ghost view = { λ f. record { read_faults = f.read_faults; write_faults = f.write_faults } };
}

impl<R: rt::Files + Drop> RealFiles<R> {
    /// The files that this runtime reaches.
    pub fn new(alloc: Global, runtime: R) -> RealFiles<R>
        ensures { result ≡ record { read_faults = 0; write_faults = 0 } }
    {
        RealFiles {
            alloc,
            runtime,
            reading: None,
            writing: None,
            read_faults: 0,
            write_faults: 0,
        }
    }

    // One read at a place of the file. The file stays open, unless the read fails.
    fn read_once(&mut self, name: &str, at: u64, into: &mut [u8]) -> io::Result<usize>
        ensures fits { IfOk result (λ n. n ≤ length into.old) }
        ensures same { self.new ≡ self.old }
    {
        let mut reading = match self.reading.take() {
            Some(last) if last.stands_at(name, at) => last,
            _ => Reading::open(self.alloc, &self.runtime, name, at)?,
        };
        let count = reading.read(into)?;
        self.reading = Some(reading);
        Ok(count)
    }

    // Makes the file empty. It stays open for what is added.
    fn begin_once(&mut self, name: &str) -> io::Result<()>
        ensures same { self.new ≡ self.old }
    {
        self.writing = None;
        let file = fs::create(&self.runtime, name)?;
        self.writing = Some(Writing::of(self.alloc, file, name));
        Ok(())
    }

    // Adds the piece at the end of the file, which stays open, unless that fails.
    fn append_once(&mut self, name: &str, piece: &[u8]) -> Result<(), Failed>
        ensures same { self.new ≡ self.old }
    {
        let mut writing = match self.writing.take() {
            Some(last) if last.is_of(name) => last,
            _ => Writing::open(self.alloc, &self.runtime, name)?,
        };
        write_whole(&mut writing.file, piece)?;
        self.writing = Some(writing);
        Ok(())
    }
}

// A file that is open for reading, and the place where its next byte stands.
#[derive(Drop)]
struct Reading<H> {
    file: H,
    // Nothing where there was no memory for the name: then the file is not read on.
    name: Option<String>,
    at: u64,
}

impl<H> Reading<H> {
    // Whether the next byte is that at this place of this file. At its beginning a file is always opened anew.
    fn stands_at(&self, name: &str, at: u64) -> bool {
        match &self.name {
            Some(own) => at > 0 && self.at == at && own.as_str() == name,
            None => false,
        }
    }
}

impl<H: Read + Seek + Drop> Reading<H> {
    // The file, at this place. What cannot be read at a place, as a pipe, can be opened at its beginning.
    fn open<R: rt::Files<File = H>>(
        alloc: Global,
        runtime: &R,
        name: &str,
        at: u64,
    ) -> io::Result<Reading<H>> {
        let mut file = fs::open(runtime, name)?;
        if at > 0 {
            file.seek(SeekFrom::Start(at))?;
        }
        Ok(Reading {
            file,
            name: String::from_str(alloc, name).ok(),
            at,
        })
    }

    // Reads on, again where a signal interrupts it.
    fn read(&mut self, into: &mut [u8]) -> io::Result<usize>
        ensures { IfOk result (λ n. n ≤ length into.old) }
    {
        for _ in 0..u64::MAX {
            match self.file.read(into) {
                Ok(count) => {
                    self.at = self.at.saturating_add(count as u64);
                    return Ok(count);
                }
                Err(error) if error.kind() == ErrorKind::Interrupted => {}
                Err(error) => return Err(error),
            }
        }
        Err(io::Error::from(ErrorKind::Interrupted))
    }
}

// A file that is open for writing, at its end.
#[derive(Drop)]
struct Writing<H> {
    file: H,
    // Nothing where there was no memory for the name: then no piece is added to it.
    name: Option<String>,
}

impl<H: Drop> Writing<H> {
    // This file of this name.
    fn of(alloc: Global, file: H, name: &str) -> Writing<H> {
        Writing {
            file,
            name: String::from_str(alloc, name).ok(),
        }
    }

    // Whether it is the file of this name.
    fn is_of(&self, name: &str) -> bool {
        match &self.name {
            Some(own) => own.as_str() == name,
            None => false,
        }
    }

    // The file of this name, which is made where it isn't there.
    fn open<R: rt::Files<File = H>>(
        alloc: Global,
        runtime: &R,
        name: &str,
    ) -> Result<Writing<H>, Failed> {
        let opened = OpenOptions::new()
            .append(true)
            .create(true)
            .open(runtime, name);
        match opened {
            Ok(file) => Ok(Writing::of(alloc, file, name)),
            Err(_) => Err(Failed),
        }
    }
}

impl<R: rt::Files + Drop> Files for RealFiles<R> {
    ghost use Rattle.std.specs.Prelude.{true, None, refl};

    ghost shows = { λ f. record {
      holds = λ name. None;
      lets_read = λ name. true;
      lets_write = λ name. true;
      ceased = λ name. true;
      read_faults = f.read_faults;
      write_faults = f.write_faults;
    } };

    ghost ceased_tells_nothing = { λ f name gone. refl };

    fn read_at(&mut self, name: &str, at: u64, into: &mut [u8]) -> Result<usize, Failed>
        ensures fits { IfOk result (λ n. n ≤ length into.old) }
        ensures quiet { OnOk result (self.new ≡ self.old) }
        ensures writes { self.new.write_faults ≡ self.old.write_faults }
        ensures counts { self.old.read_faults ≤ self.new.read_faults }
        ensures cause { IsErr result → HasRisen self.old.read_faults self.new.read_faults }
    {
        match self.read_once(name, at, into) {
            Ok(count) => Ok(count),
            Err(_) => {
                self.read_faults = self.read_faults.saturating_add(1);
                Err(Failed)
            }
        }
    }

    fn begin(&mut self, name: &str) -> Result<(), Fault>
        ensures failed { IfErr result (λ fault. fault ≡ Fault.Failed) }
        ensures quiet { OnOk result (self.new ≡ self.old) }
        ensures reads { self.new.read_faults ≡ self.old.read_faults }
        ensures counts { self.old.write_faults ≤ self.new.write_faults }
        ensures cause { IsErr result → HasRisen self.old.write_faults self.new.write_faults }
    {
        match self.begin_once(name) {
            Ok(()) => Ok(()),
            Err(_) => {
                self.write_faults = self.write_faults.saturating_add(1);
                Err(Fault::Failed)
            }
        }
    }

    fn append(&mut self, name: &str, piece: &[u8]) -> Result<(), Fault>
        ensures failed { IfErr result (λ fault. fault ≡ Fault.Failed) }
        ensures quiet { OnOk result (self.new ≡ self.old) }
        ensures reads { self.new.read_faults ≡ self.old.read_faults }
        ensures counts { self.old.write_faults ≤ self.new.write_faults }
        ensures cause { IsErr result → HasRisen self.old.write_faults self.new.write_faults }
    {
        match self.append_once(name, piece) {
            Ok(()) => Ok(()),
            Err(Failed) => {
                self.write_faults = self.write_faults.saturating_add(1);
                Err(Fault::Failed)
            }
        }
    }
}

// Writes the piece, however many calls of `write` that takes.
fn write_whole<W: Write>(out: &mut W, piece: &[u8]) -> Result<(), Failed> {
    let mut at = 0;
    for _ in 0..u64::MAX {
        if at >= piece.len() {
            return Ok(());
        }
        match out.write(&piece[at..]) {
            Ok(count) if count > 0 => at += count,
            Err(error) if error.kind() == ErrorKind::Interrupted => {}
            _ => return Err(Failed),
        }
    }
    Err(Failed)
}

/// The standard output.
#[derive(Drop)]
pub struct RealOut<R: Print + Drop> {
    runtime: R,
    faults: u64,
}

impl<R: Print + Drop> Model for RealOut<R> {
    ghost use Rattle.tail_outside.specs.inside.Seen.{RealOutSeen};

    ghost Value = { RealOutSeen };

    ghost view = { λ s. record { faults = s.faults } };
}

impl<R: Print + Drop> RealOut<R> {
    /// The output of this runtime.
    pub fn new(runtime: R) -> RealOut<R>
        ensures { result ≡ record { faults = 0 } }
    {
        RealOut { runtime, faults: 0 }
    }
}

impl<R: Print + Drop> Sink for RealOut<R> {
    ghost use Rattle.std.specs.Prelude.{true, None, ⊤, refl};

    ghost shows = { λ s. record { told = None; ceased = true; faults = s.faults } };

    ghost beside = { λ a b. ⊤ };

    ghost ceased_tells_nothing = { λ s gone. refl };

    ghost beside_same = { λ s. tt };

    ghost beside_chains = { λ a b c h k. tt };

    fn put(&mut self, piece: &[u8]) -> Result<(), Fault>
        ensures failed { IfErr result (λ fault. fault ≡ Fault.Failed) }
        ensures quiet { OnOk result (self.new ≡ self.old) }
        ensures counts { self.old.faults ≤ self.new.faults }
        ensures cause { IsErr result → HasRisen self.old.faults self.new.faults }
    {
        match write_whole(&mut io::writer(&self.runtime), piece) {
            Ok(()) => Ok(()),
            Err(Failed) => {
                self.faults = self.faults.saturating_add(1);
                Err(Fault::Failed)
            }
        }
    }
}
