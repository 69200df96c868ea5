//! A sink in memory that never fails: it takes its room when it is made.
//! A piece that passes the room is dropped, and nothing is told of the bytes from then on.

ghost use Rattle.std.specs.Prelude.{◌≡◌, false, [], IfOk, IsOk};
ghost use Rattle.tail_outside.specs.Outside.{Adds};
ghost use Rattle.tail_outside.specs.inside.Sure.{with_room, after_piece, emptied, told_of};

use crate::{Fault, Sink};
use std::alloc::Global;
use std::marker::Model;
use tail_book::Memory;

/// A sink in memory that never fails, with room for so many bytes.
#[derive(Drop)]
pub struct SureSink {
    bytes: Vec<u8>,
    left: usize,
    ceased: bool,
}

impl Model for SureSink {
    ghost use Rattle.std.specs.Prelude.{◌≤◌, ◌+◌, vec_len};
    ghost use Rattle.std.specs.Vec.{vec_capacity};
    ghost use Rattle.tail_outside.specs.inside.Seen.{SureSinkSeen};

    ghost Value = { SureSinkSeen };

    ghost view = { λ s. record { bytes = s.bytes.items; left = s.left; ceased = s.ceased } };

    ghost invariant = { λ s. vec_len s.bytes + s.left ≤ vec_capacity s.bytes };
}

impl SureSink {
    /// An empty sink with room for so many bytes.
    pub fn new(alloc: Global, room: usize) -> Result<SureSink, Memory>
        ensures { IfOk result (λ made. made ≡ with_room [] room) }
    {
        SureSink::over(Vec::new(alloc), room)
    }

    /// What was taken.
    pub fn bytes(&self) -> &[u8]
        ensures { result.now ≡ self.now.bytes }
    {
        self.bytes.as_slice()
    }

    // A sink that holds these bytes, with room for so many more.
    pub(crate) fn over(mut bytes: Vec<u8>, room: usize) -> Result<SureSink, Memory>
        ensures { IfOk result (λ made. made ≡ with_room bytes.items room) }
    {
        bytes.reserve(room)?;
        Ok(SureSink {
            bytes,
            left: room,
            ceased: false,
        })
    }

    // Takes the piece, or drops it and ceases.
    pub(crate) fn take(&mut self, piece: &[u8])
        ensures { self.new ≡ after_piece self.old piece.now }
    {
        if self.ceased || self.left < piece.len() {
            self.ceased = true;
            return;
        }
        self.bytes.extend_from_slice(piece).unwrap();
        self.left -= piece.len();
    }

    // Gives up the bytes, and no room.
    pub(crate) fn empty(&mut self)
        ensures { self.new ≡ emptied self.old }
    {
        self.bytes.clear();
    }
}

impl Sink for SureSink {
    ghost use Rattle.std.specs.Prelude.{⊤};
    ghost use Rattle.tail_outside.specs.inside.Sure.{told_of, told_of-ceased};

    ghost shows = { λ s. record { told = told_of s; ceased = s.ceased; faults = 0 } };

    ghost beside = { λ a b. ⊤ };

    ghost ceased_tells_nothing = { told_of-ceased };

    ghost beside_same = { λ s. tt };

    ghost beside_chains = { λ a b c h k. tt };

    fn put(&mut self, piece: &[u8]) -> Result<(), Fault>
        ensures ok { IsOk result }
        ensures after { self.new ≡ after_piece self.old piece.now }
        ensures taken { self.new.ceased ≡ false → Adds (told_of self.old) (told_of self.new) piece.now }
        ensures ceases { self.new.ceased ≡ false → self.old.ceased ≡ false }
    {
        self.take(piece);
        Ok(())
    }
}
