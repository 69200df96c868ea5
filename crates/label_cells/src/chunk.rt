//! One block with room for so many values, of which the first ones are written.
ghost use Rattle.std.specs.Prelude.{◌≡◌, ◌+◌, ◌<◌, ◌≤◌, ◌++◌, [], ◌∷◌, length, take, IfOk};

use crate::block::{Block, Start};
use std::alloc::Global;
use std::marker::Model;
use std_alloc::room::may_hold;
use tail_book::Memory;

/// One block with room for so many values, of which the first ones are written. It never moves. Contracts see its
/// values and its room.
pub(crate) struct Chunk {
    start: Start<i64>,
    len: usize,
    room: usize,
    block: Block<i64, Global>,
    alloc: Global,
}

impl Model for Chunk {
    ghost use Rattle.label_cells.specs.inside.Blocks.{IsChunk};
    ghost use Rattle.label_cells.specs.Seen.{ChunkSeen};

    ghost Value = { ChunkSeen };

    ghost view = { λ c. record { values = c.block.values; room = c.room } };

    ghost invariant = { λ c. IsChunk c.start c.alloc c.room c.len c.block };
}

impl Drop for Chunk {
    fn drop(self) {
        self.give_back();
    }
}

impl Chunk {
    /// A chunk in which nothing is written, if there is memory for so many values.
    pub(crate) fn claim(alloc: Global, room: usize) -> Result<Chunk, Memory>
        requires { 1 ≤ room }
        ensures { IfOk result (λ chunk. chunk ≡ record { values = []; room = room }) }
    {
        if !may_hold::<i64>(room) {
            return Err(Memory);
        }
        let (start, block) = Block::claim(&alloc, room)?;
        Ok(Chunk {
            start,
            len: 0,
            room,
            block,
            alloc,
        })
    }

    fn give_back(self) {
        let Chunk {
            start,
            len: _,
            room,
            block,
            alloc,
        } = self;
        block.give_back(&alloc, start, room);
    }

    /// Writes a row behind the others.
    pub(crate) fn put_all(&mut self, row: &[i64])
        requires { length self.old.values + length row.now ≤ self.old.room }
        ensures { self.new ≡ record { values = self.old.values ++ row.now; room = self.old.room } }
    {
        self.block.put_all(self.start, self.len, row);
        self.len += row.len();
    }

    /// The values that are written.
    pub(crate) fn values(&self) -> &[i64]
        ensures { result.now ≡ self.now.values }
    {
        self.block.values(self.start, self.len)
    }

    /// The first `n` values stay.
    pub(crate) fn cut(&mut self, n: usize)
        requires { n ≤ length self.old.values }
        ensures { self.new ≡ record { values = take n self.old.values; room = self.old.room } }
    {
        self.block.cut(n);
        self.len = n;
    }
}
