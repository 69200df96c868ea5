//! A block of memory behind a raw pointer: values in front, and room behind them that nobody has written.
ghost use Rattle.std.specs.Prelude.{◌≡◌, ℕ, ◌+◌, ◌^◌, ◌<◌, ◌≤◌, ◌++◌, List, [], ◌∷◌, length, take, IfOk, ⊤};
ghost use Rattle.std.specs.Vec.Ownership.{FitsInBlock};
ghost use denote.RawPtr.{Ptr};

use std::alloc::{AllocError, Allocator};
use std::marker::{Model, PhantomData};
use std::mem::{align_of, size_of};
use std::slice;

/// Where a block begins. It owns nothing.
#[derive(Clone, Copy)]
pub(crate) struct Start<T> {
    at: *mut T,
}

/// The owner of a block, with the right to give it back. It takes no space: its keeper has the pointer and the counts.
pub(crate) struct Block<T, A: Allocator> {
    mark: PhantomData<*const (T, A)>,
    ghost at: { Ptr },
    ghost alloc: { A },
    ghost room: { ℕ },
    ghost values: { List T },
}

impl<T, A: Allocator> Model for Block<T, A> {
    ghost use Rattle.label_cells.specs.inside.Ownership.{block_owned, block_lent};

    ghost also_owns = { λ b. block_owned (A.dealloc_token b.alloc) T.row b.at b.room b.values };

    ghost also_shares = { λ b _ κ. block_lent T.row b.at b.room b.values κ };
}

impl<T, A: Allocator> Block<T, A> {
    ghost use Rattle.label_cells.specs.inside.Blocks.{IsBlock, Becomes};

    /// A block with room for so many values, of which none is written.
    pub(crate) fn claim(alloc: &A, room: usize) -> Result<(Start<T>, Block<T, A>), AllocError>
        requires { FitsInBlock T.row room }
        ensures { IfOk result (λ made. IsBlock made.0 alloc.now room [] made.1) }
    {
        match alloc.allocate(room * size_of::<T>(), align_of::<T>()) {
            Ok(bytes) => {
                let start = Start {
                    at: bytes as *mut T,
                };
                Ok((start, Block { mark: PhantomData }))
            }
            Err(error) => Err(error),
        }
    }

    /// Gives the block back. Its values are forgotten.
    pub(crate) fn give_back(self, alloc: &A, start: Start<T>, room: usize)
        requires block { IsBlock start alloc.now room self.values self }
        requires fit { length self.values ≤ room }
    {
        let Block { mark: _ } = self;
        unsafe {
            alloc.deallocate(start.at as *mut u8, room * size_of::<T>(), align_of::<T>());
        }
    }

    /// Writes a value behind the others, of which there are `len`.
    pub(crate) fn put(&mut self, start: Start<T>, len: usize, value: T)
        requires start { self.old.at ≡ start.at }
        requires count { length self.old.values ≡ len }
        requires room { len < self.old.room }
        ensures { Becomes self.old self.new (self.old.values ++ value ∷ []) }
    {
        unsafe { start.at.add(len).write(value) }
    }

    /// Writes a row behind the others, of which there are `len`.
    pub(crate) fn put_all(&mut self, start: Start<T>, len: usize, row: &[T])
    where
        T: Copy,
        requires start { self.old.at ≡ start.at }
        requires count { length self.old.values ≡ len }
        requires room { len + length row.now ≤ self.old.room }
        requires small { self.old.room < 2 ^ 64 }
        ensures { Becomes self.old self.new (self.old.values ++ row.now) }
    {
        for i in 0..row.len() {
            self.put(start, len + i, row[i]);
        }
    }

    /// The values, of which there are `len`.
    pub(crate) fn values(&self, start: Start<T>, len: usize) -> &[T]
        requires start { self.now.at ≡ start.at }
        requires count { length self.now.values ≡ len }
        requires room { len ≤ self.now.room }
        ensures { result.now ≡ self.now.values }
    {
        unsafe { slice::from_raw_parts(start.at, len) }
    }

    /// The first `n` values stay. The others are forgotten, and their places are room: no code runs.
    pub(crate) fn cut(&mut self, n: usize)
        requires count { n ≤ length self.old.values }
        requires room { length self.old.values ≤ self.old.room }
        ensures { Becomes self.old self.new (take n self.old.values) }
    {}
}
