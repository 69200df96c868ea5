//! Compressed rows: lists of numbers, one behind the other in one list, with a list of where each starts.
//!
//! A number takes 4 bytes, a row 8 more, and a row is two reads away. Rows are made one after the other.

ghost use Rattle.std.specs.Prelude.{◌≡◌, ◌<◌, ◌+◌, ◌++◌, ◌∷◌, [], List, IfOk, length, slice_index_or, if◌then◌else◌};
ghost use Rattle.connection_net.specs.inside.Rows.{AreStarts, row_at};

use std::alloc::Global;
use std::marker::Model;
use tail_book::Memory;

/// Rows of numbers. Contracts see a list of lists.
#[derive(Debug, Drop)]
pub struct Rows {
    // Row `i` has the numbers from `starts[i]` up to `starts[i + 1]`.
    starts: Vec<usize>,
    numbers: Vec<u32>,
}

impl Model for Rows {
    ghost use Rattle.std.specs.Prelude.{ℕ, List};
    ghost use Rattle.connection_net.specs.inside.Rows.{AreStarts, rows_of};

    ghost Value = { List (List ℕ) };

    ghost view = { λ r. rows_of r.starts.items r.numbers.items };

    ghost invariant = { λ r. AreStarts r.starts.items r.numbers.items };
}

/// Adds a number to a row that is being made, where a test holds.
pub fn push_where(row: &mut Vec<u32>, holds: bool, number: u32) -> Result<(), Memory>
    ensures { IfOk result (λ _. row.new.items ≡ row.old.items ++ (if holds then number ∷ [] else [])) }
{
    if holds {
        row.push(number)?;
    }
    Ok(())
}

// The numbers from where a row starts up to where the next one does.
fn part<'a>(starts: &[usize], numbers: &'a [u32], i: usize) -> &'a [u32]
    requires starts { AreStarts starts.now numbers.now }
    requires row { i + 1 < length starts.now }
    ensures { result.now ≡ row_at starts.now numbers.now i }
{
    let (from, to) = (starts[i], starts[i + 1]);
    &numbers[from..to]
}

impl Rows {
    /// No rows.
    pub fn new(alloc: Global) -> Result<Rows, Memory>
        ensures { IfOk result (λ rows. rows ≡ []) }
    {
        let mut starts = Vec::new(alloc);
        starts.push(0)?;
        Ok(Rows {
            starts,
            numbers: Vec::new(alloc),
        })
    }

    /// Adds a row behind the others.
    // What an earlier call without memory left behind the last row is dropped first.
    pub fn push(&mut self, row: &[u32]) -> Result<(), Memory>
        ensures { IfOk result (λ _. self.new ≡ self.old ++ row.now ∷ []) }
    {
        let end = self.starts[self.starts.len() - 1];
        self.numbers.truncate(end);
        self.numbers.extend_from_slice(row)?;
        self.starts.push(end + row.len())?;
        Ok(())
    }

    /// The numbers of a row.
    pub fn row(&self, i: usize) -> &[u32]
        requires { i < length self.now }
        ensures { result.now ≡ slice_index_or self.now i [] }
    {
        part(&self.starts, &self.numbers, i)
    }
}
