//! A trail of facts, in the order in which they came: facts come at its end, and it is cut back to a front of it.
//!
//! A fact is a row of three numbers: its kind, and the two numbers in it. The rows stand in chunks that never move.

ghost use Rattle.std.specs.Prelude.{◌≡◌, ◌<◌, ◌≤◌, ◌++◌, ◌∷◌, [], All, IfOk, OnErr, length, pos, slice_index_or, take};
ghost use Rattle.branch_marks.specs.inside.TrailRows.{row_of, fact_of, IsNumber};

use crate::Fact;
use label_cells::Cells;
use std::alloc::Global;
use std::marker::Model;
use tail_book::Memory;

/// Facts, one behind the other. Contracts see the list of them.
#[derive(Drop)]
pub struct Trail {
    alloc: Global,
    cells: Cells,
}

impl Model for Trail {
    ghost use Rattle.std.specs.Prelude.{List, map};
    ghost use Rattle.branch_marks.specs.declared.fact.Fact.{Fact};
    ghost use Rattle.branch_marks.specs.inside.TrailRows.{fact_of, AreFactRows};

    ghost Value = { List Fact };

    ghost view = { λ trail. map fact_of trail.cells.rows };

    ghost invariant = { λ trail. AreFactRows trail.cells };
}

impl Trail {
    /// No fact.
    pub fn new(alloc: Global) -> Result<Trail, Memory>
        ensures { IfOk result (λ trail. trail ≡ []) }
    {
        let cells = Cells::new(alloc, 3)?;
        Ok(Trail { alloc, cells })
    }

    /// How many facts there are.
    pub fn len(&self) -> usize
        ensures { result ≡ length self.now }
    {
        self.cells.len()
    }

    /// The fact at a place.
    pub fn at(&self, i: usize) -> Fact
        requires { i < length self.now }
        ensures { result ≡ slice_index_or self.now i result }
    {
        fact_in(self.cells.row(i))
    }

    /// Adds a fact at the end.
    pub fn push(&mut self, fact: Fact) -> Result<(), Memory>
        ensures ok { IfOk result (λ _. self.new ≡ self.old ++ fact ∷ []) }
        ensures memory { OnErr result (self.new ≡ self.old) }
    {
        self.cells.reserve(1)?;
        let row = numbers_of(fact);
        let _number = self.cells.push(row.as_slice());
        Ok(())
    }

    /// Takes away all facts but the first so many.
    pub fn cut(&mut self, count: usize)
        requires { count ≤ length self.old }
        ensures { self.new ≡ take count self.old }
    {
        self.cells.rewind(count);
    }

    /// The same facts, which then go their own way.
    pub fn copy(&self) -> Result<Trail, Memory>
        ensures { IfOk result (λ trail. trail ≡ self.now) }
    {
        let mut trail = Trail::new(self.alloc)?;
        for i in 0..self.len() {
            trail.push(self.at(i))?;
        }
        Ok(trail)
    }
}

// The row of a fact.
fn numbers_of(fact: Fact) -> [i64; 3]
    ensures row { result ≡ row_of fact }
    ensures numbers { All IsNumber result }
{
    match fact {
        Fact::Bar(k, a) => row_with(0, k, a),
        Fact::Must(k, a) => row_with(1, k, a),
        Fact::Cut(a, b) => row_with(2, a, b),
        Fact::Tie(a, b) => row_with(3, a, b),
    }
}

// A kind and two numbers.
fn row_with(kind: u32, one: u32, other: u32) -> [i64; 3]
    ensures row { result ≡ pos kind ∷ pos one ∷ pos other ∷ [] }
    ensures numbers { All IsNumber result }
{
    [kind as i64, one as i64, other as i64]
}

// The fact of a row.
fn fact_in(row: &[i64]) -> Fact
    requires long { length row.now ≡ 3 }
    requires numbers { All IsNumber row.now }
    ensures { result ≡ fact_of row.now }
{
    let (one, other) = (row[1] as u32, row[2] as u32);
    match row[0] {
        0 => Fact::Bar(one, other),
        1 => Fact::Must(one, other),
        2 => Fact::Cut(one, other),
        _ => Fact::Tie(one, other),
    }
}
