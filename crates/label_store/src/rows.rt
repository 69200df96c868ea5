//! Rows of one width, each with the row that it came from and its node.
//!
//! The values stand in chunks that never move, so that nothing is copied where there are more of them. A push asks for all
//! its growths first: where one is refused, nothing has changed.

ghost use Rattle.std.specs.Prelude.{◌≡◌, ◌<◌, ◌+◌, ◌*◌, ◌≤◌, ◌++◌, [], ◌∷◌, None, length, IfOk, OnErr, slice_index_or, vec_len, vec_capacity};
ghost use Rattle.label_store.specs.Buckets.{row_at};
ghost use Rattle.label_store.specs.inside.RowsParts.{rows_with};

use label_cells::Cells;
use std::alloc::Global;
use std::marker::Model;
use tail_book::Memory;

/// Rows of at least one value each. Contracts see the record of their lists.
#[derive(Drop)]
pub struct Rows {
    cells: Cells,
    parents: Vec<Option<u32>>,
    nodes: Vec<u32>,
}

impl Model for Rows {
    ghost use Rattle.label_store.specs.Seen.{RowsSeen};
    ghost use Rattle.label_store.specs.inside.RowsParts.{rows_seen};

    ghost Value = { RowsSeen };

    ghost view = { rows_seen };
}

impl Rows {
    /// No rows, of this width.
    pub fn new(alloc: Global, width: usize) -> Result<Rows, Memory>
        requires { 1 ≤ width }
        ensures { IfOk result (λ rows. rows ≡ record { width = width; rows = []; parents = []; nodes = [] }) }
    {
        Ok(Rows {
            cells: Cells::new(alloc, width)?,
            parents: Vec::new(alloc),
            nodes: Vec::new(alloc),
        })
    }

    /// How many values a row has.
    pub fn width(&self) -> usize
        ensures { result ≡ self.now.width }
    {
        self.cells.width()
    }

    /// How many rows there are.
    pub fn len(&self) -> usize
        ensures { result ≡ length self.now.rows }
    {
        self.cells.len()
    }

    /// The values of a row.
    pub fn row(&self, i: usize) -> &[i64]
        requires { i < length self.now.rows }
        ensures values { result.now ≡ row_at self.now.rows i }
        ensures width { length result.now ≡ self.now.width }
    {
        self.cells.row(i)
    }

    /// The row that a row came from.
    pub fn parent(&self, i: usize) -> Option<u32>
        requires { i < length self.now.parents }
        ensures { result ≡ slice_index_or self.now.parents i None }
    {
        self.parents[i]
    }

    /// The node of a row.
    pub fn node(&self, i: usize) -> u32
        requires { i < length self.now.nodes }
        ensures { result ≡ slice_index_or self.now.nodes i 0 }
    {
        self.nodes[i]
    }

    /// Adds a row behind the others.
    pub fn push(&mut self, node: u32, parent: Option<u32>, row: &[i64]) -> Result<(), Memory>
        requires { length row.now ≡ self.old.width }
        ensures added { IfOk result (λ _. self.new ≡ rows_with self.old node parent row.now) }
        ensures memory { OnErr result (self.new ≡ self.old) }
    {
        self.cells.reserve(1)?;
        self.parents.reserve(1)?;
        self.nodes.reserve(1)?;
        let _number = self.cells.push(row);
        put(&mut self.parents, parent);
        put(&mut self.nodes, node);
        Ok(())
    }

    /// Lets all rows go, and keeps their room.
    pub fn clear(&mut self)
        ensures { self.new ≡ record { width = self.old.width; rows = []; parents = []; nodes = [] } }
    {
        self.cells.rewind(0);
        self.parents.clear();
        self.nodes.clear();
    }
}

/// Where a row begins, of so many.
pub fn place(i: usize, width: usize, count: usize, values: &[i64]) -> usize
    requires number { i < count }
    requires fill { length values.now ≡ count * width }
    ensures place { result ≡ i * width }
    ensures inside { result + width ≤ length values.now }
{
    i * width
}

/// Puts values behind others, for which there is room.
pub fn put_all(values: &mut Vec<i64>, row: &[i64])
    requires { vec_len values.old + length row.now ≤ vec_capacity values.old }
    ensures { values.new.items ≡ values.old.items ++ row.now }
{
    let _ = values.extend_from_slice(row);
}

/// Puts one behind others, for which there is room.
pub fn put<T: Drop>(list: &mut Vec<T>, one: T)
    requires { vec_len list.old < vec_capacity list.old }
    ensures { list.new.items ≡ list.old.items ++ one ∷ [] }
{
    let _ = list.push(one);
}
