//! The floors of one aircraft: for each activity the least values with which it can come there, or none.
//!
//! All values stand in one list, a row for each activity, with a flag beside it that says whether there is a floor: at
//! most 4,000 rows of six values. A floor is lowered in place, and nothing is allocated once the lists are made.

ghost use Rattle.std.specs.Prelude.{◌≡◌, ◌≢◌, ◌<◌, ◌≤◌, ◌+◌, ◌*◌, ◌++◌, IsTrue, IfOk, Option, None, Some, is_some, false, if◌then◌else◌, length, replicate, slice_index_or, slice_set, take, drop};
ghost use Rattle.branch_marks.specs.Floors.{lesser};
ghost use Rattle.maint_counters.specs.inside.Counts.{AreCounts};
ghost use Rattle.floor_rows.specs.inside.FloorRow.{kept_floors, lowered_at, lowered_from, IsFloorRow};

use std::alloc::Global;
use std::marker::Model;
use tail_book::Memory;

/// The floors of one aircraft. Contracts see how many values a floor has, and a list of floors.
#[derive(Debug, Drop)]
pub struct FloorRow {
    width: usize,
    known: Vec<bool>,
    values: Vec<i64>,
}

impl Model for FloorRow {
    ghost use Rattle.floor_rows.specs.inside.FloorRow.{FloorRowSeen, kept_floors, IsFloorRow};

    ghost Value = { FloorRowSeen };

    ghost view = { λ r. record { width = r.width; floors = kept_floors r.width r.known.items r.values.items } };

    ghost invariant = { λ r. IsFloorRow r.width r.known.items r.values.items };
}

// Writes a row over the values from a place on.
fn write(values: &mut [i64], from: usize, row: &[i64])
    requires { from + length row.now ≤ length values.old }
    ensures { values.new ≡ take from values.old ++ row.now ++ drop (from + length row.now) values.old }
{
    let part = &mut values[from..from + row.len()];
    part.copy_from_slice(row);
}

// Puts the lesser of each two values in the place of the first.
fn lower_each(part: &mut [i64], row: &[i64])
    requires { length part.old ≡ length row.now }
    ensures { part.new ≡ lesser part.old row.now }
{
    for c in 0..row.len() {
        part[c] = part[c].min(row[c]);
    }
}

// Lowers the values from a place on to those of a row, where these are less.
fn lower(values: &mut [i64], from: usize, row: &[i64])
    requires { from + length row.now ≤ length values.old }
    ensures { values.new ≡ lowered_from from row.now values.old }
{
    let part = &mut values[from..from + row.len()];
    lower_each(part, row);
}

// Copies the floor of a number, and answers whether there is one.
fn read_row(width: usize, known: &[bool], values: &[i64], x: usize, into: &mut [i64]) -> bool
    requires row { IsFloorRow width known.now values.now }
    requires place { x < length known.now }
    requires width { length into.old ≡ width }
    ensures value { slice_index_or (kept_floors width known.now values.now) x None ≡ (if result then Some into.new else None) }
    ensures range { IsTrue result → AreCounts into.new }
{
    if !known[x] {
        return false;
    }
    let from = x * width;
    into.copy_from_slice(&values[from..from + width]);
    true
}

// Whether the floor of a number has these values.
fn is_row(width: usize, known: &[bool], values: &[i64], x: usize, row: &[i64]) -> bool
    requires row { IsFloorRow width known.now values.now }
    requires place { x < length known.now }
    requires width { length row.now ≡ width }
    ensures same { IsTrue result → slice_index_or (kept_floors width known.now values.now) x None ≡ Some row.now }
    ensures other { result ≡ false → slice_index_or (kept_floors width known.now values.now) x None ≢ Some row.now }
{
    if !known[x] {
        return false;
    }
    let from = x * width;
    &values[from..from + width] == row
}

// Lowers the floor of a number to these values, or makes them its floor.
fn lower_row(width: usize, known: &mut [bool], values: &mut [i64], b: usize, row: &[i64])
    requires row { IsFloorRow width known.old values.old }
    requires place { b < length known.old }
    requires width { length row.now ≡ width }
    requires range { AreCounts row.now }
    ensures row { IsFloorRow width known.new values.new }
    ensures value { kept_floors width known.new values.new ≡ lowered_at b row.now (kept_floors width known.old values.old) }
{
    let from = b * width;
    if known[b] {
        lower(values, from, row);
    } else {
        write(values, from, row);
    }
    known[b] = true;
}

// Takes the floor of a number away.
fn clear_row(width: usize, known: &mut [bool], values: &[i64], b: usize)
    requires row { IsFloorRow width known.old values.now }
    requires place { b < length known.old }
    ensures row { IsFloorRow width known.new values.now }
    ensures value { kept_floors width known.new values.now ≡ slice_set (kept_floors width known.old values.now) b None }
{
    known[b] = false;
}

// Flags of which none is set.
fn no_flags(alloc: Global, count: usize) -> Result<Vec<bool>, Memory>
    ensures { IfOk result (λ flags. flags.items ≡ replicate count false) }
{
    Ok(vec![in alloc; false; count]?)
}

// So many values, of which none is read before it is written.
fn no_values(alloc: Global, count: usize) -> Result<Vec<i64>, Memory>
    ensures { IfOk result (λ values. length values.items ≡ count) }
{
    Ok(vec![in alloc; 0; count]?)
}

impl FloorRow {
    /// No floor for any of so many activities, in rows of so many values.
    pub fn new(alloc: Global, count: usize, width: usize) -> Result<FloorRow, Memory>
        requires count { count ≤ 4096 }
        requires width { width ≤ 6 }
        ensures width { IfOk result (λ row. row.width ≡ width) }
        ensures floors { IfOk result (λ row. row.floors ≡ replicate count None) }
    {
        let known = no_flags(alloc, count)?;
        let values = no_values(alloc, count * width)?;
        Ok(FloorRow {
            width,
            known,
            values,
        })
    }

    /// Whether there is a floor at an activity.
    pub fn has(&self, x: usize) -> bool
        requires { x < length self.now.floors }
        ensures { result ≡ is_some (slice_index_or self.now.floors x None) }
    {
        self.known[x]
    }

    /// Copies the floor at an activity, and answers whether there is one.
    pub fn read(&self, x: usize, into: &mut [i64]) -> bool
        requires place { x < length self.now.floors }
        requires width { length into.old ≡ self.now.width }
        ensures value { slice_index_or self.now.floors x None ≡ (if result then Some into.new else None) }
        ensures range { IsTrue result → AreCounts into.new }
    {
        read_row(self.width, &self.known, &self.values, x, into)
    }

    /// Whether the floor at an activity has these values.
    pub fn is(&self, x: usize, values: &[i64]) -> bool
        requires place { x < length self.now.floors }
        requires width { length values.now ≡ self.now.width }
        ensures same { IsTrue result → slice_index_or self.now.floors x None ≡ Some values.now }
        ensures other { result ≡ false → slice_index_or self.now.floors x None ≢ Some values.now }
    {
        is_row(self.width, &self.known, &self.values, x, values)
    }

    /// Takes the floor at an activity away.
    pub fn clear(&mut self, b: usize)
        requires { b < length self.old.floors }
        ensures { self.new ≡ record self.old { floors = slice_set self.old.floors b None } }
    {
        clear_row(self.width, &mut self.known, &self.values, b);
    }

    /// Lowers the floor at an activity to these values, where they are less, or makes them its floor.
    pub fn lower(&mut self, b: usize, row: &[i64])
        requires place { b < length self.old.floors }
        requires width { length row.now ≡ self.old.width }
        requires range { AreCounts row.now }
        ensures { self.new ≡ record self.old { floors = lowered_at b row.now self.old.floors } }
    {
        lower_row(self.width, &mut self.known, &mut self.values, b, row);
    }
}
