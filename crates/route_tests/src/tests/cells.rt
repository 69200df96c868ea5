//! Rows in chunks: by hand, beside a plain list of rows, and given back where they are dropped.

use label_cells::Cells;
use std::alloc::Global;
use std::test::Fail;
use tail_book::Memory;

mod memory;

// Puts a row for which there is room, and gives its number; nothing where it is not as wide or there is none.
fn put(cells: &mut Cells, row: &[i64]) -> Option<usize> {
    if cells.spare() < 1 || row.len() != cells.width() {
        return None;
    }
    Some(cells.push(row))
}

// Whether a row has these values.
fn has_row(cells: &Cells, i: usize, row: &[i64]) -> bool {
    i < cells.len() && cells.row(i) == row
}

// Keeps the first rows. Whether there were as many.
fn rewind(cells: &mut Cells, n: usize) -> bool {
    if n > cells.len() {
        return false;
    }
    cells.rewind(n);
    true
}

// Puts rows of three equal values, from the next number on, until there are so many.
fn fill(cells: &mut Cells, count: usize) -> bool {
    for i in cells.len()..count.min(1 << 20) {
        let value = i as i64;
        if put(cells, &[value, value, value]) != Some(i) {
            return false;
        }
    }
    true
}

// Whether there are this many rows, and room for as many more at least.
fn counts(cells: &Cells, count: usize, spare: usize) -> bool {
    cells.len() == count && cells.spare() >= spare
}

#[test]
fn two_thousand_rows_and_back_to_five(rt: HostRuntime) -> Result<(), Fail> {
    let mut cells = Cells::new(rt.alloc(), 3)?;
    assert!(rt; counts(&cells, 0, 0));
    cells.reserve(2000)?;
    assert!(rt; counts(&cells, 0, 2000));
    assert!(rt; fill(&mut cells, 2000) && has_row(&cells, 1999, &[1999, 1999, 1999]));
    assert!(rt; rewind(&mut cells, 5) && counts(&cells, 5, 1995));
    assert!(rt; has_row(&cells, 4, &[4, 4, 4]));
    assert!(rt; put(&mut cells, &[9, 8, 7]) == Some(5) && has_row(&cells, 5, &[9, 8, 7]));
    assert!(rt; rewind(&mut cells, 0) && counts(&cells, 0, 2000));
    Ok(())
}

#[test]
fn two_rows_and_back_to_one(rt: HostRuntime) -> Result<(), Fail> {
    let mut cells = Cells::new(rt.alloc(), 2)?;
    cells.reserve(3)?;
    assert!(rt; put(&mut cells, &[5, 1]) == Some(0) && put(&mut cells, &[4, 2]) == Some(1));
    assert!(rt; rewind(&mut cells, 1) && counts(&cells, 1, 2) && has_row(&cells, 0, &[5, 1]));
    Ok(())
}

// Fills a chunk of rows of seven values, and drops it.
fn fill_and_drop(alloc: Global, value: i64) -> Result<bool, Memory> {
    let mut cells = Cells::new(alloc, 7)?;
    cells.reserve(1024)?;
    let row = [value; 7];
    for i in 0..1024 {
        if put(&mut cells, &row) != Some(i) {
            return Ok(false);
        }
    }
    Ok(has_row(&cells, 1023, &row))
}

// 11 GB pass through here, so this ends only where each drop gives its memory back.
#[test]
fn two_hundred_thousand_are_dropped(rt: HostRuntime) -> Result<(), Fail> {
    for value in 0..200_000 {
        let filled = fill_and_drop(rt.alloc(), value)?;
        assert!(rt; filled, "{value}");
    }
    Ok(())
}
