//! Rows in chunks for which memory may run out, beside a plain list of rows. The test here holds where any one allocation
//! fails, and where none does; `tests/each_allocation` runs it with each of them failing in turn.

use super::{has_row, put, rewind};
use label_cells::Cells;
use std::process::{Abort, ExitCode, Termination};
use std::test::Fail;
use tail_book::Memory;

// Whether the rows are these.
fn has_rows(cells: &Cells, rows: &[[i64; 2]]) -> bool {
    for (i, row) in rows.iter().enumerate() {
        if !has_row(cells, i, row.as_slice()) {
            return false;
        }
    }
    cells.len() == rows.len()
}

// Room for so many rows more. Where memory is wanting, rows and room are as before, and it is asked for again: nothing where
// they are not.
fn reserve_again(cells: &mut Cells, rows: &[[i64; 2]], n: usize) -> Result<bool, Memory> {
    let spare = cells.spare();
    if cells.reserve(n).is_ok() {
        return Ok(cells.spare() >= n);
    }
    if !has_rows(cells, rows) || cells.spare() != spare {
        return Ok(false);
    }
    cells.reserve(n)?;
    Ok(cells.spare() >= n)
}

// Puts a row to both. Whether it has the next number.
fn put_to_both(cells: &mut Cells, rows: &mut Vec<[i64; 2]>, row: [i64; 2]) -> Result<bool, Memory> {
    let count = rows.len();
    rows.push(row)?;
    Ok(put(cells, row.as_slice()) == Some(count))
}

// Puts so many rows to both.
fn put_all(cells: &mut Cells, rows: &mut Vec<[i64; 2]>, n: u16) -> Result<bool, Memory> {
    for value in 0..n {
        if !put_to_both(cells, rows, [value as i64, n as i64])? {
            return Ok(false);
        }
    }
    Ok(has_rows(cells, rows))
}

// How many rows are asked for and put, and how many are then kept.
const TURNS: &[(u16, usize)] = &[
    (1, 1),
    (1023, 1024),
    (3000, 2048),
    (1, 2049),
    (1500, 700),
    (0, 0),
    (2500, 0),
];

// The number of the first turn that goes wrong.
fn first_wrong(cells: &mut Cells, rows: &mut Vec<[i64; 2]>) -> Result<Option<usize>, Memory> {
    for (number, turn) in TURNS.iter().enumerate() {
        let &(n, kept) = turn;
        if !reserve_again(cells, rows, n as usize)? || !put_all(cells, rows, n)? {
            return Ok(Some(number));
        }
        rows.truncate(kept);
        if !rewind(cells, kept) || !has_rows(cells, rows) {
            return Ok(Some(number));
        }
    }
    Ok(None)
}

#[test]
fn rows_stay_where_memory_is_wanting(rt: HostRuntime) -> Result<(), Fail> {
    let mut cells = Cells::new(rt.alloc(), 2)?;
    let mut rows = Vec::new(rt.alloc());
    if let Ok(wrong) = first_wrong(&mut cells, &mut rows) {
        assert!(rt; wrong.is_none(), "turn {wrong:?}");
    }
    Ok(())
}
