//! What connections at the airport of a quota are worth to an assignment: those that use the quota have a price, and each has its share,
//! which is taken off. Shares stand in one flat table, by the activity that comes and by what stands directly before it.

use quota_rows::Quota;
use std::alloc::Global;
use tail_book::{Book, Memory};

// No row and no column.
const NONE: u32 = u32::MAX;

/// What the connections at a quota's airport are worth.
#[derive(Drop)]
pub struct Worth {
    /// The price of a connection that uses the quota.
    pub price: i64,
    // the row of each activity that starts at the airport
    rows: Vec<u32>,
    // the column of what may stand before it: of each activity that ends there, and behind these of each aircraft that is there first
    columns: Vec<u32>,
    width: usize,
    shares: Vec<i64>,
}

// Numbers a thing with the next number, if it is one of those that are counted.
fn put_number(numbers: &mut Vec<u32>, is_counted: bool, count: usize) -> Result<usize, Memory> {
    if !is_counted {
        numbers.push(NONE)?;
        return Ok(count);
    }
    numbers.push(u32::try_from(count).unwrap_or(NONE))?;
    Ok(count.saturating_add(1))
}

impl Worth {
    /// No shares, and a price of 1.
    pub fn plain(alloc: Global) -> Worth {
        Worth {
            price: 1,
            rows: Vec::new(alloc),
            columns: Vec::new(alloc),
            width: 0,
            shares: Vec::new(alloc),
        }
    }

    /// No price and no shares yet, with room for those of a quota's airport.
    pub fn new(alloc: Global, book: &Book, quota: &Quota) -> Result<Worth, Memory> {
        let mut worth = Worth::plain(alloc);
        let mut count = 0;
        for activity in book.activities.iter() {
            count = put_number(&mut worth.rows, activity.from == quota.airport, count)?;
            let is_before = activity.to == quota.airport;
            worth.width = put_number(&mut worth.columns, is_before, worth.width)?;
        }
        for tail in book.tails.iter() {
            worth.width = put_number(&mut worth.columns, tail.at == quota.airport, worth.width)?;
        }
        worth.price = 0;
        worth.shares.resize(count.saturating_mul(worth.width), 0)?;
        Ok(worth)
    }

    // Where the share of an activity that comes behind a column stands.
    fn place(&self, b: u32, column: usize) -> Option<usize> {
        let row = *self.rows.get(b as usize)?;
        let column = *self.columns.get(column)?;
        if row == NONE || column == NONE {
            return None;
        }
        Some(
            (row as usize)
                .saturating_mul(self.width)
                .saturating_add(column as usize),
        )
    }

    /// Adds to the share of an activity behind a column: an activity, or behind all of these an aircraft.
    pub fn add(&mut self, b: u32, column: usize, share: i64) {
        if let Some(place) = self.place(b, column) {
            if let Some(sum) = self.shares.get_mut(place) {
                *sum = sum.saturating_add(share);
            }
        }
    }

    /// The share of an activity behind a column.
    pub fn of(&self, b: u32, column: usize) -> i64 {
        match self.place(b, column) {
            Some(place) => self.shares.get(place).copied().unwrap_or(0),
            None => 0,
        }
    }
}
