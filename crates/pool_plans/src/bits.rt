//! Sets of numbers as bits, row behind row in one list of words.
//!
//! A word has 64 numbers of a row, so what rows share is counted or searched 64 numbers at a time. What is asked past
//! the end is not there, and what is put there is left out.

use std::alloc::Global;
use tail_book::Memory;

/// Rows of bits, all of one width.
#[derive(Drop)]
pub struct Bits {
    width: usize,
    words: Vec<u64>,
}

impl Bits {
    /// So many empty rows, for so many numbers each.
    pub fn new(alloc: Global, rows: usize, numbers: usize) -> Result<Bits, Memory> {
        let width = numbers / 64 + 1;
        let words = vec![in alloc; 0u64; rows.saturating_mul(width)]?;
        Ok(Bits { width, words })
    }

    // Where a row begins and ends.
    fn span(&self, row: usize) -> (usize, usize) {
        let start = row.saturating_mul(self.width);
        (start, start.saturating_add(self.width))
    }

    /// The words of a row.
    pub fn row(&self, row: usize) -> &[u64] {
        let (start, end) = self.span(row);
        if start <= end && end <= self.words.len() {
            &self.words[start..end]
        } else {
            &[]
        }
    }

    /// Puts a number into a row.
    pub fn put(&mut self, row: usize, number: usize) {
        let (start, _) = self.span(row);
        if let Some(word) = self.words.get_mut(start.saturating_add(number / 64)) {
            *word |= 1u64 << (number % 64);
        }
    }

    /// Puts all numbers of words into a row.
    pub fn put_all(&mut self, row: usize, words: &[u64]) {
        let (start, _) = self.span(row);
        for i in 0..words.len().min(self.width) {
            if let Some(word) = self.words.get_mut(start.saturating_add(i)) {
                *word |= words[i];
            }
        }
    }

    /// Writes into a row the numbers of the row before it that are not among words.
    pub fn keep_after(&mut self, row: usize, words: &[u64]) {
        let (start, _) = self.span(row);
        for i in 0..words.len().min(self.width) {
            let place = start.saturating_add(i);
            let before = self
                .words
                .get(place.saturating_sub(self.width))
                .copied()
                .unwrap_or(0);
            if let Some(word) = self.words.get_mut(place) {
                *word = before & !words[i];
            }
        }
    }

    /// Writes into a row the numbers of the row before it, and those of words.
    pub fn join_after(&mut self, row: usize, words: &[u64]) {
        let (start, _) = self.span(row);
        for i in 0..words.len().min(self.width) {
            let place = start.saturating_add(i);
            let before = self
                .words
                .get(place.saturating_sub(self.width))
                .copied()
                .unwrap_or(0);
            if let Some(word) = self.words.get_mut(place) {
                *word = before | words[i];
            }
        }
    }
}

/// Whether a number is among words.
pub fn has(words: &[u64], number: usize) -> bool {
    words
        .get(number / 64)
        .is_some_and(|word| word >> (number % 64) & 1 == 1)
}

/// How many numbers two lists of words share.
pub fn shared(one: &[u64], other: &[u64]) -> u32 {
    let mut count = 0u32;
    for i in 0..one.len().min(other.len()) {
        count = count.saturating_add((one[i] & other[i]).count_ones());
    }
    count
}

/// The least number from one on that two lists of words share.
pub fn next_shared(one: &[u64], other: &[u64], from: usize) -> Option<usize> {
    let first = from / 64;
    for i in first..one.len().min(other.len()) {
        let mut word = one[i] & other[i];
        if i == first {
            word &= u64::MAX << (from % 64);
        }
        if word != 0 {
            return Some(
                i.saturating_mul(64)
                    .saturating_add(word.trailing_zeros() as usize),
            );
        }
    }
    None
}
