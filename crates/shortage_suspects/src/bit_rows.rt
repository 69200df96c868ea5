//! Rows of bits, a bit for each number of a row, row behind row in one list of words. What is asked past the end is not there,
//! and what is put there is left out.

use std::alloc::Global;
use tail_book::Memory;

/// Rows of bits, all of one width.
#[derive(Drop)]
pub struct BitRows {
    width: usize,
    words: Vec<u64>,
}

impl BitRows {
    /// So many empty rows, for so many numbers each.
    pub fn new(alloc: Global, rows: usize, numbers: usize) -> Result<BitRows, Memory> {
        let width = numbers / 64 + 1;
        let words = vec![in alloc; 0u64; rows.saturating_mul(width)]?;
        Ok(BitRows { width, words })
    }

    /// How many words a row has.
    pub fn width(&self) -> usize {
        self.width
    }

    // Where a word of a row stands.
    fn place(&self, row: usize, i: usize) -> usize {
        row.saturating_mul(self.width).saturating_add(i)
    }

    /// A word of a row: its numbers from 64 times `i` on.
    pub fn word(&self, row: usize, i: usize) -> u64 {
        self.words.get(self.place(row, i)).copied().unwrap_or(0)
    }

    /// Whether a row has a number.
    pub fn has(&self, row: usize, number: usize) -> bool {
        self.word(row, number / 64) >> (number % 64) & 1 == 1
    }

    /// Puts the bits of a word into a row.
    pub fn put_word(&mut self, row: usize, i: usize, bits: u64) {
        let place = self.place(row, i);
        if let Some(word) = self.words.get_mut(place) {
            *word |= bits;
        }
    }

    /// Puts a number into a row.
    pub fn put(&mut self, row: usize, number: usize) {
        self.put_word(row, number / 64, 1u64 << (number % 64));
    }

    /// Puts all numbers of a row of other rows into a row.
    pub fn put_row(&mut self, row: usize, other: &BitRows, from: usize) {
        for i in 0..self.width {
            self.put_word(row, i, other.word(from, i));
        }
    }

    /// Puts all numbers of one of these rows into another one.
    pub fn join(&mut self, row: usize, from: usize) {
        for i in 0..self.width {
            let bits = self.word(from, i);
            self.put_word(row, i, bits);
        }
    }

    /// Whether two rows have a number in common.
    pub fn meet(&self, one: usize, other: usize) -> bool {
        for i in 0..self.width {
            if self.word(one, i) & self.word(other, i) != 0 {
                return true;
            }
        }
        false
    }

    /// Whether a row has no number.
    pub fn is_empty(&self, row: usize) -> bool {
        !self.meet(row, row)
    }

    /// Whether each number of a row is in a row of other rows.
    pub fn is_within(&self, row: usize, other: &BitRows, of: usize) -> bool {
        for i in 0..self.width {
            if self.word(row, i) & !other.word(of, i) != 0 {
                return false;
            }
        }
        true
    }

    /// Whether two rows have the same numbers.
    pub fn is_same(&self, one: usize, other: usize) -> bool {
        self.is_within(one, self, other) && self.is_within(other, self, one)
    }

    /// The words of a row.
    pub fn copy_of_row(&self, alloc: Global, row: usize) -> Result<Vec<u64>, Memory> {
        let mut words = Vec::new(alloc);
        for i in 0..self.width {
            words.push(self.word(row, i))?;
        }
        Ok(words)
    }

    /// Empties a row.
    pub fn clear_row(&mut self, row: usize) {
        for i in 0..self.width {
            let place = self.place(row, i);
            if let Some(word) = self.words.get_mut(place) {
                *word = 0;
            }
        }
    }

    /// Empties all rows.
    pub fn clear(&mut self) {
        for i in 0..self.words.len() {
            self.words[i] = 0;
        }
    }
}
