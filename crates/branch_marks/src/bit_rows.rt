//! Sets of pairs of a row and a column, a bit for each pair.
//!
//! The bits of all rows stand in words of 64, row behind row. Asking for a pair is a read and a shift. The next
//! column of a row is looked for a word at a time, so that walking a row costs its words and what it has.

ghost use Rattle.std.specs.Prelude.{◌≡◌, ◌<◌, ◌≤◌, ◌+◌, ◌*◌, ◌^◌, ◌&&◌, ◌||◌, ℕ, true, false, length, nat_eq, nat_le, nat_lt, not, IfOk};
ghost use Rattle.std.specs.Int.{bit_at};
ghost use Rattle.branch_marks.specs.inside.BitRows.{bit, has_pair, AreChanged};

use std::alloc::Global;
use std::marker::Model;
use tail_book::Memory;

/// A set of pairs of a row and a column. Contracts see the numbers of rows and columns and the words of bits.
#[derive(Debug, Drop)]
pub struct BitRows {
    rows: usize,
    columns: usize,
    words: Vec<u64>,
}

impl Model for BitRows {
    ghost use Rattle.branch_marks.specs.inside.BitRows.{BitRowsSeen, IsBitRows};

    ghost Value = { BitRowsSeen };

    ghost view = { λ t. record { rows = t.rows; columns = t.columns; words = t.words.items } };

    ghost invariant = { λ t. IsBitRows (record { rows = t.rows; columns = t.columns; words = t.words.items }) };
}

impl BitRows {
    /// No pair, of so many rows and columns.
    pub fn new(alloc: Global, rows: usize, columns: usize) -> Result<BitRows, Memory>
        requires rows { rows ≤ 4096 }
        requires columns { columns ≤ 4096 }
        ensures rows { IfOk result (λ table. table.rows ≡ rows) }
        ensures columns { IfOk result (λ table. table.columns ≡ columns) }
        ensures none { IfOk result (λ table. (row column : ℕ) → has_pair table row column ≡ false) }
    {
        let words = no_words(alloc, cells(rows, columns))?;
        Ok(BitRows {
            rows,
            columns,
            words,
        })
    }

    /// The same pairs, which then go their own way.
    pub fn copy(&self) -> Result<BitRows, Memory>
        ensures { IfOk result (λ table. table ≡ self.now) }
    {
        let words = Vec::from_slice(*self.words.allocator(), &self.words)?;
        Ok(BitRows {
            rows: self.rows,
            columns: self.columns,
            words,
        })
    }

    /// Whether the pair is there.
    pub fn has(&self, row: usize, column: usize) -> bool
        requires row { row < self.now.rows }
        requires column { column < self.now.columns }
        ensures { result ≡ has_pair self.now row column }
    {
        get(&self.words, place(self.rows, self.columns, row, column))
    }

    /// Adds a pair.
    pub fn put(&mut self, row: usize, column: usize)
        requires row { row < self.old.rows }
        requires column { column < self.old.columns }
        ensures { AreChanged (λ r c had. had || (nat_eq r row && nat_eq c column)) self.old self.new }
    {
        let p = place(self.rows, self.columns, row, column);
        set(&mut self.words, p);
    }

    /// Takes a pair away.
    pub fn remove(&mut self, row: usize, column: usize)
        requires row { row < self.old.rows }
        requires column { column < self.old.columns }
        ensures { AreChanged (λ r c had. had && not (nat_eq column c && nat_eq row r)) self.old self.new }
    {
        let p = place(self.rows, self.columns, row, column);
        clear(&mut self.words, p);
    }

    /// Takes all pairs of a row away but one.
    pub fn keep_only(&mut self, row: usize, column: usize)
        requires row { row < self.old.rows }
        requires column { column < self.old.columns }
        ensures { AreChanged (λ r c had. had && (not (nat_eq row r) || nat_eq column c)) self.old self.new }
    {
        let from = place(self.rows, self.columns, row, 0);
        let p = place(self.rows, self.columns, row, column);
        let to = place(self.rows, self.columns, row, self.columns);
        clear_around(&mut self.words, from, p, to);
    }

    /// The least column that a row has in a range, and the range's end where it has none.
    pub fn next(&self, row: usize, from: usize, to: usize) -> usize
        requires row { row < self.now.rows }
        requires from { from ≤ self.now.columns }
        requires to { to ≤ self.now.columns }
        ensures end { result ≤ to }
        ensures none { (column : ℕ) → from ≤ column → column < result → has_pair self.now row column ≡ false }
        ensures found { result < to → has_pair self.now row result ≡ true }
        ensures from { result < to → from ≤ result }
    {
        let start = place(self.rows, self.columns, row, 0);
        let first = place(self.rows, self.columns, row, from);
        let last = place(self.rows, self.columns, row, to);
        next(&self.words, first, last) - start
    }
}

// How many pairs there are of a row and a column.
fn cells(rows: usize, columns: usize) -> usize
    requires rows { rows ≤ 4096 }
    requires columns { columns ≤ 4096 }
    ensures value { result ≡ rows * columns }
    ensures few { result ≤ 16_777_216 }
{
    rows * columns
}

// Words with at least so many bits, of which none is set.
fn no_words(alloc: Global, bits: usize) -> Result<Vec<u64>, Memory>
    requires { bits ≤ 16_777_216 }
    ensures room { IfOk result (λ words. bits ≤ 64 * length words.items) }
    ensures few { IfOk result (λ words. 64 * length words.items ≤ bits + 64) }
    ensures none { IfOk result (λ words. (p : ℕ) → bit words.items p ≡ false) }
{
    Ok(vec![in alloc; 0u64; bits / 64 + 1]?)
}

// The number of a pair's bit, or of the bit behind a row's last.
fn place(rows: usize, columns: usize, row: usize, column: usize) -> usize
    requires few { rows * columns ≤ 2 ^ 40 }
    requires row { row < rows }
    requires column { column ≤ columns }
    ensures value { result ≡ row * columns + column }
    ensures most { result ≤ rows * columns }
    ensures within { column < columns → result < rows * columns }
{
    row * columns + column
}

// Whether the bit of a number is set.
fn get(words: &[u64], p: usize) -> bool
    requires { p < 64 * length words.now }
    ensures { result ≡ bit words.now p }
{
    words[p / 64] >> (p % 64) & 1 == 1
}

// Sets the bit of a number.
fn set(words: &mut [u64], p: usize)
    requires { p < 64 * length words.old }
    ensures { (q : ℕ) → bit words.new q ≡ (bit words.old q || nat_eq q p) }
{
    words[p / 64] |= 1 << (p % 64);
}

// Clears the bit of a number.
fn clear(words: &mut [u64], p: usize)
    requires { p < 64 * length words.old }
    ensures { (q : ℕ) → bit words.new q ≡ (bit words.old q && not (nat_eq q p)) }
{
    words[p / 64] &= !(1 << (p % 64));
}

// Clears the bits of the numbers in a range.
fn clear_range(words: &mut [u64], from: usize, to: usize)
    requires order { from ≤ to }
    requires room { to ≤ 64 * length words.old }
    ensures { (q : ℕ) → bit words.new q ≡ (bit words.old q && not (nat_le from q && nat_lt q to)) }
{
    for p in from..to {
        clear(words, p);
    }
}

// Clears the bits of the numbers in a range but one.
fn clear_around(words: &mut [u64], from: usize, p: usize, to: usize)
    requires order { from ≤ p }
    requires within { p < to }
    requires room { to ≤ 64 * length words.old }
    ensures { (q : ℕ) → bit words.new q ≡ ((bit words.old q && not (nat_le from q && nat_lt q p)) && not (nat_le (p + 1) q && nat_lt q to)) }
{
    clear_range(words, from, p);
    clear_range(words, p + 1, to);
}

// The place of the lowest bit of a word from a place on, and 64 or more where there is none.
fn lowest_from(word: u64, low: usize) -> usize
    requires { low < 64 }
    ensures from { low ≤ result }
    ensures none { (i : ℕ) → low ≤ i → i < result → i < 64 → bit_at word i ≡ 0 }
    ensures found { result < 64 → bit_at word result ≡ 1 }
{
    low + (word >> low).trailing_zeros() as usize
}

// The least number in a range whose bit is set, and the range's end where there is none.
fn next(words: &[u64], from: usize, to: usize) -> usize
    requires room { to ≤ 64 * length words.now }
    ensures end { result ≤ to }
    ensures none { (q : ℕ) → from ≤ q → q < result → bit words.now q ≡ false }
    ensures found { result < to → bit words.now result ≡ true }
    ensures from { result < to → from ≤ result }
{
    let mut low = from % 64;
    for w in from / 64..to.div_ceil(64) {
        let found = lowest_from(words[w], low);
        if found < 64 {
            return to.min(64 * w + found);
        }
        low = 0;
    }
    to
}
