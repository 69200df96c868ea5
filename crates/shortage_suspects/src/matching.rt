//! Matchings: each taker is to have a giver of its own, among those that its row of bits names.
//!
//! Takers get a giver one after the other, along alternating paths: from a taker to the givers that it may have, from each of them
//! to the taker that has it. A path that ends at a giver whom nobody has is turned about, and then there is one pair more. Where
//! none is there, the takers that were reached are one more than all the givers that they may have. No smaller part of them
//! together with the first is.

use crate::bit_rows::BitRows;
use std::alloc::Global;
use tail_book::Memory;

// In place of a giver or a taker where there is none.
const NOBODY: u32 = u32::MAX;

/// Pairs of a taker and a giver, and what the last search for one more saw.
#[derive(Drop)]
pub struct Matching {
    // Who may be given, who of them was not seen yet, and whom nobody has: a bit for each giver.
    given: Vec<u64>,
    unseen: Vec<u64>,
    free: Vec<u64>,
    // For each giver the taker that has it, and the one from which it was seen; for each taker its giver.
    taker: Vec<u32>,
    seer: Vec<u32>,
    giver: Vec<u32>,
    // The takers that were reached.
    reached: Vec<u32>,
}

// A number of a list, and nobody past its end.
fn at(list: &[u32], i: u32) -> u32 {
    list.get(i as usize).copied().unwrap_or(NOBODY)
}

// Writes a number at a place of a list.
fn set(list: &mut [u32], i: u32, value: u32) {
    if let Some(place) = list.get_mut(i as usize) {
        *place = value;
    }
}

// A word of a list of bits.
fn word(words: &[u64], i: usize) -> u64 {
    words.get(i).copied().unwrap_or(0)
}

// Takes bits from a word of a list.
fn take_bits(words: &mut [u64], i: usize, bits: u64) {
    if let Some(word) = words.get_mut(i) {
        *word &= !bits;
    }
}

// Writes words over others.
fn copy_words(into: &mut [u64], from: &[u64]) {
    for i in 0..into.len().min(from.len()) {
        into[i] = from[i];
    }
}

// The number of the least bit of word i.
fn least_bit(i: usize, bits: u64) -> u32 {
    match u32::try_from(i) {
        Ok(i) => i.saturating_mul(64).saturating_add(bits.trailing_zeros()),
        Err(_) => NOBODY,
    }
}

impl Matching {
    /// No pair yet of so many takers and givers. Only these givers may be given, a bit for each.
    pub fn new(
        alloc: Global,
        takers: usize,
        givers: usize,
        given: &[u64],
    ) -> Result<Matching, Memory> {
        Ok(Matching {
            given: Vec::from_slice(alloc, given)?,
            unseen: Vec::from_slice(alloc, given)?,
            free: Vec::from_slice(alloc, given)?,
            taker: vec![in alloc; NOBODY; givers]?,
            seer: vec![in alloc; NOBODY; givers]?,
            giver: vec![in alloc; NOBODY; takers]?,
            reached: Vec::new(alloc),
        })
    }

    // Begins a search from a taker.
    fn begin(&mut self, b: u32) -> Result<(), Memory> {
        copy_words(&mut self.unseen, &self.given);
        self.reached.clear();
        self.reached.push(b)?;
        Ok(())
    }

    // A giver whom nobody has and whom a taker may have.
    fn free_giver(&self, rows: &BitRows, t: u32) -> Option<u32> {
        for i in 0..self.free.len() {
            let bits = rows.word(t as usize, i) & self.free[i];
            if bits != 0 {
                return Some(least_bit(i, bits));
            }
        }
        None
    }

    // Sees the givers of a word from a taker, and reaches the takers that have them.
    fn see(&mut self, t: u32, i: usize, seen: u64) -> Result<(), Memory> {
        take_bits(&mut self.unseen, i, seen);
        let mut bits = seen;
        for _turn in 0..64 {
            if bits == 0 {
                break;
            }
            let p = least_bit(i, bits);
            bits &= bits.wrapping_sub(1);
            set(&mut self.seer, p, t);
            self.reached.push(at(&self.taker, p))?;
        }
        Ok(())
    }

    // Sees all givers that a taker may have.
    fn see_all(&mut self, rows: &BitRows, t: u32) -> Result<(), Memory> {
        for i in 0..self.unseen.len() {
            let bits = rows.word(t as usize, i) & word(&self.unseen, i);
            if bits != 0 {
                self.see(t, i, bits)?;
            }
        }
        Ok(())
    }

    // Turns the path about that ends with a taker and a giver whom nobody has.
    fn turn(&mut self, last: u32, free: u32) {
        take_bits(&mut self.free, free as usize / 64, 1u64 << (free % 64));
        let (mut t, mut p) = (last, free);
        for _step in 0..self.giver.len() {
            let before = at(&self.giver, t);
            set(&mut self.giver, t, p);
            set(&mut self.taker, p, t);
            if before == NOBODY {
                break;
            }
            p = before;
            t = at(&self.seer, p);
        }
    }

    /// Gives a taker that has none a giver, if others can make room for it.
    pub fn give(&mut self, rows: &BitRows, b: u32) -> Result<bool, Memory> {
        self.begin(b)?;
        for i in 0..self.giver.len() {
            let Some(t) = self.reached.get(i).copied() else {
                break;
            };
            if let Some(p) = self.free_giver(rows, t) {
                self.turn(t, p);
                return Ok(true);
            }
            self.see_all(rows, t)?;
        }
        Ok(false)
    }

    /// Whether the last search saw a giver.
    pub fn has_seen(&self, p: u32) -> bool {
        let i = p as usize / 64;
        (word(&self.given, i) & !word(&self.unseen, i)) >> (p % 64) & 1 == 1
    }

    /// The takers that the last search reached, in rising order.
    pub fn reached(&self) -> Result<Vec<u32>, Memory> {
        let mut list = Vec::from_slice(*self.reached.allocator(), &self.reached)?;
        list.sort()?;
        Ok(list)
    }
}
