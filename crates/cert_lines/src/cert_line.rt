//! What the lines of a certificate say.
//!
//! A certificate is a header, the events of one proof tree, a plan where the claim has one, and the claim. In version 2 a
//! leaf may be lean: its duals alone stand there, and the checker finds what they bound by.

use branch_marks::Event;
use tail_book::Claim;

/// The greatest absolute value of a weight, a dual or a counter, in a line: 2^61.
pub const VALUE_LIMIT: u64 = 2_305_843_009_213_693_952;

/// The greatest length of a line, in bytes without its newline.
pub const LENGTH_LIMIT: usize = 200;

/// A line of a certificate.
#[derive(Clone, Copy, PartialEq, Eq)]
pub enum CertLine {
    /// The first line: the version, 1 or 2, and how many activities, aircraft and counters the book has.
    Header { version: u8, n: u32, m: u32, c: u32 },
    /// An event of the proof tree.
    Event(Event),
    /// A lean leaf: its duals follow, and nothing else.
    Lean,
    /// The plan follows.
    Plan,
    /// This activity is flown by this aircraft.
    Fly(u32, u32),
    /// What the certificate claims.
    Claim(Claim),
}

/// The text is no line of a certificate.
#[derive(Clone, Copy, PartialEq, Eq)]
pub struct BadLine;
