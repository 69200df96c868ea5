//! Why a search stops before its end: for its log or for its memory. To reach the limit of nodes is no stop.

use branch_marks::LogFail;
use tail_book::Memory;

/// Why a search stopped early.
#[derive(Clone, Copy, PartialEq, Eq, Debug)]
pub enum Stop {
    /// The log failed to write.
    Log,
    /// There was no memory.
    Memory,
}

impl From<Memory> for Stop {
    fn from(_memory: Memory) -> Stop {
        Stop::Memory
    }
}
