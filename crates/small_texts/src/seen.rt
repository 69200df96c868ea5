//! What is seen of a run: its status, and the bytes that its sink took. A test compares them whole, or looks for one
//! piece.

use std::alloc::Global;
use std::test::Fail;
use tail_outside::MemSink;

/// How a run ended, and what it printed.
#[derive(Debug, Drop)]
pub struct Seen {
    /// The status that the run answered.
    pub status: u8,
    /// The bytes that its sink took.
    pub printed: Vec<u8>,
}

impl Seen {
    /// A run that ended with this status, and what it printed to this sink.
    pub fn of(alloc: Global, status: u8, sink: &MemSink) -> Result<Seen, Fail> {
        let printed = sink.bytes().to_vec(alloc)?;
        Ok(Seen { status, printed })
    }

    /// Whether the run ended with this status and printed this text.
    pub fn is(&self, status: u8, printed: &str) -> bool {
        self.status == status && self.printed.as_slice() == printed.as_bytes()
    }

    /// Whether the run ended with this status and printed this text somewhere.
    pub fn has(&self, status: u8, piece: &str) -> bool {
        self.status == status && has_piece(&self.printed, piece.as_bytes())
    }
}

fn has_piece(text: &[u8], piece: &[u8]) -> bool {
    for i in 0..text.len() {
        if text[i..].starts_with(piece) {
            return true;
        }
    }
    false
}
