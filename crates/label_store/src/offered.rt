//! What becomes of a row that is offered: it is kept, under a number of its own, or a row of the bucket that is named
//! covers it, and then nothing has changed.

/// The answer to an offer. Rows are numbered from 0 in the order in which they were kept.
#[derive(Clone, Copy, PartialEq, Eq)]
pub enum Offered {
    /// The row is kept, under this number.
    Kept(usize),
    /// The row of this number, which is in the bucket, covers it.
    Covered(usize),
}
