//! What is found: a shortage, and how it came to be looked at.

/// How a shortage was found. Nothing is promised of it but that a counter is one of the book's.
#[derive(Clone, Copy, PartialEq, Eq, Debug)]
pub enum Cause {
    /// No aircraft can fly the asked activity.
    Alone,
    /// More leaves an airport than comes in there: `asked` leave, `brought` come in.
    Airport,
    /// Activities of which no aircraft can fly two, or few aircraft any.
    Crowd,
    /// What the whole fleet has left of a counter is less than the asked activities use.
    Counter(u32),
}

/// Activities that are a shortage, and for each aircraft the most that a legal route of it has of the asked ones beyond the
/// brought ones.
#[derive(Drop)]
pub struct FoundShortage {
    pub cause: Cause,
    pub asked: Vec<u32>,
    pub brought: Vec<u32>,
    pub mosts: Vec<i64>,
}
