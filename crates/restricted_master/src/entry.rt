//! Where a pool keeps a route: its place among all activities, its aircraft, its cost and its hash.

/// One route of a pool. Its activities are those from `start` to before `end` of the pool's one list.
#[derive(Clone, Copy, Debug)]
pub struct Entry {
    pub start: usize,
    pub end: usize,
    pub aircraft: u32,
    /// What equal routes of one aircraft have in common, and few others.
    pub hash: u32,
    /// What the route costs its aircraft, in cost units.
    pub cost: u64,
}
