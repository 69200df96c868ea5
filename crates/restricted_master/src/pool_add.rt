//! What adding a route to a pool comes to: whether it is new or there already, the answer names its number in the pool.

/// What adding a route comes to.
#[derive(Clone, Copy, PartialEq, Eq)]
pub enum PoolAdd {
    /// It is new, and has this number.
    New(usize),
    /// It is the route of this number already.
    There(usize),
}
