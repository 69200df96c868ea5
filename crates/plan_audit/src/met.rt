//! How the names of a plan are met, in the order in which they are read.
//!
//! What is unknown or was met before is kept here too, since an audit tells of it; it stays out of the routes.

use tail_book::Name;

/// A name of a plan as it is met. Aircraft and activities are numbers in the book.
#[derive(Clone, Copy, PartialEq, Eq)]
pub enum Met {
    /// Nothing has the name.
    Unknown(Name),
    /// What has the name was met before.
    Twice(Name),
    /// An aircraft, for the first time: the activities behind it are its.
    Tail(u32),
    /// An activity, for the first time.
    Activity(u32),
}
