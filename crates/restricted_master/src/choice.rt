//! What an aircraft can choose of an activity, and from which dual on it takes the activity.
//!
//! A dual that rises makes all routes with its activity lighter by the same, and leaves the others. So the two least
//! weights, with the activity and without it, tell what the aircraft takes at any dual of it.

ghost use Rattle.std.specs.Prelude.{◌≡◌, pos, ◌-ℤ◌, ◌^◌};
ghost use Rattle.std.specs.Int.{int_max, int_min};
ghost use Rattle.tail_book.specs.Ranges.{IsWithin};
ghost use Rattle.restricted_master.specs.inside.Choices.{price_of, taken_at, IsSmall, IsSmallChoice};

/// The least weight of an aircraft's routes that have an activity, with the activity's dual left out, and that of its
/// other routes, in thousandths of a cost unit. Nothing stands where it has no such route.
#[derive(Clone, Copy)]
pub struct Choice {
    pub with: Option<i64>,
    pub without: Option<i64>,
}

impl Choice {
    /// The dual from which on the aircraft takes the activity, none where it can't, and the box's low end where it must.
    pub fn price(&self, low: i64) -> Option<i64>
        requires { IsSmallChoice self.now }
        ensures { result ≡ price_of low self.now.with self.now.without }
    {
        match (self.with, self.without) {
            (None, _) => None,
            (Some(_), None) => Some(low),
            (Some(with), Some(without)) => Some(greater(low, with - without)),
        }
    }

    /// The least weight of the aircraft at a dual of the activity.
    pub fn taken_at(&self, dual: i64) -> i64
        requires choice { IsSmallChoice self.now }
        requires dual { IsSmall dual }
        ensures value { result ≡ taken_at dual self.now.with self.now.without }
        ensures range { IsWithin (pos 0 -ℤ pos (2 ^ 63)) (pos (2 ^ 63)) result }
    {
        match (self.with, self.without) {
            (None, None) => 0,
            (None, Some(without)) => without,
            (Some(with), None) => with - dual,
            (Some(with), Some(without)) => lesser(without, with - dual),
        }
    }
}

/// The lesser of two numbers, and the first where they are equal.
pub fn lesser(one: i64, other: i64) -> i64
    ensures { result ≡ int_min one other }
{
    if other < one { other } else { one }
}

/// The greater of two numbers, and the first where they are equal.
pub fn greater(one: i64, other: i64) -> i64
    ensures { result ≡ int_max one other }
{
    if other < one { one } else { other }
}
