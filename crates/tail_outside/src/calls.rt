//! The calls of one object, some of which fail by their number, so that a test can let any one of them fail.

ghost use Rattle.std.specs.Prelude.{◌≡◌};
ghost use Rattle.tail_outside.specs.inside.Held.{calls_to_come, fails_next, one_more};

use std::marker::Model;

/// The numbers of the calls that fail, counted from 1, and how many calls were made.
#[derive(Drop)]
pub(crate) struct Calls {
    failing: Vec<u64>,
    made: u64,
}

impl Model for Calls {
    ghost use Rattle.tail_outside.specs.inside.Seen.{CallsSeen};

    ghost Value = { CallsSeen };

    ghost view = { λ c. record { failing = c.failing.items; made = c.made } };
}

impl Calls {
    /// No call was made yet.
    pub fn new(failing: Vec<u64>) -> Calls
        ensures { result ≡ calls_to_come failing.items }
    {
        Calls { failing, made: 0 }
    }

    /// Counts a call, and says whether it fails.
    pub fn fails(&mut self) -> bool
        ensures fails { result ≡ fails_next self.old }
        ensures counted { self.new ≡ one_more self.old }
    {
        self.made = self.made.saturating_add(1);
        self.failing.contains(&self.made)
    }
}
