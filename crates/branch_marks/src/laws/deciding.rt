//! Laws of tests and their definitions: for each word of what marks leave open, and of what follows from them, a test
//! decides it. So contracts say the plain definition, and proofs take the test that bodies compute.

ghost use Rattle.branch_marks.specs.inside.MarkTests.{FactOfDecides, AliveDecides, UsableDecides, MayEndDecides, FitsDecides};
ghost use Rattle.branch_marks.specs.inside.FactTests.{HasFactDecides};
ghost use Rattle.branch_marks.specs.inside.FollowingTests.{FollowsDecides, ShutDecides};

use tail_book::laws::{allowed_decides, limits_decide, link_decides};

/// Whether the numbers in a fact are of the book is decided by a test.
pub fn fact_of_decides()
    ensures { FactOfDecides }
{}

/// Whether marks have a fact is decided by a test.
pub fn has_fact_decides()
    ensures { HasFactDecides }
{}

/// Whether an activity is alive for an aircraft is decided by a test.
pub fn alive_decides()
    ensures { AliveDecides }
{
    allowed_decides();
}

/// Whether a link is usable for an aircraft is decided by a test.
pub fn usable_decides()
    ensures { UsableDecides }
{
    link_decides();
    alive_decides();
}

/// Whether an aircraft may end its route at a place is decided by a test.
pub fn may_end_decides()
    ensures { MayEndDecides }
{}

/// Whether a route fits the marks is decided by a test.
pub fn fits_decides()
    ensures { FitsDecides }
{
    usable_decides();
    may_end_decides();
}

/// Whether a fact follows from marks is decided by a test.
pub fn follows_decides()
    ensures { FollowsDecides }
{
    fact_of_decides();
    alive_decides();
    usable_decides();
    may_end_decides();
    has_fact_decides();
    limits_decide();
}

/// Whether marks are shut is decided by a test.
pub fn shut_decides()
    ensures { ShutDecides }
{
    follows_decides();
}
