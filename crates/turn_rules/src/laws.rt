//! Laws over the definitions alone: the contract of each function is the law. A call computes nothing.

ghost use Rattle.turn_rules.specs.inside.FreeBefore.{LinksLeaveTime};

/// Where there is a link, the aircraft is free in time.
pub fn links_leave_time()
    ensures { LinksLeaveTime }
{}
