//! Steps on a node for which memory may run out. The test here holds where any one allocation fails, and where none does;
//! `tests/each_allocation` runs it with each of them failing in turn.

use super::answers::{Answer, Asked, Ended, ask};
use branch_marks::{Fact, MemTree};
use branch_tree::Stop;
use std::alloc::Global;
use std::process::{Abort, ExitCode, Termination};
use std::test::Fail;

fn is_short(end: Ended) -> bool {
    matches!(end, Ended::Stopped(Stop::Memory))
}

// Whether both steps ended with a bound of so many cost units, but for one at most that ran out of memory, and left this
// cost as the target.
fn are_so(answer: Answer, units: u64) -> bool {
    let Answer {
        first,
        again,
        target,
    } = answer;
    target == units
        && !(is_short(first) && is_short(again))
        && (is_short(first) || first.is_bound(units))
        && (is_short(again) || again.is_bound(units))
}

// Whether two steps on a node of these facts are so. The log wants all events, so that memory may also run out where they are
// listed.
fn are_bounded(alloc: Global, facts: &[Fact], units: u64) -> Result<bool, Fail> {
    let mut log = MemTree::new(alloc)?;
    let answer = ask(alloc, facts, 0, Asked::TwoSteps, &mut log)?;
    Ok(are_so(answer, units))
}

// The root of the book of two flights, and a node where the dear aircraft has to fly both.
fn each_is_bounded(rt: &impl Abort, alloc: Global) -> Result<(), Fail> {
    assert!(rt; are_bounded(alloc, &[], 120)?);
    assert!(rt; are_bounded(alloc, &[Fact::Bar(0, 0)], 240)?);
    Ok(())
}

// Where memory runs out in what is made for the steps, and not in one of them, all of it is made again.
#[test]
fn steps_without_memory_can_be_taken_again(rt: HostRuntime) -> Result<(), Fail> {
    if each_is_bounded(&rt, rt.alloc()).report(&rt) == ExitCode::SUCCESS {
        return Ok(());
    }
    each_is_bounded(&rt, rt.alloc())
}
