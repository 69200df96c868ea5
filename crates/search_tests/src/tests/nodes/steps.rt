//! Steps on nodes of the book of two flights, worked by hand: what they answer, the target they leave, and what is told.

use super::answers::{Asked, Ended, ask};
use super::{first_passed, told, told_of};
use branch_marks::{Event, Fact, NoLog};
use small_books::there_and_back;
use std::alloc::Global;
use std::test::Fail;

// Whether a step on a node of these facts ends with a bound that leaves no plan below so many cost units, and leaves these
// as the target.
fn is_bounded(alloc: Global, facts: &[Fact], units: u64) -> Result<bool, Fail> {
    let answer = ask(alloc, facts, 0, Asked::Step, &mut NoLog)?;
    Ok(answer.target == units && answer.first.is_bound(units))
}

// The cheap aircraft flies both flights for 60 each. No plan is cheaper, so the root ends with a bound that reaches that. With
// the cheap aircraft barred from the way out, the dear one has to fly both.
#[test]
fn roots_are_bounded(rt: HostRuntime) -> Result<(), Fail> {
    assert!(rt; is_bounded(rt.alloc(), &[], 120)?);
    assert!(rt; is_bounded(rt.alloc(), &[Fact::Bar(0, 0)], 240)?);
    Ok(())
}

const NOBODY_OUT: [Fact; 2] = [Fact::Bar(0, 0), Fact::Bar(1, 0)];

// Nobody flies out, so nobody can fly back: two facts follow, and then the way out is a hole.
const HOLE: [Event; 3] = [
    Event::Fact(Fact::Bar(0, 1)),
    Event::Fact(Fact::Bar(1, 1)),
    Event::Hole(0),
];

#[test]
fn hole_is_told_after_its_steps(rt: HostRuntime) -> Result<(), Fail> {
    let (answer, is_told) = told(rt.alloc(), &NOBODY_OUT, 0, Asked::Step, &HOLE)?;
    assert!(rt; matches!(answer.first, Ended::Hole(0)));
    assert!(rt; is_told);
    Ok(())
}

// A log that fails at an event of the hole was told those before it.
#[test]
fn failing_steps_have_a_front(rt: HostRuntime) -> Result<(), Fail> {
    let passed = first_passed(rt.alloc(), &NOBODY_OUT, 0, Asked::Step, &HOLE)?;
    assert!(rt; passed.is_none(), "at event {passed:?}");
    Ok(())
}

// The way back leaves a minute before the turn ends, so nobody can fly it, and the only aircraft is given the way out.
const LATE: [Event; 3] = [
    Event::Fact(Fact::Bar(0, 1)),
    Event::Fact(Fact::Must(0, 0)),
    Event::Hole(1),
];

#[test]
fn late_flight_is_a_hole(rt: HostRuntime) -> Result<(), Fail> {
    let book = there_and_back(rt.alloc(), &[0], 31)?;
    let (answer, is_told) = told_of(rt.alloc(), &book, &[], 0, Asked::Step, &LATE)?;
    assert!(rt; matches!(answer.first, Ended::Hole(1)));
    assert!(rt; is_told);
    Ok(())
}
