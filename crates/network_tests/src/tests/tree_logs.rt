//! A log that is told a tree, event by event.

ghost use Rattle.std.specs.Prelude.{All};
ghost use Rattle.branch_marks.specs.Events.{IsNotable};

use branch_marks::*;
use std::process::Abort;
use std::test::Fail;

// A node with two steps that is split: a hole in its first branch, and a bound in its second.
fn tree() -> [Event; 9]
    ensures { All IsNotable result }
{
    [
        Event::Fact(Fact::Bar(0, 2)),
        Event::Fact(Fact::Cut(1, 2)),
        Event::Split(Pair::Fly(1, 0)),
        Event::Hole(1),
        Event::Bound,
        Event::Dual(0, -500),
        Event::Cover(0, 1_500),
        Event::Label {
            at: 2,
            weight: 1_500,
            counters: Row::new([60, 1].as_slice()),
        },
        Event::Cover(1, -2_000),
    ]
}

// Asks that a log holds what it was told so far after each event, and that the events come back as they were told.
fn are_kept(rt: &impl Abort, log: &mut MemTree, due: &[Event]) -> Result<(), LogFail>
    requires { All IsNotable due.now }
{
    for i in 0..due.len() {
        assert!(rt; log.events().len() == i, "before event {i}");
        log.note(&due[i])?;
    }
    assert!(rt; log.events() == due);
    Ok(())
}

#[test]
fn events_are_kept_in_order(rt: HostRuntime) -> Result<(), Fail> {
    let mut log = MemTree::new(rt.alloc())?;
    are_kept(&rt, &mut log, &tree())?;
    Ok(())
}

// Asks that a log that keeps nothing is told the same, and always answers.
fn are_told(rt: &impl Abort, due: &[Event])
    requires { All IsNotable due.now }
{
    let mut log = NoLog;
    for event in due {
        assert!(rt; log.note(event) == Ok(()));
    }
}

#[test]
fn nothing_is_kept(rt: HostRuntime) {
    are_told(&rt, &tree());
}

// Rows are equal where their numbers are, whatever stands past their end.
#[test]
fn rows_are_their_numbers(rt: HostRuntime) {
    let (none, zero, zeros) = (Row::new(&[]), Row::new(&[0]), Row::new(&[0, 0]));
    let six = [3i64, 4, 5, 6, 7, 8];
    assert!(rt; zeros.as_slice().len() == 2);
    assert!(rt; none != zero && zero != zeros);
    assert!(rt; Row::new(&six).as_slice() == six.as_slice());
}
