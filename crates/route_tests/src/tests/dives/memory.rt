//! Dives for which memory may run out. The test here holds where any one allocation fails, and where none does;
//! `tests/each_allocation` runs it with each of them failing in turn.

ghost use Rattle.std.specs.Prelude.{List};
ghost use Rattle.branch_marks.specs.Settled.{AreDuals};
ghost use Rattle.branch_marks.specs.inside.MarkTables.{AreMarksOf};
ghost use Rattle.dive_heuristic.specs.Divers.{IsDiverFor};
ghost use Rattle.plan_finder.specs.Problem.{IsProblem};

use super::{Ends, FORCED, IN_ORDER, is_end};
use crate::tests::asks::{Ask, Case, are_right, first_wrong};
use crate::tests::books::ByHand;
use branch_marks::{Fact, Marks};
use dive_heuristic::{DeadEnd, Diver, dive};
use plan_finder::Problem;
use std::alloc::Global;
use std::process::{Abort, ExitCode, Termination};
use std::test::Fail;
use tail_book::*;

// Whether a dive by itself ends so; nothing where memory ran out.
fn ends_alone(
    alloc: Global,
    problem: &Problem,
    marks: &Marks,
    duals: &Duals,
    ends: Ends,
) -> Option<bool>
    requires problem { IsProblem problem.now }
    requires marks { AreMarksOf problem.now.book.now marks.now }
    requires duals { AreDuals problem.now.table.now problem.now.book.now duals.now.values }
{
    let Problem { book, table, net } = *problem;
    match dive(alloc, book, table, net, marks, duals) {
        Ok(answer) => Some(is_end(&answer, ends)),
        Err(_) => None,
    }
}

// The same of a dive with a diver that is kept.
fn ends_by_diver(
    alloc: Global,
    problem: &Problem,
    marks: &Marks,
    duals: &Duals,
    diver: &mut Diver,
    ends: Ends,
) -> Option<bool>
    requires problem { IsProblem problem.now }
    requires marks { AreMarksOf problem.now.book.now marks.now }
    requires duals { AreDuals problem.now.table.now problem.now.book.now duals.now.values }
    requires diver { IsDiverFor problem.now.book.now problem.now.table.now marks.now.facts diver.old }
    ensures diver { (facts : List _) × IsDiverFor problem.now.book.now problem.now.table.now facts diver.new }
{
    let Problem { book, table, net } = *problem;
    match diver.dive(alloc, book, table, net, marks, duals) {
        Ok(answer) => Some(is_end(&answer, ends)),
        Err(_) => None,
    }
}

// A dive by itself, and two with a diver that is kept, whatever became of the first of them. All end so, but for one at most
// that ran out of memory.
fn dive_thrice(
    alloc: Global,
    problem: &Problem,
    marks: &Marks,
    duals: &Duals,
    ends: Ends,
) -> Result<bool, Memory>
    requires problem { IsProblem problem.now }
    requires marks { AreMarksOf problem.now.book.now marks.now }
    requires duals { AreDuals problem.now.table.now problem.now.book.now duals.now.values }
{
    let alone = ends_alone(alloc, problem, marks, duals, ends);
    let mut diver = Diver::new(alloc, problem.book, problem.table)?;
    let first = ends_by_diver(alloc, problem, marks, duals, &mut diver, ends);
    diver.propagator.forget();
    let again = ends_by_diver(alloc, problem, marks, duals, &mut diver, ends);
    Ok(are_right(&[alone, first, again]))
}

// Three dives end so.
#[derive(Clone, Copy)]
struct EachEnds(Ends);

impl Ask for EachEnds {
    type Answer = bool;

    fn answer(
        &self,
        alloc: Global,
        problem: &Problem,
        marks: &Marks,
        duals: &Duals,
    ) -> Result<bool, Memory> {
        dive_thrice(alloc, problem, marks, duals, self.0)
    }
}

// A plan after a choice, a hole after two facts that follow, and an aircraft without a route.
const EACH: &[Case<EachEnds>] = &[
    (ByHand::AtOnce, &[], &[0, 0], EachEnds(IN_ORDER)),
    (
        ByHand::Alone(31),
        &[],
        &[0, 0],
        EachEnds(Ends::Dead(FORCED, DeadEnd::Hole(1))),
    ),
    (
        ByHand::TwoWays,
        &[Fact::Must(1, 4), Fact::Must(1, 5)],
        &[0; 6],
        EachEnds(Ends::Dead(&[], DeadEnd::Stuck(1))),
    ),
];

fn each_ends_so(rt: &impl Abort, alloc: Global) -> Result<(), Fail> {
    let wrong = first_wrong(alloc, EACH)?;
    assert!(rt; wrong.is_none(), "case {wrong:?}");
    Ok(())
}

// Where memory runs out in what is made for the dives, and not in one of them, all of it is made again.
#[test]
fn dives_without_memory_can_be_made_again(rt: HostRuntime) -> Result<(), Fail> {
    if each_ends_so(&rt, rt.alloc()).report(&rt) == ExitCode::SUCCESS {
        return Ok(());
    }
    each_ends_so(&rt, rt.alloc())
}
