//! Made tables of 97 activities and six aircraft, of each family that `bench/make_tables.py` makes. The least costs were found by
//! cbc, a solver of mixed integer programs that is no part of this repository.

mod count;
mod full;
mod mixed;
mod place;
mod plain;
mod tight;

use super::{Run, USUAL, each_run_ends_so, seen_of};
use std::alloc::Global;
use std::process::Abort;
use std::test::Fail;

// Whether a run ends with its status and prints a least plan that begins with its text.
fn begins_so(alloc: Global, run: &Run<'_>) -> Result<bool, Fail> {
    let seen = seen_of(alloc, run)?;
    Ok(seen.status == run.status && seen.printed.starts_with(run.printed.as_bytes()))
}

// A test that goes over the tables itself would be dear to prove, since it would have their texts in each step.
fn each_run_begins_so(rt: &impl Abort, alloc: Global, runs: &[Run<'_>]) -> Result<(), Fail> {
    for run in runs {
        let first = run.printed;
        assert!(rt; begins_so(alloc, run)?, "{first}");
    }
    Ok(())
}

#[test]
fn plain_tables_have_their_least_costs(rt: HostRuntime) -> Result<(), Fail> {
    let runs: &[Run<'_>] = &[
        Run {
            timetable: &[plain::TIMETABLE],
            fleet: &[plain::FLEET],
            rules: &[plain::RULES],
            printed: "optimal 40412\n",
            ..USUAL
        },
        Run {
            timetable: &[plain::TIMETABLE],
            fleet: &[plain::FLEET],
            rules: &[plain::RULES, plain::BANDS],
            printed: "optimal 42172\n",
            ..USUAL
        },
    ];
    each_run_begins_so(&rt, rt.alloc(), runs)
}

#[test]
fn mixed_tables_have_their_least_costs(rt: HostRuntime) -> Result<(), Fail> {
    let runs: &[Run<'_>] = &[Run {
        timetable: &[mixed::TIMETABLE],
        fleet: &[mixed::FLEET],
        rules: &[mixed::RULES],
        printed: "optimal 495305\n",
        ..USUAL
    }];
    each_run_begins_so(&rt, rt.alloc(), runs)
}

#[test]
fn tight_tables_have_their_least_costs(rt: HostRuntime) -> Result<(), Fail> {
    let runs: &[Run<'_>] = &[Run {
        timetable: &[tight::TIMETABLE],
        fleet: &[tight::FLEET],
        rules: &[tight::RULES],
        printed: "optimal 39269\n",
        ..USUAL
    }];
    each_run_begins_so(&rt, rt.alloc(), runs)
}

#[test]
fn full_tables_have_their_least_costs(rt: HostRuntime) -> Result<(), Fail> {
    let runs: &[Run<'_>] = &[Run {
        timetable: &[full::TIMETABLE],
        fleet: &[full::FLEET],
        rules: &[full::RULES],
        printed: "optimal 277129\n",
        ..USUAL
    }];
    each_run_begins_so(&rt, rt.alloc(), runs)
}

#[test]
fn made_tables_may_have_no_plan(rt: HostRuntime) -> Result<(), Fail> {
    let runs: &[Run<'_>] = &[
        Run {
            timetable: &[count::TIMETABLE],
            fleet: &[count::FLEET],
            rules: &[count::RULES],
            status: 1,
            printed: "infeasible\n",
            ..USUAL
        },
        Run {
            timetable: &[place::TIMETABLE],
            fleet: &[place::FLEET],
            rules: &[place::RULES],
            status: 1,
            printed: "infeasible\n",
            ..USUAL
        },
    ];
    each_run_ends_so(&rt, rt.alloc(), runs)
}
