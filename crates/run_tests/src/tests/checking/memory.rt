//! Judgements for which memory may run out. A test here holds where any one allocation fails, and where none does;
//! `tests/each_allocation` runs it with each of them failing in turn.

use super::certificates::{LEAST, same_time};
use super::fixtures::{Case, by_certificate, by_plan};
use crate::tests::runs::{Program, seen_over};
use run_frame::NO_MEMORY;
use small_texts::{BROKEN, LEGAL, Seen, files_of};
use std::alloc::Global;
use std::process::{Abort, ExitCode, Termination};
use std::test::Fail;

// What is seen of a judgement.
fn seen_of(alloc: Global, case: &Case<'_>) -> Result<Seen, Fail> {
    let files = files_of(alloc, case.typed)?;
    seen_over(alloc, Program::Checker, case.words, files, &[], &[])
}

// Whether a judgement ended as it has to, or for want of memory with a front of that.
fn ends_within(seen: &Seen, case: &Case<'_>) -> bool {
    seen.is(case.status, case.printed)
        || (seen.status == NO_MEMORY.0 && case.printed.as_bytes().starts_with(&seen.printed))
}

// Judges twice, since at most one of the two runs out of memory: the other ends as it has to.
fn ends_as_it_may(rt: &impl Abort, alloc: Global, case: &Case<'_>) -> Result<(), Fail> {
    let first = seen_of(alloc, case)?;
    let second = seen_of(alloc, case)?;
    assert!(rt;
        first.is(case.status, case.printed) || second.is(case.status, case.printed),
        "{case:?}"
    );
    assert!(rt;
        ends_within(&first, case) && ends_within(&second, case),
        "{first:?} {second:?}"
    );
    Ok(())
}

// A certificate that is accepted, one that ends before its claim, a plan that is legal, and one that breaks rules.
fn each_ends_as_it_may(rt: &impl Abort, alloc: Global) -> Result<(), Fail> {
    for case in &[
        by_certificate(same_time(&LEAST), 0, "yes optimal 240\n"),
        by_certificate(same_time(&LEAST[..13]), 1, "no 14 Unfinished\n"),
        by_plan(LEGAL, 0, "legal 120\n"),
        by_plan(BROKEN, 1, "broken 3\nunknown F9\ntwice F1\nuncovered F2\n"),
    ] {
        ends_as_it_may(rt, alloc, case)?;
    }
    Ok(())
}

// Where memory runs out in what is made for the judgements, and not in one of them, all of it is made again.
#[test]
fn a_judgement_without_memory_prints_a_front(rt: HostRuntime) -> Result<(), Fail> {
    if each_ends_as_it_may(&rt, rt.alloc()).report(&rt) == ExitCode::SUCCESS {
        return Ok(());
    }
    each_ends_as_it_may(&rt, rt.alloc())
}
