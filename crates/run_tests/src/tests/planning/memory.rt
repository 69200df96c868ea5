//! Runs with a certificate for which memory may run out. A test here holds where any one allocation fails, and where none
//! does; `tests/each_allocation` runs it with each of them failing in turn.

use super::certificates::{Asked, CERTIFIED, CROSSED, LIMITED, Left, judged, left_over_old};
use super::least_bounds::BEST_CERTIFIED;
use cert_checker::Verdict;
use run_frame::NO_MEMORY;
use small_texts::{FLEET, RULES, THREE_LANDINGS, TIMETABLE, TWO_AT_ARLANDA, WITH_A_STOP};
use std::alloc::Global;
use std::process::{Abort, ExitCode, Termination};
use std::test::Fail;
use tail_book::Claim;

/// A run, the status and text that it ends with, and what is claimed then.
#[derive(Clone, Copy)]
struct Ended<'a> {
    asked: Asked<'a>,
    status: u8,
    printed: &'a str,
    claim: Claim,
}

// Whether a run ends as it has to, with a certificate that is accepted.
fn is_whole(alloc: Global, due: &Ended<'_>, left: &Left) -> Result<bool, Fail> {
    let asked = due.asked;
    let verdict = judged(
        alloc,
        &[TIMETABLE, asked.records],
        &[FLEET, asked.aircraft],
        &[RULES, asked.rules],
        &left.cert,
    )?;
    Ok(verdict == Verdict::Yes(due.claim) && left.seen.is(due.status, due.printed))
}

// Whether a run whose memory ran out left no more than it may, beside the same run with ample memory: a front of what is
// printed, and in the certificate's file what was there, or a front of what is written. One with all memory left the same.
fn is_front(short: &Left, ample: &Left, old: &[u8]) -> bool {
    if short.seen.status == NO_MEMORY.0 {
        ample.seen.printed.starts_with(&short.seen.printed)
            && (short.cert.as_slice() == old || ample.cert.starts_with(&short.cert))
    } else {
        short.seen.status == ample.seen.status
            && short.seen.printed.as_slice() == ample.seen.printed.as_slice()
            && short.cert.as_slice() == ample.cert.as_slice()
    }
}

// Of two runs one ended as it has to, and the other as it may.
fn end_as_they_may(
    rt: &impl Abort,
    alloc: Global,
    due: &Ended<'_>,
    ample: &Left,
    other: &Left,
) -> Result<(), Fail> {
    let old = vec![in alloc; b'x'; 4_000]?;
    assert!(rt; is_whole(alloc, due, ample)?, "{ample:?}");
    assert!(rt; is_front(other, ample, &old), "{other:?}");
    Ok(())
}

// Runs twice, since at most one of the two runs out of memory: the other ends as it has to.
fn ends_as_it_may(rt: &impl Abort, alloc: Global, due: &Ended<'_>) -> Result<(), Fail> {
    let first = left_over_old(alloc, &due.asked, &[], &[])?;
    let second = left_over_old(alloc, &due.asked, &[], &[])?;
    if first.seen.status == NO_MEMORY.0 {
        end_as_they_may(rt, alloc, due, &second, &first)
    } else {
        end_as_they_may(rt, alloc, due, &first, &second)
    }
}

// A least plan of two, in either order of search, one in which a dear arrival survives, and a bound where no node is counted.
fn each_ends_as_it_may(rt: &impl Abort, alloc: Global) -> Result<(), Fail> {
    for due in &[
        Ended {
            asked: CROSSED,
            status: 0,
            printed: "optimal 240\nA1: F2\nA2: F1\n",
            claim: Claim::Optimal(240),
        },
        Ended {
            asked: Asked {
                words: BEST_CERTIFIED,
                ..CROSSED
            },
            status: 0,
            printed: "optimal 240\nA1: F2\nA2: F1\n",
            claim: Claim::Optimal(240),
        },
        Ended {
            asked: Asked {
                words: CERTIFIED,
                records: WITH_A_STOP,
                aircraft: TWO_AT_ARLANDA,
                rules: THREE_LANDINGS,
            },
            status: 0,
            printed: "optimal 740\nA1: F1 F2 F5 F6\nA2: G1\n",
            claim: Claim::Optimal(740),
        },
        Ended {
            asked: LIMITED,
            status: 4,
            printed: "limit 0 -\n",
            claim: Claim::Limit { low: 0, high: None },
        },
    ] {
        ends_as_it_may(rt, alloc, due)?;
    }
    Ok(())
}

// Where memory runs out in what is made for the runs, and not in one of them, all of it is made again.
#[test]
fn a_run_without_memory_leaves_a_front(rt: HostRuntime) -> Result<(), Fail> {
    if each_ends_as_it_may(&rt, rt.alloc()).report(&rt) == ExitCode::SUCCESS {
        return Ok(());
    }
    each_ends_as_it_may(&rt, rt.alloc())
}
