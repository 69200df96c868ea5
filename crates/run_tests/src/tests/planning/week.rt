//! The week of the example tables: 97 activities on six aircraft, three counters and two curfews.

use super::certificates::{CERTIFIED, verdict_on};
use super::least_bounds::{BEST, BEST_CERTIFIED};
use super::{WORDS, seen_over};
use cert_checker::Verdict;
use small_texts::{FLEET, Seen, TIMETABLE, WEEK_AIRCRAFT, WEEK_RULES, table_files, week_records};
use std::alloc::Global;
use std::test::Fail;
use tail_book::Claim;

// How many lines a run printed.
fn lines_of(seen: &Seen) -> u32 {
    let mut lines = 0u32;
    for byte in &seen.printed {
        if *byte == b'\n' {
            lines = lines.saturating_add(1);
        }
    }
    lines
}

// What is seen of the run over the week by these words.
fn week_seen(alloc: Global, words: &[&str]) -> Result<Seen, Fail> {
    let records = week_records(alloc)?;
    let files = table_files(
        alloc,
        &[TIMETABLE, &records],
        &[FLEET, WEEK_AIRCRAFT],
        &[WEEK_RULES],
    )?;
    seen_over(alloc, words, files, &[], &[])
}

// 4,320 minutes to and from Oslo cost 10 each at least, and 3,600 to and from London 12. So it is in either order of search.
#[test]
fn the_week_costs_86400(rt: HostRuntime) -> Result<(), Fail> {
    let rows: &[&[&str]] = &[&WORDS, BEST];
    for &words in rows {
        let seen = week_seen(rt.alloc(), words)?;
        let begins = seen.printed.starts_with(b"optimal 86400\nA1:".as_slice());
        assert!(rt;
            seen.status == 0 && begins && lines_of(&seen) == 7,
            "{seen:?}"
        );
    }
    Ok(())
}

// So say its certificates.
#[test]
fn the_week_is_certified(rt: HostRuntime) -> Result<(), Fail> {
    let records = week_records(rt.alloc())?;
    let rows: &[&[&str]] = &[CERTIFIED, BEST_CERTIFIED];
    for &words in rows {
        let verdict = verdict_on(
            rt.alloc(),
            words,
            &records,
            &[FLEET, WEEK_AIRCRAFT],
            &[WEEK_RULES],
        )?;
        assert!(rt;
            verdict == Verdict::Yes(Claim::Optimal(86_400)),
            "{verdict:?}"
        );
    }
    Ok(())
}
