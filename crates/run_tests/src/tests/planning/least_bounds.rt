//! Runs that search by least bound: small tables have the plan and the claim that they have depth first, and where no node is
//! counted the same certificate.

use super::certificates::{Asked, CROSSED, LIMITED, Left, judged, left_over_old};
use cert_checker::Verdict;
use small_texts::{FLEET, RULES, THREE_LANDINGS, TIMETABLE, TWO_AT_ARLANDA, WITH_A_STOP};
use std::alloc::Global;
use std::test::Fail;
use tail_book::Claim;

/// The words that ask for the least bound, without a certificate and with one.
pub const BEST: &[&str] = &["tailplan", "t", "f", "r", "--best"];

pub const BEST_CERTIFIED: &[&str] = &["tailplan", "--best", "t", "f", "r", "--cert", "c"];

const BEST_BOUNDED: &[&str] = &[
    "tailplan",
    "t",
    "f",
    "r",
    "--nodes=0",
    "--cert",
    "c",
    "--best",
];

// Two flights away and home, with a stop between them through which no legal route goes on.
const STOPPED: Asked<'_> = Asked {
    words: BEST_CERTIFIED,
    records: WITH_A_STOP,
    aircraft: TWO_AT_ARLANDA,
    rules: THREE_LANDINGS,
};

// What a run by these words over the tables of another leaves.
fn left_by_words<'a>(alloc: Global, words: &'a [&'a str], asked: &Asked<'a>) -> Result<Left, Fail> {
    let by_words = Asked {
        words,
        records: asked.records,
        aircraft: asked.aircraft,
        rules: asked.rules,
    };
    left_over_old(alloc, &by_words, &[], &[])
}

// Whether a run that asks for the least bound prints this, and with a certificate too, which is accepted for this claim.
fn is_planned(alloc: Global, asked: &Asked<'_>, printed: &str, claim: Claim) -> Result<bool, Fail> {
    let plain = left_by_words(alloc, BEST, asked)?;
    let certified = left_by_words(alloc, BEST_CERTIFIED, asked)?;
    let verdict = judged(
        alloc,
        &[TIMETABLE, asked.records],
        &[FLEET, asked.aircraft],
        &[RULES, asked.rules],
        &certified.cert,
    )?;
    let both = plain.seen.is(0, printed) && certified.seen.is(0, printed);
    Ok(both && plain.cert.len() == 4_000 && verdict == Verdict::Yes(claim))
}

// Two flights at once, and a dear arrival that survives.
#[test]
fn plans_of_least_cost_are_found(rt: HostRuntime) -> Result<(), Fail> {
    for &(asked, printed, claim) in &[
        (
            CROSSED,
            "optimal 240\nA1: F2\nA2: F1\n",
            Claim::Optimal(240),
        ),
        (
            STOPPED,
            "optimal 740\nA1: F1 F2 F5 F6\nA2: G1\n",
            Claim::Optimal(740),
        ),
    ] {
        assert!(rt;
            is_planned(rt.alloc(), &asked, printed, claim)?,
            "{printed}"
        );
    }
    Ok(())
}

// A tree of no counted nodes is the same in either order.
#[test]
fn the_root_alone_is_certified_alike(rt: HostRuntime) -> Result<(), Fail> {
    let depth_first = left_over_old(rt.alloc(), &LIMITED, &[], &[])?;
    let best = left_by_words(rt.alloc(), BEST_BOUNDED, &LIMITED)?;
    assert!(rt;
        best.seen.is(4, "limit 0 -\n") && best.cert.as_slice() == depth_first.cert.as_slice(),
        "{best:?}"
    );
    Ok(())
}
