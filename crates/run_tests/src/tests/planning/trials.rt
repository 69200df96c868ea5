//! Trials: the tables of a seed, planned, certified and judged in memory.

use super::{Run, USAGE, USUAL, book_of, each_run_ends_so, ends_failing, ends_over, push_text};
use crate::tests::runs::{Program, seen_by};
use branch_tree::Limit;
use cert_checker::{Verdict, judge};
use cert_lines::Version;
use certified_search::{Order, certified_search};
use run_frame::{Finding, NO_MEMORY};
use small_texts::{FLEET, ONE_AT_ARLANDA, RULES, Seen, THERE_AND_BACK, TIMETABLE};
use std::alloc::Global;
use std::process::Abort;
use std::test::Fail;
use tail_book::{Book, Claim, CostTable, Memory, Outcome};
use tail_outside::{MemFile, MemFiles, MemSink};
use tailplan::{Checker, Judge, Tried, is_accepted, run_trial};

const TRIAL: &[&str] = &["tailplan", "trial", "1"];

const PRINTED: &str = "trial 1 activities 120 aircraft 8\noptimal 21418\ncheck yes\n";

// Whether the trial of a seed, with no file there, finds this cost.
fn costs_so(alloc: Global, seed: &str, cost: &str) -> Result<bool, Fail> {
    let due = format!(in alloc;
        "trial {seed} activities 120 aircraft 8\noptimal {cost}\ncheck yes\n"
    )?;
    let words = ["tailplan", "trial", seed];
    ends_over(alloc, &words, Vec::new(alloc), 0, &due)
}

// The costs are sums that another program made, which draws as the definition says and plans nothing.
#[test]
fn trials_cost_what_was_made(rt: HostRuntime) -> Result<(), Fail> {
    for &(seed, cost) in &[
        ("0", "21737"),
        ("1", "21418"),
        ("2", "21367"),
        ("3", "22015"),
        ("4", "21515"),
        ("5", "20310"),
        ("6", "21818"),
        ("7", "21872"),
        ("8", "21874"),
        ("9", "22866"),
        ("10", "21338"),
        ("11", "21347"),
        ("12", "22487"),
        ("13", "21930"),
        ("14", "21300"),
        ("15", "21010"),
        ("16", "21256"),
        ("17", "22341"),
        ("18", "21180"),
        ("19", "20832"),
    ] {
        assert!(rt; costs_so(rt.alloc(), seed, cost)?, "{seed}");
    }
    Ok(())
}

// Each line is one call, and a write that fails ends the trial. No file is touched: the first call of one would fail.
#[test]
fn a_failed_write_ends_a_trial(rt: HostRuntime) -> Result<(), Fail> {
    for &(put, ended) in &[
        (1, (6, "")),
        (2, (6, "trial 1 activities 120 aircraft 8\n")),
        (3, (6, "trial 1 activities 120 aircraft 8\noptimal 21418\n")),
        (4, (0, PRINTED)),
    ] {
        assert!(rt; ends_failing(rt.alloc(), TRIAL, 1, put, ended)?, "{put}");
    }
    Ok(())
}

// The words that ask for the trial of seed 1, or that memory ran out.
fn trial_words(alloc: Global) -> Result<Vec<String>, Memory> {
    let mut words = Vec::new(alloc);
    for word in TRIAL {
        words.push(String::from_str(alloc, word)?)?;
    }
    Ok(words)
}

// What is seen of it, or that memory ran out in what is made for it or kept of it.
fn trial_or_no_memory(alloc: Global) -> Result<Seen, Memory> {
    let words = trial_words(alloc)?;
    let files = MemFiles::new(alloc, Vec::new(alloc), Vec::new(alloc))?;
    seen_by(alloc, Program::Planner, &words, files, &[])
}

// Whether a trial had the memory that it takes, and then printed all. One that had not printed a front of it.
fn is_whole(rt: &impl Abort, alloc: Global) -> bool {
    let Ok(seen) = trial_or_no_memory(alloc) else {
        return false;
    };
    if seen.status == NO_MEMORY.0 {
        assert!(rt; PRINTED.as_bytes().starts_with(&seen.printed), "{seen:?}");
        return false;
    }
    assert!(rt; seen.is(0, PRINTED), "{seen:?}");
    true
}

// This holds where any one allocation fails, and where none does: one of two trials has all memory.
#[test]
fn a_trial_without_memory_prints_a_front(rt: HostRuntime) -> Result<(), Fail> {
    let first = is_whole(&rt, rt.alloc());
    let second = is_whole(&rt, rt.alloc());
    assert!(rt; first || second);
    Ok(())
}

// Adds the usual files, where the timetable's has this name.
fn push_tables(alloc: Global, files: &mut Vec<MemFile>, name: &str) -> Result<(), Fail> {
    push_text(alloc, files, name, &[TIMETABLE, THERE_AND_BACK])?;
    push_text(alloc, files, "f", &[FLEET, ONE_AT_ARLANDA])?;
    push_text(alloc, files, "r", &[RULES])
}

// Whether a run ends so whose timetable is in a file of this name.
fn ends_named(alloc: Global, name: &str, status: u8, printed: &str) -> Result<bool, Fail> {
    let mut files = Vec::new(alloc);
    push_tables(alloc, &mut files, name)?;
    ends_over(alloc, &["tailplan", name, "f", "r"], files, status, printed)
}

// A timetable in a file of that name, under a path and under the bare name.
#[test]
fn a_timetable_may_be_called_trial(rt: HostRuntime) -> Result<(), Fail> {
    for &(name, status, printed) in &[
        ("./trial", 0, "optimal 120\nA1: F1 F2\n"),
        ("trial", 2, USAGE),
    ] {
        assert!(rt; ends_named(rt.alloc(), name, status, printed)?, "{name}");
    }
    Ok(())
}

// Words that ask for no trial and name no tables.
const REFUSED: Run<'_> = Run {
    status: 2,
    printed: USAGE,
    ..USUAL
};

// Seeds that are too great, not a number, or not alone.
#[test]
fn other_seeds_are_refused(rt: HostRuntime) -> Result<(), Fail> {
    let runs: &[Run<'_>] = &[
        Run {
            words: &["tailplan", "trial", "1000001"],
            ..REFUSED
        },
        Run {
            words: &["tailplan", "trial", "01"],
            ..REFUSED
        },
        Run {
            words: &["tailplan", "trial"],
            ..REFUSED
        },
        Run {
            words: &["tailplan", "trial", "1", "--nodes", "5"],
            ..REFUSED
        },
    ];
    each_run_ends_so(&rt, rt.alloc(), runs)
}

/// The checker, with what it was asked: how many texts, and what the last that it accepted claims.
#[derive(Drop)]
struct Asked {
    texts: u64,
    claim: Option<Claim>,
}

impl Judge for Asked {
    fn judge(&mut self, alloc: Global, book: &Book, text: &[u8]) -> Result<Verdict, Memory> {
        self.texts = self.texts.saturating_add(1);
        let verdict = judge(alloc, book, text)?;
        if let Verdict::Yes(claim) = &verdict {
            self.claim = Some(*claim);
        }
        Ok(verdict)
    }
}

// The checker gives no other answer to a trial, so no clause tells one that asks it from one that only prints a yes. This test
// sees that it is asked once, and that it accepts a certificate of what is printed.
#[test]
fn the_certificate_of_a_trial_is_judged(rt: HostRuntime) -> Result<(), Fail> {
    let alloc = rt.alloc();
    let mut asked = Asked {
        texts: 0,
        claim: None,
    };
    let mut sink = MemSink::new(alloc, Vec::new(alloc))?;
    let status = run_trial(alloc, 1, &mut asked, &mut sink);
    assert!(rt; status.0 == 0 && sink.bytes() == PRINTED.as_bytes());
    assert!(rt; asked.texts == 1 && asked.claim == Some(Claim::Optimal(21_418)));
    Ok(())
}

// The certificate of a book.
fn certificate_of(alloc: Global, book: &Book) -> Result<Vec<u8>, Fail> {
    let table = CostTable::of(alloc, book)?;
    let sink = MemSink::new(alloc, Vec::new(alloc))?;
    let done = certified_search(
        alloc,
        book,
        &table,
        Limit::Nodes(50),
        Order::DepthFirst,
        Version::Full,
        sink,
    );
    Ok(done.sink.bytes().to_vec(alloc)?)
}

// The certificate of a book is accepted, and no shorter one is.
fn only_the_whole_is_accepted(rt: &impl Abort, alloc: Global, book: &Book) -> Result<(), Fail> {
    let text = certificate_of(alloc, book)?;
    assert!(rt; is_accepted(alloc, book, &text, &mut Checker)?);
    for length in 0..text.len() {
        assert!(rt;
            !is_accepted(alloc, book, &text[..length], &mut Checker)?,
            "{length}"
        );
    }
    Ok(())
}

// The checker has read a certificate to its end.
#[test]
fn damaged_certificates_are_not_accepted(rt: HostRuntime) -> Result<(), Fail> {
    let book = book_of(
        rt.alloc(),
        &[TIMETABLE, THERE_AND_BACK],
        &[FLEET, ONE_AT_ARLANDA],
        &[RULES],
    )?;
    only_the_whole_is_accepted(&rt, rt.alloc(), &book)
}

// What would be printed where a certificate is not accepted.
#[test]
fn a_refused_certificate_is_told(rt: HostRuntime) -> Result<(), Fail> {
    let alloc = rt.alloc();
    let mut sink = MemSink::new(alloc, Vec::new(alloc))?;
    let tried = Tried {
        seed: 7,
        outcome: Outcome::Above { low: 5, nodes: 50 },
        accepted: false,
    };
    let written = tried.write(alloc, &mut sink);
    let due = b"trial 7 activities 120 aircraft 8\nlimit 5 -\ncheck no\n".as_slice();
    assert!(rt; written.is_ok() && sink.bytes() == due);
    Ok(())
}
