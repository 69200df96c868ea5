//! Certificates of runs, in files in memory: what is written, what was there before, and what each failed call leaves.

use super::{book_of, push_file};
use cert_checker::{Verdict, judge};
use run_frame::Ran;
use small_texts::{
    AT_ONCE, CHEAP_AND_DEAR, DEAR_TYPE, FLEET, LONGER_TURN, ONE_AT_ARLANDA, RULES, Seen, THERE,
    THERE_AND_BACK, THREE_LANDINGS, TIMETABLE, TWO_AT_ARLANDA, WITH_A_STOP, table_files, words_of,
};
use std::alloc::Global;
use std::process::Abort;
use std::test::Fail;
use tail_book::Claim;
use tail_outside::{MemFile, MemFiles, MemSink};
use tailplan::solve_run;

/// How a run ended, what it printed, and what the certificate's file holds then.
#[derive(Debug, Drop)]
pub struct Left {
    pub seen: Seen,
    pub cert: Vec<u8>,
}

// What a run left.
fn left_in(alloc: Global, ran: &Ran<MemFiles>, sink: &MemSink) -> Result<Left, Fail> {
    let cert = ran.files.bytes("c").unwrap_or(b"gone".as_slice());
    let cert = cert.to_vec(alloc)?;
    let seen = Seen::of(alloc, ran.status.0, sink)?;
    Ok(Left { seen, cert })
}

// What a run by these words over these files leaves, where these calls of the sink fail.
fn left_of(alloc: Global, words: &[String], files: MemFiles, puts: &[u64]) -> Result<Left, Fail> {
    let puts = Vec::from_slice(alloc, puts)?;
    let mut sink = MemSink::new(alloc, puts)?;
    let ran = solve_run(alloc, words, files, &mut sink);
    left_in(alloc, &ran, &sink)
}

// The same, where these calls of the files fail too.
fn left_by(
    alloc: Global,
    words: &[&str],
    files: Vec<MemFile>,
    calls: &[u64],
    puts: &[u64],
) -> Result<Left, Fail> {
    let calls = Vec::from_slice(alloc, calls)?;
    let files = MemFiles::new(alloc, files, calls)?;
    let words = words_of(alloc, words)?;
    left_of(alloc, &words, files, puts)
}

/// A run's words, its records, its aircraft and the rules behind the usual ones.
#[derive(Clone, Copy)]
pub struct Asked<'a> {
    pub words: &'a [&'a str],
    pub records: &'a str,
    pub aircraft: &'a str,
    pub rules: &'a str,
}

// The files of its tables, with a longer file under the certificate's name.
fn files_with_old(alloc: Global, asked: &Asked<'_>) -> Result<Vec<MemFile>, Fail> {
    let old = vec![in alloc; b'x'; 4_000]?;
    let mut files = table_files(
        alloc,
        &[TIMETABLE, asked.records],
        &[FLEET, asked.aircraft],
        &[RULES, asked.rules],
    )?;
    push_file(alloc, &mut files, "c", old)?;
    Ok(files)
}

/// What it leaves over these, where these calls of the files and of the sink fail.
pub fn left_over_old(
    alloc: Global,
    asked: &Asked<'_>,
    calls: &[u64],
    puts: &[u64],
) -> Result<Left, Fail> {
    let files = files_with_old(alloc, asked)?;
    left_by(alloc, asked.words, files, calls, puts)
}

/// The words that ask for a certificate, with a limit of no nodes behind them or not.
pub const CERTIFIED: &[&str] = &["tailplan", "t", "f", "r", "--cert", "c"];

pub const BOUNDED: &[&str] = &["tailplan", "t", "f", "r", "--cert", "c", "--nodes", "0"];

/// Two flights at once, of which the dear aircraft flies one.
pub const CROSSED: Asked<'_> = Asked {
    words: CERTIFIED,
    records: AT_ONCE,
    aircraft: CHEAP_AND_DEAR,
    rules: DEAR_TYPE,
};

/// The same, where no node is counted.
pub const LIMITED: Asked<'_> = Asked {
    words: BOUNDED,
    ..CROSSED
};

// The words that ask for a lean certificate, and the same with no node counted.
const LEAN: &[&str] = &["tailplan", "t", "f", "r", "--cert", "c", "--lean"];

const LEAN_LIMITED: Asked<'_> = Asked {
    words: &[
        "tailplan", "t", "--lean", "f", "r", "--nodes", "0", "--cert", "c",
    ],
    ..CROSSED
};

// A flight that nobody is there to fly.
const UNFLOWN: Asked<'_> = Asked {
    words: CERTIFIED,
    records: THERE,
    aircraft: "",
    rules: "",
};

// Whether a run ends with this status and writes this certificate.
fn is_written(alloc: Global, asked: &Asked<'_>, status: u8, cert: &str) -> Result<bool, Fail> {
    let left = left_over_old(alloc, asked, &[], &[])?;
    Ok(left.seen.status == status && left.cert.as_slice() == cert.as_bytes())
}

// No aircraft, and a bound of nothing.
#[test]
fn certificates_are_written(rt: HostRuntime) -> Result<(), Fail> {
    for (asked, status, cert) in &[
        (UNFLOWN, 1, "tailcert 1 1 0 0\nhole 0\nclaim infeasible\n"),
        (
            LIMITED,
            4,
            "tailcert 1 2 2 0\nbound\ncover 0 0\nlabel 0 60000\nlabel 1 120000\ncover 1 0\n\
label 0 120000\nlabel 1 240000\nclaim limit 0 -\n",
        ),
        (LEAN_LIMITED, 4, "tailcert 2 2 2 0\nlean\nclaim limit 0 -\n"),
    ] {
        assert!(rt; is_written(rt.alloc(), asked, *status, cert)?, "{cert}");
    }
    Ok(())
}

// A turn of 31 minutes where there are 30: the steps are told, and then the hole.
#[test]
fn steps_are_written(rt: HostRuntime) -> Result<(), Fail> {
    let files = table_files(
        rt.alloc(),
        &[TIMETABLE, THERE_AND_BACK],
        &[FLEET, ONE_AT_ARLANDA],
        &[LONGER_TURN],
    )?;
    let left = left_by(rt.alloc(), CERTIFIED, files, &[], &[])?;
    let cert = b"tailcert 1 2 1 0\nbar 0 1\nmust 0 0\nhole 1\nclaim infeasible\n".as_slice();
    assert!(rt;
        left.seen.is(1, "infeasible\n") && left.cert.as_slice() == cert,
        "{left:?}"
    );
    Ok(())
}

// Whether a run ends with this status and leaves the file as it was.
fn is_untouched(alloc: Global, asked: &Asked<'_>, status: u8) -> Result<bool, Fail> {
    let left = left_over_old(alloc, asked, &[], &[])?;
    Ok(left.seen.status == status && left.cert.len() == 4_000)
}

// Where the words or a table are refused the file is as it was.
#[test]
fn refusals_leave_the_file(rt: HostRuntime) -> Result<(), Fail> {
    for (asked, status) in &[
        (
            Asked {
                words: CERTIFIED,
                records: "F1,flight,ARN\n",
                aircraft: ONE_AT_ARLANDA,
                rules: "",
            },
            3,
        ),
        (
            Asked {
                words: &["tailplan", "t", "f", "--cert", "c"],
                records: THERE,
                aircraft: ONE_AT_ARLANDA,
                rules: "",
            },
            2,
        ),
    ] {
        assert!(rt; is_untouched(rt.alloc(), asked, *status)?, "{status}");
    }
    Ok(())
}

// Whether two runs ended alike and left the same.
fn are_alike(left: &Left, whole: &Left) -> bool {
    left.seen.status == whole.seen.status
        && left.seen.printed.as_slice() == whole.seen.printed.as_slice()
        && left.cert.as_slice() == whole.cert.as_slice()
}

// Whether a run of which this call of the files fails leaves what it may. The first six are reads, and the file is as it was; then
// it is begun, and after that failure is as it was too; then the header is added, and then all other lines: where one of these fails,
// the pieces before it are there. Nothing is printed. There is no tenth call.
fn call_leaves_a_front(
    alloc: Global,
    asked: &Asked<'_>,
    call: u64,
    whole: &Left,
) -> Result<bool, Fail> {
    let left = left_over_old(alloc, asked, &[call], &[])?;
    if call > 9 {
        return Ok(are_alike(&left, whole));
    }
    let status = if call > 6 { 6 } else { 5 };
    let kept = if call > 7 {
        whole.cert.starts_with(&left.cert) && left.cert.len() < whole.cert.len()
    } else {
        left.cert.len() == 4_000
    };
    Ok(left.seen.is(status, "") && kept)
}

fn calls_leave_a_front(rt: &impl Abort, alloc: Global, asked: &Asked<'_>) -> Result<(), Fail> {
    let whole = left_over_old(alloc, asked, &[], &[])?;
    for call in 1..11 {
        assert!(rt; call_leaves_a_front(alloc, asked, call, &whole)?, "{call}");
    }
    Ok(())
}

// Each call of the files fails in turn.
#[test]
fn failed_calls_leave_a_front(rt: HostRuntime) -> Result<(), Fail> {
    for asked in &[UNFLOWN, CROSSED, LIMITED, LEAN_LIMITED] {
        calls_leave_a_front(&rt, rt.alloc(), asked)?;
    }
    Ok(())
}

// Whether a run of which this call of the sink fails ends so, with its certificate whole.
fn put_ends_so(alloc: Global, put: u64, status: u8, printed: &str) -> Result<bool, Fail> {
    let left = left_over_old(alloc, &CROSSED, &[], &[put])?;
    let whole = left_over_old(alloc, &CROSSED, &[], &[])?;
    Ok(left.seen.is(status, printed) && left.cert.as_slice() == whole.cert.as_slice())
}

// Each line is a call of the sink, which holds the lines before the one that fails. The certificate was written before them.
#[test]
fn failed_puts_leave_the_certificate(rt: HostRuntime) -> Result<(), Fail> {
    for &(put, status, printed) in &[
        (1, 6, ""),
        (2, 6, "optimal 240\n"),
        (3, 6, "optimal 240\nA1: F2\n"),
        (4, 0, "optimal 240\nA1: F2\nA2: F1\n"),
    ] {
        assert!(rt; put_ends_so(rt.alloc(), put, status, printed)?, "{put}");
    }
    Ok(())
}

/// What the checker says of a text as a certificate of the texts of three tables.
pub fn judged(
    alloc: Global,
    timetable: &[&str],
    fleet: &[&str],
    rules: &[&str],
    cert: &[u8],
) -> Result<Verdict, Fail> {
    let book = book_of(alloc, timetable, fleet, rules)?;
    Ok(judge(alloc, &book, cert)?)
}

/// The verdict on the certificate that is left by a run by these words over these texts.
pub fn verdict_on(
    alloc: Global,
    words: &[&str],
    records: &str,
    fleet: &[&str],
    rules: &[&str],
) -> Result<Verdict, Fail> {
    let files = table_files(alloc, &[TIMETABLE, records], fleet, rules)?;
    let left = left_by(alloc, words, files, &[], &[])?;
    judged(alloc, &[TIMETABLE, records], fleet, rules, &left.cert)
}

// What is written in either version is accepted: a plan of least cost, one in which a dear arrival survives, and that there is none.
#[test]
fn certificates_are_accepted(rt: HostRuntime) -> Result<(), Fail> {
    for &(records, aircraft, rules, claim) in &[
        (AT_ONCE, CHEAP_AND_DEAR, DEAR_TYPE, Claim::Optimal(240)),
        (
            WITH_A_STOP,
            TWO_AT_ARLANDA,
            THREE_LANDINGS,
            Claim::Optimal(740),
        ),
        (THERE_AND_BACK, "", "", Claim::Infeasible),
    ] {
        for &words in &[CERTIFIED, LEAN] {
            let verdict = verdict_on(
                rt.alloc(),
                words,
                records,
                &[FLEET, aircraft],
                &[RULES, rules],
            )?;
            assert!(rt; verdict == Verdict::Yes(claim), "{claim:?}, {words:?}");
        }
    }
    Ok(())
}
