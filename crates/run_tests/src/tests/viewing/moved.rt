//! What another aircraft flew in a plan that was published before: how it is drawn and counted, and which of the two plan
//! files is refused.

use super::fixtures::{WORDS, run_failing};
use crate::tests::runs::{Program, seen_over};
use small_texts::{
    AT_ONCE, FLEET, LEGAL, RULES, Seen, TIMETABLE, TWO_AT_ARLANDA, Typed, file_of, files_of,
    table_files, text_of,
};
use std::alloc::Global;
use std::test::Fail;
use tail_outside::MemFile;

const WITH_OLD: [&str; 8] = ["tailview", "t", "f", "r", "--plan", "p", "--moved", "o"];

// Two flights at once, of which the second aircraft flies the first.
const CROSSED: Typed<'_> = Typed {
    timetable: &[TIMETABLE, AT_ONCE],
    fleet: &[FLEET, TWO_AT_ARLANDA],
    rules: &[RULES],
    judged: &["optimal 180\nA1: F2\nA2: F1\n"],
};

// The files of these tables and of this plan, and the file `o` of an old plan.
fn files_and_old(alloc: Global, typed: Typed<'_>, old: &str) -> Result<Vec<MemFile>, Fail> {
    let mut files = files_of(alloc, typed)?;
    files.push(file_of(alloc, "o", text_of(alloc, &[old])?)?)?;
    Ok(files)
}

fn run_crossed(alloc: Global, old: &str) -> Result<Seen, Fail> {
    let files = files_and_old(alloc, CROSSED, old)?;
    run_failing(alloc, &WITH_OLD, files, &[], &[])
}

// Of the two flights one was flown by the other aircraft, and one by nobody.
#[test]
fn moved_bars_are_outlined_and_counted(rt: HostRuntime) -> Result<(), Fail> {
    let seen = run_crossed(rt.alloc(), "optimal 60\nA1: F1\nA2:\n")?;
    for &piece in &[
        "</style>\n<text class='moves' x='10' y='82'>1 moved</text>\n<text class='date' ",
        "<svg class='flight moved' x='700' y='254' width='60' height='60'>\
<title>F1, ARN 2025-03-03 06:00, OSL 2025-03-03 07:00, moved from A1</title>",
        "<svg class='flight' x='700' y='154' width='120' height='60'>\
<title>F2, ARN 2025-03-03 06:00, OSL 2025-03-03 08:00</title>",
    ] {
        assert!(rt; seen.has(0, piece), "{piece}");
    }
    Ok(())
}

// What is kept of the old plan decides: not a name that the book lacks, nor one that was met before.
#[test]
fn homes_are_those_of_the_kept_plan(rt: HostRuntime) -> Result<(), Fail> {
    for &(old, told) in &[
        ("optimal 180\nA1: F1\nA2: F2\n", ">2 moved<"),
        ("optimal 180\nA1: F2\nA2: F1\n", ">0 moved<"),
        ("optimal 1\nA9: F1 F2\n", ">0 moved<"),
        ("optimal 1\nA1: F1 F1 F9\nA2: F1 F2\n", ">2 moved<"),
        ("optimal 1\nA2: F1\nA2: F2\n", ">0 moved<"),
    ] {
        let seen = run_crossed(rt.alloc(), old)?;
        assert!(rt; seen.has(0, told), "{old}");
    }
    Ok(())
}

// An activity that no route has any more is no move, and a bar can be moved and break a rule.
#[test]
fn only_what_is_flown_is_moved(rt: HostRuntime) -> Result<(), Fail> {
    let judged: &[&str] = &["optimal 180\nA1:\nA2: F1 F9\n"];
    let files = files_and_old(
        rt.alloc(),
        Typed { judged, ..CROSSED },
        "optimal 180\nA1: F1 F2\n",
    )?;
    let seen = run_failing(rt.alloc(), &WITH_OLD, files, &[], &[])?;
    assert!(rt; seen.has(1, ">1 moved<"));
    assert!(rt; seen.has(1, "<svg class='flight red' x='700' y='354' "));

    let judged: &[&str] = &["optimal 180\nA1:\nA2: F1 F2\n"];
    let files = files_and_old(
        rt.alloc(),
        Typed { judged, ..CROSSED },
        "optimal 180\nA1: F1 F2\n",
    )?;
    let seen = run_failing(rt.alloc(), &WITH_OLD, files, &[], &[])?;
    assert!(rt; seen.has(1, ">2 moved<"));
    assert!(rt; seen.has(1, "<svg class='flight red moved' "));
    assert!(rt; seen.has(1, ", OSL 2025-03-03 08:00, moved from A1 nolink</title>"));
    Ok(())
}

// Without the option nothing of it shows, whatever else lies there.
#[test]
fn nothing_is_moved_unasked(rt: HostRuntime) -> Result<(), Fail> {
    let files = files_and_old(rt.alloc(), CROSSED, "optimal 180\nA1: F1\nA2: F2\n")?;
    let seen = run_failing(rt.alloc(), &WORDS, files, &[], &[])?;
    assert!(rt; seen.has(0, ">cost 180<"));
    assert!(rt; !seen.has(0, "move"));
    Ok(())
}

// The old plan is judged last: behind the tables and behind the plan.
#[test]
fn the_old_plan_is_refused_last(rt: HostRuntime) -> Result<(), Fail> {
    let (good, no_colon): (&[&str], &[&str]) = (&["optimal 1\n"], &["optimal 1\nA1 F1\n"]);
    for &(timetable, judged, old, printed) in &[
        (TIMETABLE, good, "optimal\n", "refused 3 plan 1\n"),
        (TIMETABLE, good, "", "refused 3 plan 1\n"),
        (TIMETABLE, good, "infeasible\n", "refused 3 plan 1\n"),
        (TIMETABLE, no_colon, "optimal\n", "refused 4 plan 2\n"),
        ("id\n", no_colon, "optimal\n", "refused 3 timetable 1\n"),
    ] {
        let typed = Typed {
            timetable: &[timetable, AT_ONCE],
            judged,
            ..CROSSED
        };
        let files = files_and_old(rt.alloc(), typed, old)?;
        let seen = run_failing(rt.alloc(), &WITH_OLD, files, &[], &[])?;
        assert!(rt; seen.is(3, printed), "{printed}");
    }
    Ok(())
}

// It is read behind the plan, in two calls, before anything is judged.
#[test]
fn the_old_plan_has_to_be_read(rt: HostRuntime) -> Result<(), Fail> {
    for call in 9..11 {
        let files = files_and_old(rt.alloc(), LEGAL, "optimal 1\n")?;
        let seen = run_failing(rt.alloc(), &WITH_OLD, files, &[call], &[])?;
        assert!(rt; seen.is(5, ""), "{call}");
    }
    let files = files_and_old(rt.alloc(), LEGAL, "optimal 1\n")?;
    let seen = run_failing(rt.alloc(), &WITH_OLD, files, &[11], &[])?;
    assert!(rt; seen.has(0, ">0 moved<"));
    let seen = run_failing(
        rt.alloc(),
        &WITH_OLD,
        files_of(rt.alloc(), LEGAL)?,
        &[],
        &[],
    )?;
    assert!(rt; seen.is(5, ""));
    Ok(())
}

// The plan that a repair of an old one prints.
fn repair_of(alloc: Global, old: &str) -> Result<Seen, Fail> {
    let mut files = table_files(alloc, CROSSED.timetable, CROSSED.fleet, CROSSED.rules)?;
    files.push(file_of(alloc, "p", text_of(alloc, &[old])?)?)?;
    let words = ["tailplan", "repair", "t", "f", "r", "p"];
    seen_over(alloc, Program::Planner, &words, files, &[], &[])
}

// A repair says how many activities it moves, and so does its picture.
#[test]
fn a_repair_moves_what_is_outlined(rt: HostRuntime) -> Result<(), Fail> {
    for &(old, repaired, told) in &[
        (
            "optimal 1\nA1: F1 F2\n",
            "repaired 1 180\nA1: F",
            ">1 moved<",
        ),
        (
            "optimal 1\nA1: F2\nA2: F1\n",
            "repaired 0 180\nA1: F2\nA2: F1\n",
            ">0 moved<",
        ),
    ] {
        let repair = repair_of(rt.alloc(), old)?;
        assert!(rt; repair.has(0, repaired), "{old}");
        let mut files = table_files(rt.alloc(), CROSSED.timetable, CROSSED.fleet, CROSSED.rules)?;
        files.push(file_of(rt.alloc(), "p", repair.printed)?)?;
        files.push(file_of(rt.alloc(), "o", text_of(rt.alloc(), &[old])?)?)?;
        let seen = run_failing(rt.alloc(), &WITH_OLD, files, &[], &[])?;
        assert!(rt; seen.has(0, told), "{old}");
    }
    Ok(())
}
