//! The picture of a shortage: what is drawn of it, and which words and files are refused.

use crate::tests::runs::{Program, seen_over};
use small_texts::{
    FLEET, ONE_AT_ARLANDA, RULES, Seen, THERE_AND_BACK, TIMETABLE, file_of, table_files, text_of,
};
use std::alloc::Global;
use std::test::Fail;

// Words, what the shortage's file holds, and the status and a piece of what is printed.
type Row<'a> = (&'a [&'a str], &'a str, u8, &'a str);

const WORDS: &[&str] = &["tailview", "--shortage", "s", "t", "f", "r"];

const BACK: &str =
    "infeasible\nbecause airport OSL until x\nasked F2\nbrought F1\nat most 0: A1 0\n";

const ROWS: &[Row<'_>] = &[
    // the title, the asked flight where it starts, and the brought one where it ends
    (
        WORDS,
        BACK,
        0,
        ">because airport OSL until x: asked 1, brought 1, at most 0: A1 0</text>\n",
    ),
    (
        WORDS,
        BACK,
        0,
        ">OSL <tspan class='type'>asked</tspan></text><text class='share'></text></svg>\n\
<svg class='flight' x='790' y='154' width='60' height='60'><title>F2, ",
    ),
    (
        WORDS,
        BACK,
        0,
        ">OSL <tspan class='type'>brought</tspan></text><text class='share'></text></svg>\n\
<svg class='flight' x='700' y='254' width='60' height='60'><title>F1, ",
    ),
    (
        &["tailview", "--shortage=s", "t", "f", "r", "--html"],
        BACK,
        0,
        "</svg>\n</body></html>\n",
    ),
    // the option stands first, and beside no plan
    (
        &["tailview", "t", "f", "r", "--shortage", "s"],
        BACK,
        2,
        "usage: tailview TIMETABLE",
    ),
    (
        &["tailview", "--shortage", "s", "t", "f", "r", "--plan", "s"],
        BACK,
        2,
        "usage: tailview --shortage FILE",
    ),
    // what is no shortage
    (WORDS, "feasible\n", 3, "refused 3 plan 1\n"),
    (
        WORDS,
        "infeasible\nbecause nothing short\n",
        3,
        "refused 4 plan 3\n",
    ),
    (
        WORDS,
        "infeasible\nbecause nothing short\nuncovered F2\n",
        3,
        "refused 4 plan 3\n",
    ),
    (
        WORDS,
        "infeasible\nbecause a<b\nasked F2\nat most 0\n",
        3,
        "refused 4 plan 2\n",
    ),
    (
        WORDS,
        "infeasible\nbecause x\nasked F3\nat most 0\n",
        3,
        "refused 12 plan 3\n",
    ),
    (
        WORDS,
        "infeasible\nbecause x\nasked F2\nat most 0",
        3,
        "refused 4 plan 5\n",
    ),
    (
        WORDS,
        "infeasible\nbecause x\nasked F2\nbrought F1\nat most 0\n\n",
        3,
        "refused 4 plan 6\n",
    ),
];

// What is seen of a run over a flight to Oslo and one back, one aircraft, and this shortage.
fn run_told(alloc: Global, words: &[&str], told: &str) -> Result<Seen, Fail> {
    let mut files = table_files(
        alloc,
        &[TIMETABLE, THERE_AND_BACK],
        &[FLEET, ONE_AT_ARLANDA],
        &[RULES],
    )?;
    files.push(file_of(alloc, "s", text_of(alloc, &[told])?)?)?;
    seen_over(alloc, Program::Viewer, words, files, &[], &[])
}

#[test]
fn a_shortage_is_drawn_or_refused(rt: HostRuntime) -> Result<(), Fail> {
    for (number, &(words, told, status, piece)) in ROWS.iter().enumerate() {
        let seen = run_told(rt.alloc(), words, told)?;
        assert!(rt; seen.has(status, piece), "row {number}");
    }
    Ok(())
}
