//! A strip for each day, one below the other, where it is asked for.

use super::fixtures::{WORDS, run_failing};
use small_texts::{LEGAL, Seen, TIMETABLE, Typed, files_of};
use std::alloc::Global;
use std::test::Fail;

// A flight to Oslo, and one back on the next day.
const TWO_DAYS: &str = "F1,flight,ARN,OSL,2025-03-03T06:00,2025-03-03T07:00,,,,\n\
F2,flight,OSL,ARN,2025-03-04T06:00,2025-03-04T07:00,,,,\n";

fn run_two_days(alloc: Global, words: &[&str]) -> Result<Seen, Fail> {
    let typed = Typed {
        timetable: &[TIMETABLE, TWO_DAYS],
        ..LEGAL
    };
    run_failing(alloc, words, files_of(alloc, typed)?, &[], &[])
}

const BY_DAY: [&str; 7] = ["tailview", "t", "f", "r", "--plan", "p", "--by-day"];

// Both days stand once in the text, and each is shown in its strip, beside the names.
#[test]
fn each_day_has_a_strip(rt: HostRuntime) -> Result<(), Fail> {
    let seen = run_two_days(rt.alloc(), &BY_DAY)?;
    for &piece in &[
        "<svg xmlns='http://www.w3.org/2000/svg' viewBox='0 0 1780 450' width='1186' height='300'>\n<style>",
        "<text class='title' x='10' y='40'>cost 120</text>\n<defs><g id='all'>\n<defs><pattern id='clock'",
        "<text class='date' x='344' y='82'>2025-03-03</text>\n<text class='date' x='1784' y='82'>2025-03-04</text>\n",
        "<svg class='flight' x='700' y='154' width='60' height='60'><title>F1, ",
        "<svg class='flight' x='2140' y='154' width='60' height='60'><title>F2, ",
        "</g></defs>\n\
<svg x='0' y='50' width='340' height='200' viewBox='0 50 340 200'><use href='#all'/></svg>\n\
<svg x='340' y='50' width='1440' height='200' viewBox='340 50 1440 200'><use href='#all'/></svg>\n\
<svg x='0' y='250' width='340' height='200' viewBox='0 50 340 200'><use href='#all'/></svg>\n\
<svg x='340' y='250' width='1440' height='200' viewBox='1780 50 1440 200'><use href='#all'/></svg>\n\
</svg>\n",
    ] {
        assert!(rt; seen.has(0, piece), "{piece}");
    }
    Ok(())
}

// Unasked, all days stand in one strip.
#[test]
fn all_days_stand_in_one_strip_unasked(rt: HostRuntime) -> Result<(), Fail> {
    let seen = run_two_days(rt.alloc(), &WORDS)?;
    assert!(rt; seen.has(0, " viewBox='0 0 3220 250' width='2146' height='166'>\n"));
    for &piece in &["<use ", "id='all'"] {
        assert!(rt; !seen.has(0, piece), "{piece}");
    }
    Ok(())
}

// The flag stands anywhere, once or more, with every other option: the moves are told once, above the strips.
#[test]
fn strips_go_with_all_that_is_shown(rt: HostRuntime) -> Result<(), Fail> {
    let rows: &[(&[&str], &str)] = &[
        (&BY_DAY, ">cost 120</text>\n<defs><g id='all'>\n"),
        (
            &[
                "tailview", "--by-day", "t", "f", "--by-day", "r", "--plan=p",
            ],
            ">cost 120</text>\n<defs><g id='all'>\n",
        ),
        (
            &[
                "tailview", "t", "f", "r", "--plan", "p", "--moved", "p", "--by-day",
            ],
            ">0 moved</text>\n<defs><g id='all'>\n",
        ),
        (
            &[
                "tailview", "t", "f", "r", "--html", "--by-day", "--plan", "p",
            ],
            "<use href='#all'/></svg>\n</svg>\n</body></html>\n",
        ),
    ];
    for &(words, piece) in rows {
        let seen = run_two_days(rt.alloc(), words)?;
        assert!(rt; seen.has(0, piece), "{words:?}");
    }
    Ok(())
}
