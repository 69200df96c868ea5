//! What is drawn: each kind of bar, what is marked between bars, and each broken rule.

use super::fixtures::{run_failing, run_there_and_back, run_with};
use small_texts::{
    LEGAL, ONE_AT_ARLANDA, RULES, Seen, THERE_AND_BACK, TWO_AT_ARLANDA, Typed, files_of, files_with,
};
use std::alloc::Global;
use std::test::Fail;

// The picture of two flights: the cost, the aircraft, both bars at their minutes, and the turn between them.
#[test]
fn a_legal_plan_is_drawn(rt: HostRuntime) -> Result<(), Fail> {
    let seen = run_there_and_back(rt.alloc(), "optimal 120\nA1: F1 F2\n")?;
    for &piece in &[
        "<svg xmlns='http://www.w3.org/2000/svg' viewBox='0 0 1780 250' width='1186' height='166'>\n<style>",
        "<text class='title' x='10' y='40'>cost 120</text>\n",
        "<text class='date' x='344' y='82'>2025-03-03</text>\n",
        "<text class='again' x='8' y='18'>A1</text>",
        "<text class='name' x='10' y='34'>A1 <tspan class='type'>P</tspan></text>",
        "<svg class='flight' x='700' y='154' width='60' height='60'><title>F1, ARN 2025-03-03 06:00, OSL 2025-03-03 07:00</title>\
<rect width='100%' height='32'/><text class='id' x='50%' y='22'>F1</text><text class='port' x='2' y='44'>ARN</text>\
<text class='port to' x='100%' y='56'>OSL</text></svg>\n<rect class='turn' x='760' y='167' width='30' height='6'/>\n\
<svg class='flight' x='790' y='154' width='60' height='60'><title>F2, ",
        "</svg>\n</svg>\n",
    ] {
        assert!(rt; seen.has(0, piece), "{piece}");
    }
    for &piece in &[
        " red'",
        "class='rule'",
        "class='stop'",
        "<pattern id='curfew",
        "<html",
    ] {
        assert!(rt; !seen.has(0, piece), "{piece}");
    }
    Ok(())
}

const GROUND: &str = "F1,flight,ARN,OSL,2025-03-03T06:00,2025-03-03T07:00,,,,\n\
G1,ground,OSL,OSL,2025-03-03T09:00,2025-03-03T10:30,,,,\n\
F2,flight,OSL,ARN,2025-03-04T10:30,2025-03-04T11:30,,,,\n";

const FLIGHT_HOURS: &str =
    "[[counter]]\nname = \"fh\"\nkind = \"minutes\"\nlimit = 120\nbases = [\"OSL\"]\nstop = 120\n";

// Ground time in its own shade, the stops that clear a counter, and the greatest share of its limit.
#[test]
fn ground_time_and_stops_are_drawn(rt: HostRuntime) -> Result<(), Fail> {
    let plan = "optimal 120\nA1: F1 G1 F2\n";
    let seen = run_with(rt.alloc(), GROUND, ONE_AT_ARLANDA, FLIGHT_HOURS, plan)?;
    for &piece in &[
        "<svg class='stop' x='760' y='160' width='120' height='20'><title>clears fh</title>",
        "<svg class='ground' x='880' y='154' width='90' height='60'><title>G1, OSL 2025-03-03 09:00, OSL 2025-03-03 10:30</title>",
        "<svg class='stop' x='970' y='160' width='1440' height='20'><title>clears fh</title>",
        "<svg class='flight' x='2410' y='154' width='60' height='60'><title>F2, ",
        "<text class='date' x='1784' y='82'>2025-03-04</text>\n",
        "<text class='share'><tspan x='10' y='56'>fh 50%</tspan></text>",
    ] {
        assert!(rt; seen.has(0, piece), "{piece}");
    }
    assert!(rt; !seen.has(0, "class='turn' "));
    Ok(())
}

const NIGHT: &str = "[[curfew]]\nairport = \"OSL\"\nfrom = \"07:30\"\nto = \"08:30\"\ntypes = []\n\
start = true\nlanding = true\n";

const LANDINGS: &str =
    "[[counter]]\nname = \"ldg\"\nkind = \"landings\"\nlimit = 1\nbases = []\nstop = 60\n";

// Each rule that a bar can break, by its name above or below the bar, which is red.
#[test]
fn broken_rules_are_named_in_red(rt: HostRuntime) -> Result<(), Fail> {
    for &(records, more_rules, plan, rule) in &[
        (
            THERE_AND_BACK,
            "",
            "optimal 1\nA1: F2 F1\n",
            "<text class='rule' x='790' y='148'> nolink</text>\n",
        ),
        (
            THERE_AND_BACK,
            NIGHT,
            "optimal 1\nA1: F1 F2\n",
            "<text class='rule' x='700' y='148'> curfew</text>\n",
        ),
        (
            THERE_AND_BACK,
            LANDINGS,
            "optimal 1\nA1: F1 F2\n",
            "<text class='rule' x='790' y='226'> counter ldg</text>\n",
        ),
        (
            "F1,flight,ARN,OSL,2025-03-03T06:00,2025-03-03T07:00,,x,,\n",
            "",
            "optimal 1\nA1: F1\n",
            "<text class='rule' x='700' y='148'> notallowed</text>\n",
        ),
    ] {
        let seen = run_with(rt.alloc(), records, ONE_AT_ARLANDA, more_rules, plan)?;
        assert!(rt; seen.has(1, rule), "{rule}");
        assert!(rt; seen.has(1, "<svg class='flight red' "), "{rule}");
    }
    Ok(())
}

// What no route has stands in rows of its own, and what is wrong with names in the title.
#[test]
fn names_and_uncovered_activities_are_told(rt: HostRuntime) -> Result<(), Fail> {
    let plan = "optimal 120\nA1: F1 F9 F1\nA8:\n";
    let seen = run_with(rt.alloc(), THERE_AND_BACK, TWO_AT_ARLANDA, "", plan)?;
    for &piece in &[
        "<text class='title broken' x='10' y='40'>broken rules 4, unknown F9, unknown A8, twice F1</text>\n",
        "<text class='name' x='10' y='34'>uncovered ",
        "<svg class='flight red' x='790' y='354' width='60' height='60'><title>F2, ",
        "<text class='rule' x='790' y='348'> uncovered</text>\n",
    ] {
        assert!(rt; seen.has(1, piece), "{piece}");
    }
    Ok(())
}

fn run_as(alloc: Global, words: &[&str]) -> Result<Seen, Fail> {
    let typed = Typed {
        rules: &[
            RULES,
            "[[curfew]]\nairport = \"OSL\"\nfrom = \"23:00\"\nto = \"05:30\"\ntypes = []\nstart = true\nlanding = true\n",
        ],
        ..LEGAL
    };
    run_failing(alloc, words, files_of(alloc, typed)?, &[], &[])
}

// The curfews of an airport, an hour ahead of UTC, as a band, and a page around the picture: each only where it is asked
// for.
#[test]
fn curfews_and_pages_on_request(rt: HostRuntime) -> Result<(), Fail> {
    let band =
        "<pattern id='curfew0' patternUnits='userSpaceOnUse' x='1660' width='1440' height='250'>\
<rect class='curfew' width='390' height='250'/></pattern>";
    let rows: &[(&[&str], bool, bool)] = &[
        (&["tailview", "t", "f", "r", "--plan", "p"], false, false),
        (
            &["tailview", "t", "f", "r", "--plan", "p", "--curfews", "OSL"],
            true,
            false,
        ),
        (
            &["tailview", "--curfews=ARN", "t", "f", "r", "--plan", "p"],
            false,
            false,
        ),
        (
            &["tailview", "t", "f", "r", "--curfews", "XXX", "--plan", "p"],
            false,
            false,
        ),
        (
            &["tailview", "t", "f", "r", "--plan", "p", "--html"],
            false,
            true,
        ),
        (
            &[
                "tailview",
                "--html",
                "--curfews",
                "OSL",
                "t",
                "f",
                "r",
                "--plan",
                "p",
            ],
            true,
            true,
        ),
    ];
    for &(words, has_band, has_page) in rows {
        let seen = run_as(rt.alloc(), words)?;
        assert!(rt; seen.has(0, "<svg xmlns"), "{words:?}");
        assert!(rt; seen.has(0, band) == has_band, "{words:?}");
        assert!(rt; seen.has(0, "<!DOCTYPE html>") == has_page, "{words:?}");
        assert!(rt; seen.has(0, "</body></html>\n") == has_page, "{words:?}");
    }
    Ok(())
}

// Flights on the last Saturday of March and on the Sunday, on which clocks are put forward.
const SATURDAY: &str = "F1,flight,ARN,OSL,2025-03-29T06:00,2025-03-29T07:00,,,,\n";

const SUNDAY: &str = "F1,flight,ARN,OSL,2025-03-30T06:00,2025-03-30T07:00,,,,\n";

const BOTH_DAYS: &str = "F1,flight,ARN,OSL,2025-03-29T06:00,2025-03-29T07:00,,,,\n\
F2,flight,OSL,ARN,2025-03-30T06:00,2025-03-30T07:00,,,,\n";

// An airport whose clocks are put forward at 01:00 UTC, closed at night.
const BERGEN: &str =
    "[[airport]]\nname = \"BGO\"\nzone = \"CET-1CEST,M3.5.0,M10.5.0/3\"\nturn = 20\n\
[[curfew]]\nairport = \"BGO\"\nfrom = \"23:00\"\nto = \"05:30\"\ntypes = []\nstart = true\nlanding = true\n";

// The same at 00:00 UTC, closed for an hour from 00:30.
const AT_MIDNIGHT: &str =
    "[[airport]]\nname = \"BGO\"\nzone = \"GMT0SUM,M3.5.0/0,M10.5.0\"\nturn = 20\n\
[[curfew]]\nairport = \"BGO\"\nfrom = \"00:30\"\nto = \"01:30\"\ntypes = []\nstart = true\nlanding = true\n";

fn run_in_march(alloc: Global, records: &str, more_rules: &str, plan: &str) -> Result<Seen, Fail> {
    let aircraft = "A1,P,ARN,2025-03-29T05:00,0,,,\n";
    let files = files_with(alloc, records, aircraft, more_rules, plan)?;
    let words = ["tailview", "t", "f", "r", "--plan", "p", "--curfews", "BGO"];
    run_failing(alloc, &words, files, &[], &[])
}

// A change of the clocks cuts the bands, each by the offset of its stretch: 1,500 minutes behind the first moment where it
// comes at 01:00 UTC of the second day. One at the first moment or at the end cuts nothing.
#[test]
fn bands_follow_the_clocks(rt: HostRuntime) -> Result<(), Fail> {
    let (one, two) = ("optimal 60\nA1: F1\n", "optimal 120\nA1: F1 F2\n");
    for &(records, rules, plan, bands) in &[
        (
            BOTH_DAYS,
            BERGEN,
            two,
            "fill='url(#clock)'/>\n<pattern id='curfew0' patternUnits='userSpaceOnUse' x='1660' width='1440' height='250'>\
<rect class='curfew' width='390' height='250'/></pattern>\
<rect x='340' y='120' width='1500' height='250' fill='url(#curfew0)'><title>BGO curfew</title></rect>\n\
<pattern id='curfew0-1840' patternUnits='userSpaceOnUse' x='1600' width='1440' height='250'>\
<rect class='curfew' width='390' height='250'/></pattern>\
<rect x='1840' y='120' width='1380' height='250' fill='url(#curfew0-1840)'><title>BGO curfew</title></rect>\n\
<text class='date' x='344' ",
        ),
        (
            SATURDAY,
            AT_MIDNIGHT,
            one,
            "fill='url(#clock)'/>\n<pattern id='curfew0' patternUnits='userSpaceOnUse' x='370' width='1440' height='250'>\
<rect class='curfew' width='60' height='250'/></pattern>\
<rect x='340' y='120' width='1440' height='250' fill='url(#curfew0)'><title>BGO curfew</title></rect>\n\
<text class='date' x='344' ",
        ),
        (
            SUNDAY,
            AT_MIDNIGHT,
            one,
            "fill='url(#clock)'/>\n<pattern id='curfew0' patternUnits='userSpaceOnUse' x='1750' width='1440' height='250'>\
<rect class='curfew' width='60' height='250'/></pattern>\
<rect x='340' y='120' width='1440' height='250' fill='url(#curfew0)'><title>BGO curfew</title></rect>\n\
<text class='date' x='344' ",
        ),
        (
            BOTH_DAYS,
            AT_MIDNIGHT,
            two,
            "fill='url(#clock)'/>\n<pattern id='curfew0' patternUnits='userSpaceOnUse' x='370' width='1440' height='250'>\
<rect class='curfew' width='60' height='250'/></pattern>\
<rect x='340' y='120' width='1440' height='250' fill='url(#curfew0)'><title>BGO curfew</title></rect>\n\
<pattern id='curfew0-1780' patternUnits='userSpaceOnUse' x='1750' width='1440' height='250'>\
<rect class='curfew' width='60' height='250'/></pattern>\
<rect x='1780' y='120' width='1440' height='250' fill='url(#curfew0-1780)'><title>BGO curfew</title></rect>\n\
<text class='date' x='344' ",
        ),
    ] {
        let seen = run_in_march(rt.alloc(), records, rules, plan)?;
        assert!(rt; seen.has(0, bands), "{records}{rules}");
    }
    Ok(())
}
