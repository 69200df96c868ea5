//! The week of the example tables: 97 activities on six aircraft, three counters and two curfews.

use std::alloc::Global;
use std::test::Fail;

// A flight out of Arlanda and back, on each day: when it starts, where it goes, how long each way takes, how long after its
// start the way back starts, and the types that may fly it. All times are in minutes.
#[derive(Clone, Copy, Debug)]
struct Rotation<'a> {
    start: u32,
    port: &'a str,
    span: u32,
    back: u32,
    types: &'a str,
}

/// Four aircraft for Oslo and two for London.
pub const WEEK_AIRCRAFT: &str =
    "A1,P,ARN,2025-03-03T00:00,0,,,chk=2880\nA2,P,ARN,2025-03-03T00:00,0,,,\n\
A3,P,ARN,2025-03-03T00:00,0,,,\nA4,P,ARN,2025-03-03T00:00,0,,,\n\
A5,Q,ARN,2025-03-03T00:00,0,,,\nA6,Q,ARN,2025-03-03T00:00,0,,,\n";

/// Two types, three airports, two curfews, three counters and two bands.
pub const WEEK_RULES: &str =
    "[[type]]\nname = \"P\"\nrate = 10\nturn = 30\n[[type]]\nname = \"Q\"\nrate = 12\nturn = 45\n\
[[airport]]\nname = \"ARN\"\nzone = \"CET-1CEST,M3.5.0,M10.5.0/3\"\nturn = 20\n[[airport]]\nname = \"OSL\"\noffset = 60\nturn = 20\n\
[[airport]]\nname = \"LHR\"\nzone = \"GMT0BST,M3.5.0/1,M10.5.0\"\nturn = 20\n\
[[curfew]]\nairport = \"ARN\"\nfrom = \"23:00\"\nto = \"05:30\"\ntypes = []\nstart = true\nlanding = true\n\
[[curfew]]\nairport = \"LHR\"\nfrom = \"23:00\"\nto = \"06:00\"\ntypes = []\nstart = false\nlanding = true\n\
[[counter]]\nname = \"fh\"\nkind = \"minutes\"\nlimit = 600\nbases = [\"ARN\"]\nstop = 480\n\
[[counter]]\nname = \"ldg\"\nkind = \"landings\"\nlimit = 12\nbases = [\"ARN\"]\nstop = 1200\n\
[[counter]]\nname = \"chk\"\nkind = \"days\"\nlimit = 6\nbases = []\nstop = 1\n\
[[band]]\nupto = 2880\ncost = 0\n[[band]]\nupto = 10000000\ncost = 50\n";

fn to_oslo<'a>(start: u32) -> Rotation<'a> {
    Rotation {
        start,
        port: "OSL",
        span: 60,
        back: 90,
        types: "",
    }
}

fn to_london<'a>(start: u32) -> Rotation<'a> {
    Rotation {
        start,
        port: "LHR",
        span: 150,
        back: 210,
        types: "Q",
    }
}

// Adds a flight of one day.
fn push_flight(
    alloc: Global,
    text: &mut String,
    id: &str,
    day: u32,
    ports: [&str; 2],
    start: u32,
    rotation: &Rotation<'_>,
) -> Result<(), Fail> {
    let (day, end) = (day.saturating_add(3), start.saturating_add(rotation.span));
    let (from, to, types) = (ports[0], ports[1], rotation.types);
    text.push_str(&format!(in alloc;
        "{id},flight,{from},{to},2025-03-{:02}T{:02}:{:02},",
        day,
        start / 60,
        start % 60
    )?)?;
    text.push_str(&format!(in alloc;
        "2025-03-{:02}T{:02}:{:02},{types},,,\n",
        day,
        end / 60,
        end % 60
    )?)?;
    Ok(())
}

// Adds both flights of the rotation of this number.
fn push_rotation(
    alloc: Global,
    text: &mut String,
    day: u32,
    number: u32,
    rotation: &Rotation<'_>,
) -> Result<(), Fail> {
    let (out, back) = (
        format!(in alloc; "D{day}R{number}O")?,
        format!(in alloc; "D{day}R{number}B")?,
    );
    let ways = (["ARN", rotation.port], [rotation.port, "ARN"]);
    let again = rotation.start.saturating_add(rotation.back);
    push_flight(alloc, text, &out, day, ways.0, rotation.start, rotation)?;
    push_flight(alloc, text, &back, day, ways.1, again, rotation)
}

/// The records of six days with eight rotations each, two of them to London, and of a check of twelve hours on the third.
pub fn week_records(alloc: Global) -> Result<String, Fail> {
    let rotations = [
        to_oslo(360),
        to_oslo(480),
        to_oslo(600),
        to_oslo(720),
        to_oslo(840),
        to_oslo(960),
        to_london(420),
        to_london(840),
    ];
    let mut text = String::new(alloc);
    for day in 0..6u32 {
        for number in 0..8usize {
            push_rotation(alloc, &mut text, day, number as u32, &rotations[number])?;
        }
    }
    text.push_str("G1,ground,ARN,ARN,2025-03-05T08:00,2025-03-05T20:00,,,A1,chk\n")?;
    Ok(text)
}
