//! One flight of a trial, made of three draws: the stop before it, the minutes aloft, and which other airport it goes
//! to. Stops before flights 5 and 10 are ten hours longer, so that they clear the minutes flown.

ghost use Rattle.std.specs.Prelude.{◌≡◌, ◌<◌, ◌≤◌, ◌+◌};
ghost use Rattle.seed_tables.specs.Draws.{next};
ghost use Rattle.seed_tables.specs.Flights.{flight_of, stop_before};

use crate::draws::{drawn, next};

/// A flight: its aircraft and its number there, its airports by their numbers, and its moments in minutes since the
/// start of the first day.
#[derive(Clone, Copy, Debug)]
pub struct Flight {
    pub aircraft: u64,
    pub number: u64,
    pub from: u64,
    pub to: u64,
    pub start: u64,
    pub end: u64,
}

fn stop_before(j: u64, draw: u64) -> u64
    requires { draw < 90 }
    ensures exact { result ≡ stop_before j draw }
    ensures short { result ≤ 734 }
{
    if j == 5 || j == 10 {
        45 + draw + 600
    } else {
        45 + draw
    }
}

/// Flight j of aircraft k, from an airport where it stands since a moment, with the three draws behind a state.
pub(crate) fn flight_of(k: u64, j: u64, at: u64, since: u64, x: u64) -> Flight
    requires at { at < 5 }
    requires early { since < 1_000_000 }
    ensures exact { result ≡ flight_of k j at since x }
    ensures to { result.to < 5 }
    ensures end { result.end ≤ since + 913 }
{
    let first = next(x);
    let second = next(first);
    let start = since + stop_before(j, drawn(first, 90));
    Flight {
        aircraft: k,
        number: j,
        from: at,
        to: (at + 1 + drawn(next(second), 4)) % 5,
        start,
        end: start + (60 + drawn(second, 120)),
    }
}
