//! The lines of a trial's timetable and fleet. Names and moments have their digits at fixed places and no field needs
//! quotes, so a line is written from left to right at the end of the text.

ghost use Rattle.std.specs.Prelude.{◌≡◌, ◌++◌, ◌+◌, ◌%◌, codes, OnOk};
ghost use Rattle.seed_tables.specs.Rows.{aircraft_fields, airport_name, digit, flight_fields, flight_id, line_of, stamp_text, type_name, types_field};
ghost use Rattle.seed_tables.specs.inside.Halves.{first_fields, last_fields};

use crate::flight::Flight;
use tail_book::Memory;
use tail_text::Line;

fn digit(n: u64) -> u8
    ensures { result ≡ digit n }
{
    48 + (n % 10) as u8
}

fn add_airport(p: u64, text: &mut Line) -> Result<(), Memory>
    ensures { OnOk result (text.new ≡ text.old ++ airport_name p) }
{
    text.text(&[b'T', digit(p)])
}

fn add_flight_id(k: u64, j: u64, text: &mut Line) -> Result<(), Memory>
    ensures { OnOk result (text.new ≡ text.old ++ flight_id k j) }
{
    text.text(&[b'K', digit(k), b'N', digit(j / 10), digit(j)])
}

fn add_stamp(minute: u64, text: &mut Line) -> Result<(), Memory>
    ensures { OnOk result (text.new ≡ text.old ++ stamp_text minute) }
{
    let day = 3 + minute / 1440;
    let hour = minute / 60 % 24;
    let minute = minute % 60;
    text.text(b"2025-03-")?;
    text.text(&[digit(day / 10), digit(day), b'T'])?;
    text.text(&[digit(hour / 10), digit(hour), b':'])?;
    text.text(&[digit(minute / 10), digit(minute)])?;
    Ok(())
}

fn add_types(k: u64, text: &mut Line) -> Result<(), Memory>
    ensures { OnOk result (text.new ≡ text.old ++ types_field k) }
{
    if k % 2 == 0 { Ok(()) } else { text.text(b"Q") }
}

fn add_type(k: u64, text: &mut Line) -> Result<(), Memory>
    ensures { OnOk result (text.new ≡ text.old ++ type_name k) }
{
    if k % 2 == 0 {
        text.text(b"P")
    } else {
        text.text(b"Q")
    }
}

fn add_airports(flight: &Flight, text: &mut Line) -> Result<(), Memory>
    ensures { OnOk result (text.new ≡ text.old ++ airport_name flight.now.from ++ codes "," ++ airport_name flight.now.to) }
{
    add_airport(flight.from, text)?;
    text.text(b",")?;
    add_airport(flight.to, text)
}

fn add_stamps(flight: &Flight, text: &mut Line) -> Result<(), Memory>
    ensures { OnOk result (text.new ≡ text.old ++ stamp_text flight.now.start ++ codes "," ++ stamp_text flight.now.end) }
{
    add_stamp(flight.start, text)?;
    text.text(b",")?;
    add_stamp(flight.end, text)
}

fn add_first_fields(flight: &Flight, text: &mut Line) -> Result<(), Memory>
    ensures { OnOk result (text.new ≡ text.old ++ first_fields flight.now) }
{
    add_flight_id(flight.aircraft, flight.number, text)?;
    text.text(b",flight,")?;
    add_airports(flight, text)?;
    Ok(())
}

fn add_last_fields(flight: &Flight, text: &mut Line) -> Result<(), Memory>
    ensures { OnOk result (text.new ≡ text.old ++ last_fields flight.now) }
{
    text.text(b",")?;
    add_stamps(flight, text)?;
    text.text(b",")?;
    add_types(flight.aircraft, text)?;
    text.text(b",,,\n")?;
    Ok(())
}

/// Adds the line of a flight.
pub(crate) fn add_flight(flight: &Flight, text: &mut Line) -> Result<(), Memory>
    ensures { OnOk result (text.new ≡ text.old ++ line_of (flight_fields flight.now)) }
{
    add_first_fields(flight, text)?;
    add_last_fields(flight, text)
}

/// Adds the line of aircraft k, which stands at an airport.
pub(crate) fn add_aircraft(k: u64, at: u64, text: &mut Line) -> Result<(), Memory>
    ensures { OnOk result (text.new ≡ text.old ++ line_of (aircraft_fields k at)) }
{
    text.text(&[b'A', digit(k), b','])?;
    add_type(k, text)?;
    text.text(b",")?;
    add_airport(at, text)?;
    text.text(b",2025-03-03T00:00,0,,,\n")?;
    Ok(())
}
