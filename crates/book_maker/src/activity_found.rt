//! The activities of the timetable, with their names looked up.
//!
//! The airports, the types, the aircraft and the counters of a record are looked up in this order, and the first that
//! nothing has refuses it. Tags are numbered and refuse nothing. Times are taken as they were read.

ghost use Rattle.std.specs.Prelude.{Some};
ghost use Rattle.book_maker.specs.ActivityFound.{activity_in};
ghost use Rattle.timetable_reader.specs.inside.Activity.{IsRawActivity};

use crate::known::Known;
use crate::looked_up::Entry;
use crate::name_numbers::{number_in, numbers_in, optional_number_in, places_in};
use std::alloc::Global;
use table_records::NoRow;
use tail_book::{Activity, Name};
use timetable_reader::RawActivity;

impl Entry for RawActivity {
    type Found = Activity;

    ghost own_name = { λ a. Some a.id };

    ghost uses = { λ known a. activity_in known.kinds known.airports known.counters known.tails known.tags a };

    ghost is_sound = { IsRawActivity };

    fn own_name(&self) -> Option<Name> {
        Some(self.id)
    }

    fn found(&self, alloc: Global, known: &Known) -> Result<Activity, NoRow> {
        let from = number_in(&known.airports, self.from)?;
        let to = number_in(&known.airports, self.to)?;
        let types = numbers_in(alloc, &known.kinds, self.types.as_slice())?;
        let tail = optional_number_in(&known.tails, self.tail)?;
        let resets = numbers_in(alloc, &known.counters, self.resets.as_slice())?;
        let Ok(tags) = places_in(alloc, &known.tags, self.tags.as_slice()) else {
            return Err(NoRow::Memory);
        };
        Ok(Activity {
            id: self.id,
            flight: self.flight,
            from,
            to,
            start: self.start,
            end: self.end,
            types,
            tags,
            tail,
            resets,
        })
    }
}
