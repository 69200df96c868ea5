//! The aircraft of the fleet, with their names looked up.
//!
//! The type, the airport, the avoided airports and the counters of the carry values are looked up in this order, and
//! the first that nothing has refuses the record. Tags are numbered and refuse nothing.

ghost use Rattle.std.specs.Prelude.{Some};
ghost use Rattle.book_maker.specs.TailFound.{tail_in};
ghost use Rattle.fleet_rules.specs.inside.Tail.{IsRawTail};

use crate::carry_found::carry_in;
use crate::known::Known;
use crate::looked_up::Entry;
use crate::name_numbers::{number_in, numbers_in, places_in};
use fleet_rules::RawTail;
use std::alloc::Global;
use table_records::NoRow;
use tail_book::{Name, Tail};

impl Entry for RawTail {
    type Found = Tail;

    ghost own_name = { λ t. Some t.name };

    ghost uses = { λ known t. tail_in known.kinds known.airports known.counters known.tags t };

    ghost is_sound = { IsRawTail };

    fn own_name(&self) -> Option<Name> {
        Some(self.name)
    }

    fn found(&self, alloc: Global, known: &Known) -> Result<Tail, NoRow> {
        let kind = number_in(&known.kinds, self.kind)?;
        let at = number_in(&known.airports, self.at)?;
        let avoid = numbers_in(alloc, &known.airports, self.avoid.as_slice())?;
        let carry = carry_in(alloc, &known.counters, self.carry.as_slice())?;
        let Ok(tags) = places_in(alloc, &known.tags, self.tags.as_slice()) else {
            return Err(NoRow::Memory);
        };
        Ok(Tail {
            name: self.name,
            kind,
            at,
            ready: self.ready,
            fixed: self.fixed,
            tags,
            avoid,
            carry,
        })
    }
}
