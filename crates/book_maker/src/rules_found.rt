//! The entries of the rules, with their names looked up.
//!
//! A type uses no other name, and is taken as it is; nor does an airport, which gets the changes of its local time here.
//! A curfew uses its airport and then its types, and a counter its bases. Bands have no names, and need no look.

ghost use Rattle.std.specs.Prelude.{None, Ok, Some, ⊤};
ghost use Rattle.book_maker.specs.RulesFound.{airport_in, counter_in, curfew_in};
ghost use Rattle.fleet_rules.specs.inside.RawRules.{IsRawAirport, IsRawCounter, IsRawCurfew};

use crate::changes::{changes_of, standard_of};
use crate::known::Known;
use crate::looked_up::Entry;
use crate::name_numbers::{number_in, numbers_in};
use fleet_rules::{RawAirport, RawCounter, RawCurfew};
use std::alloc::Global;
use table_records::NoRow;
use tail_book::{AircraftType, Airport, Counter, Curfew, Name};

impl Entry for AircraftType {
    type Found = AircraftType;

    ghost own_name = { λ t. Some t.name };

    ghost uses = { λ _ t. Ok t };

    ghost is_sound = { λ _. ⊤ };

    fn own_name(&self) -> Option<Name> {
        Some(self.name)
    }

    fn found(&self, _alloc: Global, _known: &Known) -> Result<AircraftType, NoRow> {
        Ok(*self)
    }
}

impl Entry for RawAirport {
    type Found = Airport;

    ghost own_name = { λ p. Some p.name };

    ghost uses = { λ _ p. airport_in p };

    ghost is_sound = { IsRawAirport };

    fn own_name(&self) -> Option<Name> {
        Some(self.name)
    }

    fn found(&self, alloc: Global, _known: &Known) -> Result<Airport, NoRow> {
        let Ok(changes) = changes_of(alloc, self.zone) else {
            return Err(NoRow::Memory);
        };
        Ok(Airport {
            name: self.name,
            offset: standard_of(self.zone),
            changes,
            turn: self.turn,
        })
    }
}

impl Entry for RawCurfew {
    type Found = Curfew;

    ghost own_name = { λ _. None };

    ghost uses = { λ known c. curfew_in known.airports known.kinds c };

    ghost is_sound = { IsRawCurfew };

    fn own_name(&self) -> Option<Name> {
        None
    }

    fn found(&self, alloc: Global, known: &Known) -> Result<Curfew, NoRow> {
        let airport = number_in(&known.airports, self.airport)?;
        let types = numbers_in(alloc, &known.kinds, &self.types)?;
        Ok(Curfew {
            airport,
            from: self.from,
            to: self.to,
            types,
            starts: self.starts,
            landings: self.landings,
        })
    }
}

impl Entry for RawCounter {
    type Found = Counter;

    ghost own_name = { λ c. Some c.name };

    ghost uses = { λ known c. counter_in known.airports c };

    ghost is_sound = { IsRawCounter };

    fn own_name(&self) -> Option<Name> {
        Some(self.name)
    }

    fn found(&self, alloc: Global, known: &Known) -> Result<Counter, NoRow> {
        let bases = numbers_in(alloc, &known.airports, &self.bases)?;
        Ok(Counter {
            name: self.name,
            kind: self.kind,
            limit: self.limit,
            bases,
            stop: self.stop,
        })
    }
}
