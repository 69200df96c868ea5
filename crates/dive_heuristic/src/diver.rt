//! What dives keep from one step to the next, and from one dive to the next.
//!
//! Floors, what pricing has read, the room for labels and the tally take their size from the book and its table. So
//! they are made once, and serve each step and each dive.

ghost use Rattle.std.specs.Prelude.{◌≡◌, IfOk, length};
ghost use Rattle.tail_book.specs.Seen.{BookSeen};
ghost use Rattle.tail_book.specs.TableSeen.{CostTableSeen};
ghost use Rattle.tail_book.specs.Lookup.{activities};
ghost use Rattle.tail_book.specs.CostTable.{IsTableFor};
ghost use Rattle.dive_heuristic.specs.Divers.{IsDiverOf, IsFreeFor, IsStoreOf};

use label_store::Store;
use pricing::Pricer;
use propagator::Propagator;
use std::alloc::Global;
use tail_book::laws::every_book_is_sound;
use tail_book::{Book, CostTable, Flown, Memory};

/// Made once for a book and a table of its costs, a diver saves each dive what these need. Whoever holds it can propagate and
/// price with it between two dives.
#[derive(Drop)]
pub struct Diver {
    /// The floors of marks that were shut.
    pub propagator: Propagator,
    /// What pricing has read of the book.
    pub pricer: Pricer,
    /// The labels of the aircraft that was priced last.
    pub store: Store,
    /// How often the routes fly each activity.
    pub tally: Vec<Flown>,
}

// Room for the labels of a book.
fn room_for(alloc: Global, book: &Book) -> Result<Store, Memory>
    ensures { IfOk result (IsStoreOf book.now) }
{
    every_book_is_sound(book);
    let (n, width) = (book.activities.len(), 1 + book.rules.counters.len());
    let store = Store::new(alloc, n, width)?;
    Ok(store)
}

// A tally of a book in which nothing is flown.
fn tally_for(alloc: Global, book: &Book) -> Result<Vec<Flown>, Memory>
    ensures { IfOk result (λ tally. length tally.items ≡ activities book.now) }
{
    Ok(vec![in alloc; Flown::Never; book.activities.len()]?)
}

impl Diver {
    /// A diver for a book and a table of its costs, from whatever marks.
    // The propagator comes last, since what is there already is let go where memory is wanting, and it would be most to let go.
    pub fn new(alloc: Global, book: &Book, table: &CostTable) -> Result<Diver, Memory>
        requires { IsTableFor book.now table.now }
        ensures { IfOk result (IsFreeFor book.now table.now) }
    {
        let tally = tally_for(alloc, book)?;
        let store = room_for(alloc, book)?;
        let pricer = Pricer::new(alloc, book, table)?;
        let propagator = Propagator::new(alloc, book)?;
        Ok(Diver {
            propagator,
            pricer,
            store,
            tally,
        })
    }

    /// Forgets the marks of the last dive, so that it can be used for any marks of its book again.
    pub fn forget(&mut self)
        ensures { (book : BookSeen) (table : CostTableSeen) → IsDiverOf book table self.old → IsFreeFor book table self.new }
    {
        self.propagator.forget();
    }
}
