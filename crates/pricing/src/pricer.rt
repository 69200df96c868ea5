//! A kept pricer: what pricing reads of a book, made once and used for each aircraft and at each change of marks and duals.
//!
//! Making it searches the bases of each counter for each activity, and sorts what ends at each airport, which a pass over
//! one aircraft may not pay again and again. It also keeps the row that is written at each try, and the lines in which
//! labels wait, so that pricing allocates nothing but what store and lines grow by, and the route of its answer.

ghost use Rattle.std.specs.Prelude.{◌≡◌, ◌<◌, ◌+◌, length, IfOk, IfSome};
ghost use Rattle.tail_book.specs.Lookup.{activities, aircraft};
ghost use Rattle.tail_book.specs.CostTable.{IsTableFor};
ghost use Rattle.connection_net.specs.Net.{net_of};
ghost use Rattle.branch_marks.specs.Families.{IsClosedFamily};
ghost use Rattle.branch_marks.specs.inside.MarkTables.{AreMarksOf};
ghost use Rattle.branch_marks.specs.Settled.{AreDuals};
ghost use Rattle.pricing.specs.Price.{IsPriceOf};
ghost use Rattle.pricing.specs.Rows.{labels_of, AreSpelled};
ghost use Rattle.label_store.specs.inside.Growth.{IsAsWide};
ghost use Rattle.pricing.specs.inside.Prepared.{IsPricerOf};
ghost use Rattle.pricing.specs.inside.Asked.{IsAsked, IsUnderWay};
ghost use Rattle.pricing.specs.inside.ForAsked.{AreAirportsFor, AreFilledFor, AreTrueFor, IsClosedFor};

use crate::airport::AirportLines;
use crate::airports::airports_of;
use crate::asked::Asked;
use crate::exact_price::priced;
use crate::fill::fill_all;
use crate::line_pass::{fill_lines, note_cuts, reset_all};
use crate::{Priced, laws};
use branch_marks::Marks;
use connection_net::Net;
use label_store::Store;
use label_store::laws::every_store_is_sound;
use maint_counters::StepTable;
use std::alloc::Global;
use tail_book::laws::{every_book_is_sound, every_cost_table_is_sound};
use tail_book::{Book, CostTable, Duals, Memory};

// Lines pay at an airport where more than so many flights end for each edge between its windows and each value of a label
// (measured: docs/SPEED.md, "Lines beside single links").
const FLIGHTS_TO_PAY: usize = 4;

/// What pricing keeps from one aircraft to the next.
#[derive(Drop)]
pub struct Pricer {
    steps: StepTable,
    row: Vec<i64>,
    key: Vec<i64>,
    cut: Vec<bool>,
    due: usize,
    airports: Option<Vec<AirportLines>>,
}

impl Pricer {
    /// A pricer for a book and a table of its costs.
    pub fn new(alloc: Global, book: &Book, table: &CostTable) -> Result<Pricer, Memory>
        requires { IsTableFor book.now table.now }
        ensures { IfOk result (IsPricerOf book.now table.now) }
    {
        every_book_is_sound(book);
        every_cost_table_is_sound(table);
        let steps = StepTable::of(alloc, book)?;
        let airports = airports_of(alloc, book, table)?;
        let row = vec![in alloc; 0i64; 1 + book.rules.counters.len()]?;
        let cut = vec![in alloc; false; book.activities.len()]?;
        Ok(Pricer {
            steps,
            row,
            key: Vec::new(alloc),
            cut,
            due: FLIGHTS_TO_PAY,
            airports,
        })
    }

    /// A pricer that lets labels wait wherever flights end, whether lines pay there or not. It answers the same.
    pub fn with_all_lines(alloc: Global, book: &Book, table: &CostTable) -> Result<Pricer, Memory>
        requires { IsTableFor book.now table.now }
        ensures { IfOk result (IsPricerOf book.now table.now) }
    {
        let mut pricer = Pricer::new(alloc, book, table)?;
        pricer.due = 0;
        Ok(pricer)
    }

    /// A pricer that goes link by link: what a waiting line would join is looked at one by one. It answers the same.
    pub fn without_lines(alloc: Global, book: &Book, table: &CostTable) -> Result<Pricer, Memory>
        requires { IsTableFor book.now table.now }
        ensures { IfOk result (IsPricerOf book.now table.now) }
    {
        let mut pricer = Pricer::new(alloc, book, table)?;
        pricer.airports = None;
        Ok(pricer)
    }

    /// Prices an aircraft. The store's rows go first; its buckets then hold the labels that no other one there covers.
    pub fn price(
        &mut self,
        book: &Book,
        table: &CostTable,
        net: &Net,
        marks: &Marks,
        duals: &Duals,
        k: u32,
        store: &mut Store,
    ) -> Result<Priced, Memory>
        requires pricer { IsPricerOf book.now table.now self.old }
        requires table { IsTableFor book.now table.now }
        requires net { net.now ≡ net_of book.now }
        requires marks { AreMarksOf book.now marks.now }
        requires duals { AreDuals table.now book.now duals.now.values }
        requires aircraft { k < aircraft book.now }
        requires nodes { length store.old.buckets ≡ activities book.now }
        requires width { store.old.width ≡ 1 + length book.now.rules.counters }
        ensures price { IfOk result (IsPriceOf table.now book.now marks.now.facts k duals.now.values) }
        ensures closed { IfOk result (λ _. IsClosedFamily table.now book.now marks.now.facts k duals.now.values (labels_of store.new)) }
        ensures spelled { IfOk result (λ _. AreSpelled table.now book.now marks.now.facts k duals.now.values store.new) }
        ensures wide { IsAsWide store.old store.new }
        ensures pricer { IsPricerOf book.now table.now self.new }
    {
        let alloc = *self.row.allocator();
        let asked = Asked {
            book,
            table,
            net,
            marks,
            duals,
            steps: &self.steps,
            k,
        };
        fill_from_empty(
            &asked,
            &mut self.cut,
            self.due,
            &mut self.airports,
            &mut self.key,
            &mut self.row,
            store,
        )?;
        priced(alloc, &asked, store)
    }
}

// Fills all buckets by lines that are empty at first.
fn fill_by_lines(
    asked: &Asked,
    cut: &mut [bool],
    due: usize,
    airports: &mut [AirportLines],
    key: &mut Vec<i64>,
    row: &mut [i64],
    store: &mut Store,
) -> Result<(), Memory>
    requires asked { IsAsked asked.now }
    requires state { IsUnderWay asked.now store.old (length row.old) }
    requires cut { length cut.old ≡ activities asked.now.book.now }
    requires airports { AreAirportsFor asked.now airports.old }
    ensures state { IfOk result (λ _. IsUnderWay asked.now store.new (length row.new)) }
    ensures filled { IfOk result (λ _. AreFilledFor asked.now store.new (activities asked.now.book.now)) }
    ensures airports { AreAirportsFor asked.now airports.new }
    ensures wide { IsAsWide store.old store.new }
    ensures row { length row.new ≡ length row.old }
    ensures cut { length cut.new ≡ length cut.old }
{
    reset_all(airports);
    note_cuts(asked.book, asked.marks, cut);
    fill_lines(asked, cut, due, airports, key, row, store)
}

// Fills all buckets, by lines where there are airports.
fn fill_by(
    asked: &Asked,
    cut: &mut [bool],
    due: usize,
    airports: &mut Option<Vec<AirportLines>>,
    key: &mut Vec<i64>,
    row: &mut [i64],
    store: &mut Store,
) -> Result<(), Memory>
    requires asked { IsAsked asked.now }
    requires state { IsUnderWay asked.now store.old (length row.old) }
    requires cut { length cut.old ≡ activities asked.now.book.now }
    requires airports { IfSome airports.old (λ all. AreAirportsFor asked.now all.items) }
    ensures state { IfOk result (λ _. IsUnderWay asked.now store.new (length row.new)) }
    ensures filled { IfOk result (λ _. AreFilledFor asked.now store.new (activities asked.now.book.now)) }
    ensures airports { IfSome airports.new (λ all. AreAirportsFor asked.now all.items) }
    ensures wide { IsAsWide store.old store.new }
    ensures row { length row.new ≡ length row.old }
    ensures cut { length cut.new ≡ length cut.old }
{
    match airports {
        Some(all) => fill_by_lines(asked, cut, due, all, key, row, store),
        None => fill_all(asked, row, store),
    }
}

// Lets the store's rows go, and fills all its buckets.
fn fill_from_empty(
    asked: &Asked,
    cut: &mut [bool],
    due: usize,
    airports: &mut Option<Vec<AirportLines>>,
    key: &mut Vec<i64>,
    row: &mut [i64],
    store: &mut Store,
) -> Result<(), Memory>
    requires asked { IsAsked asked.now }
    requires nodes { length store.old.buckets ≡ activities asked.now.book.now }
    requires width { store.old.width ≡ 1 + length asked.now.book.now.rules.counters }
    requires row { length row.old ≡ 1 + length asked.now.book.now.rules.counters }
    requires cut { length cut.old ≡ activities asked.now.book.now }
    requires airports { IfSome airports.old (λ all. AreAirportsFor asked.now all.items) }
    ensures truths { IfOk result (λ _. AreTrueFor asked.now store.new) }
    ensures closed { IfOk result (λ _. IsClosedFor asked.now store.new) }
    ensures airports { IfSome airports.new (λ all. AreAirportsFor asked.now all.items) }
    ensures wide { IsAsWide store.old store.new }
    ensures row { length row.new ≡ length row.old }
    ensures cut { length cut.new ≡ length cut.old }
{
    every_book_is_sound(asked.book);
    laws::filled_stores_are_closed();
    store.clear();
    fill_by(asked, cut, due, airports, key, row, store)?;
    every_store_is_sound(store);
    Ok(())
}
