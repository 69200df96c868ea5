//! One pass over a book's activities, in which labels wait in lines where that pays.
//!
//! An open departure, which is a flight that is alive, with no Cut and no Tie into it, takes from the lines of its airport
//! where enough flights end there for the edges between its windows and the values of a label (`pays`). All others go link
//! by link, as ever. Behind a Must of the aircraft every line begins anew: nothing from before it may come after it.

ghost use Rattle.std.specs.Prelude.{ℕ, ◌≡◌, ◌<◌, ◌+◌, ◌≤ℤ◌, ◌⊎◌, pos, length, IfOk, IsTrue, Contains, true, false, slice_index_or};
ghost use Rattle.std.specs.Int.{int_max};
ghost use Rattle.tail_book.specs.Lookup.{activities, aircraft, from_port, is_flight, kind_of, port_turn, start_of, type_turn};
ghost use Rattle.branch_marks.specs.declared.fact.Fact.TheVariants.{Cut as FactCut, Tie as FactTie};
ghost use Rattle.branch_marks.specs.Marks.{IsAlive};
ghost use Rattle.branch_marks.specs.inside.MarkTables.{AreMarksOf};
ghost use Rattle.label_store.specs.inside.Growth.{IsAsWide};
ghost use Rattle.pricing.specs.inside.Growth.{Grows};
ghost use Rattle.pricing.specs.inside.Airports.{AreAlike, AreFresh, AreCutsNoted, IsFreshAirport, IsLikeAirport};
ghost use Rattle.pricing.specs.inside.Asked.{IsAsked, IsUnderWay};
ghost use Rattle.pricing.specs.inside.ForAsked.{AreAirportsFor, AreBusyFor, AreFilledFor, IsFilledFor, IsFloorFor};

use crate::airport::AirportLines;
use crate::asked::Asked;
use crate::fill::fill;
use crate::line_fill::fill_open;
use crate::stand::Stand;
use branch_marks::laws::has_fact_decides;
use branch_marks::{Fact, Marks, Named};
use label_store::Store;
use label_store::laws::every_store_is_sound;
use tail_book::laws::every_book_is_sound;
use tail_book::{Book, Memory, port_turn, start_of, type_turn};

// The turn of an aircraft between two flights at an airport.
fn turn_at(book: &Book, k: u32, port: u32) -> i64
    requires aircraft { k < aircraft book.now }
    requires airport { port < length book.now.rules.airports }
    ensures value { result ≡ int_max (type_turn book.now (kind_of book.now k)) (port_turn book.now port) }
    ensures least { pos 0 ≤ℤ result }
{
    type_turn(book, k).max(port_turn(book, port))
}

// The airport where an activity starts.
fn port_of(book: &Book, b: u32) -> u32
    requires { b < activities book.now }
    ensures value { result ≡ from_port book.now b }
    ensures range { result < length book.now.rules.airports }
{
    book.activities[b as usize].from
}

// Whether no Tie leads to an activity.
fn is_untied(marks: &Marks, b: u32) -> bool
    requires { b < marks.now.activities }
    ensures { IsTrue result → (c : ℕ) → Contains marks.now.facts (FactTie c b) → ⊥ }
{
    match marks.tied_before(b) {
        Named::Nothing => true,
        Named::One(_) | Named::Several => false,
    }
}

// Whether no Cut leads to an activity.
fn is_uncut(marks: &Marks, cut: &[bool], b: u32) -> bool
    requires range { b < length cut.now }
    requires cut { AreCutsNoted marks.now.facts cut.now }
    ensures { IsTrue result → (c : ℕ) → Contains marks.now.facts (FactCut c b) → ⊥ }
{
    !cut[b as usize]
}

fn is_flight(book: &Book, b: u32) -> bool
    requires { b < activities book.now }
    ensures { result ≡ is_flight book.now b }
{
    book.activities[b as usize].flight
}

// Whether an activity takes from lines: a flight that is alive, to which no Cut and no Tie leads.
fn is_open(asked: &Asked, cut: &[bool], b: u32) -> bool
    requires asked { IsAsked asked.now }
    requires activity { b < activities asked.now.book.now }
    requires range { b < length cut.now }
    requires cut { AreCutsNoted asked.now.marks.now.facts cut.now }
    ensures flight { IsTrue result → is_flight asked.now.book.now b ≡ true }
    ensures alive { IsTrue result → IsAlive asked.now.book.now asked.now.marks.now.facts asked.now.k b }
    ensures uncut { IsTrue result → (c : ℕ) → Contains asked.now.marks.now.facts (FactCut c b) → ⊥ }
    ensures untied { IsTrue result → (c : ℕ) → Contains asked.now.marks.now.facts (FactTie c b) → ⊥ }
{
    if !is_flight(asked.book, b) {
        return false;
    }
    if !asked.marks.alive(asked.book, asked.k, b) {
        return false;
    }
    if !is_uncut(asked.marks, cut, b) {
        return false;
    }
    is_untied(asked.marks, b)
}

// Fills the bucket of an open departure from the lines of its airport.
fn fill_in_lines(
    asked: &Asked,
    floor: u32,
    before: i64,
    b: u32,
    airports: &mut [AirportLines],
    key: &mut Vec<i64>,
    row: &mut [i64],
    store: &mut Store,
) -> Result<(), Memory>
    requires asked { IsAsked asked.now }
    requires state { IsUnderWay asked.now store.old (length row.old) }
    requires activity { b < activities asked.now.book.now }
    requires airports { AreAirportsFor asked.now airports.old }
    requires busy { AreBusyFor asked.now floor before store.old airports.old }
    requires earlier { before ≤ℤ start_of asked.now.book.now b }
    requires floor { IsFloorFor asked.now b floor }
    requires flight { is_flight asked.now.book.now b ≡ true }
    requires alive { IsAlive asked.now.book.now asked.now.marks.now.facts asked.now.k b }
    requires uncut { (c : ℕ) → Contains asked.now.marks.now.facts (FactCut c b) → ⊥ }
    requires untied { (c : ℕ) → Contains asked.now.marks.now.facts (FactTie c b) → ⊥ }
    ensures state { IfOk result (λ _. IsUnderWay asked.now store.new (length row.new)) }
    ensures grows { IfOk result (λ _. Grows b store.old store.new) }
    ensures filled { IfOk result (λ _. IsFilledFor asked.now store.new b) }
    ensures busy { IfOk result (λ _. AreBusyFor asked.now floor (start_of asked.now.book.now b) store.new airports.new) }
    ensures airports { AreAirportsFor asked.now airports.new }
    ensures wide { IsAsWide store.old store.new }
    ensures length { length row.new ≡ length row.old }
{
    every_book_is_sound(asked.book);
    every_store_is_sound(store);
    let port = port_of(asked.book, b);
    let stand = Stand {
        port,
        floor,
        turn: turn_at(asked.book, asked.k, port),
        moment: start_of(asked.book, b),
    };
    let airport = &mut airports[port as usize];
    fill_open(
        asked,
        stand,
        &airport.windows,
        &airport.flights,
        &airport.grounds,
        b,
        &mut airport.entered,
        &mut airport.waiting,
        key,
        row,
        store,
    )?;
    Ok(())
}

// Whether the lines of an airport pay for labels of so many values: more flights end there than are due, so many for each
// edge between its windows and each value. A hint, since single links do the same.
fn pays(airport: &AirportLines, values: usize, due: usize) -> bool {
    let edges = airport.windows.len().saturating_sub(1);
    airport.flights.len() > edges.saturating_mul(values).saturating_mul(due)
}

// Fills the bucket of an activity, from lines where it is an open departure and they pay.
fn fill_at(
    asked: &Asked,
    cut: &[bool],
    floor: u32,
    before: i64,
    b: u32,
    due: usize,
    airports: &mut [AirportLines],
    key: &mut Vec<i64>,
    row: &mut [i64],
    store: &mut Store,
) -> Result<(), Memory>
    requires asked { IsAsked asked.now }
    requires state { IsUnderWay asked.now store.old (length row.old) }
    requires activity { b < activities asked.now.book.now }
    requires range { length cut.now ≡ activities asked.now.book.now }
    requires cut { AreCutsNoted asked.now.marks.now.facts cut.now }
    requires airports { AreAirportsFor asked.now airports.old }
    requires busy { AreBusyFor asked.now floor before store.old airports.old }
    requires earlier { before ≤ℤ start_of asked.now.book.now b }
    requires floor { IsFloorFor asked.now b floor }
    ensures state { IfOk result (λ _. IsUnderWay asked.now store.new (length row.new)) }
    ensures grows { IfOk result (λ _. Grows b store.old store.new) }
    ensures filled { IfOk result (λ _. IsFilledFor asked.now store.new b) }
    ensures busy { IfOk result (λ _. AreBusyFor asked.now floor (start_of asked.now.book.now b) store.new airports.new) }
    ensures airports { AreAirportsFor asked.now airports.new }
    ensures wide { IsAsWide store.old store.new }
    ensures length { length row.new ≡ length row.old }
{
    every_book_is_sound(asked.book);
    every_store_is_sound(store);
    let port = port_of(asked.book, b);
    if is_open(asked, cut, b) && pays(&airports[port as usize], row.len(), due) {
        return fill_in_lines(asked, floor, before, b, airports, key, row, store);
    }
    fill(asked, b, row, store)?;
    Ok(())
}

// Empties the lines of an airport.
fn reset(airport: &mut AirportLines)
    ensures fresh { IsFreshAirport airport.new }
    ensures like { IsLikeAirport airport.old airport.new }
{
    airport.waiting.keys.clear();
    airport.waiting.labels.clear();
    airport.waiting.places.clear();
    airport.entered.fill(0);
}

/// Empties all lines.
pub fn reset_all(airports: &mut [AirportLines])
    ensures fresh { AreFresh airports.new }
    ensures alike { AreAlike airports.old airports.new }
{
    for p in 0..airports.len() {
        reset(&mut airports[p]);
    }
}

// The number behind the last Must up to an activity; where that is one, all lines begin anew.
fn pass_must(asked: &Asked, b: u32, floor: u32, airports: &mut [AirportLines]) -> u32
    requires asked { IsAsked asked.now }
    requires activity { b < activities asked.now.book.now }
    requires floor { IsFloorFor asked.now b floor }
    ensures floor { IsFloorFor asked.now (b + 1) result }
    ensures alike { AreAlike airports.old airports.new }
    ensures lines { ((result ≡ floor) × (airports.new ≡ airports.old)) ⊎ AreFresh airports.new }
{
    has_fact_decides();
    every_book_is_sound(asked.book);
    if !asked.marks.has(Fact::Must(asked.k, b)) {
        return floor;
    }
    reset_all(airports);
    b + 1
}

// Notes where a Cut leads.
fn note_cut(fact: Fact, cut: &mut [bool])
    requires { (c d : ℕ) → fact ≡ FactCut c d → d < length cut.old }
    ensures noted { (c d : ℕ) → fact ≡ FactCut c d → slice_index_or cut.new d false ≡ true }
    ensures stays { (d : ℕ) → slice_index_or cut.old d false ≡ true → slice_index_or cut.new d false ≡ true }
    ensures length { length cut.new ≡ length cut.old }
{
    match fact {
        Fact::Cut(_, d) => cut[d as usize] = true,
        Fact::Bar(_, _) | Fact::Must(_, _) | Fact::Tie(_, _) => {}
    }
}

/// Notes to which activities Cuts lead.
pub fn note_cuts(book: &Book, marks: &Marks, cut: &mut [bool])
    requires marks { AreMarksOf book.now marks.now }
    requires length { length cut.old ≡ activities book.now }
    ensures noted { AreCutsNoted marks.now.facts cut.new }
    ensures length { length cut.new ≡ length cut.old }
{
    cut.fill(false);
    for i in 0..marks.mark() {
        note_cut(marks.fact_at(i), cut);
    }
}

/// Fills all buckets, in order of activity, with lines that are empty at first. Labels wait where more flights end than are
/// due (`pays`).
pub fn fill_lines(
    asked: &Asked,
    cut: &[bool],
    due: usize,
    airports: &mut [AirportLines],
    key: &mut Vec<i64>,
    row: &mut [i64],
    store: &mut Store,
) -> Result<(), Memory>
    requires asked { IsAsked asked.now }
    requires state { IsUnderWay asked.now store.old (length row.old) }
    requires range { length cut.now ≡ activities asked.now.book.now }
    requires cut { AreCutsNoted asked.now.marks.now.facts cut.now }
    requires airports { AreAirportsFor asked.now airports.old }
    requires fresh { AreFresh airports.old }
    ensures state { IfOk result (λ _. IsUnderWay asked.now store.new (length row.new)) }
    ensures filled { IfOk result (λ _. AreFilledFor asked.now store.new (activities asked.now.book.now)) }
    ensures airports { AreAirportsFor asked.now airports.new }
    ensures wide { IsAsWide store.old store.new }
    ensures length { length row.new ≡ length row.old }
{
    let book = asked.book;
    every_book_is_sound(book);
    let (mut floor, mut before) = (0, 0);
    for b in 0..book.activities.len() as u32 {
        every_store_is_sound(store);
        fill_at(asked, cut, floor, before, b, due, airports, key, row, store)?;
        floor = pass_must(asked, b, floor, airports);
        before = start_of(book, b);
    }
    Ok(())
}
