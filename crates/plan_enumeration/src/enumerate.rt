//! The least plan by plain enumeration of who flies what.
//!
//! The activities are assigned one after the other, in rising number. An activity that no aircraft may take next ends
//! its branch. Since linked activities rise in number, an aircraft's route is its activities in that order, and so
//! every legal plan is met.
//!
//! A branch that already costs what the best assignment so far costs is cut, since no cost is below 0.
//! At most `m` to the power of `n` assignments of `n` activities to `m` aircraft are tried. Nothing is allocated on the
//! way. Costs and permissions come from tables that are made once; turns and counters are judged in each branch.

ghost use Rattle.std.specs.Prelude.{◌≡◌, ◌<◌, ◌≤◌, ◌+◌, ◌*◌, ◌++◌, [], ◌∷◌, IsTrue, ◌↔◌, IfOk, IfSome, IfNone, length, take, All, slice_index_or};
ghost use Rattle.tail_book.specs.declared.limits.TheConstants.{LEG_COST_LIMIT};
ghost use Rattle.tail_book.specs.Lookup.{activities, aircraft};
ghost use Rattle.tail_book.specs.Counters.{step, WithinLimits};
ghost use Rattle.tail_book.specs.Fliers.{plan_by};
ghost use Rattle.plan_enumeration.specs.inside.Assignment.{IsLegalAssignment, assignment_cost};
ghost use Rattle.tail_book.specs.Truth.{IsTrueOutcome};
ghost use Rattle.plan_enumeration.specs.inside.Enumeration.{Advances, AgreesBelow, HasRow, GoesOn, HasTried, IsBest, IsCounterValue, IsNoBetter, IsTrial, KeepsBest, IsPlaceBefore, IsRowBefore, row_of, values_at, width_of, with_row};
ghost use Rattle.plan_enumeration.specs.inside.Decided.{IsDecided};
ghost use Rattle.plan_enumeration.specs.inside.BookTables.{AreTablesOf};
ghost use Rattle.turn_rules.specs.inside.FreeBefore.{IsFreeBefore};
ghost use Rattle.tail_book.specs.Place.{IsPlaceOf};

use crate::book_tables::{BookTables, tables_of};
use crate::cost::going_cost;
use maint_counters::{start, step};
use std::alloc::Global;
use tail_book::laws::routes_are_flown_in_turn;
use tail_book::{Book, Memory, Outcome, Place, laws, plan_by};
use turn_rules::link_by;

/// The best assignment so far: for each activity the aircraft that flies it, and its cost in cost units. Neither means
/// anything before one is found.
#[derive(Drop)]
pub struct Best {
    pub found: bool,
    pub cost: u64,
    pub fliers: Vec<u32>,
}

/// Where the enumeration stands: who flies the activities that are assigned, where each aircraft is after them, and
/// the counters after each of them, a row for an activity.
#[derive(Drop)]
pub struct Trial {
    pub fliers: Vec<u32>,
    pub places: Vec<Place>,
    pub values: Vec<i64>,
}

/// What it costs an aircraft to go on with the next activity, in cost units, and the place that it goes on from.
#[derive(Drop)]
pub struct Advance {
    pub from: Place,
    pub cost: u64,
}

// Takes the assignment, which costs less than the best so far, as the best.
fn keep(book: &Book, best: &mut Best, fliers: &[u32], cost: u64)
    requires best { IsBest book.now best.old }
    requires legal { IsLegalAssignment book.now fliers.now }
    requires cost { assignment_cost book.now fliers.now ≡ cost }
    requires better { IsTrue best.old.found → cost < best.old.cost }
    ensures best { IsBest book.now best.new }
    ensures kept { KeepsBest book.now best.old best.new }
    ensures tried { IsNoBetter book.now best.new fliers.now }
{
    best.fliers.as_mut_slice().copy_from_slice(fliers);
    best.found = true;
    best.cost = cost;
}

fn row_of(values: &[i64], x: usize, width: usize) -> &[i64]
    requires { x * width + width ≤ length values.now }
    ensures { result.now ≡ row_of width values.now x }
{
    let at = x * width;
    &values[at..at + width]
}

// Writes the counters at a place into a row.
fn fill_row(book: &Book, before: &[i64], row: &mut [i64], k: u32, from: Place)
    requires aircraft { k < aircraft book.now }
    requires place { IsPlaceOf book.now from }
    requires width { length row.old ≡ width_of book.now }
    requires there { IsRowBefore book.now from (length before.now) }
    ensures { row.new ≡ values_at book.now before.now k from }
{
    match from {
        Place::Carry => start(book, k, row),
        Place::After(x) => {
            row.copy_from_slice(row_of(before, x as usize, book.rules.counters.len()));
        }
    }
}

// Steps the counters at a place into a row, and says whether they are within their limits.
fn step_into(book: &Book, before: &[i64], row: &mut [i64], k: u32, from: Place, a: u32) -> bool
    requires aircraft { k < aircraft book.now }
    requires activity { a < activities book.now }
    requires place { IsPlaceBefore a from }
    requires width { length row.old ≡ width_of book.now }
    requires there { IsRowBefore book.now from (length before.now) }
    requires small { All IsCounterValue (values_at book.now before.now k from) }
    ensures row { row.new ≡ step book.now k from a (values_at book.now before.now k from) }
    ensures wide { length (step book.now k from a (values_at book.now before.now k from)) ≡ width_of book.now }
    ensures limits { IsTrue result ↔ WithinLimits book.now.rules.counters row.new }
    ensures range { IsFreeBefore book.now k from a → IsTrue result → All IsCounterValue row.new }
{
    fill_row(book, before, row, k, from);
    step(book, k, from, a, row)
}

// Steps the counters at a place into the row of activity `a`, and says whether they are within their limits.
fn step_row(book: &Book, values: &mut [i64], k: u32, from: Place, a: u32) -> bool
    requires aircraft { k < aircraft book.now }
    requires activity { a < activities book.now }
    requires place { IsPlaceBefore a from }
    requires width { length values.old ≡ activities book.now * width_of book.now }
    requires small { All IsCounterValue (values_at book.now values.old k from) }
    ensures limits { IsTrue result ↔ WithinLimits book.now.rules.counters (step book.now k from a (values_at book.now values.old k from)) }
    ensures row { values.new ≡ with_row (width_of book.now) values.old a (step book.now k from a (values_at book.now values.old k from)) }
    ensures wide { length (step book.now k from a (values_at book.now values.old k from)) ≡ width_of book.now }
    ensures range { IsFreeBefore book.now k from a → IsTrue result → All IsCounterValue (step book.now k from a (values_at book.now values.old k from)) }
{
    let width = book.rules.counters.len();
    let (before, rest) = values.split_at_mut(a as usize * width);
    step_into(book, before, &mut rest[..width], k, from, a)
}

fn place_of(trial: &Trial, k: u32) -> Place
    requires { k < length trial.now.places.items }
    ensures { result ≡ slice_index_or trial.now.places.items k Place.Carry }
{
    trial.places[k as usize]
}

// Steps the counters of aircraft `k` into the row of activity `a`, and says whether they are within their limits.
fn step_values(book: &Book, values: &mut Vec<i64>, k: u32, from: Place, a: u32) -> bool
    requires aircraft { k < aircraft book.now }
    requires activity { a < activities book.now }
    requires place { IsPlaceBefore a from }
    requires width { length values.old.items ≡ activities book.now * width_of book.now }
    requires small { All IsCounterValue (values_at book.now values.old.items k from) }
    ensures limits { IsTrue result ↔ WithinLimits book.now.rules.counters (step book.now k from a (values_at book.now values.old.items k from)) }
    ensures row { values.new.items ≡ with_row (width_of book.now) values.old.items a (step book.now k from a (values_at book.now values.old.items k from)) }
    ensures wide { length (step book.now k from a (values_at book.now values.old.items k from)) ≡ width_of book.now }
    ensures range { IsFreeBefore book.now k from a → IsTrue result → All IsCounterValue (step book.now k from a (values_at book.now values.old.items k from)) }
{
    step_row(book, values.as_mut_slice(), k, from, a)
}

// Whether aircraft `k` may go on with activity `a`, the next one; its counters are then in the activity's row.
fn can_go_on(book: &Book, tables: &BookTables, trial: &mut Trial, k: u32, a: u32) -> bool
    requires tables { AreTablesOf book.now tables.now }
    requires aircraft { k < aircraft book.now }
    requires activity { a < activities book.now }
    requires trial { IsTrial book.now a trial.old }
    ensures exact { IsTrue result ↔ GoesOn book.now (take a trial.old.fliers.items) k }
    ensures fliers { trial.new.fliers.items ≡ trial.old.fliers.items }
    ensures places { trial.new.places.items ≡ trial.old.places.items }
    ensures row { IsTrue result → HasRow book.now a k (slice_index_or trial.old.places.items k Place.Carry) trial.old trial.new }
    ensures agrees { AgreesBelow book.now a trial.old trial.new }
    ensures rows { length trial.new.values.items ≡ length trial.old.values.items }
{
    laws::every_book_is_sound(book);
    routes_are_flown_in_turn();
    let from = place_of(trial, k);
    link_by(book, &tables.permissions, k, from, a)
        && step_values(book, &mut trial.values, k, from, a)
}

// Lets aircraft `k` fly activity `a`, the next one, if that is legal.
fn go_on(book: &Book, tables: &BookTables, trial: &mut Trial, k: u32, a: u32) -> Option<Advance>
    requires tables { AreTablesOf book.now tables.now }
    requires aircraft { k < aircraft book.now }
    requires activity { a < activities book.now }
    requires trial { IsTrial book.now a trial.old }
    ensures advances { IfSome result (Advances book.now a k trial.old trial.new) }
    ensures stuck { IfNone result (¬ GoesOn book.now (take a trial.old.fliers.items) k) }
    ensures stays { IfNone result (IsTrial book.now a trial.new) }
    ensures agrees { IfNone result (AgreesBelow book.now a trial.old trial.new) }
{
    routes_are_flown_in_turn();
    if !can_go_on(book, tables, trial, k, a) {
        return None;
    }
    let from = place_of(trial, k);
    let cost = going_cost(book, &tables.costs, k, from, a);
    trial.fliers[a as usize] = k;
    trial.places[k as usize] = Place::After(a);
    Some(Advance { from, cost })
}

// Tries all that goes on with aircraft `k` flying activity `a`, the next one.
#[cycle(assign)]
fn assign_to(
    book: &Book,
    tables: &BookTables,
    trial: &mut Trial,
    best: &mut Best,
    k: u32,
    a: u32,
    cost: u64,
)
    requires tables { AreTablesOf book.now tables.now }
    requires aircraft { k < aircraft book.now }
    requires activity { a < activities book.now }
    requires trial { IsTrial book.now a trial.old }
    requires cost { cost ≡ assignment_cost book.now (take a trial.old.fliers.items) }
    requires most { cost ≤ LEG_COST_LIMIT * a }
    requires best { IsBest book.now best.old }
    ensures best { IsBest book.now best.new }
    ensures kept { KeepsBest book.now best.old best.new }
    ensures tried { HasTried book.now best.new (take a trial.old.fliers.items ++ k ∷ []) }
    ensures trial { IsTrial book.now a trial.new }
    ensures agrees { AgreesBelow book.now a trial.old trial.new }
{
    laws::every_book_is_sound(book);
    routes_are_flown_in_turn();
    let Some(advance) = go_on(book, tables, trial, k, a) else {
        return;
    };
    assign_from(book, tables, trial, best, a + 1, cost + advance.cost);
    trial.places[k as usize] = advance.from;
}

// Tries all assignments of the activities from number `a` on.
#[cycle(assign)]
fn assign_from(
    book: &Book,
    tables: &BookTables,
    trial: &mut Trial,
    best: &mut Best,
    a: u32,
    cost: u64,
)
    requires tables { AreTablesOf book.now tables.now }
    requires activity { a ≤ activities book.now }
    requires trial { IsTrial book.now a trial.old }
    requires cost { cost ≡ assignment_cost book.now (take a trial.old.fliers.items) }
    requires most { cost ≤ LEG_COST_LIMIT * a }
    requires best { IsBest book.now best.old }
    ensures best { IsBest book.now best.new }
    ensures kept { KeepsBest book.now best.old best.new }
    ensures tried { HasTried book.now best.new (take a trial.old.fliers.items) }
    ensures trial { IsTrial book.now a trial.new }
    ensures agrees { AgreesBelow book.now a trial.old trial.new }
{
    routes_are_flown_in_turn();
    if best.found && best.cost <= cost {
        return;
    }
    if a as usize == book.activities.len() {
        keep(book, best, &trial.fliers, cost);
        return;
    }
    for k in 0..book.tails.len() as u32 {
        assign_to(book, tables, trial, best, k, a, cost);
    }
}

fn best_assignment(alloc: Global, book: &Book) -> Result<Best, Memory>
    ensures best { IfOk result (IsBest book.now) }
    ensures tried { IfOk result (λ best. HasTried book.now best []) }
{
    let tables = tables_of(alloc, book)?;
    let activities = book.activities.len();
    let mut trial = Trial {
        fliers: vec![in alloc; 0; activities]?,
        places: vec![in alloc; Place::Carry; book.tails.len()]?,
        values: vec![in alloc; 0; activities * book.rules.counters.len()]?,
    };
    let mut best = Best {
        found: false,
        cost: 0,
        fliers: vec![in alloc; 0; activities]?,
    };
    assign_from(book, &tables, &mut trial, &mut best, 0, 0);
    Ok(best)
}

fn outcome_of(alloc: Global, book: &Book, best: &Best) -> Result<Outcome, Memory>
    requires best { IsBest book.now best.now }
    requires tried { HasTried book.now best.now [] }
    ensures truth { IfOk result (IsTrueOutcome book.now) }
    ensures decided { IfOk result IsDecided }
{
    laws::every_book_is_sound(book);
    laws::fliers_fly();
    laws::plans_of_their_fliers();
    laws::plans_by_fliers_are_legal();
    if !best.found {
        return Ok(Outcome::Infeasible);
    }
    let plan = plan_by(alloc, &best.fliers, book.tails.len() as u32)?;
    Ok(Outcome::Optimal(plan, best.cost))
}

/// A plan of the book that is legal and costs no more than any other legal one, or that none is legal.
pub fn least_plan(alloc: Global, book: &Book) -> Result<Outcome, Memory>
    ensures truth { IfOk result (IsTrueOutcome book.now) }
    ensures decided { IfOk result IsDecided }
{
    let best = best_assignment(alloc, book)?;
    outcome_of(alloc, book, &best)
}
