//! Passes: duals made better by pricing without counters, before an ascent begins.
//!
//! Aircraft after aircraft gets its lightest route, in which counters are not asked. The duals of the route's activities then
//! fall by a step, and all duals rise by an aircraft's share of it, so that what several aircraft want becomes dearer for the
//! next. Each pass makes the step shorter, and the mean of the last duals is taken, within the box. Of a counter that nothing
//! clears an aircraft pays a price for each unit. All of this only suggests.

ghost use Rattle.std.specs.Prelude.{◌≡◌, ◌<◌, length};
ghost use Rattle.tail_book.specs.CostTable.{IsTableFor};
ghost use Rattle.tail_book.specs.Lookup.{aircraft};
ghost use Rattle.connection_net.specs.Net.{net_of};
ghost use Rattle.branch_marks.specs.Settled.{AreDuals};
ghost use Rattle.branch_marks.specs.inside.MarkTables.{AreMarksOf};
ghost use Rattle.node_leaves.specs.inside.Field.{IsField};

use crate::budgets::{Budget, budgets_of, part_of};
use crate::lightest::{Field, Lightest, activity_weight, at, every_field_is_sound, put};
use branch_marks::Marks;
use connection_net::Net;
use std::alloc::Global;
use tail_book::{Book, CostTable, Duals, Memory};

// How many passes there are, and of how many of the last ones the mean is taken.
const PASSES: u32 = 100;

const LAST: u32 = 5;

// The first step is so many hundredths of the mean dual, and each pass leaves so many hundredths of it.
const FIRST_STEP: i64 = 200;

const KEPT: i64 = 94;

// The duals under way, and what routes under them take.
#[derive(Drop)]
struct Passes {
    lightest: Lightest,
    budgets: Vec<Budget>,
    duals: Vec<i64>,
    // the sums of the last duals
    sums: Vec<i64>,
}

impl Passes {
    // Passes that begin at duals.
    fn new(alloc: Global, field: &Field<'_>, duals: &Duals) -> Result<Passes, Memory>
        requires { IsField field.now }
    {
        let book = field.book;
        Ok(Passes {
            lightest: Lightest::new(alloc, field)?,
            budgets: budgets_of(alloc, book)?,
            duals: duals.values.clone()?,
            sums: vec![in alloc; 0i64; book.activities.len()]?,
        })
    }

    // Writes what each activity adds to a route of an aircraft, where all duals have risen by so much.
    fn add_up(&mut self, field: &Field<'_>, k: u32, rise: i64)
        requires field { IsField field.now }
        requires aircraft { k < aircraft field.now.book.now }
    {
        every_field_is_sound(field);
        let book = field.book;
        for a in 0..book.activities.len() as u32 {
            let dual = at(&self.duals, a as usize).saturating_add(rise);
            self.lightest.set_added(
                a as usize,
                activity_weight(field, k, a).saturating_sub(dual),
            );
        }
        for budget in self.budgets.iter() {
            budget.add_prices(k, &mut self.lightest);
        }
    }

    // Lowers the duals of a route by a step.
    fn lower(&mut self, head: Option<u32>, step: i64) {
        let mut next = head;
        for _ in 0..self.duals.len() {
            let Some(a) = next else {
                break;
            };
            let lower = at(&self.duals, a as usize).saturating_sub(step);
            put(&mut self.duals, a as usize, lower);
            next = self.lightest.after(a);
        }
    }

    // Moves the prices of an aircraft by what its route uses.
    fn charge(&mut self, book: &Book, k: u32, head: Option<u32>, step: i64) {
        for i in 0..self.budgets.len() {
            if let Some(budget) = self.budgets.get_mut(i) {
                budget.charge(book, &self.lightest, k, head, step);
            }
        }
    }

    // Raises all duals.
    fn raise(&mut self, rise: i64) {
        for dual in self.duals.iter_mut() {
            *dual = dual.saturating_add(rise);
        }
    }

    // The turn of an aircraft, where all duals have risen by so much.
    fn turn(&mut self, field: &Field<'_>, k: u32, rise: i64, step: i64)
        requires field { IsField field.now }
        requires aircraft { k < aircraft field.now.book.now }
    {
        let book = field.book;
        self.add_up(field, k, rise);
        let head = self.lightest.find(field, k);
        self.lower(head, step);
        self.charge(book, k, head, step);
    }

    // One pass over all aircraft.
    fn pass(&mut self, field: &Field<'_>, step: i64)
        requires { IsField field.now }
    {
        every_field_is_sound(field);
        let book = field.book;
        let share = part_of(step, book.tails.len() as i64);
        let mut rise = 0i64;
        for k in 0..book.tails.len() as u32 {
            self.turn(field, k, rise, step);
            rise = rise.saturating_add(share);
        }
        self.raise(rise);
    }

    // Adds the duals to the sums.
    fn sum_up(&mut self) {
        for a in 0..self.sums.len() {
            let sum = at(&self.sums, a).saturating_add(at(&self.duals, a));
            put(&mut self.sums, a, sum);
        }
    }

    // All passes, of which the first makes a step of this length.
    fn run(&mut self, field: &Field<'_>, first: i64)
        requires { IsField field.now }
    {
        let mut step = first;
        for pass in 0..PASSES {
            self.pass(field, step);
            step = (step.saturating_mul(KEPT) / 100).max(1);
            if pass >= PASSES - LAST {
                self.sum_up();
            }
        }
    }
}

// The mean of duals without their signs, in thousandths of a cost unit.
fn mean_of(duals: &[i64]) -> i64 {
    let mut sum = 0u64;
    for dual in duals {
        sum = sum.saturating_add(dual.unsigned_abs());
    }
    (sum / (duals.len() as u64).max(1)).min(1 << 40) as i64
}

// Writes a dual, within the box.
fn put_dual(book: &Book, table: &CostTable, duals: &mut Duals, a: usize, value: i64)
    requires duals { AreDuals table.now book.now duals.old.values }
    requires place { a < length duals.old.values }
    ensures duals { AreDuals table.now book.now duals.new.values }
{
    duals.values[a] = table.boxed(value);
}

// Writes the means of the last duals, within the box.
fn put_means(book: &Book, table: &CostTable, passes: &Passes, duals: &mut Duals)
    requires duals { AreDuals table.now book.now duals.old.values }
    ensures duals { AreDuals table.now book.now duals.new.values }
{
    let n = duals.values.len();
    for a in 0..n {
        put_dual(book, table, duals, a, at(&passes.sums, a) / LAST as i64);
    }
}

/// Makes duals better by passes.
pub fn pass_duals(
    alloc: Global,
    book: &Book,
    table: &CostTable,
    net: &Net,
    marks: &Marks,
    duals: &mut Duals,
) -> Result<(), Memory>
    requires table { IsTableFor book.now table.now }
    requires net { net.now ≡ net_of book.now }
    requires marks { AreMarksOf book.now marks.now }
    requires duals { AreDuals table.now book.now duals.old.values }
    ensures duals { AreDuals table.now book.now duals.new.values }
{
    let field = Field {
        book,
        table,
        net,
        marks,
    };
    let mut passes = Passes::new(alloc, &field, duals)?;
    passes.run(
        &field,
        mean_of(&duals.values).saturating_mul(FIRST_STEP) / 100,
    );
    put_means(book, table, &passes, duals);
    Ok(())
}
