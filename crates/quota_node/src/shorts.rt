//! Short connections: those that belong to a quota. They are cut where a plan that keeps the quotas is looked for, or routes without
//! them, and duals are lowered by the fees of those that stay.

ghost use Rattle.std.specs.Prelude.{◌≡◌, ◌<◌, IfOk, length};
ghost use Rattle.tail_book.specs.Lookup.{activities};
ghost use Rattle.connection_net.specs.Net.{net_of};
ghost use Rattle.branch_marks.specs.Settled.{AreDuals};
ghost use Rattle.branch_marks.specs.inside.MarkTables.{AreMarksOf};

use branch_marks::{Fact, Marks};
use connection_net::Net;
use connection_net::laws::rows_for_each;
use dual_ascent::{Groups, Member};
use quota_rows::{Fees, Quota, belongs};
use restricted_master::number_of;
use std::alloc::Global;
use tail_book::laws::every_book_is_sound;
use tail_book::{Book, CostTable, Duals, Memory};

// Whether a connection belongs to a quota that does not spare its second activity.
fn is_short(book: &Book, quotas: &[Quota], spared: &Groups, a: u32, b: u32) -> bool
    requires before { a < activities book.now }
    requires after { b < activities book.now }
{
    for q in 0..quotas.len() {
        if belongs(book, &quotas[q], a, b) && !spared.of(q).contains(&b) {
            return true;
        }
    }
    false
}

// Cuts the short connections into an activity.
fn cut_into(
    book: &Book,
    net: &Net,
    quotas: &[Quota],
    spared: &Groups,
    b: u32,
    cut: &mut Marks,
) -> Result<(), Memory>
    requires net { net.now ≡ net_of book.now }
    requires marks { AreMarksOf book.now cut.old }
    requires after { b < activities book.now }
    ensures { AreMarksOf book.now cut.new }
{
    every_book_is_sound(book);
    rows_for_each();
    for a in net.predecessors(b) {
        let a = *a;
        if a < b && is_short(book, quotas, spared, a, b) && !cut.has(Fact::Tie(a, b)) {
            let _ = cut.add(book, Fact::Cut(a, b))?;
        }
    }
    Ok(())
}

/// The marks, and a Cut for each connection that belongs to a quota, but for those that have a Tie or lead into an activity that the
/// quota spares. Spared are activities, in the groups of their quotas.
pub fn cut_shorts(
    book: &Book,
    net: &Net,
    quotas: &[Quota],
    marks: &Marks,
    spared: &Groups,
) -> Result<Marks, Memory>
    requires net { net.now ≡ net_of book.now }
    requires marks { AreMarksOf book.now marks.now }
    ensures { IfOk result (AreMarksOf book.now) }
{
    let mut cut = marks.copy()?;
    for b in 0..book.activities.len() {
        cut_into(book, net, quotas, spared, b as u32, &mut cut)?;
    }
    Ok(cut)
}

// Whether a connection into an activity belongs to a quota.
fn comes_short(book: &Book, net: &Net, quota: &Quota, b: u32) -> bool
    requires net { net.now ≡ net_of book.now }
    requires after { b < activities book.now }
{
    every_book_is_sound(book);
    rows_for_each();
    for a in net.predecessors(b) {
        if *a < b && belongs(book, quota, *a, b) {
            return true;
        }
    }
    false
}

/// The activities into which a connection belongs to a quota, in the groups of the quotas.
pub fn short_comers(
    alloc: Global,
    book: &Book,
    net: &Net,
    quotas: &[Quota],
) -> Result<Vec<Member>, Memory>
    requires net { net.now ≡ net_of book.now }
{
    every_book_is_sound(book);
    let mut comers = Vec::new(alloc);
    for q in 0..quotas.len() {
        add_comers(book, net, &quotas[q], number_of(q), &mut comers)?;
    }
    Ok(comers)
}

// Adds those of a quota.
fn add_comers(
    book: &Book,
    net: &Net,
    quota: &Quota,
    group: u32,
    comers: &mut Vec<Member>,
) -> Result<(), Memory>
    requires net { net.now ≡ net_of book.now }
{
    every_book_is_sound(book);
    for b in 0..book.activities.len() {
        let thing = b as u32;
        if comes_short(book, net, quota, thing) {
            comers.push(Member { group, thing })?;
        }
    }
    Ok(())
}

// Lowers a dual, within the box.
fn lower(book: &Book, table: &CostTable, duals: &mut Duals, a: usize, by: i64)
    requires duals { AreDuals table.now book.now duals.old.values }
    requires place { a < length duals.old.values }
    ensures duals { AreDuals table.now book.now duals.new.values }
{
    let value = duals.values[a];
    duals.values[a] = table.boxed(value.saturating_sub(by));
}

/// Duals that are lower by the fees of the quotas: those of the activities in their groups, which then pay the fee with a short connection
/// or without one.
pub fn lowered(
    book: &Book,
    table: &CostTable,
    duals: &Duals,
    fees: &Fees,
    comers: &[Member],
) -> Result<Duals, Memory>
    requires duals { AreDuals table.now book.now duals.now.values }
    ensures { IfOk result (λ lower. AreDuals table.now book.now lower.values) }
{
    let mut low = Duals {
        values: duals.values.clone()?,
    };
    for comer in comers {
        let fee = fees.values.get(comer.group as usize).copied().unwrap_or(0);
        let a = comer.thing as usize;
        if a < low.values.len() {
            lower(book, table, &mut low, a, fee);
        }
    }
    Ok(low)
}
