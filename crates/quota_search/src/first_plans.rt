//! Plans that are looked for before a tree is searched. Duals and fees are raised at the root; then some activities are chosen that may come
//! over a short connection, all other short connections are cut, and what is left is searched as if there were no quotas: any plan
//! there keeps them.

ghost use Rattle.std.specs.Prelude.{◌≡◌, ◌≤◌, [], ◌∷◌, length, IfOk};
ghost use Rattle.tail_book.specs.CostTable.{costs_of};
ghost use Rattle.connection_net.specs.Net.{net_of};
ghost use Rattle.branch_marks.specs.Settled.{AreDuals};
ghost use Rattle.branch_marks.specs.inside.MarkTables.{AreMarksOf};
ghost use Rattle.node_leaves.specs.Target.{IsBest};
ghost use Rattle.node_leaves.specs.inside.FittingPool.{IsLegalPool};
ghost use Rattle.open_branches.specs.Branches.{owed_of};
ghost use Rattle.quota_rows.specs.declared.quota.TheConstants.{QUOTA_LIMIT};
ghost use Rattle.quota_node.specs.QuotaNode.{KeepsWherePlanned};
ghost use Rattle.quota_search.specs.inside.State.{IsStateFor};

use crate::assignment::spared_by;
use crate::state::QuotaState;
use branch_marks::{Marks, NoLog, passes};
use branch_tree::{Step, node_step};
use connection_net::Net;
use dual_ascent::{Groups, Member};
use node_leaves::{Best, keep_fitting, pass_duals};
use plan_finder::{Problem, Sought, find_by_dives};
use quota_node::{cut_shorts, lowered, raise, take_kept};
use quota_rows::{Fees, Quota};
use quota_split::first_over;
use restricted_master::Pool;
use std::alloc::Global;
use tail_book::laws::own_costs_are_for_book;
use tail_book::{Book, CostTable, Duals, Memory};

// Mixtures are taken at these temperatures in turn, in thousandths of a cost unit.
const TEMPERATURES: [i64; 8] = [300, 1500, 60, 600, 150, 3000, 30, 6000];

// For each activity a dive looks at so many labels and routes, at most.
const WORK: u64 = 2_000;

// Raises duals and fees at the root. It answers their sum, where the root has not ended by it.
fn raise_root(
    alloc: Global,
    book: &Book,
    table: &CostTable,
    quotas: &[Quota],
    state: &mut QuotaState,
) -> Result<Option<i128>, Memory>
    requires table { table.now ≡ costs_of book.now }
    requires few { length quotas.now ≤ QUOTA_LIMIT }
    requires state { IsStateFor table.now book.now quotas.now state.old }
    ensures state { IsStateFor table.now book.now quotas.now state.new }
    ensures owed { owed_of state.new.branches ≡ owed_of state.old.branches }
{
    own_costs_are_for_book();
    let marks = &state.branches.marks;
    let pool = &mut state.routes.fit;
    keep_fitting(book, marks, pool);
    if first_over(book, quotas, marks).is_some() {
        return Ok(None);
    }
    pass_duals(alloc, book, table, &state.net, marks, &mut state.duals)?;
    raise(
        alloc,
        book,
        table,
        &state.net,
        quotas,
        marks,
        pool,
        &mut state.duals,
        &mut state.fees,
        state.best.target,
        &mut state.tools,
    )
}

// Looks for a plan under marks as if there were no quotas: by a step of an ordinary search, which may find one in its pool, and else by
// dives.
fn plan_under(
    alloc: Global,
    book: &Book,
    table: &CostTable,
    net: &Net,
    marks: &mut Marks,
    pool: &mut Pool,
    duals: &mut Duals,
    dives: bool,
) -> Result<Best, Memory>
    requires table { table.now ≡ costs_of book.now }
    requires net { net.now ≡ net_of book.now }
    requires marks { AreMarksOf book.now marks.old }
    requires pool { IsLegalPool table.now book.now pool.old }
    requires duals { AreDuals table.now book.now duals.old.values }
    ensures best { IfOk result (λ best. IsBest table.now book.now best.plan best.target) }
    ensures pool { IsLegalPool table.now book.now pool.new }
{
    own_costs_are_for_book();
    let mut best = Best::none(table);
    let step = match node_step(
        alloc, book, table, net, marks, pool, duals, &mut best, &mut NoLog,
    ) {
        Ok(step) => step,
        Err(_) => return Err(Memory),
    };
    if let Step::Split { .. } = step {
        if dives && best.plan.is_none() {
            dive_under(alloc, book, table, net, marks, pool, duals, &mut best)?;
        }
    }
    Ok(best)
}

// Dives for a plan under marks.
fn dive_under(
    alloc: Global,
    book: &Book,
    table: &CostTable,
    net: &Net,
    marks: &Marks,
    pool: &mut Pool,
    duals: &Duals,
    best: &mut Best,
) -> Result<(), Memory>
    requires table { table.now ≡ costs_of book.now }
    requires net { net.now ≡ net_of book.now }
    requires marks { AreMarksOf book.now marks.now }
    requires pool { IsLegalPool table.now book.now pool.old }
    requires duals { AreDuals table.now book.now duals.now.values }
    requires best { IsBest table.now book.now best.old.plan best.old.target }
    ensures best { IsBest table.now book.now best.new.plan best.new.target }
    ensures pool { IsLegalPool table.now book.now pool.new }
{
    own_costs_are_for_book();
    keep_fitting(book, marks, pool);
    let problem = Problem { book, table, net };
    let sought = Sought {
        marks,
        duals,
        work: (book.activities.len() as u64).saturating_mul(WORK),
    };
    if let Some(found) = find_by_dives(alloc, &problem, &sought, pool)? {
        best.take(book, table, found.plan, &found.cost);
    }
    Ok(())
}

// Looks for a plan with short connections into these activities alone.
fn seek_sparing(
    alloc: Global,
    book: &Book,
    table: &CostTable,
    quotas: &[Quota],
    state: &mut QuotaState,
    spared: &[Member],
    dives: bool,
) -> Result<(), Memory>
    requires table { table.now ≡ costs_of book.now }
    requires state { IsStateFor table.now book.now quotas.now state.old }
    ensures state { IsStateFor table.now book.now quotas.now state.new }
    ensures owed { owed_of state.new.branches ≡ owed_of state.old.branches }
{
    own_costs_are_for_book();
    let mut groups = Groups::new(alloc);
    groups.set(spared, quotas.len())?;
    let (net, routes) = (&state.net, &mut state.routes);
    let mut cut = cut_shorts(book, net, quotas, &state.branches.marks, &groups)?;
    let mut low = lowered(book, table, &state.duals, &state.fees, spared)?;
    routes.keep(alloc, book, table)?;
    routes.fit_to(alloc, book, table, &cut, false)?;
    let pool = &mut routes.fit;
    let tried = plan_under(alloc, book, table, net, &mut cut, pool, &mut low, dives)?;
    routes.keep(alloc, book, table)?;
    take_kept(book, table, quotas, tried, &mut state.best);
    Ok(())
}

// One look, by mixtures at a temperature.
fn seek_at(
    alloc: Global,
    book: &Book,
    table: &CostTable,
    quotas: &[Quota],
    state: &mut QuotaState,
    temperature: i64,
    dives: bool,
) -> Result<(), Memory>
    requires table { table.now ≡ costs_of book.now }
    requires state { IsStateFor table.now book.now quotas.now state.old }
    ensures state { IsStateFor table.now book.now quotas.now state.new }
    ensures owed { owed_of state.new.branches ≡ owed_of state.old.branches }
{
    let spared = spared_by(
        alloc,
        book,
        &state.net,
        quotas,
        &state.routes.all,
        &state.duals,
        &state.fees,
        temperature,
    )?;
    match spared {
        Some(spared) => seek_sparing(alloc, book, table, quotas, state, &spared, dives),
        None => Ok(()),
    }
}

/// Raises the root, and looks for plans that keep the quotas, until one is as good as the root's sum. Dives are asked where no other look
/// found any.
pub fn seek_plans(
    alloc: Global,
    book: &Book,
    table: &CostTable,
    quotas: &[Quota],
    state: &mut QuotaState,
) -> Result<(), Memory>
    requires table { table.now ≡ costs_of book.now }
    requires few { length quotas.now ≤ QUOTA_LIMIT }
    requires state { IsStateFor table.now book.now quotas.now state.old }
    ensures state { IsStateFor table.now book.now quotas.now state.new }
    ensures owed { owed_of state.new.branches ≡ owed_of state.old.branches }
{
    own_costs_are_for_book();
    let sum = match raise_root(alloc, book, table, quotas, state)? {
        None => return Ok(()),
        Some(sum) => sum,
    };
    state.routes.keep(alloc, book, table)?;
    for i in 0..TEMPERATURES.len() {
        seek_at(alloc, book, table, quotas, state, TEMPERATURES[i], false)?;
        if passes(sum, state.best.target) {
            return Ok(());
        }
    }
    if state.best.plan.is_none() {
        seek_at(alloc, book, table, quotas, state, TEMPERATURES[0], true)?;
    }
    Ok(())
}
