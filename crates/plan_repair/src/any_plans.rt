//! Whether any plan is legal, asked by searches of a few nodes. Where moves are raised a little, the first node has a plan mostly, if there
//! is one. Where nothing costs anything, any plan will do, and a sum above 0 says that there is none; so that is known after a few rounds,
//! mostly.

ghost use Rattle.std.specs.Prelude.{◌≡◌, ◌≤◌, IfOk};
ghost use Rattle.tail_book.specs.Lookup.{activities};
ghost use Rattle.tail_book.specs.CostTable.{IsTableFor, costs_of};
ghost use Rattle.plan_homes.specs.Moves.{AreHomesFor};
ghost use Rattle.plan_repair.specs.declared.raised.TheConstants.{RAISE_LIMIT, REPAIR_LIMIT};
ghost use Rattle.plan_repair.specs.inside.Found.{IsTrueBegin};

use crate::raised::{no_costs, raised};
use crate::warm_duals::warm_at;
use branch_marks::NoLog;
use branch_tree::{Limit, WarmStart, search_from};
use std::alloc::Global;
use tail_book::laws::own_costs_are_for_book;
use tail_book::{Book, CostTable, Memory, Outcome, Plan};

/// What is known of the legal plans of a book before a repair.
#[derive(Drop)]
pub enum Begin {
    /// This is one.
    From(Plan),
    /// Nothing.
    Open,
    /// There is none.
    Infeasible,
}

// So many nodes are asked where nothing costs anything.
const NODES: u64 = 3;

// Each dual at first there, how hot the ascent begins, and how far it goes: in thousandths of a cost unit.
const DUAL: i64 = 1_000;

const TEMPERATURE: i64 = 300;

const RADIUS: i64 = 1_000;

// What a search by a table tells within so many nodes.
fn begin_by(
    alloc: Global,
    book: &Book,
    table: &CostTable,
    nodes: u64,
    warm: WarmStart,
) -> Result<Begin, Memory>
    requires { IsTableFor book.now table.now }
    ensures { IfOk result (IsTrueBegin book.now) }
{
    let limit = Limit::Nodes(nodes);
    match search_from(alloc, book, table, limit, None, Some(warm), &mut NoLog) {
        Ok(Outcome::Optimal(plan, _)) => Ok(Begin::From(plan)),
        Ok(Outcome::Between { plan, .. }) => Ok(Begin::From(plan)),
        Ok(Outcome::Above { .. }) => Ok(Begin::Open),
        Ok(Outcome::Infeasible) => Ok(Begin::Infeasible),
        Err(_) => Err(Memory),
    }
}

/// A legal plan, or that there is none, if the root tells, with each move raised by so much, where these activities can be kept at home.
/// No time is spent on dives.
pub fn plan_at_root(
    alloc: Global,
    book: &Book,
    own: &CostTable,
    homes: &[Option<u32>],
    kept: &[bool],
    raise: u64,
) -> Result<Begin, Memory>
    requires own { own.now ≡ costs_of book.now }
    requires homes { AreHomesFor book.now homes.now }
    requires few { activities book.now ≤ REPAIR_LIMIT }
    requires high { raise ≤ RAISE_LIMIT }
    ensures { IfOk result (IsTrueBegin book.now) }
{
    own_costs_are_for_book();
    let table = raised(alloc, book, own, homes, raise)?;
    let mut warm = warm_at(alloc, book, own, homes, kept, raise)?;
    warm.dives = false;
    begin_by(alloc, book, &table, 1, warm)
}

/// A legal plan, or that there is none, if a few nodes tell where nothing costs anything. No time is spent on dives, which costs have to
/// lead.
pub fn any_plan(alloc: Global, book: &Book) -> Result<Begin, Memory>
    ensures { IfOk result (IsTrueBegin book.now) }
{
    let table = no_costs(alloc, book)?;
    let warm = WarmStart {
        duals: vec![in alloc; DUAL; book.activities.len()]?,
        temperature: TEMPERATURE,
        radius: RADIUS,
        dives: false,
    };
    begin_by(alloc, book, &table, NODES, warm)
}
