//! Tables of costs with each move raised: what an activity costs an aircraft that is not its home, and so much beside.
//! By such a table a plan costs what it cost, and the raise for each of its moves: a law says it.

ghost use Rattle.std.specs.Prelude.{◌≡◌, ◌<◌, ◌≤◌, ◌+◌, ◌*◌, ◌^◌, ◌++◌, IfOk, length, replicate};
ghost use Rattle.tail_book.specs.declared.limits.TheConstants.{LEG_COST_LIMIT};
ghost use Rattle.tail_book.specs.Lookup.{activities};
ghost use Rattle.tail_book.specs.CostTable.{IsTableFor};
ghost use Rattle.plan_repair.specs.declared.raised.TheConstants.{RAISE_LIMIT, REPAIR_LIMIT};
ghost use Rattle.plan_repair.specs.inside.Raised.{no_costs, raised, raised_cost, raised_costs};

use crate::moved::is_moved;
use std::alloc::Global;
use tail_book::laws::{every_book_is_sound, every_cost_table_is_sound};
use tail_book::limits::LEG_COST_LIMIT;
use tail_book::{Book, CostTable, Memory};

/// The most activities of a book whose plans are repaired.
pub const REPAIR_LIMIT: usize = 1_000;

/// The most that a move is raised by: one more than what any plan of so many activities costs.
pub const RAISE_LIMIT: u64 = LEG_COST_LIMIT * REPAIR_LIMIT as u64 + 1;

// What an activity costs an aircraft with moves raised.
fn raised_cost(table: &CostTable, homes: &[Option<u32>], raise: u64, k: u32, a: u32) -> u64
    requires aircraft { k < table.now.m }
    requires activity { a < table.now.n }
    requires entries { length table.now.fly ≡ table.now.n * table.now.m }
    requires fits { table.now.fly_max + raise < 2 ^ 64 }
    ensures { result ≡ raised_cost table.now homes.now raise k a }
{
    let cost = table.activity_cost(k, a);
    if is_moved(homes, k, a) {
        cost + raise
    } else {
        cost
    }
}

// Adds what each activity costs an aircraft with moves raised.
fn add_costs(
    table: &CostTable,
    homes: &[Option<u32>],
    raise: u64,
    k: u32,
    fly: &mut Vec<u64>,
) -> Result<(), Memory>
    requires aircraft { k < table.now.m }
    requires few { table.now.n < 2 ^ 32 }
    requires entries { length table.now.fly ≡ table.now.n * table.now.m }
    requires fits { table.now.fly_max + raise < 2 ^ 64 }
    ensures { IfOk result (λ _. fly.new.items ≡ fly.old.items ++ raised_costs table.now homes.now raise k) }
{
    for a in 0..table.n {
        fly.push(raised_cost(table, homes, raise, k, a as u32))?;
    }
    Ok(())
}

// What each activity costs each aircraft with moves raised, the first aircraft's costs first.
fn costs_of_all(
    alloc: Global,
    table: &CostTable,
    homes: &[Option<u32>],
    raise: u64,
) -> Result<Vec<u64>, Memory>
    requires activities { table.now.n < 2 ^ 32 }
    requires aircraft { table.now.m < 2 ^ 32 }
    requires entries { length table.now.fly ≡ table.now.n * table.now.m }
    requires fits { table.now.fly_max + raise < 2 ^ 64 }
    ensures { IfOk result (λ fly. fly.items ≡ (raised table.now homes.now raise).fly) }
{
    let mut fly = Vec::with_capacity(alloc, table.fly.len())?;
    for k in 0..table.m {
        add_costs(table, homes, raise, k as u32, &mut fly)?;
    }
    Ok(fly)
}

/// The table with each move raised by so much, in cost units.
pub fn raised(
    alloc: Global,
    book: &Book,
    table: &CostTable,
    homes: &[Option<u32>],
    raise: u64,
) -> Result<CostTable, Memory>
    requires table { IsTableFor book.now table.now }
    requires few { activities book.now ≤ REPAIR_LIMIT }
    requires cheap { table.now.fly_max + table.now.band_max ≤ LEG_COST_LIMIT }
    requires raise { raise ≤ RAISE_LIMIT }
    ensures table { IfOk result (λ made. made ≡ raised table.now homes.now raise) }
    ensures is_for { IfOk result (IsTableFor book.now) }
{
    every_book_is_sound(book);
    every_cost_table_is_sound(table);
    let fly = costs_of_all(alloc, table, homes, raise)?;
    let mut bands = Vec::new(alloc);
    bands.extend_from_slice(&table.bands)?;
    Ok(CostTable {
        n: table.n,
        m: table.m,
        fly,
        bands,
        fly_max: table.fly_max + raise,
        band_max: table.band_max,
    })
}

/// The table by which nothing costs anything.
pub fn no_costs(alloc: Global, book: &Book) -> Result<CostTable, Memory>
    ensures table { IfOk result (λ table. table ≡ no_costs book.now) }
    ensures is_for { IfOk result (IsTableFor book.now) }
{
    every_book_is_sound(book);
    let (n, m) = (book.activities.len(), book.tails.len());
    let fly = vec![in alloc; 0; n * m]?;
    Ok(CostTable {
        n,
        m,
        fly,
        bands: Vec::new(alloc),
        fly_max: 0,
        band_max: 0,
    })
}
