//! What a repair answers. When it is true of a book and the homes of its activities, `IsTrueRepair` says.

use tail_book::Plan;

/// What a repair answers of a book and the homes of its activities.
#[derive(Debug, Drop)]
pub enum Repair {
    /// A legal plan with the fewest moves that costs least among these, how many activities it moves, and what it costs
    /// in cost units.
    Done { plan: Plan, moves: u64, cost: u64 },
    /// No plan is legal.
    Infeasible,
}
