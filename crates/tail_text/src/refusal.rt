//! Why a table is refused, and where: what the author of a table has to know to mend it.

ghost use Rattle.std.specs.Prelude.{◌≡◌};

use tail_book::Memory;

/// The most bytes that a table or a plan's file may have.
pub const SIZE_LIMIT: usize = 16_777_216;

/// The table that a refusal speaks of.
#[derive(Clone, Copy, PartialEq, Eq, Debug)]
pub enum Table {
    /// The timetable.
    Timetable,
    /// The fleet.
    Fleet,
    /// The rules.
    Rules,
    /// The file of a plan.
    Plan,
}

/// The first refusal of the tables.
#[derive(Clone, Copy, PartialEq, Eq, Debug)]
pub struct Refusal {
    /// What is wrong: one of `codes`.
    pub code: u8,
    /// The table that it stands in.
    pub table: Table,
    /// The number of its record, entry or line: from 1 on, where a header counts as the first; 0 is the whole table.
    pub place: u64,
}

/// What keeps a table from being read.
#[derive(Clone, Copy, PartialEq, Eq, Debug)]
pub enum Stopped {
    /// It is refused.
    Refused(Refusal),
    /// There was no memory for it.
    Memory,
}

impl From<Memory> for Stopped {
    ghost use Rattle.tail_text.specs.declared.refusal.Stopped.TheVariants.{Memory as NoMemory};

    ghost from_gives = { λ _ s. s ≡ NoMemory };

    fn from(_memory: Memory) -> Stopped {
        Stopped::Memory
    }
}
