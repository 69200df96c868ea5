//! How a run ends: each status has one meaning, which is promised in `specs/Promise.antt`.

ghost use Rattle.std.specs.Prelude.{◌≡◌};
ghost use Rattle.run_frame.specs.inside.Answer.{audit_status};

use plan_audit::Audit;

/// How a run ended, as the exit status of its process: 0 or 1 with what it found, 4 at a limit of the search, and else
/// for one of the reasons below.
#[derive(Clone, Copy, PartialEq, Eq, Debug)]
pub struct Status(pub u8);

/// The words are refused.
pub const USAGE: Status = Status(2);

/// A table or another file is refused.
pub const REFUSED: Status = Status(3);

/// A read failed.
pub const READ_FAILED: Status = Status(5);

/// A write failed.
pub const WRITE_FAILED: Status = Status(6);

/// There was no memory.
pub const NO_MEMORY: Status = Status(7);

/// The status of a run that printed what an audit found.
pub fn audit_status(audit: &Audit) -> Status
    ensures { result.0 ≡ audit_status audit.now }
{
    Status(match audit {
        Audit::Legal(_) => 0,
        Audit::Broken(_) => 1,
    })
}

/// The status of a run, and the files as they stand.
#[derive(Drop)]
pub struct Ran<F> {
    /// How it ended.
    pub status: Status,
    /// The files that were handed in.
    pub files: F,
}
