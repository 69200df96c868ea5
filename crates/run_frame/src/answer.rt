//! What a run answers.
//!
//! All but what was found is the same for every program. What a program finds tells by the trait `Finding` its lines and
//! its status, so printing and the promises of a run are written once.

ghost use Rattle.std.specs.Prelude.{◌≡◌, ◌≤◌, ℕ, false, List, OnErr, OnOk, IsErrOf};
ghost use Rattle.tail_outside.specs.Outside.{PieceHasFailed, Takes, TakesFront};
ghost use Rattle.plan_report.specs.Lines.{text_of};

use crate::Status;
use plan_report::ReportFail;
use std::alloc::Global;
use tail_outside::Sink;
use tail_text::Refusal;

/// What a run answers, where the program finds a `T` in its tables.
#[derive(Drop)]
pub enum Answer<T> {
    /// The words are refused.
    Usage,
    /// A table or another file is refused.
    Refused(Refusal),
    /// This was found.
    Found(T),
    /// A file could not be read.
    ReadFailed,
    /// There was no memory to find an answer.
    Memory,
}

/// What a program finds: the lines that are printed of it, and the status with which the run then ends.
pub trait Finding {
    /// The lines that are printed.
    ghost lines: { Self → List (List ℕ) };

    /// The status of a run that printed them.
    ghost code: { Self → ℕ };

    /// What has to hold for the lines to be made.
    ghost is_printable: { Self → Type 0 };

    /// The status of a run that printed the lines.
    fn status(&self) -> Status
        ensures { result.0 ≡ code self.now };

    /// Writes the lines, one put a line.
    fn write<S: Sink>(&self, alloc: Global, out: &mut S) -> Result<(), ReportFail>
        requires { is_printable self.now }
        ensures taken { OnOk result (Takes (S.shows out.old) (S.shows out.new) (text_of (lines self.now))) }
        ensures front { OnErr result (TakesFront (S.shows out.old) (S.shows out.new) (text_of (lines self.now))) }
        ensures beside { S.beside out.old out.new }
        ensures ceases { (S.shows out.new).ceased ≡ false → (S.shows out.old).ceased ≡ false }
        ensures counts { (S.shows out.old).faults ≤ (S.shows out.new).faults }
        ensures cause { IsErrOf result ReportFail.Write → PieceHasFailed (S.shows out.old) (S.shows out.new) };
}
