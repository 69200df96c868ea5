//! The answer of a run with its files, and how it ends: what is printed of an answer, or nothing where no certificate could be
//! written.

ghost use Rattle.std.specs.Prelude.{◌≡◌, ◌≤◌, false, IfOk, IsErr, Ok};
ghost use Rattle.plan_report.specs.inside.Report.{HasPlanFor};
ghost use Rattle.run_frame.specs.inside.Answer.{IsPrintable as IsPrintableBy};
ghost use Rattle.tailplan.specs.inside.Ending.{IsReported};

use crate::answer::Solved;
use crate::usage::usage_line;
use run_frame::{Answer, Status, WRITE_FAILED, print};
use std::alloc::Global;
use tail_outside::Sink;

/// The certificate's file could not be written.
#[derive(Clone, Copy, PartialEq, Eq, Debug)]
pub struct Unwritten;

/// What a run answers, and the files as they stand.
pub struct Answered<F> {
    /// The answer to the words.
    pub answer: Result<Answer<Solved>, Unwritten>,
    /// The files that were handed in.
    pub files: F,
}

impl<F> Answered<F> {
    /// This answer, over files as they stand.
    pub fn of(answer: Answer<Solved>, files: F) -> Answered<F>
        ensures answer { result.answer ≡ Ok answer }
        ensures files { result.files ≡ files }
    {
        Answered {
            answer: Ok(answer),
            files,
        }
    }

    /// No answer, since the certificate's file could not be written.
    pub fn unwritten(files: F) -> Answered<F>
        ensures answer { IsErr result.answer }
        ensures files { result.files ≡ files }
    {
        Answered {
            answer: Err(Unwritten),
            files,
        }
    }
}

/// Prints an answer. Where the certificate could not be written nothing is printed.
pub fn report<S: Sink>(
    alloc: Global,
    answer: &Result<Answer<Solved>, Unwritten>,
    out: &mut S,
) -> Status
    requires { IfOk answer.now (IsPrintableBy (λ solved. HasPlanFor solved.book solved.outcome)) }
    ensures reported { IsReported answer.now (S.shows out.old) (S.shows out.new) result.0 }
    ensures beside { S.beside out.old out.new }
    ensures ceases { (S.shows out.new).ceased ≡ false → (S.shows out.old).ceased ≡ false }
    ensures counts { (S.shows out.old).faults ≤ (S.shows out.new).faults }
{
    match answer {
        Ok(answer) => print(alloc, usage_line(), answer, out),
        Err(Unwritten) => WRITE_FAILED,
    }
}
