//! Named files: a plan that is read from one, and a report that is kept in one. Files are a parameter, so the same
//! calls serve real files and files in memory.

ghost use Rattle.std.specs.Prelude.{◌≡◌, ◌<◌, false, IfSome, IsErrOf, IsTrue, OnOk, Some};
ghost use Rattle.tail_outside.specs.Outside.{OnlyRead, ReadHasFailed};
ghost use Rattle.tail_outside.specs.inside.Outside.{OnlyWritten, WriteHasFailed};
ghost use Rattle.plan_report.specs.PlanText.{plan_in};
ghost use Rattle.plan_report.specs.inside.Report.{HasPlanFor};
ghost use Rattle.plan_report.specs.Report.{report};
ghost use Rattle.sample_calls.specs.Files.{TellsPlan};

use plan_report::{ReportFail, read_plan, write_report};
use std::alloc::Global;
use tail_book::{Book, Outcome, RawPlan};
use tail_outside::{Fault, FileSink, Files, ReadFail, read_all};
use tail_text::{Refusal, SIZE_LIMIT, Stopped};

/// Why a file gave no plan.
#[derive(Clone, Copy, PartialEq, Eq, Debug)]
pub enum NoPlan {
    /// Its text is refused.
    Refused(Refusal),
    /// It could not be read.
    ReadFailed,
    /// There was no memory for it.
    Memory,
}

// The most bytes that are asked for: one more than a plan's file may have, so that one that is cut here is too big.
const READ_LIMIT: usize = SIZE_LIMIT + 1;

/// The plan in a named file.
pub fn plan_of_file<F: Files>(alloc: Global, files: &mut F, name: &str) -> Result<RawPlan, NoPlan>
    requires { IsTrue ((F.shows files.old).lets_read name.now) }
    ensures plan { IfSome ((F.shows files.old).holds name.now) (λ bytes. TellsPlan (plan_in bytes) result) }
    ensures only_read { OnlyRead (F.shows files.old) (F.shows files.new) }
    ensures cause { IsErrOf result NoPlan.ReadFailed → ReadHasFailed (F.shows files.old) (F.shows files.new) }
{
    let bytes = match read_all(alloc, files, name, READ_LIMIT) {
        Ok(bytes) => bytes,
        Err(ReadFail::Failed) => return Err(NoPlan::ReadFailed),
        Err(ReadFail::Memory) => return Err(NoPlan::Memory),
    };
    plan_of_text(alloc, &bytes)
}

fn plan_of_text(alloc: Global, text: &[u8]) -> Result<RawPlan, NoPlan>
    ensures told { TellsPlan (plan_in text.now) result }
    ensures read { ¬ IsErrOf result NoPlan.ReadFailed }
{
    match read_plan(alloc, text) {
        Ok(raw) => Ok(raw),
        Err(Stopped::Refused(refusal)) => Err(NoPlan::Refused(refusal)),
        Err(Stopped::Memory) => Err(NoPlan::Memory),
    }
}

/// The files after a report was kept in one of them, and whether all of it is there.
#[derive(Drop)]
pub struct Saved<F> {
    pub files: F,
    pub done: Result<(), ReportFail>,
}

/// Makes a named file hold the report of an outcome, and nothing else; no other file is touched.
pub fn save_report<F: Files>(
    alloc: Global,
    book: &Book,
    outcome: &Outcome,
    files: F,
    name: &str,
) -> Saved<F>
    requires named { IsTrue ((F.shows files).lets_write name.now) }
    requires plan { HasPlanFor book.now outcome.now }
    ensures saved { OnOk result.done ((F.shows result.files).ceased name.now ≡ false →
        (F.shows result.files).holds name.now ≡ Some (report book.now outcome.now)) }
    ensures only_written { OnlyWritten name.now (F.shows files) (F.shows result.files) }
    ensures cause { IsErrOf result.done ReportFail.Write → WriteHasFailed (F.shows files) (F.shows result.files) }
{
    let mut files = files;
    match files.begin(name) {
        Ok(()) => {}
        Err(Fault::Failed) => {
            return Saved {
                files,
                done: Err(ReportFail::Write),
            };
        }
        Err(Fault::Memory) => {
            return Saved {
                files,
                done: Err(ReportFail::Memory),
            };
        }
    }
    let mut sink = FileSink::new(files, name);
    let done = write_report(alloc, book, outcome, &mut sink);
    Saved {
        files: sink.into_files(),
        done,
    }
}
