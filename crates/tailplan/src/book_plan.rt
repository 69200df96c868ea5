//! The planning of a book: the search, and its certificate where one is asked for. Without one no labels are priced to
//! be told.

ghost use Rattle.std.specs.Prelude.{◌≡◌, IfOk, IfSome, IsErr, IsTrue, None, Some};
ghost use Rattle.tail_book.specs.CostTable.{costs_of};
ghost use Rattle.tail_book.specs.Faults.{HasRisen};
ghost use Rattle.tail_outside.specs.Outside.{OnlyRead};
ghost use Rattle.tail_outside.specs.Shown.{FilesShown};
ghost use Rattle.cert_lines.specs.declared.version.Version.{Version as VersionSeen};
ghost use Rattle.plan_report.specs.inside.Report.{HasPlanFor};
ghost use Rattle.run_frame.specs.inside.Answer.{IsAnswerTo, IsPrintable as IsPrintableBy};
ghost use Rattle.run_frame.specs.TableFiles.{AreGiven};
ghost use Rattle.tailplan.specs.Kept.{OnlyCertificate};
ghost use Rattle.tailplan.specs.inside.Ending.{IsPlanned, LeavesPlanned, NeverRefused, planned_of};

use crate::answer::Solved;
use crate::answered::Answered;
use crate::tasks::Task;
use branch_marks::NoLog;
use branch_tree::{Limit, Stop};
use cert_lines::Version;
use certified_search::{Certified, Order, certified_search, search_in_order};
use plan_report::laws::true_outcomes_can_be_written;
use run_frame::Answer;
use std::alloc::Global;
use tail_book::laws::{every_book_is_sound, own_costs_are_for_book, own_costs_keep_outcomes};
use tail_book::{Book, CostTable};
use tail_outside::{Fault, FileSink, Files};

/// Plans the book of a task. The certificate goes to the file that the task names, which is made empty first.
pub fn planned<F: Files>(alloc: Global, book: Book, task: &Task<'_>, files: F) -> Answered<F>
    requires { IfSome task.now.cert (λ name. IsTrue ((F.shows files).lets_write name)) }
    ensures answer { IfOk result.answer (IsAnswerTo NeverRefused (IsPlanned (F.shows result.files)) (planned_of book task.now)) }
    ensures printable { IfOk result.answer (IsPrintableBy (λ solved. HasPlanFor solved.book solved.outcome)) }
    ensures left { LeavesPlanned (planned_of book task.now) (F.shows files) (F.shows result.files) }
    ensures others { OnlyCertificate task.now.cert (F.shows files) (F.shows result.files) }
    ensures cause { IsErr result.answer → AreGiven task.now.cert
        × HasRisen (F.shows files).write_faults (F.shows result.files).write_faults }
    ensures same { task.now.cert ≡ None → OnlyRead (F.shows files) (F.shows result.files) }
{
    let Ok(table) = CostTable::of(alloc, &book) else {
        return Answered::of(Answer::Memory, files);
    };
    match task.cert {
        None => Answered::of(searched(alloc, book, &table, task.limit, task.order), files),
        Some(name) => {
            let version = task.version;
            certified(
                alloc, book, &table, task.limit, task.order, version, name, files,
            )
        }
    }
}

// Searches without a certificate.
fn searched(
    alloc: Global,
    book: Book,
    table: &CostTable,
    limit: Limit,
    order: Order,
) -> Answer<Solved>
    requires { table.now ≡ costs_of book }
    ensures answer { (later : FilesShown) (version : VersionSeen) → IsAnswerTo NeverRefused (IsPlanned later)
        (record { book = book; limit = limit; order = order; version = version; cert = None }) result }
    ensures printable { IsPrintableBy (λ solved. HasPlanFor solved.book solved.outcome) result }
{
    every_book_is_sound(&book);
    true_outcomes_can_be_written();
    own_costs_are_for_book();
    own_costs_keep_outcomes();
    match search_in_order(alloc, &book, table, limit, order, &mut NoLog) {
        Ok(outcome) => Answer::Found(Solved { book, outcome }),
        Err(_) => Answer::Memory,
    }
}

// Searches, and writes the certificate to the file of this name.
fn certified<F: Files>(
    alloc: Global,
    book: Book,
    table: &CostTable,
    limit: Limit,
    order: Order,
    version: Version,
    name: &str,
    files: F,
) -> Answered<F>
    requires lets { IsTrue ((F.shows files).lets_write name.now) }
    requires own { table.now ≡ costs_of book }
    ensures answer { IfOk result.answer (IsAnswerTo NeverRefused (IsPlanned (F.shows result.files))
        (record { book = book; limit = limit; order = order; version = version; cert = Some name.now })) }
    ensures printable { IfOk result.answer (IsPrintableBy (λ solved. HasPlanFor solved.book solved.outcome)) }
    ensures left { LeavesPlanned (record { book = book; limit = limit; order = order; version = version; cert = Some name.now })
        (F.shows files) (F.shows result.files) }
    ensures others { OnlyCertificate (Some name.now) (F.shows files) (F.shows result.files) }
    ensures cause { IsErr result.answer → HasRisen (F.shows files).write_faults (F.shows result.files).write_faults }
{
    every_book_is_sound(&book);
    true_outcomes_can_be_written();
    let mut files = files;
    match files.begin(name) {
        Ok(()) => {}
        Err(Fault::Failed) => return Answered::unwritten(files),
        Err(Fault::Memory) => return Answered::of(Answer::Memory, files),
    }
    let sink = FileSink::new(files, name);
    let Certified { found, sink } = certified_search(
        alloc, &book, table, limit, order, version, sink,
    );
    let files = sink.into_files();
    match found {
        Ok(outcome) => Answered::of(Answer::Found(Solved { book, outcome }), files),
        Err(Stop::Log) => Answered::unwritten(files),
        Err(Stop::Memory) => Answered::of(Answer::Memory, files),
    }
}
