//! The plan that was published before, where the words name one: its file is read and judged behind that of the plan, and
//! gives the homes of activities.

ghost use Rattle.std.specs.Prelude.{◌≡◌, IfOk, IfSome, IsErrOf, option_map};
ghost use Rattle.tail_outside.specs.Outside.{OnlyRead, ReadHasFailed};
ghost use Rattle.tail_text.specs.inside.Reading.{Answers};
ghost use Rattle.plan_homes.specs.Homes.{homes};
ghost use Rattle.run_frame.specs.inside.TableFiles.{front};
ghost use Rattle.tailview.specs.Cases.{before_in};
ghost use Rattle.tailview.specs.Texts.{MayReadBefore, before_held};

use plan_homes::homes;
use plan_report::read_plan;
use run_frame::READ_LIMIT;
use std::alloc::Global;
use tail_book::{Book, Memory, RawPlan};
use tail_outside::{Files, ReadFail, read_all};
use tail_text::Stopped;

/// The bytes of its file, up to the limit, where a name is given.
pub fn bytes_before<F: Files>(
    alloc: Global,
    files: &mut F,
    name: Option<&str>,
) -> Result<Option<Vec<u8>>, ReadFail>
    requires { MayReadBefore (F.shows files.old) (option_map (λ s. s.now) name) }
    ensures bytes { IfOk result (λ read. IfSome (before_held (F.shows files.old) (option_map (λ s. s.now) name.entry))
        (λ whole. option_map (λ v. v.items) read ≡ option_map front whole)) }
    ensures only_read { OnlyRead (F.shows files.old) (F.shows files.new) }
    ensures cause { IsErrOf result ReadFail.Failed → ReadHasFailed (F.shows files.old) (F.shows files.new) }
{
    match name {
        Some(name) => match read_all(alloc, files, name, READ_LIMIT) {
            Ok(bytes) => Ok(Some(bytes)),
            Err(fail) => Err(fail),
        },
        None => Ok(None),
    }
}

/// The plan of its file, where there is one, or the file's refusal.
pub fn plan_before(alloc: Global, bytes: &Option<Vec<u8>>) -> Result<Option<RawPlan>, Stopped>
    ensures { Answers (λ plan. plan) (before_in (option_map (λ v. v.items) bytes.now)) result }
{
    match bytes {
        Some(bytes) => match read_plan(alloc, bytes) {
            Ok(plan) => Ok(Some(plan)),
            Err(stopped) => Err(stopped),
        },
        None => Ok(None),
    }
}

/// The homes of activities in what is kept of it, where there is one.
pub fn homes_before(
    alloc: Global,
    book: &Book,
    plan: &Option<RawPlan>,
) -> Result<Option<Vec<Option<u32>>>, Memory>
    ensures { IfOk result (λ list. option_map (λ l. l.items) list ≡ option_map (homes book.now) plan.now) }
{
    match plan {
        Some(plan) => Ok(Some(homes(alloc, book, plan)?)),
        None => Ok(None),
    }
}
