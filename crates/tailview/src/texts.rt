//! The files that the words name, read before one of them is judged: the tables first, then the plan, and last a plan
//! that was published before.

ghost use Rattle.std.specs.Prelude.{◌≡◌, IfOk, IfSome, IsErrOf};
ghost use Rattle.tail_outside.specs.Outside.{OnlyRead, ReadHasFailed};
ghost use Rattle.tailview.specs.Texts.{MayReadTexts, texts_held};
ghost use Rattle.tailview.specs.inside.Texts.{view_names_seen, text_fronts};

use crate::before::bytes_before;
use crate::words::ViewNames;
use run_frame::{READ_LIMIT, Tables, read_tables};
use std::alloc::Global;
use std::marker::Model;
use tail_outside::{Files, ReadFail, read_all};

/// The bytes of the three tables and of the plans' files, beside what the words say of the picture.
#[derive(Debug, Drop)]
pub struct Texts<'a> {
    /// The three tables.
    pub tables: Tables,
    /// The file of the plan.
    pub plan: Vec<u8>,
    /// The file of a plan that was published before.
    pub before: Option<Vec<u8>>,
    /// The airport whose curfews are drawn.
    pub airport: Option<&'a str>,
    /// Whether each day has a strip of its own.
    pub by_day: bool,
    /// Whether the picture stands on a page of its own.
    pub html: bool,
}

impl<'a> Model for Texts<'a> {
    ghost use Rattle.std.specs.Prelude.{option_map};
    ghost use Rattle.tailview.specs.Texts.{TextsSeen};

    ghost Value = { TextsSeen };

    ghost view = { λ t. record {
      tables = t.tables;
      plan = t.plan.items;
      before = option_map (λ v. v.items) t.before;
      airport = option_map (λ s. s.now) t.airport;
      by_day = t.by_day;
      html = t.html;
    } };
}

/// The bytes of the three tables, then those of the plan's file, and last those of the file of a plan that was published
/// before, each up to the limit.
pub fn read_texts<'a, F: Files>(
    alloc: Global,
    files: &mut F,
    names: &ViewNames<'a>,
) -> Result<Texts<'a>, ReadFail>
    requires { MayReadTexts (F.shows files.old) (view_names_seen names.now) }
    ensures texts { IfOk result (λ texts. IfSome (texts_held (F.shows files.old) (view_names_seen names.now))
        (λ whole. texts ≡ text_fronts whole)) }
    ensures only_read { OnlyRead (F.shows files.old) (F.shows files.new) }
    ensures cause { IsErrOf result ReadFail.Failed → ReadHasFailed (F.shows files.old) (F.shows files.new) }
{
    let tables = match read_tables(alloc, files, &names.tables) {
        Ok(tables) => tables,
        Err(fail) => return Err(fail),
    };
    let plan = match read_all(alloc, files, names.plan, READ_LIMIT) {
        Ok(bytes) => bytes,
        Err(fail) => return Err(fail),
    };
    match bytes_before(alloc, files, names.before) {
        Ok(before) => Ok(Texts {
            tables,
            plan,
            before,
            airport: names.airport,
            by_day: names.by_day,
            html: names.html,
        }),
        Err(fail) => Err(fail),
    }
}
