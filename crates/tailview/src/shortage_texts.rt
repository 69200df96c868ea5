//! The files of a shortage's picture, read before one of them is judged: the tables first, and then what was told of the shortage.

ghost use Rattle.std.specs.Prelude.{◌≡◌, IfOk, IfSome, IsErrOf};
ghost use Rattle.tail_outside.specs.Outside.{OnlyRead, ReadHasFailed};
ghost use Rattle.tailview.specs.ShortageTexts.{MayReadShortageTexts, shortage_held};
ghost use Rattle.tailview.specs.inside.Shortages.{shortage_fronts, shortage_names_seen};

use crate::shortage_words::ShortageNames;
use run_frame::{READ_LIMIT, Tables, read_tables};
use std::alloc::Global;
use std::marker::Model;
use tail_outside::{Files, ReadFail, read_all};

/// The bytes of the three tables and of the shortage's file, beside what the words say of the picture.
#[derive(Debug, Drop)]
pub struct ShortageTexts<'a> {
    /// The three tables.
    pub tables: Tables,
    /// The file of the shortage.
    pub told: Vec<u8>,
    /// The airport whose curfews are drawn.
    pub airport: Option<&'a str>,
    /// Whether the picture stands on a page of its own.
    pub html: bool,
}

impl<'a> Model for ShortageTexts<'a> {
    ghost use Rattle.std.specs.Prelude.{option_map};
    ghost use Rattle.tailview.specs.ShortageTexts.{ShortageTextsSeen};

    ghost Value = { ShortageTextsSeen };

    ghost view = { λ t. record { tables = t.tables; told = t.told.items; airport = option_map (λ s. s.now) t.airport; html = t.html } };
}

/// The bytes of the three tables, and then those of the shortage's file, each up to the limit.
pub fn read_shortage_texts<'a, F: Files>(
    alloc: Global,
    files: &mut F,
    names: &ShortageNames<'a>,
) -> Result<ShortageTexts<'a>, ReadFail>
    requires { MayReadShortageTexts (F.shows files.old) (shortage_names_seen names.now) }
    ensures texts { IfOk result (λ texts. IfSome (shortage_held (F.shows files.old) (shortage_names_seen names.now))
        (λ whole. texts ≡ shortage_fronts whole)) }
    ensures only_read { OnlyRead (F.shows files.old) (F.shows files.new) }
    ensures cause { IsErrOf result ReadFail.Failed → ReadHasFailed (F.shows files.old) (F.shows files.new) }
{
    let tables = match read_tables(alloc, files, &names.tables) {
        Ok(tables) => tables,
        Err(fail) => return Err(fail),
    };
    match read_all(alloc, files, names.told, READ_LIMIT) {
        Ok(told) => Ok(ShortageTexts {
            tables,
            told,
            airport: names.airport,
            html: names.html,
        }),
        Err(fail) => Err(fail),
    }
}
