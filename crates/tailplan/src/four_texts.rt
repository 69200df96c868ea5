//! The four files of a repair or of a run under quotas, read before one of them is judged: the tables first, and then the
//! published plan, or the table of quotas.

ghost use Rattle.std.specs.Prelude.{◌≡◌, IfOk, IfSome, IsErrOf, option_map};
ghost use Rattle.tail_outside.specs.Outside.{OnlyRead, ReadHasFailed};
ghost use Rattle.run_frame.specs.Spelled.{spelled};
ghost use Rattle.tailplan.specs.FourTexts.{MayReadTexts, names_behind, texts_held};
ghost use Rattle.tailplan.specs.inside.FourTexts.{four_names_seen, text_fronts};

use run_frame::{READ_LIMIT, TableNames, Tables, read_tables};
use std::alloc::Global;
use std::marker::Model;
use tail_outside::{Files, ReadFail, read_all};

/// The names of the three tables and of the fourth file, as the words give them.
#[derive(Clone, Copy, PartialEq, Eq, Debug)]
pub struct FourNames<'a> {
    /// The tables.
    pub tables: TableNames<'a>,
    /// The file of the published plan, or of the quotas.
    pub fourth: &'a str,
}

/// The names that stand behind the program's name and the word behind that, where they are exactly four.
pub fn names_behind<'a>(words: &'a [String]) -> Option<FourNames<'a>>
    ensures { option_map four_names_seen result ≡ names_behind (spelled words.now) }
{
    match words {
        [_, _, timetable, fleet, rules, fourth] => Some(FourNames {
            tables: TableNames {
                timetable: timetable.as_str(),
                fleet: fleet.as_str(),
                rules: rules.as_str(),
            },
            fourth: fourth.as_str(),
        }),
        _ => None,
    }
}

/// The bytes of the three tables and of the fourth file.
#[derive(Debug, Drop)]
pub struct FourTexts {
    /// The three tables.
    pub tables: Tables,
    /// The published plan, or the quotas.
    pub fourth: Vec<u8>,
}

impl Model for FourTexts {
    ghost use Rattle.tailplan.specs.FourTexts.{FourTextsSeen};

    ghost Value = { FourTextsSeen };

    ghost view = { λ t. record { tables = t.tables; fourth = t.fourth.items } };
}

/// The bytes of the three tables, and then those of the fourth file, each up to the limit.
pub fn read_texts<F: Files>(
    alloc: Global,
    files: &mut F,
    names: &FourNames<'_>,
) -> Result<FourTexts, ReadFail>
    requires { MayReadTexts (F.shows files.old) (four_names_seen names.now) }
    ensures texts { IfOk result (λ texts. IfSome (texts_held (F.shows files.old) (four_names_seen names.now))
        (λ whole. texts ≡ text_fronts whole)) }
    ensures only_read { OnlyRead (F.shows files.old) (F.shows files.new) }
    ensures cause { IsErrOf result ReadFail.Failed → ReadHasFailed (F.shows files.old) (F.shows files.new) }
{
    let tables = match read_tables(alloc, files, &names.tables) {
        Ok(tables) => tables,
        Err(fail) => return Err(fail),
    };
    match read_all(alloc, files, names.fourth, READ_LIMIT) {
        Ok(fourth) => Ok(FourTexts { tables, fourth }),
        Err(fail) => Err(fail),
    }
}
