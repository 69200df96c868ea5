//! The words that ask for the picture of a shortage: its file stands behind the first of them, the tables, an airport and a page as
//! by the words that ask for a plan's.

ghost use Rattle.std.specs.Prelude.{◌≡◌, IfOk, option_map};
ghost use Rattle.clap.specs.Words.{app_of, found_of, rows_of};
ghost use Rattle.run_frame.specs.Spelled.{spelled};
ghost use Rattle.tailview.specs.inside.Shortages.{shortage_names_seen};
ghost use Rattle.tailview.specs.ShortageWords.{is_shortage, shortage_command, shortage_names_in, shortage_of, with_shortage, with_shortage_curfews};

use clap::{Arg, ArgAction, ArgMatches, Command};
use run_frame::{TableNames, matched, tables_command, tables_in, value_of};
use std::alloc::{AllocError, Global};
use tail_book::Memory;

/// What the words give: the names of the three tables and of the shortage's file, and what is shown beside it.
#[derive(Clone, Copy, PartialEq, Eq, Debug)]
pub struct ShortageNames<'a> {
    /// The tables.
    pub tables: TableNames<'a>,
    /// The file of the shortage.
    pub told: &'a str,
    /// The airport whose curfews are drawn.
    pub airport: Option<&'a str>,
    /// Whether the picture stands on a page of its own.
    pub html: bool,
}

/// Whether the word behind the program's name asks for the picture of a shortage.
pub fn is_shortage(words: &[String]) -> bool
    ensures { result ≡ is_shortage (spelled words.now) }
{
    match words {
        [_, word, ..] => word
            .as_bytes()
            .strip_prefix(b"--shortage".as_slice())
            .is_some(),
        _ => false,
    }
}

// The command: three words that have to stand in their places, an option that has to be given, and two that may be.
fn shortage_command<'a>(alloc: Global) -> Result<Command<'a>, AllocError>
    ensures { IfOk result (λ c. app_of c ≡ shortage_command) }
{
    let command = with_shortage_curfews(alloc)?;
    command.arg(
        Arg::new(alloc, "html")
            .long("html")
            .action(ArgAction::Count),
    )
}

fn with_shortage_curfews<'a>(alloc: Global) -> Result<Command<'a>, AllocError>
    ensures { IfOk result (λ c. app_of c ≡ with_shortage_curfews) }
{
    with_shortage(alloc)?.arg(Arg::new(alloc, "curfews").long("curfews"))
}

fn with_shortage<'a>(alloc: Global) -> Result<Command<'a>, AllocError>
    ensures { IfOk result (λ c. app_of c ≡ with_shortage) }
{
    tables_command(alloc, "tailview")?.arg(
        Arg::new(alloc, "shortage").long("shortage").required(true),
    )
}

// The names among what the command matched.
fn shortage_names_in<'a>(matches: &ArgMatches<'a>) -> Option<ShortageNames<'a>>
    ensures { option_map shortage_names_seen result ≡ shortage_names_in (rows_of (found_of matches.now)) }
{
    let tables = tables_in(matches)?;
    let told = value_of(matches, "shortage")?;
    Some(ShortageNames {
        tables,
        told,
        airport: value_of(matches, "curfews"),
        html: matches.get_count("html") > 0,
    })
}

/// The names of the tables and of the shortage's file, or nothing where the words are refused. The words begin with the
/// program's name.
#[tactic(auto, unfolding(crate::specs::ShortageWords::shortage_of))]
pub fn shortage_of<'a>(
    alloc: Global,
    words: &'a [String],
) -> Result<Option<ShortageNames<'a>>, Memory>
    ensures { IfOk result (λ names. option_map shortage_names_seen names ≡ shortage_of (spelled words.now)) }
{
    match matched(shortage_command(alloc)?, words)? {
        Some(matches) => Ok(shortage_names_in(&matches)),
        None => Ok(None),
    }
}
