//! The reading of the words: which tables a run is over.
//!
//! `clap` reads them for one simple command, and what it gives is stated for every list of words. So both outcomes
//! are exact: names come where the command takes the words, and nothing where it refuses them.

ghost use Rattle.std.specs.Prelude.{◌≡◌, true, IfOk, option_map};
ghost use Rattle.clap.specs.Words.{app_of, first_of, found_of, is_simple_and_free, rows_of, with_rule};
ghost use Rattle.run_frame.specs.inside.TableFiles.{names_seen};
ghost use Rattle.run_frame.specs.Spelled.{spelled};
ghost use Rattle.run_frame.specs.Words.{bare_command, matched, required_place, tables_command, tables_in};

use crate::TableNames;
use clap::error::ErrorKind;
use clap::{Arg, ArgMatches, Command};
use std::alloc::{AllocError, Global};
use tail_book::Memory;

/// The command of a program: three words that have to stand in their places, and no flag for help.
pub fn tables_command<'a>(alloc: Global, program: &'a str) -> Result<Command<'a>, AllocError>
    ensures { IfOk result (λ c. app_of c ≡ tables_command program.now) }
{
    let bare = bare_command(alloc, program);
    let one = with_place(alloc, bare, "timetable")?;
    let two = with_place(alloc, one, "fleet")?;
    with_place(alloc, two, "rules")
}

// The bare command of a program: without a flag for help.
fn bare_command<'a>(alloc: Global, program: &'a str) -> Command<'a>
    ensures { app_of result ≡ bare_command program.now }
{
    Command::new(alloc, program).disable_help_flag(true)
}

// The command with one more word that has to stand in its place.
fn with_place<'a>(
    alloc: Global,
    command: Command<'a>,
    id: &'a str,
) -> Result<Command<'a>, AllocError>
    ensures { IfOk result (λ c. app_of c ≡ with_rule (app_of command.entry) (required_place id.now)) }
{
    command.arg(Arg::new(alloc, id).required(true))
}

/// What a command matches of the words, or nothing where it refuses them. The words begin with the program's name.
pub fn matched<'a>(
    command: Command<'a>,
    words: &'a [String],
) -> Result<Option<ArgMatches<'a>>, Memory>
    requires { is_simple_and_free (app_of command) ≡ true }
    ensures { IfOk result (λ found. option_map (λ matches. rows_of (found_of matches)) found ≡ matched (app_of command.entry) (spelled words.now)) }
{
    match command.try_get_matches_from(words) {
        Ok(matches) => Ok(Some(matches)),
        Err(error) if error.kind() == ErrorKind::OutOfMemory => Err(Memory),
        Err(_) => Ok(None),
    }
}

/// The word that an argument was given.
pub fn value_of<'a>(matches: &ArgMatches<'a>, id: &str) -> Option<&'a str>
    ensures { option_map (λ s. s.now) result ≡ first_of id.now (rows_of (found_of matches.now)) }
{
    matches.get_str(id)
}

/// The names of the tables among what was matched.
pub fn tables_in<'a>(matches: &ArgMatches<'a>) -> Option<TableNames<'a>>
    ensures { option_map names_seen result ≡ tables_in (rows_of (found_of matches.now)) }
{
    let timetable = value_of(matches, "timetable")?;
    let fleet = value_of(matches, "fleet")?;
    let rules = value_of(matches, "rules")?;
    Some(TableNames {
        timetable,
        fleet,
        rules,
    })
}
