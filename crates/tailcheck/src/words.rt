//! The reading of the words: by which tables a plan or a certificate is judged. Exactly one of the two has to be named,
//! since a run gives one verdict.

ghost use Rattle.std.specs.Prelude.{◌≡◌, IfOk, option_map};
ghost use Rattle.clap.specs.Words.{app_of, found_of, rows_of};
ghost use Rattle.run_frame.specs.Spelled.{spelled};
ghost use Rattle.tailcheck.specs.inside.Texts.{check_names_seen, subject_seen};
ghost use Rattle.tailcheck.specs.Words.{check_of, command, names_in, subject_of};

use clap::{Arg, ArgMatches, Command};
use run_frame::{TableNames, matched, tables_command, tables_in, value_of};
use std::alloc::{AllocError, Global};
use tail_book::Memory;

/// What is judged, by the name of its file.
#[derive(Clone, Copy, PartialEq, Eq, Debug)]
pub enum Subject<'a> {
    /// A plan.
    Plan(&'a str),
    /// A certificate.
    Certificate(&'a str),
}

/// The names of the three tables, and what is judged, as the words give them.
#[derive(Clone, Copy, PartialEq, Eq, Debug)]
pub struct CheckNames<'a> {
    pub tables: TableNames<'a>,
    pub subject: Subject<'a>,
}

// The command: three words that have to stand in their places, and two options that may be given.
fn command<'a>(alloc: Global) -> Result<Command<'a>, AllocError>
    ensures { IfOk result (λ c. app_of c ≡ command) }
{
    let command = tables_command(alloc, "tailcheck")?.arg(Arg::new(alloc, "cert").long("cert"))?;
    command.arg(Arg::new(alloc, "plan").long("plan"))
}

// Exactly one of the two is judged.
fn subject_of<'a>(cert: Option<&'a str>, plan: Option<&'a str>) -> Option<Subject<'a>>
    ensures { option_map subject_seen result ≡ subject_of (option_map (λ s. s.now) cert.entry) (option_map (λ s. s.now) plan.entry) }
{
    match (cert, plan) {
        (Some(cert), None) => Some(Subject::Certificate(cert)),
        (None, Some(plan)) => Some(Subject::Plan(plan)),
        _ => None,
    }
}

// The names among what the command matched.
fn names_in<'a>(matches: &ArgMatches<'a>) -> Option<CheckNames<'a>>
    ensures { option_map check_names_seen result ≡ names_in (rows_of (found_of matches.now)) }
{
    let tables = tables_in(matches)?;
    let subject = subject_of(value_of(matches, "cert"), value_of(matches, "plan"))?;
    Some(CheckNames { tables, subject })
}

/// The names of the tables and of what is judged, or nothing where the words are refused. The words begin with the program's
/// name.
#[tactic(auto, unfolding(crate::specs::Words::check_of))]
pub fn check_of<'a>(alloc: Global, words: &'a [String]) -> Result<Option<CheckNames<'a>>, Memory>
    ensures { IfOk result (λ names. option_map check_names_seen names ≡ check_of (spelled words.now)) }
{
    match matched(command(alloc)?, words)? {
        Some(matches) => Ok(names_in(&matches)),
        None => Ok(None),
    }
}
