//! The reading of the words: which tables and which plan are drawn, and how. The plan's option has to be given; a
//! plan that was published before, an airport, strips by day and a page are as wanted.

ghost use Rattle.std.specs.Prelude.{◌≡◌, IfOk, option_map};
ghost use Rattle.clap.specs.Words.{app_of, found_of, rows_of};
ghost use Rattle.run_frame.specs.Spelled.{spelled};
ghost use Rattle.tailview.specs.inside.Texts.{view_names_seen};
ghost use Rattle.tailview.specs.Words.{names_of, command, names_in, with_by_day, with_curfews, with_moved, with_plan};

use clap::{Arg, ArgAction, ArgMatches, Command};
use run_frame::{TableNames, matched, tables_command, tables_in, value_of};
use std::alloc::{AllocError, Global};
use tail_book::Memory;

/// What the words give: the names of the three tables and of the plans' files, and what is shown beside the plan.
#[derive(Clone, Copy, PartialEq, Eq, Debug)]
pub struct ViewNames<'a> {
    /// The tables.
    pub tables: TableNames<'a>,
    /// The file of the plan.
    pub plan: &'a str,
    /// The file of a plan that was published before.
    pub before: Option<&'a str>,
    /// The airport whose curfews are drawn.
    pub airport: Option<&'a str>,
    /// Whether each day has a strip of its own.
    pub by_day: bool,
    /// Whether the picture stands on a page of its own.
    pub html: bool,
}

// The command: three words that have to stand in their places, an option that has to be given, and four that may be.
fn command<'a>(alloc: Global) -> Result<Command<'a>, AllocError>
    ensures { IfOk result (λ c. app_of c ≡ command) }
{
    let command = with_by_day(alloc)?;
    command.arg(
        Arg::new(alloc, "html")
            .long("html")
            .action(ArgAction::Count),
    )
}

fn with_by_day<'a>(alloc: Global) -> Result<Command<'a>, AllocError>
    ensures { IfOk result (λ c. app_of c ≡ with_by_day) }
{
    let command = with_curfews(alloc)?;
    command.arg(
        Arg::new(alloc, "by-day")
            .long("by-day")
            .action(ArgAction::Count),
    )
}

fn with_curfews<'a>(alloc: Global) -> Result<Command<'a>, AllocError>
    ensures { IfOk result (λ c. app_of c ≡ with_curfews) }
{
    with_moved(alloc)?.arg(Arg::new(alloc, "curfews").long("curfews"))
}

fn with_moved<'a>(alloc: Global) -> Result<Command<'a>, AllocError>
    ensures { IfOk result (λ c. app_of c ≡ with_moved) }
{
    with_plan(alloc)?.arg(Arg::new(alloc, "moved").long("moved"))
}

fn with_plan<'a>(alloc: Global) -> Result<Command<'a>, AllocError>
    ensures { IfOk result (λ c. app_of c ≡ with_plan) }
{
    tables_command(alloc, "tailview")?.arg(Arg::new(alloc, "plan").long("plan").required(true))
}

// The names among what the command matched.
fn names_in<'a>(matches: &ArgMatches<'a>) -> Option<ViewNames<'a>>
    ensures { option_map view_names_seen result ≡ names_in (rows_of (found_of matches.now)) }
{
    let tables = tables_in(matches)?;
    let plan = value_of(matches, "plan")?;
    Some(ViewNames {
        tables,
        plan,
        before: value_of(matches, "moved"),
        airport: value_of(matches, "curfews"),
        by_day: matches.get_count("by-day") > 0,
        html: matches.get_count("html") > 0,
    })
}

/// The names of the tables and of the plan's file, or nothing where the words are refused. The words begin with the
/// program's name.
#[tactic(auto, unfolding(crate::specs::Words::names_of))]
pub fn names_of<'a>(alloc: Global, words: &'a [String]) -> Result<Option<ViewNames<'a>>, Memory>
    ensures { IfOk result (λ names. option_map view_names_seen names ≡ names_of (spelled words.now)) }
{
    match matched(command(alloc)?, words)? {
        Some(matches) => Ok(names_in(&matches)),
        None => Ok(None),
    }
}
