//! The reading of the words: which tables a run is over, how many nodes it may count and in which order, and where its certificate
//! goes and in which version; or the seed of a trial.

ghost use Rattle.std.specs.Prelude.{◌≡◌, ◌≤◌, IfOk, IfSome, option_map};
ghost use Rattle.clap.specs.Words.{app_of, found_of, rows_of};
ghost use Rattle.run_frame.specs.Spelled.{spelled};
ghost use Rattle.tailplan.specs.Words.{command, is_given, is_trial, limit_of, names_in, order_of, run_of, seed_of, version_of, with_options};
ghost use Rattle.tailplan.specs.inside.Tasks.{task_names_seen};

use crate::quota_words::is_quota;
use crate::repair_words::is_repair;
use crate::why_words::is_why;
use branch_tree::Limit;
use cert_lines::Version;
use certified_search::Order;
use clap::{Arg, ArgAction, ArgMatches, Command};
use run_frame::{TableNames, matched, tables_command, tables_in, value_of};
use seed_tables::SEED_LIMIT;
use std::alloc::{AllocError, Global};
use tail_book::Memory;
use tail_text::number;

/// The most nodes that a limit may name.
pub const NODE_LIMIT: u64 = 1_000_000_000_000;

/// The names of the three tables, the limit of nodes, their order, and the version and the name of the certificate's file, as the
/// words give them.
#[derive(Clone, Copy, PartialEq, Eq, Debug)]
pub struct TaskNames<'a> {
    pub tables: TableNames<'a>,
    pub limit: Limit,
    pub order: Order,
    pub version: Version,
    pub cert: Option<&'a str>,
}

// The command: three words that have to stand in their places, two options that may be given, and two flags.
fn command<'a>(alloc: Global) -> Result<Command<'a>, AllocError>
    ensures { IfOk result (λ c. app_of c ≡ command) }
{
    let command = with_options(alloc)?.arg(
        Arg::new(alloc, "best")
            .long("best")
            .action(ArgAction::SetTrue),
    )?;
    command.arg(
        Arg::new(alloc, "lean")
            .long("lean")
            .action(ArgAction::SetTrue),
    )
}

fn with_options<'a>(alloc: Global) -> Result<Command<'a>, AllocError>
    ensures { IfOk result (λ c. app_of c ≡ with_options) }
{
    let command = tables_command(alloc, "tailplan")?.arg(Arg::new(alloc, "nodes").long("nodes"))?;
    command.arg(Arg::new(alloc, "cert").long("cert"))
}

// The limit that a value of the option gives, or nothing where it is no number that a limit may be.
fn limit_of(text: Option<&str>) -> Option<Limit>
    ensures { result ≡ limit_of (option_map (λ s. s.now) text.entry) }
{
    match text {
        None => Some(Limit::Free),
        Some(text) => match number(text.as_bytes(), NODE_LIMIT) {
            Ok(most) => Some(Limit::Nodes(most)),
            Err(_) => None,
        },
    }
}

// Whether a flag was given.
fn is_given<'a>(matches: &ArgMatches<'a>, id: &str) -> bool
    ensures { result ≡ is_given id.now (rows_of (found_of matches.now)) }
{
    match value_of(matches, id) {
        Some(word) => word.as_bytes() == b"true".as_slice(),
        None => false,
    }
}

// The order of a search whose flag for the least bound was given or not.
fn order_of(best: bool) -> Order
    ensures { result ≡ order_of best }
{
    if best {
        Order::LeastBound
    } else {
        Order::DepthFirst
    }
}

// The version of a certificate whose flag for a lean one was given or not, or nothing where there is no certificate for it.
fn version_of(lean: bool, cert: Option<&str>) -> Option<Version>
    ensures { result ≡ version_of lean (option_map (λ s. s.now) cert.entry) }
{
    if !lean {
        return Some(Version::Full);
    }
    match cert {
        Some(_) => Some(Version::Lean),
        None => None,
    }
}

// The names, the limit, the order and the version among what the command matched.
fn names_in<'a>(matches: &ArgMatches<'a>) -> Option<TaskNames<'a>>
    ensures { option_map task_names_seen result ≡ names_in (rows_of (found_of matches.now)) }
{
    let tables = tables_in(matches)?;
    let limit = limit_of(value_of(matches, "nodes"))?;
    let cert = value_of(matches, "cert");
    let version = version_of(is_given(matches, "lean"), cert)?;
    Some(TaskNames {
        tables,
        limit,
        order: order_of(is_given(matches, "best")),
        version,
        cert,
    })
}

// Whether the word behind the program's name asks for a trial.
fn is_trial(words: &[String]) -> bool
    ensures { result ≡ is_trial (spelled words.now) }
{
    match words {
        [_, word, ..] => word.as_bytes() == b"trial".as_slice(),
        _ => false,
    }
}

/// The seed of the trial that the words ask for, or nothing where they ask for none, or not rightly. The words begin with
/// the program's name.
#[tactic(auto, unfolding(crate::specs::Words::seed_of))]
pub fn seed_of(words: &[String]) -> Option<u64>
    ensures seed { result ≡ seed_of (spelled words.now) }
    ensures range { IfSome result (λ seed. seed ≤ SEED_LIMIT) }
{
    if !is_trial(words) {
        return None;
    }
    match words {
        [_, _, seed] => number(seed.as_bytes(), SEED_LIMIT).ok(),
        _ => None,
    }
}

/// The names of the tables, the limit, the order and the version, or nothing where the words are refused or ask for a trial,
/// for a repair, why no plan is legal, or for quotas. The words begin with the program's name.
#[tactic(auto, unfolding(crate::specs::Words::run_of))]
pub fn run_of<'a>(alloc: Global, words: &'a [String]) -> Result<Option<TaskNames<'a>>, Memory>
    ensures { IfOk result (λ names. option_map task_names_seen names ≡ run_of (spelled words.now)) }
{
    if is_trial(words) || is_repair(words) || is_why(words) || is_quota(words) {
        return Ok(None);
    }
    match matched(command(alloc)?, words)? {
        Some(matches) => Ok(names_in(&matches)),
        None => Ok(None),
    }
}
