//! Runs on texts.

use crate::tests::runs::{Program, seen_over};
use small_texts::{ONE_AT_ARLANDA, Seen, THERE_AND_BACK, files_with};
use std::alloc::Global;
use std::test::Fail;
use tail_outside::MemFile;

/// A run over these files, where these calls of the files and of the sink fail.
pub fn run_failing(
    alloc: Global,
    words: &[&str],
    files: Vec<MemFile>,
    reads: &[u64],
    puts: &[u64],
) -> Result<Seen, Fail> {
    seen_over(alloc, Program::Viewer, words, files, reads, puts)
}

/// The words that name the four files.
pub const WORDS: [&str; 6] = ["tailview", "t", "f", "r", "--plan", "p"];

/// A run over these files.
pub fn run_over(alloc: Global, files: Vec<MemFile>) -> Result<Seen, Fail> {
    run_failing(alloc, &WORDS, files, &[], &[])
}

/// A run over these records, these aircraft, the usual rules with these behind them, and this plan.
pub fn run_with(
    alloc: Global,
    records: &str,
    aircraft: &str,
    more_rules: &str,
    plan: &str,
) -> Result<Seen, Fail> {
    run_over(
        alloc,
        files_with(alloc, records, aircraft, more_rules, plan)?,
    )
}

/// A run over a flight to Oslo and one back, one aircraft, the usual rules, and this plan.
pub fn run_there_and_back(alloc: Global, plan: &str) -> Result<Seen, Fail> {
    run_with(alloc, THERE_AND_BACK, ONE_AT_ARLANDA, "", plan)
}
