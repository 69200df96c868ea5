//! What is seen of a run of one of the three programs over files in memory.

use small_texts::{Seen, words_of};
use std::alloc::Global;
use std::test::Fail;
use tail_book::Memory;
use tail_outside::{MemFile, MemFiles, MemSink};
use tailcheck::check_run;
use tailplan::solve_run;
use tailview::view_run;

/// The program that is run.
#[derive(Clone, Copy, Debug)]
pub enum Program {
    Planner,
    Checker,
    Viewer,
}

/// What is seen of a run by these words over these files, where these calls of the sink fail.
pub fn seen_by(
    alloc: Global,
    program: Program,
    words: &[String],
    files: MemFiles,
    puts: &[u64],
) -> Result<Seen, Memory> {
    let puts = Vec::from_slice(alloc, puts)?;
    let mut sink = MemSink::new(alloc, puts)?;
    let status = match program {
        Program::Planner => solve_run(alloc, words, files, &mut sink).status,
        Program::Checker => check_run(alloc, words, files, &mut sink).status,
        Program::Viewer => view_run(alloc, words, files, &mut sink).status,
    };
    let printed = sink.bytes().to_vec(alloc)?;
    Ok(Seen {
        status: status.0,
        printed,
    })
}

/// The same of a run over these files, of whose calls these fail.
pub fn seen_over(
    alloc: Global,
    program: Program,
    words: &[&str],
    files: Vec<MemFile>,
    calls: &[u64],
    puts: &[u64],
) -> Result<Seen, Fail> {
    let calls = Vec::from_slice(alloc, calls)?;
    let files = MemFiles::new(alloc, files, calls)?;
    let words = words_of(alloc, words)?;
    Ok(seen_by(alloc, program, &words, files, puts)?)
}
