//! Files in memory, and words, of pieces of text. A table is given as pieces that are put together, so a test writes
//! what is its own and takes the usual ones for the rest.

use crate::tables::{FLEET, RULES, TIMETABLE};
use std::alloc::Global;
use std::test::Fail;
use tail_outside::MemFile;

/// The pieces of three tables, and of the file that is judged by them.
#[derive(Clone, Copy, Debug)]
pub struct Typed<'a> {
    pub timetable: &'a [&'a str],
    pub fleet: &'a [&'a str],
    pub rules: &'a [&'a str],
    /// The plan or the certificate.
    pub judged: &'a [&'a str],
}

/// The pieces, one after the other.
pub fn text_of(alloc: Global, pieces: &[&str]) -> Result<Vec<u8>, Fail> {
    let mut text = Vec::new(alloc);
    for piece in pieces {
        text.extend_from_slice(piece.as_bytes())?;
    }
    Ok(text)
}

/// The words of a command, the name of the program with them.
pub fn words_of(alloc: Global, words: &[&str]) -> Result<Vec<String>, Fail> {
    let mut all = Vec::new(alloc);
    for word in words {
        all.push(String::from_str(alloc, word)?)?;
    }
    Ok(all)
}

/// A file of this name.
pub fn file_of(alloc: Global, name: &str, bytes: Vec<u8>) -> Result<MemFile, Fail> {
    let name = String::from_str(alloc, name)?;
    Ok(MemFile { name, bytes })
}

/// The files `t`, `f` and `r` of these bytes.
pub fn files_holding(
    alloc: Global,
    timetable: Vec<u8>,
    fleet: Vec<u8>,
    rules: Vec<u8>,
) -> Result<Vec<MemFile>, Fail> {
    let timetable = file_of(alloc, "t", timetable)?;
    let fleet = file_of(alloc, "f", fleet)?;
    let rules = file_of(alloc, "r", rules)?;
    Ok(vec![in alloc; timetable, fleet, rules]?)
}

/// The files `t`, `f` and `r` of a timetable, a fleet and rules.
pub fn table_files(
    alloc: Global,
    timetable: &[&str],
    fleet: &[&str],
    rules: &[&str],
) -> Result<Vec<MemFile>, Fail> {
    let timetable = text_of(alloc, timetable)?;
    let fleet = text_of(alloc, fleet)?;
    let rules = text_of(alloc, rules)?;
    files_holding(alloc, timetable, fleet, rules)
}

/// The same, and the file `p` of what is judged by them.
pub fn files_of(alloc: Global, typed: Typed<'_>) -> Result<Vec<MemFile>, Fail> {
    let mut files = table_files(alloc, typed.timetable, typed.fleet, typed.rules)?;
    files.push(file_of(alloc, "p", text_of(alloc, typed.judged)?)?)?;
    Ok(files)
}

/// The files of these records, these aircraft, the usual rules with these behind them, and this plan.
pub fn files_with(
    alloc: Global,
    records: &str,
    aircraft: &str,
    more_rules: &str,
    plan: &str,
) -> Result<Vec<MemFile>, Fail> {
    files_of(
        alloc,
        Typed {
            timetable: &[TIMETABLE, records],
            fleet: &[FLEET, aircraft],
            rules: &[RULES, more_rules],
            judged: &[plan],
        },
    )
}
