//! Runs over files and a sink that took their room at once.

use super::{WORDS, usual_files};
use small_texts::{THERE_AND_BACK, TIMETABLE, text_of, words_of};
use std::alloc::Global;
use std::test::Fail;
use tail_outside::{Files, SureFiles, SureSink};
use tailplan::solve_run;

// Whether a run over these files and a sink of so much room ends so.
fn ends_within(
    alloc: Global,
    words: &[String],
    files: SureFiles,
    room: usize,
    ended: (u8, &str),
) -> Result<bool, Fail> {
    let mut sink = SureSink::new(alloc, room)?;
    let status = solve_run(alloc, words, files, &mut sink).status;
    Ok(status.0 == ended.0 && sink.bytes() == ended.1.as_bytes())
}

// Whether a report fits a sink of so much room as far as this.
fn fits(alloc: Global, room: usize, printed: &str) -> Result<bool, Fail> {
    let files = SureFiles::new(alloc, usual_files(alloc)?, 256)?;
    let words = words_of(alloc, &WORDS)?;
    ends_within(alloc, &words, files, room, (0, printed))
}

// One byte less of room drops the line that passes it.
#[test]
fn a_report_fits_its_room(rt: HostRuntime) -> Result<(), Fail> {
    for &(room, printed) in &[
        (64, "optimal 120\nA1: F1 F2\n"),
        (22, "optimal 120\nA1: F1 F2\n"),
        (21, "optimal 120\n"),
    ] {
        assert!(rt; fits(rt.alloc(), room, printed)?, "{room}");
    }
    Ok(())
}

// The usual files with so much room, where the timetable is begun again and these bytes are added to it.
fn files_written(alloc: Global, room: usize, table: &[u8]) -> Result<SureFiles, Fail> {
    let mut files = SureFiles::new(alloc, usual_files(alloc)?, room)?;
    if files.begin("t").is_ok() && files.append("t", table).is_ok() {
        return Ok(files);
    }
    Err(Fail::new("not written"))
}

// Whether a run ends so whose timetable was written into a room that is this much short of it.
fn ends_short(alloc: Global, short: usize, ended: (u8, &str)) -> Result<bool, Fail> {
    let text = text_of(alloc, &[TIMETABLE, THERE_AND_BACK])?;
    let files = files_written(alloc, text.len().saturating_sub(short), &text)?;
    let words = words_of(alloc, &WORDS)?;
    ends_within(alloc, &words, files, 64, ended)
}

// A timetable that is written into its room is read from there; one byte less of room drops it.
#[test]
fn a_timetable_fits_its_room(rt: HostRuntime) -> Result<(), Fail> {
    for &(short, ended) in &[
        (0, (0, "optimal 120\nA1: F1 F2\n")),
        (1, (3, "refused 3 timetable 1\n")),
    ] {
        assert!(rt; ends_short(rt.alloc(), short, ended)?, "{short}");
    }
    Ok(())
}
