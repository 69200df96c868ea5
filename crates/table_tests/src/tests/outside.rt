//! Callers through the bounds, and tables of calls over each implementation.

ghost use Rattle.std.specs.Prelude.{◌≡◌, ◌≤◌, ◌++◌, ◌^◌, false, IsTrue, IfOk, OnOk, OnErr, IsErrOf};
ghost use Rattle.tail_outside.specs.inside.Outside.{IsRead, SameOthers, StayCeased};
ghost use Rattle.tail_outside.specs.Outside.{PieceHasFailed, Takes, TakesFront};

use std::alloc::Global;
use std::io::{PipeWriter, Read, Write};
use std::os::fd::AsRawFd;
use std::process::Abort;
use std::test::Fail;
use std::{fs, io};
use tail_outside::{
    Failed, Fault, FileSink, Files, MemFile, MemFiles, MemSink, ReadFail, RealFiles, RealOut, Sink,
    SureFiles, SureSink, read_all,
};

// Puts one piece and then another.
fn put_both<S: Sink>(out: &mut S, first: &[u8], second: &[u8]) -> Result<(), Fault>
    ensures taken { OnOk result (Takes (S.shows out.old) (S.shows out.new) (first.now ++ second.now)) }
    ensures front { OnErr result (TakesFront (S.shows out.old) (S.shows out.new) (first.now ++ second.now)) }
    ensures beside { S.beside out.old out.new }
    ensures ceases { (S.shows out.new).ceased ≡ false → (S.shows out.old).ceased ≡ false }
    ensures counts { (S.shows out.old).faults ≤ (S.shows out.new).faults }
    ensures cause { IsErrOf result Fault.Failed → PieceHasFailed (S.shows out.old) (S.shows out.new) }
{
    if let Err(fault) = out.put(first) {
        return Err(fault);
    }
    out.put(second)
}

// Begins the file, adds the piece, and reads it back.
fn rewrite<F: Files>(
    files: &mut F,
    name: &str,
    piece: &[u8],
    into: &mut [u8],
) -> Result<usize, Fault>
    requires reads { IsTrue ((F.shows files.old).lets_read name.now) }
    requires writes { IsTrue ((F.shows files.old).lets_write name.now) }
    ensures read { IfOk result (λ n. (F.shows files.new).ceased name.now ≡ false → IsRead piece.now 0 into.new n) }
    ensures others { SameOthers (F.shows files.old).holds (F.shows files.new).holds name.now }
    ensures ceases { StayCeased (F.shows files.old).ceased (F.shows files.new).ceased }
{
    if let Err(fault) = files.begin(name) {
        return Err(fault);
    }
    if let Err(fault) = files.append(name, piece) {
        return Err(fault);
    }
    match files.read_at(name, 0, into) {
        Ok(count) => Ok(count),
        Err(Failed) => Err(Fault::Failed),
    }
}

fn file(alloc: Global, name: &str, bytes: &[u8]) -> Result<MemFile, Fail> {
    Ok(MemFile {
        name: String::from_str(alloc, name)?,
        bytes: bytes.to_vec(alloc)?,
    })
}

fn files_of(alloc: Global, rows: &[(&str, &[u8])]) -> Result<Vec<MemFile>, Fail> {
    let mut files = Vec::new(alloc);
    for &(name, bytes) in rows {
        files.push(file(alloc, name, bytes)?)?;
    }
    Ok(files)
}

// Three files, of which two have one name.
const THREE: &[(&str, &[u8])] = &[("plan", b"old"), ("plan", b"second"), ("log", b"abcde")];

// Files of which the call of this number fails.
fn failing_files(alloc: Global, number: u64, rows: &[(&str, &[u8])]) -> Result<MemFiles, Fail> {
    let listed = [number].to_vec(alloc)?;
    Ok(MemFiles::new(alloc, files_of(alloc, rows)?, listed)?)
}

fn sure_files(alloc: Global, room: usize) -> Result<SureFiles, Fail> {
    Ok(SureFiles::new(alloc, files_of(alloc, THREE)?, room)?)
}

// Whether a file that is rewritten with the piece reads back so.
fn reads_back<F: Files>(files: &mut F, name: &str, piece: &[u8], want: &[u8]) -> bool
    requires reads { IsTrue ((F.shows files.old).lets_read name.now) }
    requires writes { IsTrue ((F.shows files.old).lets_write name.now) }
{
    let mut into = [0; 4];
    match rewrite(files, name, piece, &mut into) {
        Ok(count) => count == want.len() && into.starts_with(want),
        Err(_) => false,
    }
}

// Whether a buffer of so many bytes, at most four, takes these of a file, from a place on.
fn reads_at<F: Files>(files: &mut F, name: &str, at: u64, room: usize, want: &[u8]) -> bool
    requires reads { IsTrue ((F.shows files.old).lets_read name.now) }
    requires near { at ≤ 2 ^ 40 }
{
    let mut into = [0; 4];
    match files.read_at(name, at, &mut into[..room.min(4)]) {
        Ok(count) => count == want.len() && into.starts_with(want),
        Err(_) => false,
    }
}

// Whether these are all the bytes of a file, or its first up to a limit.
fn reads_whole<F: Files>(
    alloc: Global,
    files: &mut F,
    name: &str,
    limit: usize,
    want: &[u8],
) -> bool
    requires reads { IsTrue ((F.shows files.old).lets_read name.now) }
    requires near { limit ≤ 2 ^ 40 }
{
    match read_all(alloc, files, name, limit) {
        Ok(bytes) => bytes.as_slice() == want,
        Err(_) => false,
    }
}

// Two pieces, the answer that is wanted of a sink, and what it then holds.
type Pieces = (
    &'static [u8],
    &'static [u8],
    Result<(), Fault>,
    &'static [u8],
);

// A sink of which the put of this number fails.
fn held_takes(alloc: Global, number: u64, pieces: &Pieces) -> Result<bool, Fail> {
    let &(first, second, want, bytes) = pieces;
    let listed = [number].to_vec(alloc)?;
    let mut out = MemSink::new(alloc, listed)?;
    Ok(put_both(&mut out, first, second) == want && out.bytes() == bytes)
}

// A sink over a file that isn't there yet, where the call of this number fails.
fn file_takes(alloc: Global, number: u64, pieces: &Pieces) -> Result<bool, Fail> {
    let &(first, second, want, bytes) = pieces;
    let mut out = FileSink::new(failing_files(alloc, number, THREE)?, "new");
    Ok(put_both(&mut out, first, second) == want && out.into_files().bytes("new") == Some(bytes))
}

// A sink of so much room.
fn sure_takes(alloc: Global, room: usize, pieces: &Pieces) -> Result<bool, Fail> {
    let &(first, second, want, bytes) = pieces;
    let mut out = SureSink::new(alloc, room)?;
    Ok(put_both(&mut out, first, second) == want && out.bytes() == bytes)
}

// What takes pieces, or is rewritten: it is held, and the call of this number fails; it is a file, of which that call fails; or
// it is sure, with so much room.
#[derive(Clone, Copy)]
enum Kind {
    Held(u64),
    File(u64),
    Sure(usize),
}

fn is_taken(alloc: Global, kind: Kind, pieces: &Pieces) -> Result<bool, Fail> {
    match kind {
        Kind::Held(number) => held_takes(alloc, number, pieces),
        Kind::File(number) => file_takes(alloc, number, pieces),
        Kind::Sure(room) => sure_takes(alloc, room, pieces),
    }
}

const TAKEN: &[(&str, Kind, Pieces)] = &[
    // Each put fails in turn, and then one that is never made.
    (
        "held, none fails",
        Kind::Held(0),
        (b"ab", b"c", Ok(()), b"abc"),
    ),
    (
        "held, no second",
        Kind::Held(0),
        (b"ab", b"", Ok(()), b"ab"),
    ),
    ("held, no first", Kind::Held(0), (b"", b"c", Ok(()), b"c")),
    ("held, no piece", Kind::Held(0), (b"", b"", Ok(()), b"")),
    (
        "held, the first fails",
        Kind::Held(1),
        (b"ab", b"c", Err(Fault::Failed), b""),
    ),
    (
        "held, the second fails",
        Kind::Held(2),
        (b"ab", b"c", Err(Fault::Failed), b"ab"),
    ),
    (
        "held, a third fails",
        Kind::Held(3),
        (b"ab", b"c", Ok(()), b"abc"),
    ),
    // Two pieces are taken, and then the second fails.
    (
        "a file, none fails",
        Kind::File(0),
        (b"ab", b"c", Ok(()), b"abc"),
    ),
    (
        "a file, no second",
        Kind::File(0),
        (b"ab", b"", Ok(()), b"ab"),
    ),
    ("a file, no first", Kind::File(0), (b"", b"c", Ok(()), b"c")),
    ("a file, no piece", Kind::File(0), (b"", b"", Ok(()), b"")),
    (
        "a file, the second fails",
        Kind::File(2),
        (b"ab", b"c", Err(Fault::Failed), b"ab"),
    ),
    // Both pieces fit, or the second passes the room by one byte and is dropped.
    (
        "sure, both fit",
        Kind::Sure(3),
        (b"ab", b"c", Ok(()), b"abc"),
    ),
    (
        "sure, no second",
        Kind::Sure(3),
        (b"ab", b"", Ok(()), b"ab"),
    ),
    ("sure, no first", Kind::Sure(3), (b"", b"c", Ok(()), b"c")),
    ("sure, no piece", Kind::Sure(3), (b"", b"", Ok(()), b"")),
    (
        "sure, the second is dropped",
        Kind::Sure(2),
        (b"ab", b"c", Ok(()), b"ab"),
    ),
    (
        "sure, both are dropped",
        Kind::Sure(1),
        (b"ab", b"c", Ok(()), b""),
    ),
];

#[test]
fn sinks_take_pieces(rt: HostRuntime) -> Result<(), Fail> {
    for (about, kind, pieces) in TAKEN {
        assert!(rt; is_taken(rt.alloc(), *kind, pieces)?, "{about}");
    }
    Ok(())
}

#[test]
fn the_output_takes_both_pieces(rt: HostRuntime) {
    let rows: &[(&[u8], &[u8])] = &[(b"ab", b"c"), (b"ab", b""), (b"", b"c"), (b"", b"")];
    for &(first, second) in rows {
        let mut out = RealOut::new(&rt);
        assert!(rt; put_both(&mut out, first, second).is_ok());
    }
}

fn held_reads_back(alloc: Global, piece: &[u8], want: &[u8]) -> Result<bool, Fail> {
    let mut held = failing_files(alloc, 0, THREE)?;
    Ok(reads_back(&mut held, "plan", piece, want))
}

fn sure_reads_back(alloc: Global, piece: &[u8], want: &[u8]) -> Result<bool, Fail> {
    let mut sure = sure_files(alloc, 6)?;
    Ok(reads_back(&mut sure, "plan", piece, want))
}

fn real_reads_back(rt: &HostRuntime, name: &str, piece: &[u8], want: &[u8]) -> bool {
    let mut real = RealFiles::new(rt.alloc(), rt);
    reads_back(&mut real, name, piece, want)
}

// The same calls to each kind of files: a piece that fits the buffer, one that is longer, and an empty one.
#[test]
fn files_are_rewritten_alike(rt: HostRuntime) -> Result<(), Fail> {
    let name = "tail_outside_alike";
    for &(piece, want) in &[
        (b"xyz".as_slice(), b"xyz".as_slice()),
        (b"uvwxyz".as_slice(), b"uvwx".as_slice()),
        (b"".as_slice(), b"".as_slice()),
    ] {
        assert!(rt; held_reads_back(rt.alloc(), piece, want)?);
        assert!(rt; sure_reads_back(rt.alloc(), piece, want)?);
        assert!(rt; real_reads_back(&rt, name, piece, want));
        fs::remove_file(&rt, name)?;
    }
    Ok(())
}

// A name, the answer that is wanted where its file is rewritten, and what it then has.
type Rewrite = (&'static str, Result<usize, Fault>, Option<&'static [u8]>);

fn held_is_rewritten(alloc: Global, number: u64, row: &Rewrite) -> Result<bool, Fail> {
    let &(name, want, bytes) = row;
    let mut held = failing_files(alloc, number, THREE)?;
    Ok(rewrite(&mut held, name, b"xyz", &mut [0; 4]) == want && held.bytes(name) == bytes)
}

fn sure_is_rewritten(alloc: Global, room: usize, row: &Rewrite) -> Result<bool, Fail> {
    let &(name, want, bytes) = row;
    let mut sure = sure_files(alloc, room)?;
    Ok(rewrite(&mut sure, name, b"xyz", &mut [0; 4]) == want && sure.bytes(name) == bytes)
}

fn is_rewritten(alloc: Global, kind: Kind, row: &Rewrite) -> Result<bool, Fail> {
    match kind {
        Kind::Held(number) | Kind::File(number) => held_is_rewritten(alloc, number, row),
        Kind::Sure(room) => sure_is_rewritten(alloc, room, row),
    }
}

const REWRITTEN: &[(&str, Kind, Rewrite)] = &[
    // Begin, append and read fail in turn, and a file is made. The first of two with one name counts.
    (
        "begin fails",
        Kind::File(1),
        ("plan", Err(Fault::Failed), Some(b"old")),
    ),
    (
        "append fails",
        Kind::File(2),
        ("plan", Err(Fault::Failed), Some(b"")),
    ),
    (
        "read fails",
        Kind::File(3),
        ("plan", Err(Fault::Failed), Some(b"xyz")),
    ),
    ("none fails", Kind::File(4), ("plan", Ok(3), Some(b"xyz"))),
    (
        "a file is made",
        Kind::File(4),
        ("new", Ok(3), Some(b"xyz")),
    ),
    // A piece fits, or passes the room by one byte and is dropped. A name that no file has is read as an empty file.
    ("a piece fits", Kind::Sure(3), ("plan", Ok(3), Some(b"xyz"))),
    (
        "a piece is dropped",
        Kind::Sure(2),
        ("plan", Ok(0), Some(b"")),
    ),
    ("no such file", Kind::Sure(3), ("none", Ok(0), None)),
];

#[test]
fn files_are_rewritten(rt: HostRuntime) -> Result<(), Fail> {
    for (about, kind, row) in REWRITTEN {
        assert!(rt; is_rewritten(rt.alloc(), *kind, row)?, "{about}");
    }
    Ok(())
}

// A front of the buffer is filled, and nothing exactly at the end or in an empty buffer.
#[test]
fn a_file_is_read_at_a_place(rt: HostRuntime) -> Result<(), Fail> {
    let mut held = failing_files(rt.alloc(), 0, THREE)?;
    for &(at, room, want) in &[
        (0, 2, b"ab".as_slice()),
        (3, 4, b"de".as_slice()),
        (5, 4, b"".as_slice()),
        (9, 4, b"".as_slice()),
        (0, 0, b"".as_slice()),
    ] {
        assert!(rt; reads_at(&mut held, "log", at, room, want), "at {at}");
    }
    assert!(rt; held.read_at("none", 0, &mut [0; 4]) == Err(Failed));
    Ok(())
}

fn held_reads_whole(alloc: Global, limit: usize, want: &[u8]) -> Result<bool, Fail>
    requires { limit ≤ 2 ^ 40 }
{
    let mut held = failing_files(alloc, 0, THREE)?;
    Ok(reads_whole(alloc, &mut held, "log", limit, want))
}

fn sure_reads_whole(alloc: Global, limit: usize, want: &[u8]) -> Result<bool, Fail>
    requires { limit ≤ 2 ^ 40 }
{
    let mut sure = sure_files(alloc, 0)?;
    Ok(reads_whole(alloc, &mut sure, "log", limit, want))
}

// A file is read to its end, or to a limit before, at or behind it.
#[test]
fn a_file_is_read_whole(rt: HostRuntime) -> Result<(), Fail> {
    for &(limit, want) in &[
        (0, b"".as_slice()),
        (2, b"ab".as_slice()),
        (5, b"abcde".as_slice()),
        (9, b"abcde".as_slice()),
    ] {
        assert!(rt;
            held_reads_whole(rt.alloc(), limit, want)?
                && sure_reads_whole(rt.alloc(), limit, want)?,
            "up to {limit}"
        );
    }
    Ok(())
}

// Whether so many bytes are read of a long file where the call of this number fails, or the read fails so.
fn has_length(
    alloc: Global,
    number: u64,
    bytes: &[u8],
    want: Result<usize, ReadFail>,
) -> Result<bool, Fail> {
    let mut held = failing_files(alloc, number, &[("long", bytes)])?;
    Ok(match read_all(alloc, &mut held, "long", 100_000) {
        Ok(bytes) => want == Ok(bytes.len()),
        Err(fail) => want == Err(fail),
    })
}

// Of a file that is longer than a piece the first read fails, the one at its end, or none.
#[test]
fn a_long_file_is_read_in_pieces(rt: HostRuntime) -> Result<(), Fail> {
    let long = vec![in rt.alloc(); b'x'; 70_000]?;
    for &(number, want) in &[
        (1, Err(ReadFail::Failed)),
        (2, Err(ReadFail::Failed)),
        (3, Err(ReadFail::Failed)),
        (4, Ok(70_000)),
    ] {
        assert!(rt; has_length(rt.alloc(), number, &long, want)?, "at {number}");
    }
    Ok(())
}

// A file that is made, emptied, written and read back, and one that isn't there.
#[test]
fn a_real_file_is_rewritten(rt: HostRuntime) {
    let name = "tail_outside_written";
    let mut real = RealFiles::new(rt.alloc(), &rt);
    assert!(rt; reads_back(&mut real, name, b"old", b"old"));
    assert!(rt; reads_back(&mut real, name, b"xyz", b"xyz"));
    assert!(rt; fs::remove_file(&rt, name).is_ok());
    assert!(rt; real.read_at(name, 0, &mut [0; 4]) == Err(Failed));
}

// Asks that a file that is begun and to which these pieces are added is read so at these places, one after the other.
fn is_read_on(
    rt: &impl Abort,
    mut real: RealFiles<&HostRuntime>,
    name: &str,
    pieces: &[&[u8]],
    rows: &[(u8, &[u8])],
) {
    assert!(rt; real.begin(name).is_ok());
    for piece in pieces {
        assert!(rt; real.append(name, piece).is_ok());
    }
    for &(at, want) in rows {
        assert!(rt; reads_at(&mut real, name, at as u64, 4, want), "at {at}");
    }
}

const READ_ON: &[(u8, &[u8])] = &[
    (0, b"abcd"),
    (4, b"efg"),
    (7, b""),
    (0, b"abcd"),
    (6, b"g"),
    (1, b"bcde"),
    (5, b"fg"),
];

// The bytes of a long file in turn, then again from its beginning, at a place behind it and at one before it. What a file
// is given joins what it holds.
#[test]
fn a_real_file_is_read_on(rt: HostRuntime) {
    let (forward, added) = ("tail_outside_forward", "tail_outside_added");
    let real = RealFiles::new(rt.alloc(), &rt);
    is_read_on(&rt, real, forward, &[b"abcdefg"], READ_ON);
    let real = RealFiles::new(rt.alloc(), &rt);
    is_read_on(&rt, real, added, &[b"ab", b"c"], &[(0, b"abc"), (2, b"c")]);
    assert!(rt; fs::remove_file(&rt, forward).is_ok());
    assert!(rt; fs::remove_file(&rt, added).is_ok());
}

const FIRST: &str = "tail_outside_first";

const SECOND: &str = "tail_outside_second";

// Two files in turn: each is read at its own place.
#[test]
fn real_files_are_read_in_turn(rt: HostRuntime) {
    let mut real = RealFiles::new(rt.alloc(), &rt);
    assert!(rt; real.append(FIRST, b"abc").is_ok());
    assert!(rt; real.append(SECOND, b"xyz").is_ok());
    for &(name, at, want) in &[
        (FIRST, 0, b"a"),
        (SECOND, 1, b"y"),
        (FIRST, 1, b"b"),
        (FIRST, 2, b"c"),
        (SECOND, 2, b"z"),
    ] {
        assert!(rt; reads_at(&mut real, name, at, 1, want), "{name} at {at}");
    }
    assert!(rt; fs::remove_file(&rt, FIRST).is_ok());
    assert!(rt; fs::remove_file(&rt, SECOND).is_ok());
}

// Asks that a pipe of six bytes is read on to its end, and not at a place before it.
fn is_read_to_its_end(rt: &impl Abort, mut real: RealFiles<&HostRuntime>, name: &str) {
    for &(at, want) in &[
        (0, b"abcd".as_slice()),
        (4, b"ef".as_slice()),
        (6, b"".as_slice()),
    ] {
        assert!(rt; reads_at(&mut real, name, at, 4, want), "at {at}");
    }
    assert!(rt; real.read_at(name, 3, &mut [0; 4]) == Err(Failed));
}

// A pipe has no places to go back to: it is read on to its end, piece by piece.
#[test]
fn a_pipe_is_read_to_its_end(rt: HostRuntime) -> Result<(), Fail> {
    let (reader, mut writer) = io::pipe(&rt)?;
    writer.write_all(b"abcdef")?;
    drop(writer);
    let name = format!(in rt.alloc(); "/dev/fd/{}", reader.as_raw_fd())?;
    is_read_to_its_end(&rt, RealFiles::new(rt.alloc(), &rt), &name);
    Ok(())
}

// Asks that what is written is added where the file was begun, once nothing else has it open.
fn is_written_on(
    rt: &impl Abort,
    mut real: RealFiles<&HostRuntime>,
    name: &str,
    writer: PipeWriter,
) {
    assert!(rt; real.begin(name).is_ok());
    drop(writer);
    assert!(rt; real.append(name, b"ab").is_ok());
    assert!(rt; real.append(name, b"c").is_ok());
}

// A pipe under a name is opened once: its reader sees no end before the files are given up.
#[test]
fn a_pipe_is_written_to_its_end(rt: HostRuntime) -> Result<(), Fail> {
    let (mut reader, writer) = io::pipe(&rt)?;
    let name = format!(in rt.alloc(); "/dev/fd/{}", writer.as_raw_fd())?;
    is_written_on(&rt, RealFiles::new(rt.alloc(), &rt), &name, writer);
    let mut read = [0; 8];
    assert!(rt; reader.read(&mut read)? == 3 && read.starts_with(b"abc"));
    assert!(rt; reader.read(&mut read)? == 0);
    Ok(())
}

// A folder is no file.
#[test]
fn a_folder_is_no_file(rt: HostRuntime) {
    let mut real = RealFiles::new(rt.alloc(), &rt);
    assert!(rt; real.read_at(".", 0, &mut [0; 4]) == Err(Failed));
    assert!(rt; real.begin(".") == Err(Fault::Failed));
    assert!(rt; real.append(".", b"!") == Err(Fault::Failed));
}
