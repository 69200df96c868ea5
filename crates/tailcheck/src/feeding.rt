//! The feeding of a checker with a file, piece by piece through one buffer: no more of the file is held than a piece, and nothing
//! is read behind the first failure.

ghost use Rattle.std.specs.Prelude.{◌≡◌, ◌<◌, ◌≤◌, ◌^◌, [], length, take, IfOk, IfSome, IsErr, IsErrOf, IsTrue};
ghost use Rattle.tail_outside.specs.inside.Outside.{IsRead};
ghost use Rattle.tail_outside.specs.Outside.{OnlyRead, ReadHasFailed};
ghost use Rattle.cert_checker.specs.Judged.{Stands};
ghost use Rattle.tailcheck.specs.inside.Fed.{IsFedSo};

use crate::certified::CERTIFICATE_LIMIT;
use cert_checker::laws::{failures_stay, verdicts_are_of_ends};
use cert_checker::{Checker, Taken};
use std::alloc::Global;
use tail_book::Memory;
use tail_outside::{Failed, Files, ReadFail};

/// The most bytes that are asked for in one read.
const PIECE: usize = 65_536;

/// How far a file was fed.
#[derive(Clone, Copy)]
pub enum Fed {
    /// To its end or to a failure.
    Decided,
    /// To the limit, with no failure, and there are bytes behind it.
    TooLong,
}

/// Feeds the checker with the file under this name.
#[tactic(auto, using(tail_outside::specs::inside::Outside::only_read_same, tail_outside::specs::inside::Outside::only_read_chains))]
pub fn feed_file<F: Files>(
    files: &mut F,
    name: &str,
    checker: &mut Checker<'_>,
    buffer: &mut [u8],
) -> Result<Fed, ReadFail>
    requires named { IsTrue ((F.shows files.old).lets_read name.now) }
    requires room { 0 < length buffer.old }
    requires stands { Stands checker.old [] }
    ensures book { checker.new.book ≡ checker.old.book }
    ensures fed { IfOk result (IsFedSo checker.new ((F.shows files.old).holds name.now)) }
    ensures only_read { OnlyRead (F.shows files.old) (F.shows files.new) }
    ensures cause { IsErrOf result ReadFail.Failed → ReadHasFailed (F.shows files.old) (F.shows files.new) }
{
    failures_stay();
    verdicts_are_of_ends();
    let mut taken = 0;
    'pieces: while taken < CERTIFICATE_LIMIT {
        let most = CERTIFICATE_LIMIT - taken;
        let count = read_piece(files, name, taken, most as usize, buffer)?;
        if count == 0 {
            return Ok(Fed::Decided);
        }
        let Ok(answer) = checker.feed(&buffer[..count]) else {
            return Err(ReadFail::Memory);
        };
        if let Taken::Done(_) = answer {
            return Ok(Fed::Decided);
        }
        taken += count as u64;
    }
    let more = read_piece(files, name, taken, 1, buffer)?;
    if more == 0 {
        return Ok(Fed::Decided);
    }
    Ok(Fed::TooLong)
}

// Reads the bytes at a place into a front of the buffer, and at most so many.
fn read_piece<F: Files>(
    files: &mut F,
    name: &str,
    at: u64,
    most: usize,
    buffer: &mut [u8],
) -> Result<usize, Failed>
    requires named { IsTrue ((F.shows files.old).lets_read name.now) }
    requires near { at ≤ 2 ^ 40 }
    ensures few { IfOk result (λ n. n ≤ most) }
    ensures fits { IfOk result (λ n. n ≤ length buffer.old) }
    ensures room { length buffer.new ≡ length buffer.old }
    ensures read { IfOk result (λ n. IfSome ((F.shows files.old).holds name.now)
        (λ bytes. IsRead bytes at (take most buffer.new) n)) }
    ensures only_read { OnlyRead (F.shows files.old) (F.shows files.new) }
    ensures cause { IsErr result → ReadHasFailed (F.shows files.old) (F.shows files.new) }
{
    if most < buffer.len() {
        return files.read_at(name, at, &mut buffer[..most]);
    }
    files.read_at(name, at, buffer)
}

/// A buffer with room for a piece.
pub fn buffer_of(alloc: Global) -> Result<Vec<u8>, Memory>
    ensures { IfOk result (λ buffer. 0 < length buffer.items) }
{
    Ok(vec![in alloc; 0u8; PIECE]?)
}
