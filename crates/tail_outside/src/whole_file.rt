//! A file's bytes, up to a limit: piece by piece through one buffer on the heap, and never a byte past the limit. Each turn
//! takes at least one byte or ends, so a reading ends whatever the file is.

ghost use Rattle.std.specs.Prelude.{◌≡◌, ◌<◌, ◌≤◌, ◌^◌, length, take, IfOk, IfSome, IsErr, IsErrOf, IsTrue};
ghost use Rattle.tail_outside.specs.inside.Outside.{IsRead};
ghost use Rattle.tail_outside.specs.Outside.{OnlyRead, ReadHasFailed};

use crate::{Failed, Files};
use std::alloc::Global;
use tail_book::Memory;

/// The most bytes that are asked for in one read.
const PIECE: usize = 65_536;

/// Why a file was not read.
#[derive(Clone, Copy, PartialEq, Eq, Debug)]
pub enum ReadFail {
    /// A read failed.
    Failed,
    /// There was no memory for the bytes.
    Memory,
}

impl From<Failed> for ReadFail {
    ghost use Rattle.tail_outside.specs.declared.whole_file.ReadFail.TheVariants.{Failed as ReadFailed};

    ghost from_gives = { λ _ e. e ≡ ReadFailed };

    fn from(_error: Failed) -> ReadFail {
        ReadFail::Failed
    }
}

/// The bytes of a file to its end, or the first `limit` of them where it has more. No byte behind them is asked for.
pub fn read_all<F: Files>(
    alloc: Global,
    files: &mut F,
    name: &str,
    limit: usize,
) -> Result<Vec<u8>, ReadFail>
    requires named { IsTrue ((F.shows files.old).lets_read name.now) }
    requires near { limit ≤ 2 ^ 40 }
    ensures bytes { IfOk result (λ v. IfSome ((F.shows files.old).holds name.now)
        (λ bytes. v.items ≡ take limit bytes)) }
    ensures within { IfOk result (λ v. length v.items ≤ limit) }
    ensures only_read { OnlyRead (F.shows files.old) (F.shows files.new) }
    ensures cause { IsErrOf result ReadFail.Failed → ReadHasFailed (F.shows files.old) (F.shows files.new) }
{
    let Ok(mut buffer) = buffer_of(alloc, PIECE) else {
        return Err(ReadFail::Memory);
    };
    read_pieces(alloc, files, name, limit, buffer.as_mut_slice())
}

// The same, with a buffer for the pieces.
#[tactic(auto, using(crate::specs::inside::Outside::only_read_same, crate::specs::inside::Outside::only_read_chains))]
fn read_pieces<F: Files>(
    alloc: Global,
    files: &mut F,
    name: &str,
    limit: usize,
    buffer: &mut [u8],
) -> Result<Vec<u8>, ReadFail>
    requires named { IsTrue ((F.shows files.old).lets_read name.now) }
    requires near { limit ≤ 2 ^ 40 }
    requires room { 0 < length buffer.old }
    ensures bytes { IfOk result (λ v. IfSome ((F.shows files.old).holds name.now)
        (λ bytes. v.items ≡ take limit bytes)) }
    ensures within { IfOk result (λ v. length v.items ≤ limit) }
    ensures only_read { OnlyRead (F.shows files.old) (F.shows files.new) }
    ensures cause { IsErrOf result ReadFail.Failed → ReadHasFailed (F.shows files.old) (F.shows files.new) }
{
    let mut bytes = Vec::new(alloc);
    'pieces: while bytes.len() < limit {
        let most = limit - bytes.len();
        let count = read_piece(files, name, bytes.len() as u64, most, buffer)?;
        if count == 0 {
            return Ok(bytes);
        }
        if bytes.extend_from_slice(&buffer[..count]).is_err() {
            return Err(ReadFail::Memory);
        }
    }
    Ok(bytes)
}

// Reads the bytes at a place into a front of the buffer, and at most so many.
fn read_piece<F: Files>(
    files: &mut F,
    name: &str,
    at: u64,
    most: usize,
    buffer: &mut [u8],
) -> Result<usize, Failed>
    requires named { IsTrue ((F.shows files.old).lets_read name.now) }
    requires near { at ≤ 2 ^ 40 }
    ensures few { IfOk result (λ n. n ≤ most) }
    ensures fits { IfOk result (λ n. n ≤ length buffer.old) }
    ensures read { IfOk result (λ n. IfSome ((F.shows files.old).holds name.now)
        (λ bytes. IsRead bytes at (take most buffer.new) n)) }
    ensures only_read { OnlyRead (F.shows files.old) (F.shows files.new) }
    ensures cause { IsErr result → ReadHasFailed (F.shows files.old) (F.shows files.new) }
{
    if most < buffer.len() {
        return files.read_at(name, at, &mut buffer[..most]);
    }
    files.read_at(name, at, buffer)
}

// A buffer with room for a piece.
fn buffer_of(alloc: Global, size: usize) -> Result<Vec<u8>, Memory>
    requires { 0 < size }
    ensures { IfOk result (λ buffer. 0 < length buffer.items) }
{
    Ok(vec![in alloc; 0u8; size]?)
}
