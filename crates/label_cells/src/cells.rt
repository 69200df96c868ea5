//! Rows of one width in chunks of 1,024 rows.
//!
//! The rows fill one chunk after another. What lies behind a chunk's last row is room that nothing has been written to, and no
//! chunk moves: adding rows copies none of them, whatever their number. Only `reserve` takes memory, and a push uses what it took.

ghost use Rattle.std.specs.Prelude.{◌≡◌, ◌<◌, ◌≤◌, ◌+◌, ◌-◌, ◌*◌, ◌^◌, ◌++◌, ◌∷◌, [], length, take, drop, replicate, IfOk, OnErr, slice_index_or};

use crate::chunk::Chunk;
use std::alloc::Global;
use std::marker::Model;
use tail_book::Memory;

// How many rows a chunk has room for.
const CHUNK_ROWS: usize = 1024;

// How many chunks are claimed at most, so that their rows can be numbered.
const MOST_CHUNKS: usize = 1 << 53;

/// Rows of at least one value each, all of one width. Contracts see the rows, and how many more can be put without memory.
#[derive(Drop)]
pub struct Cells {
    width: usize,
    count: usize,
    chunks: Vec<Chunk>,
}

impl Model for Cells {
    ghost use Rattle.label_cells.specs.Seen.{CellsSeen};
    ghost use Rattle.label_cells.specs.inside.Chunks.{cells_in, AreChunks};

    ghost Value = { CellsSeen };

    ghost view = { λ c. cells_in c.width c.count c.chunks.items };

    ghost invariant = { λ c. AreChunks c.width c.count c.chunks.items };
}

impl Cells {
    /// No rows, of this width, and room for none. Where a chunk of such rows has more bytes than can be numbered, it is want of
    /// memory.
    pub fn new(alloc: Global, width: usize) -> Result<Cells, Memory>
        requires { 1 ≤ width }
        ensures { IfOk result (λ cells. cells ≡ record { width = width; rows = []; spare = 0 }) }
    {
        if width > usize::MAX / (CHUNK_ROWS * 8) {
            return Err(Memory);
        }
        Ok(Cells {
            width,
            count: 0,
            chunks: Vec::new(alloc),
        })
    }

    /// How many values a row has.
    pub fn width(&self) -> usize
        ensures { result ≡ self.now.width }
    {
        self.width
    }

    /// How many rows there are.
    pub fn len(&self) -> usize
        ensures { result ≡ length self.now.rows }
    {
        self.count
    }

    /// How many more rows can be put without any memory.
    pub fn spare(&self) -> usize
        ensures { result ≡ self.now.spare }
    {
        self.chunks.len() * CHUNK_ROWS - self.count
    }

    /// Claims chunks until so many more rows can be put. Where memory for one is refused, those that were claimed by this call are
    /// given back.
    pub fn reserve(&mut self, n: usize) -> Result<(), Memory>
        ensures spare { IfOk result (λ _. n ≤ self.new.spare) }
        ensures no_less { self.old.spare ≤ self.new.spare }
        ensures same_rows { self.new.rows ≡ self.old.rows }
        ensures same_width { self.new.width ≡ self.old.width }
        ensures memory { OnErr result (self.new ≡ self.old) }
    {
        let spare = self.spare();
        if n <= spare {
            return Ok(());
        }
        let missing = (n - spare - 1) / CHUNK_ROWS + 1;
        claim_chunks(&mut self.chunks, CHUNK_ROWS * self.width, missing)?;
        Ok(())
    }

    /// Puts a row behind the others, and gives its number.
    pub fn push(&mut self, row: &[i64]) -> usize
        requires spare { 1 ≤ self.old.spare }
        requires width { length row.now ≡ self.old.width }
        ensures number { result ≡ length self.old.rows }
        ensures rows { self.new.rows ≡ self.old.rows ++ row.now ∷ [] }
        ensures spare { self.new.spare + 1 ≡ self.old.spare }
        ensures same_width { self.new.width ≡ self.old.width }
    {
        let i = self.count;
        let chunk = &mut self.chunks[i / CHUNK_ROWS];
        chunk.put_all(row);
        self.count = i + 1;
        i
    }

    /// The values of a row.
    pub fn row(&self, i: usize) -> &[i64]
        requires { i < length self.now.rows }
        ensures values { result.now ≡ slice_index_or self.now.rows i [] }
        ensures width { length result.now ≡ self.now.width }
    {
        let chunk = &self.chunks[i / CHUNK_ROWS];
        part_of(chunk.values(), i % CHUNK_ROWS, self.width)
    }

    /// Keeps the first rows. The chunks stay, and the room of the other rows is spare.
    pub fn rewind(&mut self, n: usize)
        requires { n ≤ length self.old.rows }
        ensures rows { self.new.rows ≡ take n self.old.rows }
        ensures spare { self.new.spare + n ≡ self.old.spare + length self.old.rows }
        ensures same_width { self.new.width ≡ self.old.width }
    {
        while self.len() > n {
            self.shorten(n);
        }
    }

    // Lets rows of the last chunk that has some go, down to the first of it or to the first n of all.
    fn shorten(&mut self, n: usize)
        requires { n < length self.old.rows }
        ensures rows { self.new.rows ≡ take (length self.new.rows) self.old.rows }
        ensures fewer { length self.new.rows < length self.old.rows }
        ensures kept { n ≤ length self.new.rows }
        ensures spare { self.new.spare + length self.new.rows ≡ self.old.spare + length self.old.rows }
        ensures same_width { self.new.width ≡ self.old.width }
    {
        let last = (self.count - 1) / CHUNK_ROWS;
        let first = last * CHUNK_ROWS;
        let kept = first.max(n);
        let chunk = &mut self.chunks[last];
        chunk.cut((kept - first) * self.width);
        self.count = kept;
    }
}

// The values of the row at a place of a chunk.
fn part_of(values: &[i64], place: usize, width: usize) -> &[i64]
    requires { place * width + width ≤ length values.now }
    ensures values { result.now ≡ take width (drop (place * width) values.now) }
    ensures width { length result.now ≡ width }
{
    let from = place * width;
    &values[from..from + width]
}

// Claims so many chunks behind the others, or none of them.
fn claim_chunks(chunks: &mut Vec<Chunk>, room: usize, missing: usize) -> Result<(), Memory>
    requires { 1 ≤ room }
    ensures ok { IfOk result (λ _. chunks.new.items ≡ chunks.old.items ++ replicate missing (record { values = []; room = room })) }
    ensures few { IfOk result (λ _. length chunks.old.items + missing ≤ 2 ^ 53) }
    ensures memory { OnErr result (chunks.new.items ≡ chunks.old.items) }
{
    let before = chunks.len();
    if before > MOST_CHUNKS || missing > MOST_CHUNKS - before {
        return Err(Memory);
    }
    chunks.reserve(missing)?;
    let alloc = *chunks.allocator();
    for _ in 0..missing {
        if let Err(memory) = claim_chunk(alloc, chunks, room) {
            chunks.truncate(before);
            return Err(memory);
        }
    }
    Ok(())
}

// Claims one chunk behind the others.
fn claim_chunk(alloc: Global, chunks: &mut Vec<Chunk>, room: usize) -> Result<(), Memory>
    requires { 1 ≤ room }
    ensures ok { IfOk result (λ _. chunks.new.items ≡ chunks.old.items ++ record { values = []; room = room } ∷ []) }
    ensures memory { OnErr result (chunks.new.items ≡ chunks.old.items) }
{
    let chunk = Chunk::claim(alloc, room)?;
    chunks.push(chunk)?;
    Ok(())
}
