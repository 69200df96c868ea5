//! A store of labels: rows by number, each with its parent and its node, and for each node a bucket of row numbers.
//!
//! A row is never taken back before the store is cleared: one that leaves its bucket may be the parent of others. So a
//! bucket is a list of numbers, and beside it stand the values of these rows once more, packed one after the other.
//! Dominance reads and moves the numbers and values of a bucket alone. So an offer walks through one flat list, and looks
//! at each row in it at most twice; it copies the row that enters, and those behind one that leaves. A row in a bucket
//! takes its values twice in memory, one that has left it once.

ghost use Rattle.std.specs.Prelude.{◌≡◌, ◌<◌, ◌≤◌, ◌^◌, [], length, replicate, IfOk, OnErr, IfSome, All, slice_index_or};
ghost use Rattle.label_store.specs.Buckets.{row_at};
ghost use Rattle.label_store.specs.Store.{parent_of, node_of, bucket_of, empty_store};
ghost use Rattle.label_store.specs.Offers.{Offers, OffersTo};
ghost use Rattle.label_store.specs.inside.Packing.{IsPacked};

use crate::bucket::{Bucket, covering, enter};
use crate::packed::Packed;
use crate::rows::Rows;
use crate::{Offered, laws};
use std::alloc::Global;
use std::marker::Model;
use tail_book::Memory;

/// Labels of so many nodes, each a row of the same number of values: the weight, and then a value for each counter.
/// Contracts see the record of its lists, and every store keeps what `IsStore` says.
#[derive(Drop)]
pub struct Store {
    pub(crate) rows: Rows,
    pub(crate) buckets: Vec<Bucket>,
    packed: Vec<Packed>,
}

impl Model for Store {
    ghost use Rattle.label_store.specs.Seen.{StoreSeen};
    ghost use Rattle.label_store.specs.Store.{store_of};
    ghost use Rattle.label_store.specs.inside.Packing.{IsPackedStore};

    ghost Value = { StoreSeen };

    ghost view = { λ s. store_of s.rows s.buckets.items };

    ghost invariant = { λ s. IsPackedStore (store_of s.rows s.buckets.items) s.packed.items };
}

// How many nodes can be numbered.
const MOST_NODES: usize = 1 << 32;

impl Store {
    /// A store of so many nodes, for rows of this width, with no row in it.
    pub fn new(alloc: Global, nodes: usize, width: usize) -> Result<Store, Memory>
        requires { 1 ≤ width }
        ensures { IfOk result (λ store. store ≡ empty_store nodes width) }
    {
        if nodes > MOST_NODES {
            return Err(Memory);
        }
        let buckets = empty_buckets(alloc, nodes)?;
        let packed = empty_values(alloc, nodes)?;
        let rows = Rows::new(alloc, width)?;
        Ok(Store {
            rows,
            buckets,
            packed,
        })
    }

    /// Offers a row to the bucket of its node, with the number of the row that it came from.
    pub fn offer(
        &mut self,
        node: usize,
        parent: Option<usize>,
        row: &[i64],
    ) -> Result<Offered, Memory>
        requires node { node < length self.old.buckets }
        requires parent { IfSome parent (λ j. j < length self.old.rows) }
        requires width { length row.now ≡ self.old.width }
        ensures offered { IfOk result (λ offered. Offers self.old self.new node parent row.now offered) }
        ensures memory { OnErr result (self.new ≡ self.old) }
        ensures same_width { self.new.width ≡ self.old.width }
        ensures same_nodes { length self.new.buckets ≡ length self.old.buckets }
        ensures no_fewer { length self.old.rows ≤ length self.new.rows }
    {
        laws::offers_keep_stores();
        let bucket = &mut self.buckets[node];
        let values = &mut self.packed[node];
        offer_to(
            &mut self.rows,
            &mut bucket.0,
            &mut values.0,
            node as u32,
            narrowed(parent),
            row,
        )
    }

    /// How many rows the bucket of a node has.
    pub fn count(&self, node: usize) -> usize
        requires { node < length self.now.buckets }
        ensures { result ≡ length (bucket_of self.now node) }
    {
        self.buckets[node].0.len()
    }

    /// The number of the row at a place of a bucket.
    pub fn at(&self, node: usize, i: usize) -> usize
        requires node { node < length self.now.buckets }
        requires place { i < length (bucket_of self.now node) }
        ensures number { result ≡ slice_index_or (bucket_of self.now node) i 0 }
        ensures kept { result < length self.now.rows }
    {
        self.buckets[node].0[i] as usize
    }

    /// The values of a kept row.
    pub fn row(&self, i: usize) -> &[i64]
        requires { i < length self.now.rows }
        ensures values { result.now ≡ row_at self.now.rows i }
        ensures width { length result.now ≡ self.now.width }
    {
        self.rows.row(i)
    }

    /// The row that a kept row came from.
    pub fn parent(&self, i: usize) -> Option<usize>
        requires { i < length self.now.rows }
        ensures parent { result ≡ parent_of self.now i }
        ensures below { IfSome result (λ j. j < i) }
    {
        match self.rows.parent(i) {
            Some(j) => Some(j as usize),
            None => None,
        }
    }

    /// The node of a kept row.
    pub fn node(&self, i: usize) -> usize
        requires { i < length self.now.rows }
        ensures node { result ≡ node_of self.now i }
        ensures within { result < length self.now.buckets }
    {
        self.rows.node(i) as usize
    }

    /// Lets all rows go, and keeps their room.
    pub fn clear(&mut self)
        ensures { self.new ≡ empty_store (length self.old.buckets) self.old.width }
    {
        self.rows.clear();
        empty_all(&mut self.buckets);
        empty_all_values(&mut self.packed);
    }
}

// A number of a row in 32 bits.
fn narrowed(parent: Option<usize>) -> Option<u32>
    requires { IfSome parent (λ j. j < 2 ^ 32) }
    ensures { result ≡ parent }
{
    match parent {
        Some(j) => Some(j as u32),
        None => None,
    }
}

// Offers a row to one bucket.
fn offer_to(
    rows: &mut Rows,
    bucket: &mut Vec<u32>,
    values: &mut Vec<i64>,
    node: u32,
    parent: Option<u32>,
    row: &[i64],
) -> Result<Offered, Memory>
    requires width { length row.now ≡ rows.old.width }
    requires numbers { All (λ j. j < length rows.old.rows) bucket.old.items }
    requires packed { IsPacked rows.old.width rows.old.rows bucket.old.items values.old.items }
    ensures offered { IfOk result (λ offered. OffersTo rows.old rows.new bucket.old.items bucket.new.items node parent row.now offered) }
    ensures packed { IsPacked rows.new.width rows.new.rows bucket.new.items values.new.items }
    ensures same_rows { OnErr result (rows.new ≡ rows.old) }
    ensures same_bucket { OnErr result (bucket.new.items ≡ bucket.old.items) }
    ensures same_width { rows.new.width ≡ rows.old.width }
    ensures no_fewer { length rows.old.rows ≤ length rows.new.rows }
{
    if let Some(j) = covering(rows, bucket, values, row) {
        return Ok(Offered::Covered(j as usize));
    }
    let i = enter(rows, bucket, values, node, parent, row)?;
    Ok(Offered::Kept(i))
}

// So many empty buckets.
fn empty_buckets(alloc: Global, nodes: usize) -> Result<Vec<Bucket>, Memory>
    ensures { IfOk result (λ buckets. buckets.items ≡ replicate nodes []) }
{
    let mut buckets = Vec::with_capacity(alloc, nodes)?;
    for _node in 0..nodes {
        buckets.push(Bucket(Vec::new(alloc)))?;
    }
    Ok(buckets)
}

// No values for so many buckets.
fn empty_values(alloc: Global, nodes: usize) -> Result<Vec<Packed>, Memory>
    ensures { IfOk result (λ packed. packed.items ≡ replicate nodes []) }
{
    let mut packed = Vec::with_capacity(alloc, nodes)?;
    for _node in 0..nodes {
        packed.push(Packed(Vec::new(alloc)))?;
    }
    Ok(packed)
}

// Empties all buckets, and keeps their room.
fn empty_all(buckets: &mut [Bucket])
    ensures { buckets.new ≡ replicate (length buckets.old) [] }
{
    for node in 0..buckets.len() {
        let bucket = &mut buckets[node];
        bucket.0.clear();
    }
}

// Lets the values of all buckets go, and keeps their room.
fn empty_all_values(packed: &mut [Packed])
    ensures { packed.new ≡ replicate (length packed.old) [] }
{
    for node in 0..packed.len() {
        let values = &mut packed[node];
        values.0.clear();
    }
}
