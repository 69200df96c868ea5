//! Labels in buckets: offers by hand, and offers by chance beside a plain list of labels.

use label_store::laws::every_store_is_sound;
use label_store::{Offered, Store};
use std::alloc::Global;
use std::marker::Model;
use std::test::Fail;
use tail_book::Memory;

mod chance;
mod memory;

// A store, with what a test knows of it by itself: how many nodes it has, how wide its rows are, and how many of them it has
// kept by its answers.
#[derive(Drop)]
struct Labels {
    store: Store,
    nodes: usize,
    width: usize,
    kept: usize,
}

impl Model for Labels {
    ghost use Rattle.std.specs.Prelude.{◌≡◌, ◌<◌, length};
    ghost use Rattle.label_store.specs.Seen.{StoreSeen};

    ghost Value = { StoreSeen };

    ghost view = { λ l. l.store };

    ghost invariant = { λ l. (length l.store.buckets ≡ l.nodes) × (l.store.width ≡ l.width) × (length l.store.rows ≡ l.kept) };
}

impl Labels {
    // A store without rows, which have a value at least.
    fn new(alloc: Global, nodes: usize, width: usize) -> Result<Labels, Memory> {
        let width = width.max(1);
        let store = Store::new(alloc, nodes, width)?;
        Ok(Labels {
            store,
            nodes,
            width,
            kept: 0,
        })
    }

    // The answer to an offer, and nothing where the row may not be offered.
    fn offer(
        &mut self,
        node: usize,
        parent: Option<usize>,
        row: &[i64],
    ) -> Result<Option<Offered>, Memory> {
        if node >= self.nodes || row.len() != self.width {
            return Ok(None);
        }
        if let Some(j) = parent {
            if j >= self.kept {
                return Ok(None);
            }
        }
        every_store_is_sound(&self.store);
        let told = self.store.offer(node, parent, row)?;
        if let Offered::Kept(i) = told {
            self.kept = i + 1;
        }
        Ok(Some(told))
    }

    // Whether the bucket of a node has just these numbers, in this order.
    fn has_bucket(&self, node: usize, numbers: &[usize]) -> bool {
        if node >= self.nodes || self.store.count(node) != numbers.len() {
            return false;
        }
        for i in 0..numbers.len() {
            if self.store.at(node, i) != numbers[i] {
                return false;
            }
        }
        true
    }

    // Whether a kept row came from this node and parent, and has these values.
    fn has_row(&self, i: usize, node: usize, parent: Option<usize>, row: &[i64]) -> bool {
        i < self.kept
            && self.store.node(i) == node
            && self.store.parent(i) == parent
            && self.store.row(i) == row
    }

    fn clear(&mut self) {
        self.store.clear();
        self.kept = 0;
    }
}

// What is done with a store, and what it then answers or has.
#[derive(Clone, Copy)]
enum Step {
    // To a node a row is offered that came from another row: the answer.
    Offer(usize, Option<usize>, &'static [i64], Offered),
    // The bucket of a node has these numbers.
    Bucket(usize, &'static [usize]),
    // A row came to this node from this parent, with these values.
    Row(usize, usize, Option<usize>, &'static [i64]),
    Clear,
}

fn goes_so(labels: &mut Labels, step: Step) -> Result<bool, Memory> {
    match step {
        Step::Offer(node, parent, row, told) => Ok(labels.offer(node, parent, row)? == Some(told)),
        Step::Bucket(node, numbers) => Ok(labels.has_bucket(node, numbers)),
        Step::Row(i, node, parent, row) => Ok(labels.has_row(i, node, parent, row)),
        Step::Clear => {
            labels.clear();
            Ok(true)
        }
    }
}

// The number of the first step that goes otherwise.
fn first_wrong(labels: &mut Labels, steps: &[Step]) -> Result<Option<usize>, Memory> {
    for (number, step) in steps.iter().enumerate() {
        if !goes_so(labels, *step)? {
            return Ok(Some(number));
        }
    }
    Ok(None)
}

// What a store is asked for, how many nodes it has, how many values are in a row, and the steps.
type Case = (&'static str, usize, usize, &'static [Step]);

fn first_wrong_of(alloc: Global, case: &Case) -> Result<Option<usize>, Memory> {
    let &(_, nodes, width, steps) = case;
    let mut labels = Labels::new(alloc, nodes, width)?;
    first_wrong(&mut labels, steps)
}

// What an equal row, a dearer one, one that is better in all, and one that is better in one value alone get, and the
// numbers in the bucket afterwards.
const ONE_BUCKET: &[Step] = &[
    Step::Offer(0, None, &[5, 1], Offered::Kept(0)),
    Step::Bucket(0, &[0]),
    Step::Offer(0, None, &[5, 1], Offered::Covered(0)),
    Step::Bucket(0, &[0]),
    Step::Offer(0, None, &[4, 2], Offered::Kept(1)),
    Step::Bucket(0, &[0, 1]),
    Step::Offer(0, None, &[4, 3], Offered::Covered(1)),
    Step::Bucket(0, &[0, 1]),
    Step::Offer(0, None, &[3, 1], Offered::Kept(2)),
    Step::Bucket(0, &[2]),
    Step::Offer(0, None, &[-3, 9], Offered::Kept(3)),
    Step::Bucket(0, &[2, 3]),
    Step::Offer(0, None, &[3, 0], Offered::Kept(4)),
    Step::Bucket(0, &[3, 4]),
];

// Two nodes: rows of one cover nothing at the other. A row that left its bucket is a parent still.
const TWO_NODES: &[Step] = &[
    Step::Offer(0, None, &[7], Offered::Kept(0)),
    Step::Offer(1, Some(0), &[9], Offered::Kept(1)),
    Step::Offer(0, None, &[6], Offered::Kept(2)),
    Step::Offer(1, Some(0), &[8], Offered::Kept(3)),
    Step::Offer(1, Some(2), &[8], Offered::Covered(3)),
    Step::Bucket(0, &[2]),
    Step::Bucket(1, &[3]),
    Step::Row(0, 0, None, &[7]),
    Step::Row(1, 1, Some(0), &[9]),
    Step::Row(2, 0, None, &[6]),
    Step::Row(3, 1, Some(0), &[8]),
];

// Three rows are kept and let go. Afterwards rows are numbered from 0 again.
const CLEARED: &[Step] = &[
    Step::Offer(1, None, &[4], Offered::Kept(0)),
    Step::Offer(0, None, &[3], Offered::Kept(1)),
    Step::Offer(1, None, &[2], Offered::Kept(2)),
    Step::Clear,
    Step::Bucket(0, &[]),
    Step::Bucket(1, &[]),
    Step::Offer(1, None, &[4], Offered::Kept(0)),
    Step::Offer(0, None, &[3], Offered::Kept(1)),
    Step::Offer(1, None, &[2], Offered::Kept(2)),
    Step::Clear,
    Step::Bucket(0, &[]),
    Step::Bucket(1, &[]),
    Step::Offer(1, None, &[4], Offered::Kept(0)),
    Step::Offer(0, None, &[3], Offered::Kept(1)),
    Step::Offer(1, None, &[2], Offered::Kept(2)),
    Step::Clear,
    Step::Bucket(0, &[]),
    Step::Bucket(1, &[]),
    Step::Offer(0, None, &[3], Offered::Kept(0)),
];

const CASES: &[Case] = &[
    ("one bucket", 1, 2, ONE_BUCKET),
    ("two nodes", 2, 1, TWO_NODES),
    ("a store is cleared", 2, 1, CLEARED),
];

#[test]
fn offers_by_hand(rt: HostRuntime) -> Result<(), Fail> {
    for case in CASES {
        let wrong = first_wrong_of(rt.alloc(), case)?;
        assert!(rt; wrong.is_none(), "{}, step {wrong:?}", case.0);
    }
    Ok(())
}
