//! Offers by chance: the store holds what a plain list of labels holds that looks at all of them.

use super::Labels;
use dice::Dice;
use label_store::Offered;
use std::alloc::Global;
use std::test::Fail;
use tail_book::Memory;

#[derive(Clone, Copy)]
struct Label {
    node: usize,
    parent: Option<usize>,
    row: [i64; 3],
    stays: bool,
}

fn is_below(one: &[i64; 3], other: &[i64; 3]) -> bool {
    one[0] <= other[0] && one[1] <= other[1] && one[2] <= other[2]
}

// Whether a label covers one at its node.
fn covers(label: &Label, other: &Label) -> bool {
    label.stays && label.node == other.node && is_below(&label.row, &other.row)
}

// Whether the answer to an offer is one that the labels before it allow.
fn allows(labels: &[Label], label: &Label, told: Offered) -> bool {
    match told {
        Offered::Covered(j) => j < labels.len() && covers(&labels[j], label),
        Offered::Kept(i) => i == labels.len() && !labels.iter().any(|other| covers(other, label)),
    }
}

// Adds a label that is kept. Those that it covers stay no longer.
fn keep(labels: &mut Vec<Label>, label: Label) -> Result<(), Memory> {
    for other in labels.iter_mut() {
        if other.node == label.node && is_below(&label.row, &other.row) {
            other.stays = false;
        }
    }
    labels.push(label)?;
    Ok(())
}

// The numbers of the labels that stay at a node, in order.
fn numbers_at(alloc: Global, labels: &[Label], node: usize) -> Result<Vec<usize>, Memory> {
    let mut numbers = Vec::new(alloc);
    for (number, label) in labels.iter().enumerate() {
        if label.stays && label.node == node {
            numbers.push(number)?;
        }
    }
    Ok(numbers)
}

// Whether a store has exactly these labels.
fn has_rows(store: &Labels, labels: &[Label]) -> bool {
    for (i, label) in labels.iter().enumerate() {
        if !store.has_row(i, label.node, label.parent, label.row.as_slice()) {
            return false;
        }
    }
    store.kept == labels.len()
}

// The same, and exactly those that stay in its buckets.
fn holds(alloc: Global, store: &Labels, labels: &[Label]) -> Result<bool, Memory> {
    for node in 0..3 {
        let numbers = numbers_at(alloc, labels, node)?;
        if !store.has_bucket(node, &numbers) {
            return Ok(false);
        }
    }
    Ok(has_rows(store, labels))
}

// A label of chance, behind those that are kept.
fn a_label(dice: &mut Dice, labels: &[Label]) -> Label {
    let count = labels.len().min(1000) as u32;
    let parent = if count > 0 && dice.below(3) > 0 {
        Some(dice.below(count) as usize)
    } else {
        None
    };
    let row = [
        dice.below(15) as i64 - 7,
        dice.below(7) as i64,
        dice.below(7) as i64,
    ];
    Label {
        node: dice.below(3) as usize,
        parent,
        row,
        stays: true,
    }
}

// Where memory is wanting, nothing has changed, and the same offer is made again. Nothing where it has.
fn offered_again(
    alloc: Global,
    store: &mut Labels,
    labels: &[Label],
    label: &Label,
) -> Result<Option<Offered>, Memory> {
    if let Ok(told) = store.offer(label.node, label.parent, label.row.as_slice()) {
        return Ok(told);
    }
    if !holds(alloc, store, labels)? {
        return Ok(None);
    }
    store.offer(label.node, label.parent, label.row.as_slice())
}

// Whether the answer to an offer is right, and the store then holds the labels.
fn is_taken(
    alloc: Global,
    store: &mut Labels,
    labels: &mut Vec<Label>,
    label: Label,
) -> Result<bool, Memory> {
    let Some(told) = offered_again(alloc, store, labels, &label)? else {
        return Ok(false);
    };
    if !allows(labels, &label, told) {
        return Ok(false);
    }
    if let Offered::Kept(_) = told {
        keep(labels, label)?;
    }
    holds(alloc, store, labels)
}

// The number of the first of so many offers that goes wrong.
fn first_wrong(
    alloc: Global,
    store: &mut Labels,
    labels: &mut Vec<Label>,
    seed: u64,
    offers: u32,
) -> Result<Option<u32>, Memory> {
    let mut dice = Dice::new(seed);
    for number in 0..offers {
        let label = a_label(&mut dice, labels);
        if !is_taken(alloc, store, labels, label)? {
            return Ok(Some(number));
        }
    }
    Ok(None)
}

// The same in a store of its own, of three nodes and rows of three values.
pub fn first_wrong_of(alloc: Global, seed: u64, offers: u32) -> Result<Option<u32>, Memory> {
    let mut store = Labels::new(alloc, 3, 3)?;
    let mut labels = Vec::new(alloc);
    first_wrong(alloc, &mut store, &mut labels, seed, offers)
}

// What was seen of all seeds: how many labels were kept, and how many left their bucket.
#[derive(Debug, Drop)]
struct Seen {
    kept: usize,
    left: usize,
}

impl Seen {
    fn note(&mut self, labels: &[Label]) {
        let gone = labels.iter().filter(|label| !label.stays).count();
        self.kept = self.kept.saturating_add(labels.len());
        self.left = self.left.saturating_add(gone);
    }

    fn is_varied(&self) -> bool {
        self.kept > 200 && self.kept < 1800 && self.left > 50
    }
}

// The first of 100 offers of a seed that goes wrong in a store without rows, which is cleared at the end.
fn wrong_of(
    alloc: Global,
    store: &mut Labels,
    seed: u64,
    seen: &mut Seen,
) -> Result<Option<u32>, Memory> {
    let mut labels = Vec::with_capacity(alloc, 1000)?;
    let wrong = first_wrong(alloc, store, &mut labels, seed, 100)?;
    seen.note(&labels);
    store.clear();
    Ok(wrong)
}

// The first seed of 20, and its first offer, that goes wrong in the same store, cleared for each.
fn wrong_in(
    alloc: Global,
    store: &mut Labels,
    seen: &mut Seen,
) -> Result<Option<(u64, u32)>, Memory> {
    for seed in 0..20u64 {
        if let Some(offer) = wrong_of(alloc, store, seed, seen)? {
            return Ok(Some((seed, offer)));
        }
    }
    Ok(None)
}

// The same in a store of three nodes and rows of three values.
fn wrong_of_all(alloc: Global, seen: &mut Seen) -> Result<Option<(u64, u32)>, Memory> {
    let mut store = Labels::new(alloc, 3, 3)?;
    wrong_in(alloc, &mut store, seen)
}

// Some of 2,000 rows are covered, and many leave.
#[test]
fn as_a_plain_list_of_labels(rt: HostRuntime) -> Result<(), Fail> {
    let mut seen = Seen { kept: 0, left: 0 };
    let wrong = wrong_of_all(rt.alloc(), &mut seen)?;
    assert!(rt; wrong.is_none(), "seed and offer {wrong:?}");
    assert!(rt; seen.is_varied(), "{seen:?}");
    Ok(())
}
