//! Lists of the events of a node, made before they are told: its steps, the duals of a bound, and the labels of a priced store.

ghost use Rattle.std.specs.Prelude.{◌≡◌, ◌∷◌, ◌<◌, ◌≤◌, ◌^◌, [], length, map, All, OnOk};
ghost use Rattle.branch_marks.specs.Events.{IsNotable, IsLineFact, IsLineValue, IsLineLabel};
ghost use Rattle.label_store.specs.Store.{bucket_of};
ghost use Rattle.pricing.specs.Rows.{weight_of, counters_of, label_of, labels_of};
ghost use Rattle.branch_marks.specs.TreeEvents.{dual_event, dual_events, label_events};
ghost use Rattle.node_leaves.specs.NodeEvents.{step_events};
ghost use Rattle.node_leaves.specs.inside.EventLists.{row_label, Lists, AreSpelledLabels};

use branch_marks::{Event, Fact, Row};
use label_store::Store;
use label_store::laws::every_store_is_sound;
use tail_book::Memory;

/// Puts an event at the end of a list.
pub fn list_one(events: &mut Vec<Event>, event: Event) -> Result<(), Memory>
    requires list { All IsNotable events.old.items }
    requires event { IsNotable event }
    ensures { OnOk result (Lists events.old.items events.new.items (event ∷ [])) }
{
    events.push(event)?;
    Ok(())
}

/// Puts steps at the end of a list.
pub fn list_steps(events: &mut Vec<Event>, steps: &[Fact]) -> Result<(), Memory>
    requires list { All IsNotable events.old.items }
    requires steps { All IsLineFact steps.now }
    ensures { OnOk result (Lists events.old.items events.new.items (step_events steps.now)) }
{
    for i in 0..steps.len() {
        list_one(events, Event::Fact(steps[i]))?;
    }
    Ok(())
}

/// Puts the duals that are not 0 at the end of a list.
pub fn list_duals(events: &mut Vec<Event>, duals: &[i64]) -> Result<(), Memory>
    requires list { All IsNotable events.old.items }
    requires count { length duals.now ≤ 2 ^ 32 }
    requires values { All IsLineValue duals.now }
    ensures { OnOk result (Lists events.old.items events.new.items (dual_events 0 duals.now)) }
{
    for i in 0..duals.len() {
        list_dual(events, i as u32, &duals[i])?;
    }
    Ok(())
}

// Puts the dual of an activity at the end of a list, unless it is 0.
fn list_dual(events: &mut Vec<Event>, a: u32, dual: &i64) -> Result<(), Memory>
    requires list { All IsNotable events.old.items }
    requires value { IsLineValue dual.now }
    ensures { OnOk result (Lists events.old.items events.new.items (dual_event a dual.now)) }
{
    if *dual == 0 {
        return Ok(());
    }
    list_one(events, Event::Dual(a, *dual))
}

// Puts the label of a row at the end of a list.
fn list_label(events: &mut Vec<Event>, at: u32, row: &[i64]) -> Result<(), Memory>
    requires list { All IsNotable events.old.items }
    requires some { 1 ≤ length row.now }
    requires label { IsLineLabel at (weight_of row.now) (counters_of row.now) }
    ensures { OnOk result (Lists events.old.items events.new.items (label_events (row_label at row.now ∷ []))) }
{
    let event = Event::Label {
        at,
        weight: row[0],
        counters: Row::new(&row[1..]),
    };
    list_one(events, event)
}

// Puts the label of a kept row at the end of a list.
fn list_row(events: &mut Vec<Event>, store: &Store, j: usize) -> Result<(), Memory>
    requires list { All IsNotable events.old.items }
    requires row { j < length store.now.rows }
    requires labels { AreSpelledLabels store.now }
    ensures { OnOk result (Lists events.old.items events.new.items (label_events (label_of store.now j ∷ []))) }
{
    every_store_is_sound(store);
    list_label(events, store.node(j) as u32, store.row(j))
}

// Puts the labels of a bucket at the end of a list.
fn list_bucket(events: &mut Vec<Event>, store: &Store, a: usize) -> Result<(), Memory>
    requires list { All IsNotable events.old.items }
    requires node { a < length store.now.buckets }
    requires labels { AreSpelledLabels store.now }
    ensures { OnOk result (Lists events.old.items events.new.items (label_events (map (label_of store.now) (bucket_of store.now a)))) }
{
    for i in 0..store.count(a) {
        list_row(events, store, store.at(a, i))?;
    }
    Ok(())
}

/// Puts the labels of a priced store, of so many nodes, at the end of a list, in order of activity.
pub fn list_labels(events: &mut Vec<Event>, store: &Store, nodes: usize) -> Result<(), Memory>
    requires list { All IsNotable events.old.items }
    requires nodes { length store.now.buckets ≡ nodes }
    requires labels { AreSpelledLabels store.now }
    ensures { OnOk result (Lists events.old.items events.new.items (label_events (labels_of store.now))) }
{
    for a in 0..nodes {
        list_bucket(events, store, a)?;
    }
    Ok(())
}
