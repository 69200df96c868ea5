//! The least route of an aircraft within a cut.
//!
//! Rows are made in order of activity, as pricing makes them, and of two at one activity the one that is no larger in weight
//! and counters stands for the other. But a row is made only where its weight and the least that can come behind it,
//! counters aside, are within the limit: the cut at first, and then the least end so far and the slack. What is left
//! out is past the limit, whatever completes it, so the least end is the least weight, if that is within the cut. The buckets
//! are no closed family: a leaf of a search tree wants `price`.
//! One pass over the links back and one forth, and as many tries of rows as the limit leaves: with a cut near the least
//! weight a few for each activity. A wary search, whose cut may be far out, looks nearer first, a few times: the least route
//! within a nearer cut is the least within the cut.

ghost use Rattle.std.specs.Prelude.{◌≡◌, ◌<◌, ◌≤ℤ◌, ◌+◌, length, IfOk, IfSome};
ghost use Rattle.tail_book.specs.Lookup.{activities, aircraft};
ghost use Rattle.tail_book.specs.CostTable.{IsTableFor};
ghost use Rattle.connection_net.specs.Net.{net_of};
ghost use Rattle.branch_marks.specs.inside.MarkTables.{AreMarksOf};
ghost use Rattle.branch_marks.specs.Settled.{AreDuals};
ghost use Rattle.pricing.specs.inside.WeightRange.{IsBroad};
ghost use Rattle.route_search.specs.LeastWithin.{IsFoundWithin};
ghost use Rattle.route_search.specs.Search.{IsSearchOf};
ghost use Rattle.route_search.specs.inside.Laws.{IsClamped};
ghost use Rattle.label_store.specs.inside.Growth.{IsAsWide};
ghost use Rattle.route_search.specs.inside.ForTask.{AreBehindFor, AreDoneFor, AreEndsFor, AreTrueFor, IsFoundWithinFor};
ghost use Rattle.route_search.specs.inside.Task.{IsTask};

use crate::added::add_up;
use crate::completion::{complete, relaxed};
use crate::end::{Ends, first_ends, with_ends_at};
use crate::reach::{begin, go_on};
use crate::rests::Rests;
use crate::task::{Task, every_task_is_sound};
use crate::{LeastWithin, Suggestions, laws};
use branch_marks::Marks;
use connection_net::Net;
use label_store::Store;
use label_store::laws::every_store_is_sound;
use maint_counters::StepTable;
use pricing::spelled;
use std::alloc::Global;
use tail_book::laws::every_book_is_sound;
use tail_book::{Book, CostTable, Duals, Memory};

/// What searches of one book keep from one to the next: its steps, and room.
#[derive(Drop)]
pub struct RouteSearch {
    pub steps: StepTable,
    /// What each activity costs the aircraft less its dual, and the least weight that can come behind it: both in
    /// thousandths of a cost unit.
    pub added: Vec<i64>,
    pub behind: Vec<Option<i64>>,
    /// The row that is tried.
    pub row: Vec<i64>,
    pub store: Store,
    /// Rests of routes, for suggestions.
    pub rests: Rests,
    /// Whether cuts may be far out, so that a search looks further only step by step.
    pub is_wary: bool,
}

// A search that goes step by step looks so often before it looks as far as its cut.
const LOOKS: u32 = 12;

// The first look goes so far in thousandths of a cost unit, or by the slack where that is more, and each other one so many times
// as far as the one before.
const FIRST_LOOK: i64 = 50_000;

const FURTHER: i64 = 4;

// As far from 0 as a cut can be of use: each weight lies within half of it.
const FARTHEST: i64 = 1 << 62;

// The cut, or the nearer end of what lies within 2^62 of 0.
fn clamped(cut: i64) -> i64
    ensures { IsClamped cut result }
{
    cut.max(-FARTHEST).min(FARTHEST)
}

// Makes all rows as far as the limit, and gives the least end.
fn search_rows(
    task: &Task,
    behind: &[Option<i64>],
    cut: i64,
    slack: u32,
    row: &mut [i64],
    store: &mut Store,
) -> Result<Ends, Memory>
    requires task { IsTask task.now }
    requires behind { AreBehindFor task.now behind.now }
    requires cut { IsBroad cut }
    requires nodes { length store.old.buckets ≡ activities task.now.book.now }
    requires width { length row.old ≡ 1 + length task.now.book.now.rules.counters }
    requires same_width { store.old.width ≡ length row.old }
    requires truths { AreTrueFor task.now store.old }
    ensures truths { IfOk result (λ _. AreTrueFor task.now store.new) }
    ensures done { IfOk result (λ ends. AreDoneFor task.now ends.limit store.new (activities task.now.book.now)) }
    ensures ends { IfOk result (AreEndsFor task.now store.new cut (activities task.now.book.now)) }
    ensures wide { IsAsWide store.old store.new }
    ensures length { length row.new ≡ length row.old }
{
    every_task_is_sound(task);
    every_store_is_sound(store);
    let book = task.book;
    let mut ends = first_ends(task, store, cut, slack);
    begin(task, behind, ends.limit, row, store)?;
    for x in 0..book.activities.len() as u32 {
        every_store_is_sound(store);
        ends = with_ends_at(task, store, x, ends, slack);
        go_on(task, behind, x, ends.limit, row, store)?;
    }
    Ok(ends)
}

// The least route within a cut that is not too far out, from an empty store.
fn found(
    alloc: Global,
    task: &Task,
    behind: &[Option<i64>],
    cut: i64,
    slack: u32,
    row: &mut [i64],
    store: &mut Store,
) -> Result<LeastWithin, Memory>
    requires task { IsTask task.now }
    requires behind { AreBehindFor task.now behind.now }
    requires cut { IsBroad cut }
    requires nodes { length store.old.buckets ≡ activities task.now.book.now }
    requires width { length row.old ≡ 1 + length task.now.book.now.rules.counters }
    requires same_width { store.old.width ≡ length row.old }
    ensures found { IfOk result (IsFoundWithinFor task.now cut) }
    ensures wide { IsAsWide store.old store.new }
    ensures length { length row.new ≡ length row.old }
{
    every_task_is_sound(task);
    laws::done_buckets_are_exact();
    store.clear();
    let ends = search_rows(task, behind, cut, slack, row, store)?;
    every_store_is_sound(store);
    let Some(end) = ends.best else {
        return Ok(LeastWithin::NoneWithin);
    };
    let route = spelled(alloc, store, end.row)?;
    Ok(LeastWithin::Best {
        value: end.value,
        route,
    })
}

// How far out routes are that are heavier than one of this weight by the slack and less, where that is no further than the cut.
fn with_slack(value: i64, slack: u32, cut: i64) -> i64
    requires { value ≤ℤ cut }
    ensures least { value ≤ℤ result }
    ensures most { result ≤ℤ cut }
{
    value.saturating_add(i64::from(slack)).min(cut)
}

// The least route, if it is within a nearer cut. Where routes that are heavier by the slack and less may lie beyond that, they
// are looked for too.
fn found_nearer(
    alloc: Global,
    task: &Task,
    behind: &[Option<i64>],
    near: i64,
    cut: i64,
    slack: u32,
    row: &mut [i64],
    store: &mut Store,
) -> Result<Option<LeastWithin>, Memory>
    requires task { IsTask task.now }
    requires behind { AreBehindFor task.now behind.now }
    requires near { IsBroad near }
    requires cut { IsBroad cut }
    requires nearer { near ≤ℤ cut }
    requires nodes { length store.old.buckets ≡ activities task.now.book.now }
    requires width { length row.old ≡ 1 + length task.now.book.now.rules.counters }
    requires same_width { store.old.width ≡ length row.old }
    ensures found { IfOk result (λ found. IfSome found (IsFoundWithinFor task.now cut)) }
    ensures wide { IsAsWide store.old store.new }
    ensures length { length row.new ≡ length row.old }
{
    let looked = found(alloc, task, behind, near, slack, row, store)?;
    let LeastWithin::Best { value, route } = looked else {
        return Ok(None);
    };
    let far = with_slack(value, slack, cut);
    if far <= near {
        return Ok(Some(LeastWithin::Best { value, route }));
    }
    let found = found(alloc, task, behind, far, slack, row, store)?;
    Ok(Some(found))
}

// The least route, if one of a few looks finds it. They go on from the least weight of any route, counters aside, each further
// than the one before.
fn found_early(
    alloc: Global,
    task: &Task,
    behind: &[Option<i64>],
    cut: i64,
    slack: u32,
    row: &mut [i64],
    store: &mut Store,
) -> Result<Option<LeastWithin>, Memory>
    requires task { IsTask task.now }
    requires behind { AreBehindFor task.now behind.now }
    requires cut { IsBroad cut }
    requires nodes { length store.old.buckets ≡ activities task.now.book.now }
    requires width { length row.old ≡ 1 + length task.now.book.now.rules.counters }
    requires same_width { store.old.width ≡ length row.old }
    ensures found { IfOk result (λ found. IfSome found (IsFoundWithinFor task.now cut)) }
    ensures wide { IsAsWide store.old store.new }
    ensures length { length row.new ≡ length row.old }
{
    let Some(least) = relaxed(task, behind) else {
        return Ok(None);
    };
    let slack_wide = i64::from(slack);
    let mut more = slack_wide.max(FIRST_LOOK);
    for _look in 0..LOOKS {
        let near = clamped(least.saturating_add(more).saturating_add(slack_wide));
        if near >= cut {
            return Ok(None);
        }
        if let Some(found) = found_nearer(alloc, task, behind, near, cut, slack, row, store)? {
            return Ok(Some(found));
        }
        more = more.saturating_mul(FURTHER);
    }
    Ok(None)
}

// The least route within a cut that may be too far out: what a look finds on the way there, if one does.
fn found_step_by_step(
    alloc: Global,
    task: &Task,
    behind: &[Option<i64>],
    cut: i64,
    slack: u32,
    row: &mut [i64],
    store: &mut Store,
) -> Result<LeastWithin, Memory>
    requires task { IsTask task.now }
    requires behind { AreBehindFor task.now behind.now }
    requires cut { IsBroad cut }
    requires nodes { length store.old.buckets ≡ activities task.now.book.now }
    requires width { length row.old ≡ 1 + length task.now.book.now.rules.counters }
    requires same_width { store.old.width ≡ length row.old }
    ensures found { IfOk result (IsFoundWithinFor task.now cut) }
    ensures wide { IsAsWide store.old store.new }
    ensures length { length row.new ≡ length row.old }
{
    if let Some(found) = found_early(alloc, task, behind, cut, slack, row, store)? {
        return Ok(found);
    }
    found(alloc, task, behind, cut, slack, row, store)
}

// The least route within a cut, step by step where that may be too far out.
fn found_within(
    alloc: Global,
    task: &Task,
    behind: &[Option<i64>],
    is_wary: bool,
    cut: i64,
    slack: u32,
    row: &mut [i64],
    store: &mut Store,
) -> Result<LeastWithin, Memory>
    requires task { IsTask task.now }
    requires behind { AreBehindFor task.now behind.now }
    requires cut { IsBroad cut }
    requires nodes { length store.old.buckets ≡ activities task.now.book.now }
    requires width { length row.old ≡ 1 + length task.now.book.now.rules.counters }
    requires same_width { store.old.width ≡ length row.old }
    ensures found { IfOk result (IsFoundWithinFor task.now cut) }
    ensures wide { IsAsWide store.old store.new }
    ensures length { length row.new ≡ length row.old }
{
    if is_wary {
        return found_step_by_step(alloc, task, behind, cut, slack, row, store);
    }
    found(alloc, task, behind, cut, slack, row, store)
}

impl RouteSearch {
    /// What searches of a book keep.
    pub fn new(alloc: Global, book: &Book) -> Result<RouteSearch, Memory>
        ensures { IfOk result (IsSearchOf book.now) }
    {
        every_book_is_sound(book);
        let (n, width) = (book.activities.len(), 1 + book.rules.counters.len());
        let steps = StepTable::of(alloc, book)?;
        let added = vec![in alloc; 0i64; n]?;
        let behind = vec![in alloc; None; n]?;
        let row = vec![in alloc; 0i64; width]?;
        let store = Store::new(alloc, n, width)?;
        let rests = Rests::new(alloc);
        Ok(RouteSearch {
            steps,
            added,
            behind,
            row,
            store,
            rests,
            is_wary: false,
        })
    }

    /// The least route of an aircraft, if it weighs no more than the cut: in thousandths of a cost unit. Routes that are heavier
    /// than the least one by the slack and less are looked for too, for those who want suggestions from the rows.
    pub fn least_route(
        &mut self,
        book: &Book,
        table: &CostTable,
        net: &Net,
        marks: &Marks,
        duals: &Duals,
        k: u32,
        cut: i64,
        slack: u32,
    ) -> Result<LeastWithin, Memory>
        requires search { IsSearchOf book.now self.old }
        requires table { IsTableFor book.now table.now }
        requires net { net.now ≡ net_of book.now }
        requires marks { AreMarksOf book.now marks.now }
        requires duals { AreDuals table.now book.now duals.now.values }
        requires aircraft { k < aircraft book.now }
        ensures found { IfOk result (IsFoundWithin table.now book.now marks.now.facts k duals.now.values cut) }
        ensures search { IsSearchOf book.now self.new }
    {
        every_book_is_sound(book);
        laws::clamped_cuts_find_the_same();
        let alloc = *self.added.allocator();
        add_up(book, table, duals, k, &mut self.added);
        let task = Task {
            book,
            table,
            net,
            steps: &self.steps,
            marks,
            duals,
            added: &self.added,
            k,
        };
        every_task_is_sound(&task);
        complete(&task, &mut self.behind);
        let near = clamped(cut);
        let found = found_within(
            alloc,
            &task,
            &self.behind,
            self.is_wary,
            near,
            slack,
            &mut self.row,
            &mut self.store,
        )?;
        Ok(found)
    }

    /// Suggests routes for a pool: the best through each activity that is within the cut, as far as the rows of the last search
    /// and a few rests of routes tell. They are to be judged. The last search has to be one of this aircraft under these
    /// marks and duals, or nothing of use is suggested.
    pub fn suggest(
        &mut self,
        book: &Book,
        table: &CostTable,
        net: &Net,
        marks: &Marks,
        duals: &Duals,
        k: u32,
        cut: i64,
        into: &mut Suggestions,
    ) -> Result<(), Memory>
        requires search { IsSearchOf book.now self.old }
        requires table { IsTableFor book.now table.now }
        requires net { net.now ≡ net_of book.now }
        requires marks { AreMarksOf book.now marks.now }
        requires duals { AreDuals table.now book.now duals.now.values }
        requires aircraft { k < aircraft book.now }
        ensures search { IsSearchOf book.now self.new }
    {
        every_book_is_sound(book);
        add_up(book, table, duals, k, &mut self.added);
        let task = Task {
            book,
            table,
            net,
            steps: &self.steps,
            marks,
            duals,
            added: &self.added,
            k,
        };
        self.rests.make(&task, &self.behind, &self.store, cut)?;
        into.write(&self.store, &self.rests, book.activities.len(), cut)
    }
}
