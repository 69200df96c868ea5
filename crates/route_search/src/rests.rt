//! The rests that are kept at each activity, from the last activity back.
//!
//! At an activity come those of each that may follow, with the link before them, and the end where the aircraft may end.
//! Only those are made that are within the cut with the lightest row of the activity. All rests stand in one list, those of one
//! activity together, and the list is used again from search to search.

ghost use Rattle.std.specs.Prelude.{◌≡◌, ◌<◌, length};
ghost use Rattle.tail_book.specs.Lookup.{activities};
ghost use Rattle.route_search.specs.inside.Task.{IsTask};

use crate::followers::followers;
use crate::lightest::lightest;
use crate::rest::{Rest, behind_link, counts, ended, keep};
use crate::step::{added_by, arc_weight};
use crate::task::{Task, every_task_is_sound};
use label_store::Store;
use std::alloc::Global;
use tail_book::{Memory, Place};

/// Where the rests of an activity stand in the list of all: from a place up to another.
#[derive(Clone, Copy, Debug)]
pub struct Span {
    pub from: usize,
    pub to: usize,
}

/// The rests of all activities, and room for those of one.
#[derive(Debug, Drop)]
pub struct Rests {
    pub all: Vec<Rest>,
    spans: Vec<Span>,
    here: Vec<Rest>,
}

const NONE: Span = Span { from: 0, to: 0 };

impl Rests {
    /// No rest yet.
    pub fn new(alloc: Global) -> Rests {
        Rests {
            all: Vec::new(alloc),
            spans: Vec::new(alloc),
            here: Vec::new(alloc),
        }
    }

    /// Where the rests of an activity stand.
    pub fn at(&self, a: u32) -> Span {
        match self.spans.get(a as usize) {
            Some(span) => *span,
            None => NONE,
        }
    }

    // Takes the rests of an activity over the link to it, those that are within the room left before it. A connection costs
    // nothing or more, so the link is asked for only where the lightest of them may be within.
    fn take_over(
        &mut self,
        task: &Task,
        behind: &[Option<i64>],
        x: u32,
        b: u32,
        room: i64,
    ) -> Result<(), Memory>
        requires task { IsTask task.now }
        requires before { x < activities task.now.book.now }
        requires activity { b < activities task.now.book.now }
    {
        let span = self.at(b);
        let least = match behind.get(b as usize) {
            Some(Some(rest)) => added_by(task, b).saturating_add(*rest),
            _ => return Ok(()),
        };
        if span.from >= span.to
            || least > room
            || !task.marks.usable(task.book, task.k, Place::After(x), b)
        {
            return Ok(());
        }
        let arc = arc_weight(task, Place::After(x), b);
        let counts = counts(task, x, b);
        for number in span.from..span.to {
            let Some(rest) = self.all.get(number) else {
                return Ok(());
            };
            if rest.weight.saturating_add(arc) > room {
                continue;
            }
            if let Some(longer) = behind_link(task, &counts, arc, b, number, rest) {
                keep(&mut self.here, longer)?;
            }
        }
        Ok(())
    }

    // Makes the rests of an activity, that are within the room left behind its lightest row.
    fn make_at(
        &mut self,
        task: &Task,
        behind: &[Option<i64>],
        x: u32,
        room: i64,
    ) -> Result<(), Memory>
        requires task { IsTask task.now }
        requires activity { x < activities task.now.book.now }
    {
        self.here.clear();
        if task.marks.may_end(task.book, task.k, Place::After(x)) && room >= 0 {
            self.here.push(ended())?;
        }
        let next = followers(task, x);
        for i in 0..next.len() {
            self.take_over(task, behind, x, next[i], room)?;
        }
        let from = self.all.len();
        self.all.extend_from_slice(&self.here)?;
        let span = Span {
            from,
            to: self.all.len(),
        };
        if let Some(place) = self.spans.get_mut(x as usize) {
            *place = span;
        }
        Ok(())
    }

    /// Makes the rests of all activities that have a row.
    pub fn make(
        &mut self,
        task: &Task,
        behind: &[Option<i64>],
        store: &Store,
        cut: i64,
    ) -> Result<(), Memory>
        requires task { IsTask task.now }
        requires nodes { length store.now.buckets ≡ activities task.now.book.now }
    {
        every_task_is_sound(task);
        let book = task.book;
        let n = book.activities.len();
        self.all.clear();
        self.spans.clear();
        self.spans.resize(n, NONE)?;
        for done in 0..n {
            let x = (n - 1 - done) as u32;
            if store.count(x as usize) > 0 {
                let room = cut.saturating_sub(lightest(store, x));
                self.make_at(task, behind, x, room)?;
            }
        }
        Ok(())
    }
}
