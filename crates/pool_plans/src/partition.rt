//! The search for a partition: which routes to take, so that each aircraft has one and each activity stands in one.
//!
//! What is to be filled next is the aircraft or activity with the fewest routes left, and each of these is tried,
//! lightest first. A route that is taken rules out all that share its aircraft or an activity. A branch ends where
//! something has no route left, or where the lightest routes left of all aircraft weigh more than there is room for.
//! Sets are bits, so a turn reads a word for every 64 routes at each aircraft or activity that is still to be filled,
//! and the search stops after its turns. The largest set says of each two routes whether they exclude each other: some
//! 1.1 megabytes for 3,000 routes.

ghost use Rattle.std.specs.Prelude.{◌≡◌, length};

use crate::bits::{Bits, has, next_shared, shared};
use crate::candidates::{Candidate, Candidates};
use restricted_master::Pool;
use std::alloc::Global;
use tail_book::Memory;

/// What is searched, and how far the search has come. Aircraft come behind the activities as things to be filled.
#[derive(Drop)]
pub struct Partition {
    activities: usize,
    things: usize,
    routes: Vec<Candidate>,
    room: i64,
    // for each thing the routes that fill it; for each route the things that it fills, and the routes that it rules out
    fillers: Bits,
    fills: Bits,
    rivals: Bits,
    // for each level the routes that are left, and what is filled
    left: Bits,
    filled: Bits,
    levels: Vec<Level>,
}

// A level of the search: what is to be filled, the first route that was not tried, the one that is taken, and what those
// above weigh above the least ones.
#[derive(Clone, Copy)]
struct Level {
    thing: usize,
    next: usize,
    taken: usize,
    spent: i64,
}

impl Partition {
    /// The search among candidates of a pool, for so many activities and aircraft.
    pub fn new(
        alloc: Global,
        pool: &Pool,
        candidates: Candidates,
        activities: usize,
        aircraft: usize,
    ) -> Result<Partition, Memory> {
        let Candidates { routes, room } = candidates;
        let count = routes.len();
        let things = activities.saturating_add(aircraft);
        let levels = aircraft.saturating_add(1);
        let mut partition = Partition {
            activities,
            things,
            routes,
            room,
            fillers: Bits::new(alloc, things, count)?,
            fills: Bits::new(alloc, count, things)?,
            rivals: Bits::new(alloc, count, count)?,
            left: Bits::new(alloc, levels, count)?,
            filled: Bits::new(alloc, levels, things)?,
            levels: Vec::new(alloc),
        };
        partition.note_fillers(pool);
        partition.note_rivals(pool);
        Ok(partition)
    }

    /// Leaves it open who flies these activities, if anybody does.
    pub fn leave_out(&mut self, left_out: &[bool]) {
        for a in 0..left_out.len().min(self.activities) {
            if left_out[a] {
                self.filled.put(0, a);
            }
        }
    }

    // Notes what each route fills.
    fn note_fillers(&mut self, pool: &Pool) {
        for (i, route) in self.routes.iter().enumerate() {
            let owner = self.activities.saturating_add(route.owner as usize);
            self.fillers.put(owner, i);
            self.fills.put(i, owner);
            if route.number < pool.count() {
                for a in pool.route(route.number) {
                    self.fillers.put(*a as usize, i);
                    self.fills.put(i, *a as usize);
                }
            }
            self.left.put(0, i);
        }
    }

    // Notes which routes each one rules out: those that fill something that it fills.
    fn note_rivals(&mut self, pool: &Pool) {
        for (i, route) in self.routes.iter().enumerate() {
            let owner = self.activities.saturating_add(route.owner as usize);
            self.rivals.put_all(i, self.fillers.row(owner));
            if route.number < pool.count() {
                for a in pool.route(route.number) {
                    self.rivals.put_all(i, self.fillers.row(*a as usize));
                }
            }
        }
    }

    // What has the fewest routes left at a level; nothing where all is filled.
    fn fewest(&self, level: usize) -> Option<(usize, u32)> {
        let (left, filled) = (self.left.row(level), self.filled.row(level));
        let mut best: Option<(usize, u32)> = None;
        for thing in 0..self.things {
            if !has(filled, thing) {
                let count = shared(left, self.fillers.row(thing));
                if best.is_none_or(|found| count < found.1) {
                    best = Some((thing, count));
                }
            }
        }
        best
    }

    // What the lightest routes left weigh above the least ones, one for each aircraft that has none yet.
    fn least_left(&self, level: usize) -> i64 {
        let (left, filled) = (self.left.row(level), self.filled.row(level));
        let mut sum = 0i64;
        for thing in self.activities..self.things {
            if !has(filled, thing) {
                if let Some(i) = next_shared(left, self.fillers.row(thing), 0) {
                    sum = sum.saturating_add(self.excess(i));
                }
            }
        }
        sum
    }

    // What a route weighs above the least one.
    fn excess(&self, i: usize) -> i64 {
        self.routes.get(i).map_or(i64::MAX, |route| route.excess)
    }

    // Goes one level down with a route.
    fn take(&mut self, level: usize, i: usize)
        ensures { length self.new.levels.items ≡ length self.old.levels.items }
    {
        let next = level.saturating_add(1);
        self.left.keep_after(next, self.rivals.row(i));
        self.filled.join_after(next, self.fills.row(i));
    }

    // The next route to be tried at a level.
    fn next_route(&mut self, level: usize) -> Option<usize>
        ensures { length self.new.levels.items ≡ length self.old.levels.items }
    {
        let here = self.levels.get(level).copied()?;
        let i = next_shared(
            self.left.row(level),
            self.fillers.row(here.thing),
            here.next,
        )?;
        if let Some(changed) = self.levels.get_mut(level) {
            changed.next = i.saturating_add(1);
            changed.taken = i;
        }
        if here.spent.saturating_add(self.excess(i)) <= self.room {
            Some(i)
        } else {
            None
        }
    }

    /// Searches for so many turns. Answers the numbers in the pool of the routes of a partition, if it finds one.
    pub fn search(&mut self, alloc: Global, turns: u64) -> Result<Option<Vec<usize>>, Memory> {
        self.levels.clear();
        let mut spent = 0i64;
        for _turn in 0..turns {
            let level = self.levels.len();
            match self.fewest(level) {
                None => return Ok(Some(self.taken(alloc)?)),
                Some((thing, count)) if count > 0 && self.fits(level, spent) => {
                    self.levels.push(Level {
                        thing,
                        next: 0,
                        taken: 0,
                        spent,
                    })?;
                }
                Some(_) => {}
            }
            let Some(below) = self.advance() else {
                return Ok(None);
            };
            spent = below;
        }
        Ok(None)
    }

    // Whether there is room for the lightest routes left at a level.
    fn fits(&self, level: usize, spent: i64) -> bool {
        spent.saturating_add(self.least_left(level)) <= self.room
    }

    // Goes back to the last level at which a route is left to be tried, and down with it. Answers what is then spent.
    fn advance(&mut self) -> Option<i64> {
        while let Some(level) = self.levels.len().checked_sub(1) {
            if let Some(i) = self.next_route(level) {
                self.take(level, i);
                let spent = self.levels.get(level).map_or(0, |here| here.spent);
                return Some(spent.saturating_add(self.excess(i)));
            }
            self.levels.pop();
        }
        None
    }

    // The numbers in the pool of the routes that are taken.
    fn taken(&self, alloc: Global) -> Result<Vec<usize>, Memory> {
        let mut numbers = Vec::new(alloc);
        for level in self.levels.iter() {
            if let Some(route) = self.routes.get(level.taken) {
                numbers.push(route.number)?;
            }
        }
        Ok(numbers)
    }
}
