//! Crowds: activities of which no aircraft can fly two, and more of them than there are aircraft that come to any.
//!
//! Routes that fly all activities of a group of aircraft make a matching: each activity has the one before it among them, or is
//! the first of them that an aircraft flies. Where there is no matching, a search reaches activities that are one more than all
//! that may stand before them and all aircraft that come to them. Those of them that may stand before no other one are a crowd.

use crate::bit_rows::BitRows;
use crate::groups::Groups;
use crate::matching::Matching;
use crate::suspects::{Suspect, smaller};
use std::alloc::Global;
use tail_book::Memory;

// After so many activities without a giver no more are tried.
const TRIED: usize = 20;

// Behind the group by which so many activities were looked at, each once for each group, no more groups are.
const MOST_TAKERS: usize = 300_000;

// How many aircraft the last search saw.
fn aircraft_seen(matching: &Matching, n: u32, m: u32) -> usize {
    let mut count = 0usize;
    for k in 0..m {
        if matching.has_seen(n.saturating_add(k)) {
            count = count.saturating_add(1);
        }
    }
    count
}

// What the last search showed: the activities that it reached, but for those that may stand before others. One more than there
// are aircraft is enough.
fn suspect_of(alloc: Global, matching: &Matching, n: u32, m: u32) -> Result<Suspect, Memory> {
    let mut asked = Vec::new(alloc);
    for a in matching.reached()? {
        if !matching.has_seen(a) {
            asked.push(a)?;
        }
    }
    asked.truncate(aircraft_seen(matching, n, m).saturating_add(1));
    Ok(Suspect {
        asked,
        brought: Vec::new(alloc),
    })
}

// A crowd among what is given, if there is one: the smallest that was found.
fn crowd_among(
    alloc: Global,
    chains: &BitRows,
    given: &BitRows,
    n: u32,
    m: u32,
) -> Result<Option<Suspect>, Memory> {
    let bits = given.copy_of_row(alloc, 0)?;
    let mut matching = Matching::new(alloc, n as usize, n.saturating_add(m) as usize, &bits)?;
    let (mut least, mut tried) = (None, 0);
    for b in 0..n {
        if tried < TRIED && given.has(0, b as usize) && !matching.give(chains, b)? {
            tried += 1;
            least = smaller(least, suspect_of(alloc, &matching, n, m)?);
        }
    }
    Ok(least)
}

// Gives the activities that a group alone may fly, and tells how many they are.
fn give_flown(given: &mut BitRows, carriers: &BitRows, groups: &Groups, g: usize, n: u32) -> usize {
    let mut count = 0usize;
    for a in 0..n {
        if groups.alone_fly(g, carriers, a as usize) {
            given.put(0, a as usize);
            count = count.saturating_add(1);
        }
    }
    count
}

// Gives the aircraft of a group.
fn give_aircraft(given: &mut BitRows, groups: &Groups, g: usize, n: u32, m: u32) {
    for k in 0..m {
        if groups.has(g, k as usize) {
            given.put(0, n.saturating_add(k) as usize);
        }
    }
}

/// A crowd of activities that a group of aircraft alone may fly, if there is one: the smallest that was found within a limit of
/// work.
pub fn crowd_suspect(
    alloc: Global,
    chains: &BitRows,
    carriers: &BitRows,
    groups: &Groups,
    n: u32,
    m: u32,
) -> Result<Option<Suspect>, Memory> {
    let mut given = BitRows::new(alloc, 1, n.saturating_add(m) as usize)?;
    let (mut least, mut work) = (None, 0usize);
    for g in 0..groups.count() {
        if work < MOST_TAKERS {
            given.clear();
            work = work.saturating_add(give_flown(&mut given, carriers, groups, g, n));
            give_aircraft(&mut given, groups, g, n, m);
            if let Some(suspect) = crowd_among(alloc, chains, &given, n, m)? {
                least = smaller(least, suspect);
            }
        }
    }
    Ok(least)
}
