//! The numbers of a pool's routes, listed by their hashes.
//!
//! A route comes into its list when the next one is added. Dropping routes changes their numbers, so all lists begin anew.

ghost use Rattle.std.specs.Prelude.{◌≡◌, ◌<◌, length};
ghost use Rattle.restricted_master.specs.Pool.{aircraft_at, route_at};
ghost use Rattle.restricted_master.specs.inside.Hash.{hash_of};

use crate::Pool;
use crate::route_lists::{Numbers, put};
use tail_book::Memory;

/// How many lists there are.
pub const LISTS: usize = 1 << 14;

/// Empties all lists.
pub fn clear_all(lists: &mut Vec<Numbers>)
    ensures { length lists.new.items ≡ length lists.old.items }
{
    for at in 0..lists.len() {
        let numbers = &mut lists[at];
        numbers.0.clear();
    }
}

impl Pool {
    /// The hash of a route of the pool.
    pub(crate) fn hash(&self, i: usize) -> u32
        requires { i < length self.now.entries }
        ensures { result ≡ hash_of (aircraft_at self.now i) (route_at self.now i) }
    {
        self.entries[i].hash
    }

    // Puts the first route that is in no list into that of its hash.
    fn list_next(&mut self) -> Result<(), Memory>
        ensures { self.new ≡ self.old }
    {
        let i = self.listed;
        if i >= self.count() {
            return Ok(());
        }
        let at = self.hash(i) as usize % LISTS;
        put(&mut self.lists, at, i as u32)?;
        self.listed = i + 1;
        Ok(())
    }

    /// Lists the routes that are in no list yet.
    pub(crate) fn list_rest(&mut self) -> Result<(), Memory>
        ensures { self.new ≡ self.old }
    {
        for _entry in self.listed..self.count() {
            self.list_next()?;
        }
        Ok(())
    }
}
