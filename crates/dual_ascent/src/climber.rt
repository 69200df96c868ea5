//! Climbing at a temperature that the caller knows, from where the duals are.
//!
//! No sum is learned and nothing cools: one climb is sweeps over the pool, and where the duals then are is its answer.
//! The table of powers and the room for mixtures stay from one climb to the next, so a climb mostly allocates a copy of
//! the duals.

ghost use Rattle.branch_marks.specs.Settled.{AreDuals};

use crate::ascent::most_of;
use crate::climb::{Limits, climb};
use crate::mixture::Mixture;
use crate::powers::Powers;
use crate::sides::Sides;
use restricted_master::Pool;
use std::alloc::Global;
use tail_book::{Book, CostTable, Duals, Memory};

/// What climbs keep from one to the next: room, and a table of powers.
#[derive(Drop)]
pub struct Climber {
    powers: Powers,
    mixture: Mixture,
    sides: Sides,
    // no dual is larger, with or without its sign
    most: i64,
}

impl Climber {
    /// A climber for duals of a table's book.
    pub fn new(alloc: Global, table: &CostTable) -> Result<Climber, Memory> {
        Ok(Climber {
            powers: Powers::new(alloc)?,
            mixture: Mixture::new(alloc),
            sides: Sides::new(alloc, 0),
            most: most_of(table),
        })
    }

    /// Moves duals to where the sum over a pool is larger at a temperature, each by no more than the radius and within
    /// the box. Temperature and radius are in thousandths of a cost unit.
    pub fn climb(
        &mut self,
        book: &Book,
        table: &CostTable,
        pool: &Pool,
        duals: &mut Duals,
        temperature: i64,
        radius: i64,
    ) -> Result<(), Memory>
        requires duals { AreDuals table.now book.now duals.old.values }
        ensures duals { AreDuals table.now book.now duals.new.values }
    {
        let m = book.tails.len();
        let center = duals.values.clone()?;
        self.mixture.take(
            pool,
            &self.sides,
            duals.values.as_slice(),
            m,
            temperature,
            &self.powers,
        )?;
        let limits = Limits {
            center: center.as_slice(),
            radius,
            most: self.most,
        };
        let _ = climb(
            book,
            table,
            &self.powers,
            &mut self.mixture,
            limits,
            &mut self.sides,
            duals,
            temperature,
        )?;
        Ok(())
    }
}
