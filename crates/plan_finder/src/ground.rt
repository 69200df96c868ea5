//! What neighbourhoods of a plan are planned on: the marks, the pool and the duals with which each of them begins. They
//! are borrowed, and a neighbourhood works on copies or a pool of its own.

use branch_marks::Marks;
use restricted_master::Pool;
use tail_book::Duals;

/// What neighbourhoods begin with: marks that hold for all of them, routes, and duals.
#[derive(Clone, Copy)]
pub struct Ground<'a> {
    pub marks: &'a Marks,
    pub pool: &'a Pool,
    pub duals: &'a Duals,
}
