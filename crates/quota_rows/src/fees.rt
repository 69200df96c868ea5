//! Fees: for each quota what a connection that belongs to it pays, in thousandths of a cost unit.
//!
//! They price the rule that a quota is used no more often than it may be, as duals price the rule that each activity is flown
//! once. With fees, least weights bound the cost of every legal plan that keeps the quotas.

use std::marker::Model;

/// A fee for each quota, in their order. Contracts see the record of its list.
#[derive(Debug, Drop)]
pub struct Fees {
    /// The fee of quota `q` at place `q`, in thousandths of a cost unit.
    pub values: Vec<i64>,
}

impl Model for Fees {
    ghost use Rattle.quota_rows.specs.Fees.{FeesSeen};

    ghost Value = { FeesSeen };

    ghost view = { λ f. record { values = f.values.items } };
}
