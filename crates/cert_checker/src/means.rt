//! What judging reads of a book, made once: its costs, the steps of its counters, and its network. None of it depends
//! on marks, so all lines of a certificate are judged by the same.

ghost use Rattle.std.specs.Prelude.{IfOk};
ghost use Rattle.cert_checker.specs.inside.Means.{AreMeansOf};

use connection_net::Net;
use maint_counters::StepTable;
use std::alloc::Global;
use tail_book::{Book, CostTable, Memory};

/// What judging reads of a book.
#[derive(Drop)]
pub struct Means {
    pub costs: CostTable,
    pub steps: StepTable,
    pub net: Net,
}

impl Means {
    /// What judging reads of this book.
    pub fn of(alloc: Global, book: &Book) -> Result<Means, Memory>
        ensures { IfOk result (AreMeansOf book.now) }
    {
        let costs = CostTable::of(alloc, book)?;
        let steps = StepTable::of(alloc, book)?;
        let net = Net::new(alloc, book)?;
        Ok(Means { costs, steps, net })
    }
}
