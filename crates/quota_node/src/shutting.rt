//! The first part of a step: all that follows from a node's marks is added.

ghost use Rattle.std.specs.Prelude.{◌≡◌, IfOk};
ghost use Rattle.connection_net.specs.Net.{net_of};
ghost use Rattle.branch_marks.specs.Following.{IsFollowed};
ghost use Rattle.branch_marks.specs.inside.MarkTables.{AreMarksOf};
ghost use Rattle.propagator.specs.Closed.{IsClosedAt};
ghost use Rattle.quota_node.specs.inside.Tools.{AreQuotaToolsFor};

use crate::QuotaTools;
use branch_marks::Marks;
use connection_net::Net;
use propagator::Closed;
use std::alloc::Global;
use tail_book::{Book, Memory};

/// Adds all facts that follow from marks, and tells whether then each activity is alive for somebody.
pub fn shut(
    alloc: Global,
    book: &Book,
    net: &Net,
    marks: &mut Marks,
    tools: &mut QuotaTools,
) -> Result<Closed, Memory>
    requires net { net.now ≡ net_of book.now }
    requires marks { AreMarksOf book.now marks.old }
    requires tools { AreQuotaToolsFor book.now tools.old }
    ensures closed { IfOk result (IsClosedAt book.now marks.new.facts) }
    ensures followed { IsFollowed book.now marks.old.facts marks.new.facts }
    ensures marks { AreMarksOf book.now marks.new }
    ensures tools { AreQuotaToolsFor book.now tools.new }
{
    tools.propagator.forget();
    let mut steps = Vec::new(alloc);
    let propagator = &mut tools.propagator;
    propagator.close(book, net, marks, &mut steps)
}
