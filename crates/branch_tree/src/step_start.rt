//! The first part of a step: all that follows from a node's marks is added and told.

ghost use Rattle.std.specs.Prelude.{◌≡◌, IfOk, OnOk, OnErr, IsErrOf};
ghost use Rattle.connection_net.specs.Net.{net_of};
ghost use Rattle.branch_marks.specs.Following.{IsFollowed, IsShut};
ghost use Rattle.branch_marks.specs.TreeLog.{IsLater, WriteHasFailed};
ghost use Rattle.branch_marks.specs.inside.MarkTables.{AreMarksOf};
ghost use Rattle.propagator.specs.Closed.{IsClosedAt};
ghost use Rattle.propagator.specs.Keeping.{IsKeptFor};
ghost use Rattle.branch_tree.specs.inside.StepParts.{IsCutAtSteps, IsShutAndTold};

use crate::Stop;
use branch_marks::laws::following_facts_are_of_book;
use branch_marks::{Marks, TreeLog};
use connection_net::Net;
use node_leaves::note_steps;
use propagator::{Closed, Propagator};
use std::alloc::Global;
use tail_book::Book;
use tail_book::laws::every_book_is_sound;

/// Adds all facts that follow from marks, and notes each of them.
pub fn shut_and_tell<L: TreeLog>(
    alloc: Global,
    book: &Book,
    net: &Net,
    marks: &mut Marks,
    propagator: &mut Propagator,
    log: &mut L,
) -> Result<Closed, Stop>
    requires net { net.now ≡ net_of book.now }
    requires marks { AreMarksOf book.now marks.old }
    requires kept { IsKeptFor book.now marks.old.facts propagator.old }
    ensures marks { AreMarksOf book.now marks.new }
    ensures kept { IsKeptFor book.now marks.new.facts propagator.new }
    ensures told { OnOk result (IsShutAndTold book.now marks.old.facts marks.new.facts (L.shows log.old) (L.shows log.new)) }
    ensures shut { OnOk result (IsShut book.now marks.new.facts) }
    ensures answer { IfOk result (IsClosedAt book.now marks.new.facts) }
    ensures cut { OnErr result (IsCutAtSteps book.now marks.old.facts (L.shows log.old) (L.shows log.new)) }
    ensures followed { IsFollowed book.now marks.old.facts marks.new.facts }
    ensures later { IsLater (L.shows log.old) (L.shows log.new) }
    ensures beside { L.beside log.old log.new }
    ensures cause { IsErrOf result Stop.Log → WriteHasFailed (L.shows log.old) (L.shows log.new) }
{
    every_book_is_sound(book);
    following_facts_are_of_book();
    let mut steps = Vec::new(alloc);
    let closed = match propagator.close(book, net, marks, &mut steps) {
        Ok(closed) => closed,
        Err(_) => return Err(Stop::Memory),
    };
    if let Err(stop) = note_steps(alloc, &steps, log) {
        return Err(stop);
    }
    Ok(closed)
}
