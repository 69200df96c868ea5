//! Laws over the definitions alone: the contract of each function is the law. A floor is the least of what the places
//! before it bring, and the rows of the network have all places that bring something and all activities that can be
//! gone on to: so a pass over links is enough.

ghost use Rattle.floor_rows.specs.inside.AskedLinks.{AskingPassesOver};
ghost use Rattle.floor_rows.specs.inside.LeastOver.{FloorsAreLeast, LeastAreFloors, BroughtTells, NoFloorWithout};
ghost use Rattle.floor_rows.specs.inside.Neighbours.{PredecessorsComeBefore, PredecessorsBringAll, SuccessorsAreOfBook, PredecessorsAreOfBook, SuccessorsTell};
ghost use Rattle.tail_book.specs.Seen.{BookSeen};
ghost use Rattle.std.specs.Prelude.{ℕ, ℤ, List};
ghost use Rattle.branch_marks.specs.declared.fact.Fact.{Fact as MarkFact};

use branch_marks::laws::{alive_decides, floors_come_in_turn, usable_decides};
use connection_net::laws::{
    predecessors_are_links, rows_are_their_places, rows_rise, successors_are_links,
};
use tail_book::laws::{limits_decide, links_rise};

/// Each floor is the least of what the places before it bring.
pub fn floors_are_least()
    ensures { FloorsAreLeast }
{
    floors_come_in_turn();
}

/// Whatever is the least of what is brought is the floor.
pub fn least_are_floors()
    ensures { LeastAreFloors }
{
    floors_are_least();
}

/// What brings nothing, and what the least of what is brought depends on.
pub fn brought_tells()
    ensures { BroughtTells }
{}

/// Where an activity is not alive, there is no floor.
pub fn no_floor_without()
    ensures { NoFloorWithout }
{
    floors_are_least();
}

/// Predecessors have smaller numbers.
pub fn predecessors_come_before()
    ensures { PredecessorsComeBefore }
{
    predecessors_are_links();
    rows_rise();
    rows_are_their_places();
    links_rise();
}

/// What is brought to an activity is brought by its predecessors.
pub fn predecessors_bring_all()
    ensures { PredecessorsBringAll }
{
    predecessors_are_links();
    rows_rise();
    rows_are_their_places();
    links_rise();
    usable_decides();
}

/// Successors are of the book.
pub fn successors_are_of_book()
    ensures { SuccessorsAreOfBook }
{
    rows_rise();
    rows_are_their_places();
}

/// And so are predecessors.
pub fn predecessors_are_of_book()
    ensures { PredecessorsAreOfBook }
{
    rows_rise();
    rows_are_their_places();
}

/// Successors tell whether an aircraft can go on.
pub fn successors_tell()
    ensures { (book : BookSeen) (marks : List MarkFact) (k a : ℕ) (values : List ℤ) → SuccessorsTell book marks k a values }
{
    successors_are_links();
    rows_rise();
    rows_are_their_places();
    usable_decides();
    limits_decide();
}

/// Who is not alive at the first activity of a link need not be asked about it.
pub fn asking_passes_over()
    ensures { (book : BookSeen) (marks : List MarkFact) (a b : ℕ) → AskingPassesOver book marks a b }
{
    alive_decides();
}
