//! What the rows of a network are, as laws: the contract of each function is the law. A row has exactly the numbers of
//! some aircraft's links, in rising order, and both ends of a link have each other: so whoever goes over rows misses no
//! link.

ghost use Rattle.tail_book.specs.Seen.{BookSeen};
ghost use Rattle.connection_net.specs.inside.Laws.{HasRowForEach, HeadsAreLinks, PredecessorsAreLinks, RowsAreTheirPlaces, RowsRise, SuccessorsAreLinks, SuccessorsFacePredecessors, SuccessorsFollow};

use tail_book::laws::{link_decides, links_rise};

/// An activity is a successor of another exactly where some aircraft may fly it directly after.
pub fn successors_are_links()
    ensures { SuccessorsAreLinks }
{
    link_decides();
}

/// An activity is a predecessor of another exactly where some aircraft may fly it directly before.
pub fn predecessors_are_links()
    ensures { PredecessorsAreLinks }
{
    link_decides();
}

/// An activity is a head of an aircraft exactly where the aircraft may fly it first.
pub fn heads_are_links()
    ensures { HeadsAreLinks }
{
    link_decides();
}

/// An activity is a successor of another exactly where that one is its predecessor.
pub fn successors_face_predecessors()
    ensures { SuccessorsFacePredecessors }
{
    link_decides();
}

/// The numbers of each row rise strictly and are of the book.
pub fn rows_rise()
    ensures { (book : BookSeen) → RowsRise book }
{}

/// A successor has a larger number.
pub fn successors_follow()
    ensures { SuccessorsFollow }
{
    link_decides();
    links_rise();
}

/// There is a row for each activity and for each aircraft of the book.
pub fn rows_for_each()
    ensures { (book : BookSeen) → HasRowForEach book }
{}

/// A row has what stands at its places and nothing else.
pub fn rows_are_their_places()
    ensures { RowsAreTheirPlaces }
{}
