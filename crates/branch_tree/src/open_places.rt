//! The places of a search tree at which a node is owed, the one that comes next first.
//!
//! One list of marks serves them all. An open place is a branch that is owed, which is a number and a fact, and the duals of its
//! parent. So a place costs a number for each activity, however deep it lies.

ghost use Rattle.std.specs.Prelude.{◌≡◌, ◌∷◌, ◌++◌, [], true, false, IfOk};
ghost use Rattle.tail_book.specs.Seen.{BookSeen};
ghost use Rattle.branch_marks.specs.Branches.{first_branch, second_branch, IsUndecided};
ghost use Rattle.node_leaves.specs.Place.{open_place, root};
ghost use Rattle.branch_tree.specs.inside.OpenPlaces.{AreOpenPlaces, places_behind, places_of};

use branch_marks::Pair;
use branch_marks::laws::undecided_decides;
use open_branches::Branches;
use std::alloc::Global;
use tail_book::{Book, Duals, Memory};

/// The branches that are open, and for each the duals under which its parent was split, zeros at the root.
#[derive(Drop)]
pub struct OpenPlaces {
    /// The marks of the place that comes next, or of the node that was left last, and the branches behind it.
    pub branches: Branches,
    /// The duals of that place.
    pub duals: Duals,
    /// The duals of the branches behind it, in their order.
    pub behind: Vec<Duals>,
}

impl OpenPlaces {
    /// The root alone.
    pub fn with_root(alloc: Global, book: &Book) -> Result<OpenPlaces, Memory>
        ensures places { IfOk result (λ places. places_of places ≡ root book.now ∷ []) }
        ensures open_places { IfOk result (AreOpenPlaces book.now) }
    {
        let mut branches = Branches::new(alloc, book)?;
        branches.owes = true;
        let values = vec![in alloc; 0i64; book.activities.len()]?;
        Ok(OpenPlaces {
            branches,
            duals: Duals { values },
            behind: Vec::new(alloc),
        })
    }

    /// Goes on to the place that comes next, which may be the one that is here, and answers whether there is one.
    pub fn next(&mut self, book: &Book) -> Result<bool, Memory>
        requires { AreOpenPlaces book.now self.old }
        ensures open_places { IfOk result (λ _. AreOpenPlaces book.now self.new) }
        ensures places { IfOk result (λ _. places_of self.new ≡ places_of self.old) }
        ensures owes { IfOk result (λ found. self.new.branches.owes ≡ found) }
        ensures none { IfOk result (λ found. found ≡ false → places_of self.old ≡ []) }
    {
        if self.branches.owes {
            return Ok(true);
        }
        let Some(duals) = self.behind.pop() else {
            return Ok(false);
        };
        self.duals = duals;
        let found = self.branches.next(book)?;
        Ok(found)
    }

    /// Leaves the place that is here, whose node is a leaf.
    pub fn leave(&mut self)
        ensures places { places_of self.new ≡ places_behind self.old }
        ensures open_places { (book : BookSeen) → AreOpenPlaces book self.old → AreOpenPlaces book self.new }
    {
        self.branches.owes = false;
    }

    /// Goes on with the first branch of the node that is here, and owes the second, both under the duals that are here.
    pub fn split(&mut self, alloc: Global, book: &Book, pair: Pair) -> Result<(), Memory>
        requires open_places { AreOpenPlaces book.now self.old }
        requires undecided { IsUndecided book.now self.old.branches.marks.facts pair }
        requires owes { self.old.branches.owes ≡ true }
        ensures open_places { IfOk result (λ _. AreOpenPlaces book.now self.new) }
        ensures places { IfOk result (λ _. places_of self.new ≡ open_place (self.old.branches.marks.facts ++ first_branch pair ∷ []) self.old.duals.values
            ∷ open_place (self.old.branches.marks.facts ++ second_branch pair ∷ []) self.old.duals.values ∷ places_behind self.old) }
    {
        undecided_decides();
        let values = Vec::from_slice(alloc, &self.duals.values)?;
        self.branches.split(book, pair)?;
        self.behind.push(Duals { values })?;
        Ok(())
    }
}
