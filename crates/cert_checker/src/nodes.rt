//! Lines of nodes: steps, splits, and the first lines of leaves. Each closes the leaf before it and takes the place
//! that is owed next; a step owes it again with one fact more, a split owes two for it, and a leaf that is done none.

ghost use Rattle.std.specs.Prelude.{◌≡◌, ◌<◌, ◌^◌, IfOk, length, replicate, pos};
ghost use Rattle.cert_checker.specs.Step.{is_pair_of, take_bound, take_fact, take_hole, take_split, take_stuck};
ghost use Rattle.cert_checker.specs.inside.Kept.{Gives, IsJudging, state_of};
ghost use Rattle.cert_checker.specs.inside.Means.{AreMeansOf};

use crate::means::Means;
use crate::node_tests::{follows, hole, undecided};
use crate::numbers::{is_activity, is_aircraft};
use crate::state::{Judging, OpenLeaf, Part};
use crate::verdict::Reason;
use branch_marks::{Fact, Pair};
use tail_book::{Book, Memory};

// Whether the numbers in a pair are of the book.
fn is_pair_of(book: &Book, pair: Pair) -> bool
    ensures { result ≡ is_pair_of book.now pair }
{
    match pair {
        Pair::Fly(k, a) => is_aircraft(book, k) && is_activity(book, a),
        Pair::Link(a, b) => is_activity(book, a) && is_activity(book, b),
    }
}

/// Makes all duals 0.
pub fn clear(duals: &mut [i64])
    ensures { duals.new ≡ replicate (length duals.old) (pos 0) }
{
    duals.fill(0);
}

impl Judging {
    /// Takes a step, or says why not.
    pub fn take_fact(
        &mut self,
        book: &Book,
        means: &Means,
        fact: Fact,
    ) -> Result<Option<Reason>, Memory>
        requires judging { IsJudging book.now self.old }
        requires means { AreMeansOf book.now means.now }
        ensures judging { IfOk result (λ _. IsJudging book.now self.new) }
        ensures step { IfOk result (Gives (take_fact book.now (state_of self.old) fact) self.new) }
    {
        let found = self.go_to_node(book)?;
        if !found {
            return Ok(Some(Reason::OutOfPlace));
        }
        if !fact.is_of(book) {
            return Ok(Some(Reason::OutOfPlace));
        }
        self.branches.marks.facts_are_of_book(book);
        if self.branches.marks.has(fact) {
            return Ok(Some(Reason::KnownFact));
        }
        if !follows(
            book,
            means,
            &self.branches.marks,
            fact,
            &mut self.floors,
            &mut self.counters,
        ) {
            return Ok(Some(Reason::NotFollowing));
        }
        self.branches.add(book, fact)?;
        self.floors.give_up(fact);
        Ok(None)
    }

    /// Takes a split, or says why not.
    pub fn take_split(&mut self, book: &Book, pair: Pair) -> Result<Option<Reason>, Memory>
        requires { IsJudging book.now self.old }
        ensures judging { IfOk result (λ _. IsJudging book.now self.new) }
        ensures step { IfOk result (Gives (take_split book.now (state_of self.old) pair) self.new) }
    {
        let found = self.go_to_node(book)?;
        if !found {
            return Ok(Some(Reason::OutOfPlace));
        }
        if !is_pair_of(book, pair) {
            return Ok(Some(Reason::OutOfPlace));
        }
        if !undecided(book, &self.branches.marks, pair) {
            return Ok(Some(Reason::NotAlive));
        }
        self.branches.split(book, pair)?;
        self.floors.clear();
        Ok(None)
    }

    /// Takes a hole, or says why not.
    pub fn take_hole(&mut self, book: &Book, a: u32) -> Result<Option<Reason>, Memory>
        requires { IsJudging book.now self.old }
        ensures judging { IfOk result (λ _. IsJudging book.now self.new) }
        ensures step { IfOk result (Gives (take_hole book.now (state_of self.old) a) self.new) }
    {
        let found = self.go_to_node(book)?;
        if !found {
            return Ok(Some(Reason::OutOfPlace));
        }
        if !is_activity(book, a) {
            return Ok(Some(Reason::OutOfPlace));
        }
        if !hole(book, &self.branches.marks, a) {
            return Ok(Some(Reason::NotAlive));
        }
        self.branches.owes = false;
        Ok(None)
    }

    /// Takes the first line of a stuck leaf, or says why not.
    pub fn take_stuck(&mut self, book: &Book, k: u32) -> Result<Option<Reason>, Memory>
        requires judging { IsJudging book.now self.old }
        requires lines { self.old.lines < 2 ^ 63 }
        ensures judging { IfOk result (λ _. IsJudging book.now self.new) }
        ensures step { IfOk result (Gives (take_stuck book.now (state_of self.old) k) self.new) }
    {
        let found = self.go_to_node(book)?;
        if !found {
            return Ok(Some(Reason::OutOfPlace));
        }
        if !is_aircraft(book, k) {
            return Ok(Some(Reason::OutOfPlace));
        }
        self.branches.owes = false;
        clear(&mut self.duals);
        self.family.clear();
        self.leaf = Some(OpenLeaf {
            line: self.lines + 1,
            k,
            value: None,
            next: 0,
        });
        Ok(None)
    }

    /// Takes the first line of a bound leaf, or says why not.
    pub fn take_bound(&mut self, book: &Book) -> Result<Option<Reason>, Memory>
        requires { IsJudging book.now self.old }
        ensures judging { IfOk result (λ _. IsJudging book.now self.new) }
        ensures step { IfOk result (Gives (take_bound book.now (state_of self.old)) self.new) }
    {
        let found = self.go_to_node(book)?;
        if !found {
            return Ok(Some(Reason::OutOfPlace));
        }
        clear(&mut self.duals);
        self.next = 0;
        self.covers = 0;
        self.values = 0;
        self.branches.owes = !self.has_all_covers(book);
        self.part = Part::InBound;
        Ok(None)
    }
}
