//! Lines of leaves: duals, covers and labels, and the test of an open leaf. A line has its place by its activity or
//! aircraft, which only rise; labels are kept as they come, and are tested together when the leaf is done.

ghost use Rattle.std.specs.Prelude.{◌≡◌, ◌<◌, ◌^◌, ◌==◌, ◌&&◌, nat_le, nat_lt, Some, IfOk, length};
ghost use Rattle.tail_book.specs.Lookup.{activities, aircraft};
ghost use Rattle.tail_book.specs.Seen.{BookSeen};
ghost use Rattle.tail_book.specs.CostTable.{costs_of};
ghost use Rattle.maint_counters.specs.inside.Counts.{AreCountable};
ghost use Rattle.branch_marks.specs.TreeTests.{is_in_box};
ghost use Rattle.cert_checker.specs.Step.{take_cover, take_dual, take_dual_in, take_label};
ghost use Rattle.cert_checker.specs.Reasons.{shows};
ghost use Rattle.cert_checker.specs.Verdict.{leaf_fails};
ghost use Rattle.cert_checker.specs.declared.state.Part.TheVariants.{InBound, InLean};
ghost use Rattle.cert_checker.specs.inside.Kept.{Gives, IsJudging, section_in, state_of};
ghost use Rattle.cert_checker.specs.inside.Means.{AreMeansOf};

use crate::bound::added;
use crate::buckets::put_starts;
use crate::cover::{is_shown_cover, is_shown_stuck};
use crate::label::Label;
use crate::leaf::Leaf;
use crate::means::Means;
use crate::numbers::{is_activity, is_aircraft};
use crate::state::{Judging, OpenLeaf, Part};
use crate::verdict::Reason;
use branch_marks::Row;
use tail_book::laws::every_book_is_sound;
use tail_book::{Book, Memory};

// Whether a dual lies in the box.
fn is_in_box(means: &Means, dual: i64) -> bool
    ensures { (book : BookSeen) → AreMeansOf book means.now → result ≡ is_in_box (costs_of book) dual }
{
    let end = means.costs.box_end();
    0 <= dual as i128 + end as i128 && dual <= end
}

// Whether an open leaf may have a label with these counters at an activity next.
fn may_take_label(book: &Book, leaf: OpenLeaf, at: u32, counters: &Row) -> bool
    ensures { result ≡ (nat_le leaf.next at && (nat_lt at (activities book.now) && length counters.now == length book.now.rules.counters)) }
{
    leaf.next <= at
        && (is_activity(book, at) && counters.as_slice().len() == book.rules.counters.len())
}

impl Judging {
    // Whether the bound leaf that is here may have a dual of an activity next.
    fn may_take_dual(&self, book: &Book, a: u32) -> bool
        ensures { result ≡ (self.now.covers == 0 && (nat_le self.now.next a && nat_lt a (activities book.now))) }
    {
        self.covers == 0 && (self.next <= a && is_activity(book, a))
    }

    // Whether the bound leaf that is here may have a cover of an aircraft next.
    fn may_take_cover(&self, book: &Book, k: u32) -> bool
        ensures { result ≡ (k == self.now.covers && nat_lt k (aircraft book.now)) }
    {
        k == self.covers && is_aircraft(book, k)
    }

    // Takes a dual of the bound leaf that is here, or says why not.
    fn take_dual_of_bound(
        &mut self,
        book: &Book,
        means: &Means,
        a: u32,
        dual: i64,
    ) -> Option<Reason>
        requires judging { IsJudging book.now self.old }
        requires means { AreMeansOf book.now means.now }
        requires here { self.old.part ≡ InBound }
        ensures judging { IsJudging book.now self.new }
        ensures step { Gives (take_dual_in book.now (state_of self.old) a dual (section_in self.old self.old.part)) self.new result }
    {
        every_book_is_sound(book);
        if !self.may_take_dual(book, a) {
            return Some(Reason::OutOfPlace);
        }
        if !is_in_box(means, dual) {
            return Some(Reason::OutOfBox);
        }
        self.duals[a as usize] = dual;
        self.next = a + 1;
        None
    }

    // Whether the lean leaf that is here may have a dual of an activity next.
    fn may_take_lean_dual(&self, book: &Book, a: u32) -> bool
        ensures { result ≡ (nat_le self.now.next a && nat_lt a (activities book.now)) }
    {
        self.next <= a && is_activity(book, a)
    }

    // Takes a dual of the lean leaf that is here, or says why not.
    fn take_dual_of_lean(&mut self, book: &Book, means: &Means, a: u32, dual: i64) -> Option<Reason>
        requires judging { IsJudging book.now self.old }
        requires means { AreMeansOf book.now means.now }
        requires here { self.old.part ≡ InLean }
        ensures judging { IsJudging book.now self.new }
        ensures step { Gives (take_dual_in book.now (state_of self.old) a dual (section_in self.old self.old.part)) self.new result }
    {
        every_book_is_sound(book);
        if !self.may_take_lean_dual(book, a) {
            return Some(Reason::OutOfPlace);
        }
        if !is_in_box(means, dual) {
            return Some(Reason::OutOfBox);
        }
        self.duals[a as usize] = dual;
        self.next = a + 1;
        None
    }

    /// Takes a dual, in thousandths of a cost unit, of the bound leaf or the lean leaf that is here, or says why not.
    pub fn take_dual(&mut self, book: &Book, means: &Means, a: u32, dual: i64) -> Option<Reason>
        requires judging { IsJudging book.now self.old }
        requires means { AreMeansOf book.now means.now }
        ensures judging { IsJudging book.now self.new }
        ensures step { Gives (take_dual book.now (state_of self.old) a dual) self.new result }
    {
        match self.part {
            Part::InBound => self.take_dual_of_bound(book, means, a, dual),
            Part::InLean => self.take_dual_of_lean(book, means, a, dual),
            _ => Some(Reason::OutOfPlace),
        }
    }

    /// Takes the first line of a cover of the bound leaf that is here, or says why not. The value is in thousandths.
    pub fn take_cover(&mut self, book: &Book, k: u32, value: i64) -> Option<Reason>
        requires judging { IsJudging book.now self.old }
        requires lines { self.old.lines < 2 ^ 63 }
        ensures judging { IsJudging book.now self.new }
        ensures step { Gives (take_cover book.now (state_of self.old) k value) self.new result }
    {
        every_book_is_sound(book);
        let Part::InBound = self.part else {
            return Some(Reason::OutOfPlace);
        };
        if !self.may_take_cover(book, k) {
            return Some(Reason::OutOfPlace);
        }
        self.covers = k + 1;
        self.values = added(&self.values, &value);
        self.branches.owes = !self.has_all_covers(book);
        self.family.clear();
        self.leaf = Some(OpenLeaf {
            line: self.lines + 1,
            k,
            value: Some(value),
            next: 0,
        });
        None
    }

    /// Takes a label of the leaf that is open, or says why not.
    pub fn take_label(
        &mut self,
        book: &Book,
        at: u32,
        weight: i64,
        counters: Row,
    ) -> Result<Option<Reason>, Memory>
        requires judging { IsJudging book.now self.old }
        requires counters { AreCountable counters }
        ensures judging { IfOk result (λ _. IsJudging book.now self.new) }
        ensures step { IfOk result (Gives (take_label book.now (state_of self.old) (record { at = at; weight = weight; counters = counters })) self.new) }
    {
        let Some(leaf) = self.leaf else {
            return Ok(Some(Reason::OutOfPlace));
        };
        if !may_take_label(book, leaf, at, &counters) {
            return Ok(Some(Reason::OutOfPlace));
        }
        if !self.branches.marks.alive(book, leaf.k, at) {
            return Ok(Some(Reason::NotAlive));
        }
        self.family.push(Label {
            at,
            weight,
            counters,
        })?;
        self.leaf = Some(OpenLeaf { next: at, ..leaf });
        Ok(None)
    }

    // Whether the labels of a leaf show what its line claims.
    fn shows(&mut self, book: &Book, means: &Means, leaf: OpenLeaf) -> bool
        requires judging { IsJudging book.now self.old }
        requires means { AreMeansOf book.now means.now }
        requires leaf { self.old.leaf ≡ Some leaf }
        ensures judging { IsJudging book.now self.new }
        ensures state { state_of self.new ≡ state_of self.old }
        ensures shows { result ≡ shows book.now self.old.branches.marks.facts leaf.k self.old.duals.items leaf.value self.old.family.items }
    {
        put_starts(book, &self.family, &mut self.starts);
        let here = Leaf {
            book,
            means,
            marks: &self.branches.marks,
            duals: &self.duals,
            family: &self.family,
            starts: &self.starts,
            k: leaf.k,
        };
        match leaf.value {
            Some(value) => is_shown_cover(&here, value, &mut self.counters),
            None => is_shown_stuck(&here, &mut self.counters),
        }
    }

    /// The line of the open leaf, where its labels do not show what that line claims.
    pub fn failing_leaf(&mut self, book: &Book, means: &Means) -> Option<u64>
        requires judging { IsJudging book.now self.old }
        requires means { AreMeansOf book.now means.now }
        ensures judging { IsJudging book.now self.new }
        ensures state { state_of self.new ≡ state_of self.old }
        ensures fails { result ≡ leaf_fails book.now (state_of self.old).leaf }
    {
        let leaf = self.leaf?;
        if self.shows(book, means, leaf) {
            None
        } else {
            Some(leaf.line)
        }
    }
}
