//! The first line of a certificate, and those behind its tree: the header, the plan, and the claim. Behind the tree
//! means that no place is owed; once the last leaf is closed, all bounds are known that the claim is judged by.

ghost use Rattle.std.specs.Prelude.{◌≡◌, ◌==◌, ◌&&◌, nat_lt, IfOk, length};
ghost use Rattle.tail_book.specs.Lookup.{activities, aircraft};
ghost use Rattle.tail_book.specs.Seen.{BookSeen};
ghost use Rattle.cert_checker.specs.Step.{take_claim, take_claim_in, take_fly_in, take_header_in, take_plan};
ghost use Rattle.cert_checker.specs.declared.state.Part.TheVariants.{InPlan};
ghost use Rattle.cert_checker.specs.inside.Kept.{Gives, GivesClaim, IsJudging, section_in, state_of};
ghost use Rattle.cert_checker.specs.inside.Means.{AreMeansOf};

use crate::claim::{asked_of, claimed_cost, has_plan, reaches};
use crate::means::Means;
use crate::numbers::{is_activity, is_aircraft};
use crate::state::{Judging, Part};
use crate::verdict::Reason;
use std::alloc::Global;
use tail_book::laws::every_book_is_sound;
use tail_book::{Book, Claim, Memory};

// Whether a header names as many activities, aircraft and counters as the book has.
fn is_header_of(book: &Book, n: u32, m: u32, c: u32) -> bool
    ensures { result ≡ (n == activities book.now && (m == aircraft book.now && c == length book.now.rules.counters)) }
{
    n as usize == book.activities.len()
        && (m as usize == book.tails.len() && c as usize == book.rules.counters.len())
}

impl Judging {
    // Whether this may be the next flier of a plan.
    fn may_take_flier(&self, book: &Book, a: u32, k: u32) -> bool
        ensures { result ≡ (a == length self.now.fliers.items && (nat_lt a (activities book.now) && nat_lt k (aircraft book.now))) }
    {
        a as usize == self.fliers.len() && (is_activity(book, a) && is_aircraft(book, k))
    }

    /// Takes the header, or says why not.
    pub fn take_header(
        &mut self,
        book: &Book,
        version: u8,
        n: u32,
        m: u32,
        c: u32,
    ) -> Option<Reason>
        requires { IsJudging book.now self.old }
        ensures judging { IsJudging book.now self.new }
        ensures step { Gives (take_header_in book.now (state_of self.old) version n m c (section_in self.old self.old.part)) self.new result }
    {
        let Part::Start = self.part else {
            return Some(Reason::OutOfPlace);
        };
        if !is_header_of(book, n, m, c) {
            return Some(Reason::OutOfPlace);
        }
        self.version = version;
        self.branches.owes = true;
        self.part = Part::InTree;
        None
    }

    /// Takes the beginning of a plan, or says why not.
    pub fn take_plan(&mut self, book: &Book) -> Option<Reason>
        requires { IsJudging book.now self.old }
        ensures judging { IsJudging book.now self.new }
        ensures step { Gives (take_plan book.now (state_of self.old)) self.new result }
    {
        if self.owes() {
            return Some(Reason::Unfinished);
        }
        let done = self.close_leaf(book);
        if !done {
            return Some(Reason::OutOfPlace);
        }
        self.fliers.clear();
        self.part = Part::InPlan;
        None
    }

    /// Takes who flies the next activity, or says why not.
    pub fn take_fly(&mut self, book: &Book, a: u32, k: u32) -> Result<Option<Reason>, Memory>
        requires { IsJudging book.now self.old }
        ensures judging { IfOk result (λ _. IsJudging book.now self.new) }
        ensures step { IfOk result (Gives (take_fly_in book.now (state_of self.old) a k (section_in self.old self.old.part)) self.new) }
    {
        let Part::InPlan = self.part else {
            return Ok(Some(Reason::OutOfPlace));
        };
        if !self.may_take_flier(book, a, k) {
            return Ok(Some(Reason::OutOfPlace));
        }
        self.fliers.push(k)?;
        Ok(None)
    }

    // Takes the claim, where it has no plan or the fliers make its plan, or says why not.
    fn judge_claim(&mut self, means: &Means, has_plan: bool, claim: Claim) -> Option<Reason>
        ensures judging { (book : BookSeen) → AreMeansOf book means.now → IsJudging book self.old → IsJudging book self.new }
        ensures step { GivesClaim self.old means.now has_plan claim self.new result }
    {
        if !has_plan {
            return Some(Reason::BadPlan);
        }
        if !reaches(asked_of(means, claim), self.low) {
            return Some(Reason::WeakBound);
        }
        self.part = Part::Claimed(claim);
        None
    }

    // Whether each activity has its flier.
    fn has_all_fliers(&self, book: &Book) -> bool
        ensures { result ≡ (length self.now.fliers.items == activities book.now) }
    {
        self.fliers.len() == book.activities.len()
    }

    // Takes the claim behind a plan.
    fn take_claim_with_plan(
        &mut self,
        alloc: Global,
        book: &Book,
        means: &Means,
        claim: Claim,
    ) -> Result<Option<Reason>, Memory>
        requires judging { IsJudging book.now self.old }
        requires means { AreMeansOf book.now means.now }
        requires here { self.old.part ≡ InPlan }
        ensures judging { IfOk result (λ _. IsJudging book.now self.new) }
        ensures step { IfOk result (Gives (take_claim_in book.now (state_of self.old) claim (section_in self.old self.old.part)) self.new) }
    {
        every_book_is_sound(book);
        if !self.has_all_fliers(book) {
            return Ok(Some(Reason::OutOfPlace));
        }
        let has = has_plan(alloc, book, means, &self.fliers, claimed_cost(claim))?;
        Ok(self.judge_claim(means, has, claim))
    }

    // Takes the claim where no plan stands before it.
    fn take_claim_alone(&mut self, book: &Book, means: &Means, claim: Claim) -> Option<Reason>
        requires judging { IsJudging book.now self.old }
        requires means { AreMeansOf book.now means.now }
        requires elsewhere { ¬ self.old.part ≡ InPlan }
        ensures judging { IsJudging book.now self.new }
        ensures step { Gives (take_claim_in book.now (state_of self.old) claim (section_in self.old self.old.part)) self.new result }
    {
        let done = self.close_leaf(book);
        if !done {
            return Some(Reason::OutOfPlace);
        }
        self.judge_claim(means, claimed_cost(claim).is_none(), claim)
    }

    // Takes the claim behind the whole tree.
    fn take_claim_in(
        &mut self,
        alloc: Global,
        book: &Book,
        means: &Means,
        claim: Claim,
    ) -> Result<Option<Reason>, Memory>
        requires judging { IsJudging book.now self.old }
        requires means { AreMeansOf book.now means.now }
        ensures judging { IfOk result (λ _. IsJudging book.now self.new) }
        ensures step { IfOk result (Gives (take_claim_in book.now (state_of self.old) claim (section_in self.old self.old.part)) self.new) }
    {
        match self.part {
            Part::InPlan => self.take_claim_with_plan(alloc, book, means, claim),
            _ => Ok(self.take_claim_alone(book, means, claim)),
        }
    }

    /// Takes the claim, or says why not.
    pub fn take_claim(
        &mut self,
        alloc: Global,
        book: &Book,
        means: &Means,
        claim: Claim,
    ) -> Result<Option<Reason>, Memory>
        requires judging { IsJudging book.now self.old }
        requires means { AreMeansOf book.now means.now }
        ensures judging { IfOk result (λ _. IsJudging book.now self.new) }
        ensures step { IfOk result (Gives (take_claim book.now (state_of self.old) claim) self.new) }
    {
        if self.owes() {
            return Ok(Some(Reason::Unfinished));
        }
        self.take_claim_in(alloc, book, means, claim)
    }
}
