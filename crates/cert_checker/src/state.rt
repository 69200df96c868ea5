//! What the checker keeps of the lines that it took: the open branches, the labels of one cover, and nothing of a leaf that is
//! done but its bound. So its memory is that of the marks, of one cover and of floors, however long the certificate.

ghost use Rattle.std.specs.Prelude.{◌≡◌, ◌==◌, true, false, None, IfOk, Ok, Err};
ghost use Rattle.tail_book.specs.Lookup.{aircraft};
ghost use Rattle.cert_checker.specs.Step.{after_leaf, owes};
ghost use Rattle.cert_checker.specs.Verdict.{first_state};
ghost use Rattle.cert_checker.specs.declared.state.Part.TheVariants.{InBound, InTree};
ghost use Rattle.cert_checker.specs.declared.verdict.Reason.TheVariants.{OutOfPlace};
ghost use Rattle.cert_checker.specs.inside.Kept.{IsJudging, TellsNode, section_in, state_of};

use crate::bound::{bound_of, lower};
use crate::kept_floors::KeptRows;
use crate::label::Label;
use crate::leaf_pricer::LeafPricer;
use open_branches::Branches;
use std::alloc::Global;
use tail_book::laws::every_book_is_sound;
use tail_book::{Book, Claim, Memory};

/// What stands before the next line: nothing; the header, a step, a split, or a leaf that takes no duals; a bound leaf; a lean
/// leaf; a plan's lines; or the claim.
#[derive(Clone, Copy)]
pub enum Part {
    Start,
    InTree,
    InBound,
    InLean,
    InPlan,
    Claimed(Claim),
}

/// An open cover of an aircraft, or an open stuck leaf, which claims no value: the number of its line, and the least activity
/// whose labels may still come.
#[derive(Clone, Copy)]
pub struct OpenLeaf {
    pub line: u64,
    pub k: u32,
    /// In thousandths of a cost unit.
    pub value: Option<i64>,
    pub next: u32,
}

/// What is kept of the lines that were taken.
#[derive(Drop)]
pub struct Judging {
    pub lines: u64,
    // The version that the header told, 0 before it.
    pub version: u8,
    pub part: Part,
    pub branches: Branches,
    // Of a bound leaf or a lean one: its duals, and the least activity whose dual may still come; of a bound one besides how many
    // covers were begun, and the sum of their values. Duals and values are in thousandths of a cost unit.
    pub duals: Vec<i64>,
    pub next: u32,
    pub covers: u32,
    pub values: i128,
    // Who flies each activity, so far.
    pub fliers: Vec<u32>,
    pub leaf: Option<OpenLeaf>,
    pub family: Vec<Label>,
    // The least bound of the leaves so far, in cost units.
    pub low: Option<u128>,
    // Room for tests: where the labels of each activity begin, floors that the marks leave aircraft, and counters.
    pub starts: Vec<usize>,
    pub floors: KeptRows,
    pub counters: Vec<i64>,
    // What prices lean leaves, once one was priced.
    pub pricer: Option<LeafPricer>,
}

impl Judging {
    /// Before the first line.
    pub fn new(alloc: Global, book: &Book) -> Result<Judging, Memory>
        ensures judging { IfOk result (IsJudging book.now) }
        ensures state { IfOk result (λ judging. state_of judging ≡ first_state) }
    {
        every_book_is_sound(book);
        let (n, c) = (book.activities.len(), book.rules.counters.len());
        let duals = vec![in alloc; 0; n]?;
        let starts = vec![in alloc; 0; n]?;
        let counters = vec![in alloc; 0; c]?;
        let floors = KeptRows::new(alloc, book)?;
        let branches = Branches::new(alloc, book)?;
        Ok(Judging {
            lines: 0,
            version: 0,
            part: Part::Start,
            branches,
            duals,
            next: 0,
            covers: 0,
            values: 0,
            fliers: Vec::new(alloc),
            leaf: None,
            family: Vec::new(alloc),
            low: None,
            starts,
            floors,
            counters,
            pricer: None,
        })
    }

    /// Whether something of the tree is still to come.
    pub fn owes(&self) -> bool
        ensures { result ≡ owes (section_in self.now self.now.part) (state_of self.now).owed }
    {
        match self.part {
            Part::Start => true,
            _ => self.branches.owes || !self.branches.behind.is_empty(),
        }
    }

    /// Whether each aircraft has its cover in the bound leaf that is here.
    pub fn has_all_covers(&self, book: &Book) -> bool
        ensures { result ≡ (self.now.covers == aircraft book.now) }
    {
        self.covers as usize == book.tails.len()
    }

    // Closes the bound leaf that is here, and answers whether it is done.
    fn close_bound(&mut self, book: &Book) -> bool
        requires judging { IsJudging book.now self.old }
        requires here { self.old.part ≡ InBound }
        ensures judging { IsJudging book.now self.new }
        ensures closed { result ≡ true → after_leaf book.now (state_of self.old) ≡ Ok (state_of self.new) }
        ensures early { result ≡ false → after_leaf book.now (state_of self.old) ≡ Err OutOfPlace }
        ensures part { result ≡ true → self.new.part ≡ InTree }
        ensures leaf { result ≡ true → self.new.leaf ≡ None }
    {
        every_book_is_sound(book);
        if !self.has_all_covers(book) {
            return false;
        }
        let bound = bound_of(&self.duals, &self.values);
        self.low = lower(self.low, bound);
        self.part = Part::InTree;
        self.leaf = None;
        true
    }

    /// Closes the last leaf, of which nothing is kept but its bound, and answers whether it is done.
    pub fn close_leaf(&mut self, book: &Book) -> bool
        requires { IsJudging book.now self.old }
        ensures judging { IsJudging book.now self.new }
        ensures closed { result ≡ true → after_leaf book.now (state_of self.old) ≡ Ok (state_of self.new) }
        ensures early { result ≡ false → after_leaf book.now (state_of self.old) ≡ Err OutOfPlace }
        ensures part { result ≡ true → self.new.part ≡ InTree }
        ensures leaf { result ≡ true → self.new.leaf ≡ None }
    {
        match self.part {
            Part::InBound => self.close_bound(book),
            Part::InTree => {
                self.leaf = None;
                true
            }
            _ => false,
        }
    }

    /// Goes on to the next node that is owed, and answers whether one may stand here.
    // Where it is the one that is here, its marks and the floors under them stay.
    pub fn go_to_node(&mut self, book: &Book) -> Result<bool, Memory>
        requires { IsJudging book.now self.old }
        ensures judging { IfOk result (λ _. IsJudging book.now self.new) }
        ensures node { IfOk result (TellsNode book.now (state_of self.old) self.new) }
    {
        let done = self.close_leaf(book);
        if !done {
            return Ok(false);
        }
        let here = self.branches.owes;
        if here {
            return Ok(true);
        }
        self.floors.clear();
        let found = self.branches.next(book)?;
        Ok(found)
    }
}
