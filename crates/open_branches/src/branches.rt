//! The marks of the node that comes next, and what is owed behind it.
//!
//! The marks of a second branch are a front of those of the first one, and one fact more. So there is one list of marks, and of
//! each branch that is owed the length of that front and its fact are kept. A first branch only adds its fact; where a subtree is
//! whole, the marks are rewound to the front of the branch that is owed next. However deep a tree lies, a branch costs a number
//! and a fact.

ghost use Rattle.std.specs.Prelude.{◌≡◌, ◌++◌, ◌∷◌, [], false, true, IfOk};
ghost use Rattle.branch_marks.specs.Branches.{first_branch, second_branch};
ghost use Rattle.branch_marks.specs.Facts.{IsFactOf};
ghost use Rattle.branch_marks.specs.Undecided.{is_undecided};
ghost use Rattle.branch_marks.specs.FactTests.{has_fact};
ghost use Rattle.branch_marks.specs.inside.MarkTables.{AreMarksOf};
ghost use Rattle.open_branches.specs.Branches.{AreBranchesOf, BranchesAreNew, behind_of, owed_of};

use branch_marks::laws::{
    alive_decides, has_fact_decides, undecided_decides, undecided_pairs_are_of_book,
};
use branch_marks::{Fact, Marks, Pair};
use std::alloc::Global;
use tail_book::{Book, Memory};

/// A branch that is owed: how many facts of the marks it begins with, and the fact that comes behind them.
#[derive(Clone, Copy, Debug)]
pub struct Owed {
    pub count: usize,
    pub fact: Fact,
}

/// The marks of a node, the branches that are owed behind it, the next one last, and whether the node itself is owed still.
#[derive(Drop)]
pub struct Branches {
    pub marks: Marks,
    pub behind: Vec<Owed>,
    pub owes: bool,
}

// Adds a fact that is not among the marks.
fn add_new(book: &Book, marks: &mut Marks, fact: Fact) -> Result<(), Memory>
    requires marks { AreMarksOf book.now marks.old }
    requires fact { IsFactOf book.now fact }
    requires new { has_fact marks.old.facts fact ≡ false }
    ensures facts { IfOk result (λ _. marks.new.facts ≡ marks.old.facts ++ fact ∷ []) }
    ensures marks { AreMarksOf book.now marks.new }
{
    has_fact_decides();
    let _added = marks.add(book, fact)?;
    Ok(())
}

impl Branches {
    /// No marks, and nothing owed.
    pub fn new(alloc: Global, book: &Book) -> Result<Branches, Memory>
        ensures branches { IfOk result (AreBranchesOf book.now) }
        ensures marks { IfOk result (λ branches. branches.marks.facts ≡ []) }
        ensures behind { IfOk result (λ branches. behind_of branches ≡ []) }
        ensures owes { IfOk result (λ branches. branches.owes ≡ false) }
    {
        let marks = Marks::new(alloc, book)?;
        Ok(Branches {
            marks,
            behind: Vec::new(alloc),
            owes: false,
        })
    }

    /// Goes on to the next subtree that is owed, which may be the one that is here, and answers whether there is one.
    pub fn next(&mut self, book: &Book) -> Result<bool, Memory>
        requires { AreBranchesOf book.now self.old }
        ensures branches { IfOk result (λ _. AreBranchesOf book.now self.new) }
        ensures owed { IfOk result (λ _. owed_of self.new ≡ owed_of self.old) }
        ensures owes { IfOk result (λ found. self.new.owes ≡ found) }
        ensures none { IfOk result (λ found. found ≡ false → owed_of self.old ≡ []) }
    {
        if self.owes {
            return Ok(true);
        }
        let Some(owed) = self.behind.pop() else {
            return Ok(false);
        };
        self.marks.rewind(owed.count);
        add_new(book, &mut self.marks, owed.fact)?;
        self.owes = true;
        Ok(true)
    }

    /// Adds a fact that is new to the marks.
    pub fn add(&mut self, book: &Book, fact: Fact) -> Result<(), Memory>
        requires branches { AreBranchesOf book.now self.old }
        requires fact { IsFactOf book.now fact }
        requires new { has_fact self.old.marks.facts fact ≡ false }
        ensures branches { IfOk result (λ _. AreBranchesOf book.now self.new) }
        ensures facts { IfOk result (λ _. self.new.marks.facts ≡ self.old.marks.facts ++ fact ∷ []) }
        ensures behind { IfOk result (λ _. behind_of self.new ≡ behind_of self.old) }
        ensures owes { self.new.owes ≡ self.old.owes }
    {
        add_new(book, &mut self.marks, fact)?;
        Ok(())
    }

    /// Goes on with the first branch of a split, and owes the second.
    pub fn split(&mut self, book: &Book, pair: Pair) -> Result<(), Memory>
        requires branches { AreBranchesOf book.now self.old }
        requires undecided { is_undecided book.now self.old.marks.facts pair ≡ true }
        ensures branches { IfOk result (λ _. AreBranchesOf book.now self.new) }
        ensures facts { IfOk result (λ _. self.new.marks.facts ≡ self.old.marks.facts ++ first_branch pair ∷ []) }
        ensures behind { IfOk result (λ _. behind_of self.new ≡ (self.old.marks.facts ++ second_branch pair ∷ []) ∷ behind_of self.old) }
        ensures owes { IfOk result (λ _. self.new.owes ≡ self.old.owes) }
    {
        branches_are_new();
        let (first, second) = branches_of(pair);
        let count = self.marks.mark();
        add_new(book, &mut self.marks, first)?;
        self.behind.push(Owed {
            count,
            fact: second,
        })?;
        Ok(())
    }
}

// Both branches of a split.
fn branches_of(pair: Pair) -> (Fact, Fact)
    ensures { result ≡ (first_branch pair, second_branch pair) }
{
    match pair {
        Pair::Fly(k, a) => (Fact::Must(k, a), Fact::Bar(k, a)),
        Pair::Link(a, b) => (Fact::Tie(a, b), Fact::Cut(a, b)),
    }
}

// Neither branch of an undecided pair is among the marks, and both are of the book.
fn branches_are_new()
    ensures { BranchesAreNew }
{
    alive_decides();
    has_fact_decides();
    undecided_decides();
    undecided_pairs_are_of_book();
}
