//! Ties of marks that belong to quotas, and the first quota of which more are tied than it lets a plan have: marks with such a
//! quota hold of no plan that keeps it. It takes a pass over the marks for each quota.

ghost use Rattle.std.specs.Prelude.{◌≡◌, ◌<◌, ◌≤◌, ◌↔◌, IsTrue, IfNone, IfSome, length};
ghost use Rattle.branch_marks.specs.Facts.{IsFactOf};
ghost use Rattle.branch_marks.specs.inside.MarkTables.{AreMarksOf};
ghost use Rattle.quota_rows.specs.declared.quota.TheConstants.{QUOTA_LIMIT};
ghost use Rattle.quota_split.specs.Ties.{HasNoneOver, IsFirstOver, IsTieAt, IsTiedOver, is_tie_of, ties_of};

use branch_marks::{Fact, Marks};
use quota_rows::{Quota, belongs};
use tail_book::Book;

// Whether a fact is a Tie whose connection belongs to a quota.
fn is_tie_of(book: &Book, quota: &Quota, fact: Fact) -> bool
    requires { IsFactOf book.now fact }
    ensures { result ≡ is_tie_of book.now quota.now fact }
{
    match fact {
        Fact::Tie(a, b) => belongs(book, quota, a, b),
        Fact::Bar(_, _) | Fact::Must(_, _) | Fact::Cut(_, _) => false,
    }
}

// Whether the fact at a place of the marks is one.
fn is_tie_at(book: &Book, quota: &Quota, marks: &Marks, i: usize) -> bool
    requires marks { AreMarksOf book.now marks.now }
    requires place { i < length marks.now.facts }
    ensures { IsTieAt book.now quota.now marks.now.facts i result }
{
    marks.facts_are_of_book(book);
    is_tie_of(book, quota, marks.fact_at(i))
}

/// How many Ties of the marks belong to a quota.
pub fn ties_of(book: &Book, quota: &Quota, marks: &Marks) -> u64
    requires { AreMarksOf book.now marks.now }
    ensures { result ≡ ties_of book.now quota.now marks.now.facts }
{
    let mut count = 0u64;
    for i in 0..marks.mark() {
        if is_tie_at(book, quota, marks, i) {
            count += 1;
        }
    }
    count
}

// Whether more Ties belong to a quota than it lets a plan have.
fn is_tied_over(book: &Book, quota: &Quota, marks: &Marks) -> bool
    requires { AreMarksOf book.now marks.now }
    ensures { IsTrue result ↔ IsTiedOver book.now marks.now.facts quota.now }
{
    ties_of(book, quota, marks) > quota.most
}

/// The first quota of which more are tied than it lets a plan have.
pub fn first_over(book: &Book, quotas: &[Quota], marks: &Marks) -> Option<u32>
    requires marks { AreMarksOf book.now marks.now }
    requires few { length quotas.now ≤ QUOTA_LIMIT }
    ensures none { IfNone result (HasNoneOver book.now marks.now.facts quotas.now) }
    ensures some { IfSome result (IsFirstOver book.now marks.now.facts quotas.now) }
{
    for q in 0..quotas.len() {
        if is_tied_over(book, &quotas[q], marks) {
            return Some(q as u32);
        }
    }
    None
}
