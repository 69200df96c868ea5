//! What may be asked of a book under marks, by duals. The book's network, the marks and the duals are made here, one by one.

ghost use Rattle.std.specs.Prelude.{◌<◌, IsTrue};
ghost use Rattle.tail_book.specs.Lookup.{aircraft};
ghost use Rattle.tail_book.specs.CostTable.{IsTableFor};
ghost use Rattle.branch_marks.specs.Settled.{AreDuals};
ghost use Rattle.branch_marks.specs.inside.MarkTables.{AreMarksOf};
ghost use Rattle.plan_finder.specs.Problem.{IsProblem};

use super::books::{ByHand, make};
use super::questions::{Question, make_question};
use branch_marks::{Fact, Marks};
use connection_net::Net;
use plan_finder::Problem;
use small_books::{are_duals, costs, duals_of, marks};
use std::alloc::Global;
use std::test::Fail;
use tail_book::*;

/// What is asked, and how it is answered.
pub trait Ask {
    type Answer;

    fn answer(
        &self,
        alloc: Global,
        problem: &Problem,
        marks: &Marks,
        duals: &Duals,
    ) -> Result<Self::Answer, Memory>
        requires problem { IsProblem problem.now }
        requires marks { AreMarksOf problem.now.book.now marks.now }
        requires duals { AreDuals problem.now.table.now problem.now.book.now duals.now.values };
}

/// Whether the book has an aircraft of this number.
pub fn has_aircraft(book: &Book, k: u32) -> bool
    ensures { IsTrue result → k < aircraft book.now }
{
    (k as usize) < book.tails.len()
}

fn by_duals<A: Ask>(
    alloc: Global,
    problem: &Problem,
    marks: &Marks,
    duals: &[i64],
    ask: &A,
) -> Result<Option<A::Answer>, Memory>
    requires problem { IsProblem problem.now }
    requires marks { AreMarksOf problem.now.book.now marks.now }
{
    let duals = duals_of(alloc, duals)?;
    if !are_duals(problem.book, problem.table, &duals) {
        return Ok(None);
    }
    match ask.answer(alloc, problem, marks, &duals) {
        Ok(answer) => Ok(Some(answer)),
        Err(error) => Err(error),
    }
}

fn under_facts<A: Ask>(
    alloc: Global,
    problem: &Problem,
    facts: &[Fact],
    duals: &[i64],
    ask: &A,
) -> Result<Option<A::Answer>, Memory>
    requires { IsProblem problem.now }
{
    let marks = marks(alloc, problem.book, facts)?;
    by_duals(alloc, problem, &marks, duals, ask)
}

/// The answer by a table of costs, with marks of these facts and these duals; nothing where the duals are not in the box.
pub fn by_table<A: Ask>(
    alloc: Global,
    book: &Book,
    table: &CostTable,
    facts: &[Fact],
    duals: &[i64],
    ask: &A,
) -> Result<Option<A::Answer>, Memory>
    requires { IsTableFor book.now table.now }
{
    let net = Net::new(alloc, book)?;
    let problem = Problem {
        book,
        table,
        net: &net,
    };
    under_facts(alloc, &problem, facts, duals, ask)
}

/// The same by the book's own costs.
pub fn answer<A: Ask>(
    alloc: Global,
    book: &Book,
    facts: &[Fact],
    duals: &[i64],
    ask: &A,
) -> Result<Option<A::Answer>, Memory> {
    let table = costs(alloc, book)?;
    by_table(alloc, book, &table, facts, duals, ask)
}

/// The same of a question.
pub fn answer_to<A: Ask>(
    alloc: Global,
    asked: &Question,
    ask: &A,
) -> Result<Option<A::Answer>, Memory> {
    answer(alloc, &asked.book, &asked.facts, &asked.duals, ask)
}

/// The same of the question of a seed.
pub fn answer_by_chance<A: Ask>(
    alloc: Global,
    seed: u64,
    ask: &A,
) -> Result<Option<A::Answer>, Fail> {
    let asked = make_question(alloc, seed)?;
    Ok(answer_to(alloc, &asked, ask)?)
}

/// A book by hand, facts and duals, and what is claimed of them.
pub type Case<A> = (ByHand, &'static [Fact], &'static [i64], A);

fn holds<A: Ask<Answer = bool>>(alloc: Global, case: &Case<A>) -> Result<bool, Fail> {
    let (by_hand, facts, duals, claim) = case;
    let book = make(alloc, *by_hand)?;
    Ok(answer(alloc, &book, facts, duals, claim)? == Some(true))
}

/// The number of the first case whose claim does not hold.
pub fn first_wrong<A: Ask<Answer = bool>>(
    alloc: Global,
    cases: &[Case<A>],
) -> Result<Option<usize>, Fail> {
    for (number, case) in cases.iter().enumerate() {
        if !holds(alloc, case)? {
            return Ok(Some(number));
        }
    }
    Ok(None)
}

/// How an answer by chance compares with all routes: it is not what they say; or it is, and there is none, a small one or a
/// large one.
#[derive(Clone, Copy)]
pub enum Judged {
    Wrong,
    Nothing,
    Small,
    Large,
}

/// How many answers by chance are nothing, and how many are large. The first wrong one by its seed and its aircraft.
#[derive(Clone, Copy)]
pub struct Tally {
    pub wrong: Option<(u64, u32)>,
    pub nothing: u32,
    pub large: u32,
}

impl Tally {
    /// Of no answer.
    pub fn new() -> Tally {
        Tally {
            wrong: None,
            nothing: 0,
            large: 0,
        }
    }

    /// Counts an answer.
    pub fn add(&mut self, seed: u64, k: u32, judged: Option<Judged>) {
        match judged {
            None | Some(Judged::Wrong) => {
                if self.wrong.is_none() {
                    self.wrong = Some((seed, k));
                }
            }
            Some(Judged::Nothing) => self.nothing = self.nothing.saturating_add(1),
            Some(Judged::Small) => (),
            Some(Judged::Large) => self.large = self.large.saturating_add(1),
        }
    }
}

/// Whether answers of which memory may fail one are right but for that.
pub fn are_right(answers: &[Option<bool>]) -> bool {
    let mut short = 0u32;
    for answer in answers {
        match answer {
            Some(true) => (),
            Some(false) => return false,
            None => short = short.saturating_add(1),
        }
    }
    short < 2
}
