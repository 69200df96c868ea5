//! The report of an outcome, line by line.
//!
//! With a plan that flies nothing twice it is a plan file too: read back, it gives the names of that plan, by a law. So
//! what the planner prints can be judged by the checker as it is.

ghost use Rattle.std.specs.Prelude.{◌≡◌, ◌++◌, ◌<◌, ◌≤◌, false, IfOk, OnOk, OnErr, IsErrOf, All, codes};
ghost use Rattle.tail_book.specs.Lookup.{activities, activity_of, aircraft};
ghost use Rattle.tail_outside.specs.Outside.{PieceHasFailed, Takes, TakesFront};
ghost use Rattle.plan_report.specs.inside.Report.{HasPlanFor, IsPlanFor};
ghost use Rattle.plan_report.specs.Report.{aircraft_line, aircraft_lines, first_line, ids_of, report, report_lines};

use crate::writing::{ReportFail, write_lines};
use std::alloc::Global;
use tail_book::{Book, Memory, Outcome, Route, claim_of};
use tail_outside::Sink;
use tail_text::{Line, add_claim};

/// Writes the report of an outcome, one put a line: what was found, and with a plan a line for each aircraft.
/// All lines are made before the first is put.
pub fn write_report<S: Sink>(
    alloc: Global,
    book: &Book,
    outcome: &Outcome,
    out: &mut S,
) -> Result<(), ReportFail>
    requires { HasPlanFor book.now outcome.now }
    ensures taken { OnOk result (Takes (S.shows out.old) (S.shows out.new) (report book.now outcome.now)) }
    ensures front { OnErr result (TakesFront (S.shows out.old) (S.shows out.new) (report book.now outcome.now)) }
    ensures beside { S.beside out.old out.new }
    ensures ceases { (S.shows out.new).ceased ≡ false → (S.shows out.old).ceased ≡ false }
    ensures counts { (S.shows out.old).faults ≤ (S.shows out.new).faults }
    ensures cause { IsErrOf result ReportFail.Write → PieceHasFailed (S.shows out.old) (S.shows out.new) }
{
    let Ok(lines) = report_lines(alloc, book, outcome) else {
        return Err(ReportFail::Memory);
    };
    write_lines(&lines, out)
}

fn report_lines(alloc: Global, book: &Book, outcome: &Outcome) -> Result<Vec<Line>, Memory>
    requires { HasPlanFor book.now outcome.now }
    ensures { IfOk result (λ lines. lines.items ≡ report_lines book.now outcome.now) }
{
    let mut lines = Vec::new(alloc);
    lines.push(first_line(alloc, outcome)?)?;
    match outcome {
        Outcome::Optimal(plan, _) => add_aircraft(alloc, book, &plan.0, &mut lines)?,
        Outcome::Between { plan, .. } => add_aircraft(alloc, book, &plan.0, &mut lines)?,
        Outcome::Infeasible => {}
        Outcome::Above { .. } => {}
    }
    Ok(lines)
}

/// The line that says what was found, in cost units, without a plan.
pub fn first_line(alloc: Global, outcome: &Outcome) -> Result<Line, Memory>
    ensures { IfOk result (λ line. line ≡ first_line outcome.now) }
{
    let mut line = Line::new(alloc)?;
    add_claim(&claim_of(outcome), &mut line)?;
    line.text(b"\n")?;
    Ok(line)
}

/// Adds a line for each aircraft: its name and the ids of what it flies.
pub fn add_aircraft(
    alloc: Global,
    book: &Book,
    routes: &[Route],
    lines: &mut Vec<Line>,
) -> Result<(), Memory>
    requires { IsPlanFor book.now routes.now }
    ensures { OnOk result (lines.new.items ≡ lines.old.items ++ aircraft_lines book.now 0 routes.now) }
{
    for k in 0..routes.len() {
        lines.push(aircraft_line(alloc, book, k, &routes[k])?)?;
    }
    Ok(())
}

fn aircraft_line(alloc: Global, book: &Book, k: usize, route: &Route) -> Result<Line, Memory>
    requires aircraft { k < aircraft book.now }
    requires activities { All (λ a. a < activities book.now) route.now }
    ensures { IfOk result (λ line. line ≡ aircraft_line book.now k route.now) }
{
    let mut line = Line::new(alloc)?;
    line.text(book.tails[k].name.as_bytes())?;
    line.text(b":")?;
    add_ids(book, &route.0, &mut line)?;
    line.text(b"\n")?;
    Ok(line)
}

fn add_ids(book: &Book, route: &[u32], line: &mut Line) -> Result<(), Memory>
    requires { All (λ a. a < activities book.now) route.now }
    ensures { OnOk result (line.new ≡ line.old ++ ids_of book.now route.now) }
{
    for a in route {
        add_id(book, *a, line)?;
    }
    Ok(())
}

fn add_id(book: &Book, a: u32, line: &mut Line) -> Result<(), Memory>
    requires { a < activities book.now }
    ensures { OnOk result (line.new ≡ line.old ++ codes " " ++ (activity_of book.now a).id) }
{
    line.text(b" ")?;
    line.text(book.activities[a as usize].id.as_bytes())
}
