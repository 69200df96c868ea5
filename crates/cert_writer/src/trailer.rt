//! The end of a certificate: who flies each activity, where there is a plan, and the claim. The fliers are found in one
//! pass over the routes, and kept as one number for each activity.

ghost use Rattle.std.specs.Prelude.{◌≡◌, ◌<◌, ◌^◌, ◌++◌, ◌∷◌, [], IfOk, OnOk, Some, length};
ghost use Rattle.tail_book.specs.Fliers.{fliers_of};
ghost use Rattle.cert_lines.specs.PlanLines.{plan_lines};
ghost use Rattle.cert_lines.specs.Text.{cert_text};
ghost use Rattle.cert_lines.specs.Grammar.{IsLine};
ghost use Rattle.cert_writer.specs.CertText.{line_text};
ghost use Rattle.cert_writer.specs.Trailer.{trailer_lines, IsSpelled};
ghost use Rattle.cert_writer.specs.inside.Noting.{NotesRoute};

use cert_lines::{CertLine, write_line};
use std::alloc::Global;
use tail_book::{Memory, Outcome, Route, claim_of};
use tail_text::Line;

/// Appends a line with its newline.
pub fn add_line(cert: &CertLine, line: &mut Line) -> Result<(), Memory>
    requires { IsLine cert.now }
    ensures { OnOk result (line.new ≡ line.old ++ line_text cert.now) }
{
    write_line(cert, line)?;
    line.text(b"\n")
}

// Notes aircraft k for an activity, where nobody is noted yet.
fn note(a: u32, k: u32, nobody: u32, fliers: &mut [u32])
    ensures { NotesRoute (a ∷ []) k nobody fliers.old fliers.new }
{
    let a = a as usize;
    if a < fliers.len() && fliers[a] == nobody {
        fliers[a] = k;
    }
}

// Notes aircraft k for each activity of its route for which nobody is noted yet.
fn note_route(route: &[u32], k: u32, nobody: u32, fliers: &mut [u32])
    ensures { NotesRoute route.now k nobody fliers.old fliers.new }
{
    for a in route {
        note(*a, k, nobody, fliers);
    }
}

// For each of n activities the first aircraft whose route has it, and the number of aircraft where none has.
fn fliers(alloc: Global, routes: &[Route], n: u32) -> Result<Vec<u32>, Memory>
    requires { length routes.now < 2 ^ 32 }
    ensures { IfOk result (λ fliers. fliers.items ≡ fliers_of routes.now n) }
{
    let nobody = routes.len() as u32;
    let mut fliers = vec![in alloc; nobody; n as usize]?;
    for k in 0..nobody {
        let route = &routes[k as usize];
        note_route(&route.0, k, nobody, &mut fliers);
    }
    Ok(fliers)
}

// Appends a plan: who flies each activity.
fn add_plan(fliers: &[u32], line: &mut Line) -> Result<(), Memory>
    requires { length fliers.now < 2 ^ 32 }
    ensures { OnOk result (line.new ≡ line.old ++ cert_text (plan_lines (Some fliers.now))) }
{
    add_line(&CertLine::Plan, line)?;
    for a in 0..fliers.len() as u32 {
        add_line(&CertLine::Fly(a, fliers[a as usize]), line)?;
    }
    Ok(())
}

/// Appends the lines that end a certificate of n activities and m aircraft.
pub fn add_trailer(
    alloc: Global,
    outcome: &Outcome,
    n: u32,
    m: u32,
    line: &mut Line,
) -> Result<(), Memory>
    requires { IsSpelled m outcome.now }
    ensures { OnOk result (line.new ≡ line.old ++ cert_text (trailer_lines n outcome.now)) }
{
    match outcome {
        Outcome::Optimal(plan, _) => add_plan(&fliers(alloc, &plan.0, n)?, line)?,
        Outcome::Between { plan, .. } => add_plan(&fliers(alloc, &plan.0, n)?, line)?,
        Outcome::Infeasible => {}
        Outcome::Above { .. } => {}
    }
    add_line(&CertLine::Claim(claim_of(outcome)), line)
}
