//! What is printed of a certificate: one line, for an accepted one its claim, and for any other its first failure.

ghost use Rattle.std.specs.Prelude.{◌≡◌, ◌++◌, IfOk, OnOk, decimal};
ghost use Rattle.tailcheck.specs.VerdictText.{too_long_line, verdict_line};

use cert_checker::{Verdict, reason_name};
use std::alloc::Global;
use tail_book::Memory;
use tail_text::{Line, add_claim};

/// The line of a verdict.
pub fn verdict_line(alloc: Global, verdict: &Verdict) -> Result<Line, Memory>
    ensures { IfOk result (λ line. line ≡ verdict_line verdict.now) }
{
    let mut line = Line::new(alloc)?;
    match verdict {
        Verdict::Yes(claim) => {
            line.text(b"yes ")?;
            add_claim(claim, &mut line)?;
        }
        Verdict::No { line: at, reason } => {
            add_number(b"no ", *at, &mut line)?;
            line.text(b" ")?;
            line.text(reason_name(*reason))?;
        }
    }
    line.text(b"\n")?;
    Ok(line)
}

/// The line for a certificate that is too long.
pub fn too_long_line(alloc: Global) -> Result<Line, Memory>
    ensures { IfOk result (λ line. line ≡ too_long_line) }
{
    let mut line = Line::new(alloc)?;
    line.text(b"toolong\n")?;
    Ok(line)
}

fn add_number(front: &[u8], number: u64, line: &mut Line) -> Result<(), Memory>
    ensures { OnOk result (line.new ≡ line.old ++ front.now ++ decimal number) }
{
    line.text(front)?;
    line.unsigned(number)
}
