//! Lines, one put each.
//!
//! The first put that fails is the last one. So a sink has taken the lines before it and a front of that one: a front
//! of the whole text.

ghost use Rattle.std.specs.Prelude.{◌≡◌, ◌≤◌, false, OnOk, OnErr, IsErrOf};
ghost use Rattle.plan_report.specs.Lines.{text_of};
ghost use Rattle.tail_outside.specs.Outside.{PieceHasFailed, Takes, TakesFront};

use tail_outside::{Fault, Sink};
use tail_text::Line;

/// Puts the lines, one after the other.
pub fn put_lines<S: Sink>(lines: &[Line], out: &mut S) -> Result<(), Fault>
    ensures taken { OnOk result (Takes (S.shows out.old) (S.shows out.new) (text_of lines.now)) }
    ensures front { OnErr result (TakesFront (S.shows out.old) (S.shows out.new) (text_of lines.now)) }
    ensures beside { S.beside out.old out.new }
    ensures ceases { (S.shows out.new).ceased ≡ false → (S.shows out.old).ceased ≡ false }
    ensures counts { (S.shows out.old).faults ≤ (S.shows out.new).faults }
    ensures cause { IsErrOf result Fault.Failed → PieceHasFailed (S.shows out.old) (S.shows out.new) }
{
    for line in lines {
        if let Err(fault) = out.put(line.bytes()) {
            return Err(fault);
        }
    }
    Ok(())
}
