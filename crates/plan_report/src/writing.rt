//! Lines that are written, and how that can fail.
//!
//! A write that failed shows in the sink's count, and want of memory shows nowhere, so the two are kept apart.

ghost use Rattle.std.specs.Prelude.{◌≡◌, ◌≤◌, false, OnOk, OnErr, IsErrOf};
ghost use Rattle.plan_report.specs.Lines.{text_of};
ghost use Rattle.tail_outside.specs.Outside.{PieceHasFailed, Takes, TakesFront};

use crate::lines::put_lines;
use tail_outside::{Fault, Sink};
use tail_text::Line;

/// Why a report or an audit was not written, or only a front of it.
#[derive(Clone, Copy, PartialEq, Eq, Debug)]
pub enum ReportFail {
    /// A write failed, and the sink's count of failed pieces has risen.
    Write,
    /// There was no memory for the text, or for a piece of it.
    Memory,
}

/// Puts the lines, one after the other, and says what failed.
pub fn write_lines<S: Sink>(lines: &[Line], out: &mut S) -> Result<(), ReportFail>
    ensures taken { OnOk result (Takes (S.shows out.old) (S.shows out.new) (text_of lines.now)) }
    ensures front { OnErr result (TakesFront (S.shows out.old) (S.shows out.new) (text_of lines.now)) }
    ensures beside { S.beside out.old out.new }
    ensures ceases { (S.shows out.new).ceased ≡ false → (S.shows out.old).ceased ≡ false }
    ensures counts { (S.shows out.old).faults ≤ (S.shows out.new).faults }
    ensures cause { IsErrOf result ReportFail.Write → PieceHasFailed (S.shows out.old) (S.shows out.new) }
{
    match put_lines(lines, out) {
        Ok(()) => Ok(()),
        Err(Fault::Failed) => Err(ReportFail::Write),
        Err(Fault::Memory) => Err(ReportFail::Memory),
    }
}
