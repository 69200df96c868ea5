//! Which line an event has in a certificate, if any. In a full one each event has its own. In a lean one a bound leaf has its
//! duals alone, so its covers and their labels have none. Labels of a stuck leaf stay: they show that no legal route fits,
//! and no dual says so.

ghost use Rattle.std.specs.Prelude.{◌≡◌, IfSome};
ghost use Rattle.branch_marks.specs.Events.{IsNotable};
ghost use Rattle.cert_lines.specs.Grammar.{IsLine};
ghost use Rattle.cert_writer.specs.EventLines.{in_cover_after, lean_line, line_for};

use branch_marks::Event;
use cert_lines::{CertLine, Version};

/// Whether a label that comes behind this event is a cover's, where it was so of one in its place.
pub fn in_cover_after(in_cover: bool, event: &Event) -> bool
    ensures { result ≡ in_cover_after in_cover event.now }
{
    match event {
        Event::Label { .. } => in_cover,
        Event::Cover(_, _) => true,
        _ => false,
    }
}

// The line of an event in a lean certificate.
fn lean_line(in_cover: bool, event: &Event) -> Option<CertLine>
    requires { IsNotable event.now }
    ensures line { result ≡ lean_line in_cover event.now }
    ensures spelled { IfSome result IsLine }
{
    match event {
        Event::Bound => Some(CertLine::Lean),
        Event::Cover(_, _) => None,
        Event::Label { .. } if in_cover => None,
        _ => Some(CertLine::Event(*event)),
    }
}

/// The line of an event, where labels are a cover's or not.
pub fn line_for(version: Version, in_cover: bool, event: &Event) -> Option<CertLine>
    requires { IsNotable event.now }
    ensures line { result ≡ line_for version in_cover event.now }
    ensures spelled { IfSome result IsLine }
{
    match version {
        Version::Full => Some(CertLine::Event(*event)),
        Version::Lean => lean_line(in_cover, event),
    }
}
