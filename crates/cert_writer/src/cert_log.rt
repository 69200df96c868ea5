//! A log that writes the events to a sink, as lines of a certificate.
//!
//! Lines wait until there are many, and the sink takes them as one piece: so a file is written for many lines at once. The log
//! tells a list where what the sink took and the lines that wait are together the header's line and the lines of the list.
//! It is torn where a piece failed: then the sink took a front of these lines and the next. Which events have a line is a
//! matter of the version.

ghost use Rattle.std.specs.Prelude.{◌≡◌, ◌≤◌, [], false, OnOk, OnErr, IsErrOf, IfSome, length};
ghost use Rattle.std.specs.Option.{option_to_list};
ghost use Rattle.tail_book.specs.Lookup.{activities, aircraft};
ghost use Rattle.tail_outside.specs.Outside.{PieceHasFailed, Takes, TakesFront};
ghost use Rattle.cert_lines.specs.Grammar.{IsLine};
ghost use Rattle.cert_lines.specs.Text.{cert_text};
ghost use Rattle.cert_lines.specs.Version.{number_of_version};
ghost use Rattle.cert_writer.specs.LogText.{end_text, header_text};
ghost use Rattle.cert_writer.specs.Trailer.{IsSpelled};
ghost use Rattle.cert_writer.specs.inside.Adding.{AddsFrontTo, AddsTo};
ghost use Rattle.cert_lines.specs.declared.cert_line.CertLine.TheVariants.{Header as HeaderLine};
ghost use Rattle.cert_lines.specs.declared.version.Version.TheVariants.{Full as FullVersion, Lean as LeanVersion};

use crate::event_lines::{in_cover_after, line_for};
use crate::trailer::{add_line, add_trailer};
use branch_marks::{Event, LogFail, TreeLog};
use cert_lines::{CertLine, Version};
use std::alloc::Global;
use tail_book::laws::every_book_is_sound;
use tail_book::{Book, Outcome};
use tail_outside::{Fault, Sink};
use tail_text::Line;

/// As soon as so many bytes wait, the sink takes them.
const PIECE: usize = 65_536;

/// A certificate that is being written.
#[derive(Drop)]
pub struct CertLog<S: Sink> {
    /// How many activities, aircraft and counters the book has.
    pub activities: u32,
    pub aircraft: u32,
    pub counters: u32,
    /// Whether leaves have covers or are lean.
    pub version: Version,
    /// Whether a cover is being told, so that labels that follow are its own.
    pub in_cover: bool,
    /// The lines that the sink has not taken yet.
    pub waiting: Line,
    /// Where the lines go.
    pub sink: S,
}

impl<S: Sink> CertLog<S> {
    /// A full certificate of the book, of which nothing is written yet. The line gives its room to those that wait.
    pub fn new(book: &Book, line: Line, sink: S) -> CertLog<S>
        ensures activities { result.activities ≡ activities book.now }
        ensures aircraft { result.aircraft ≡ aircraft book.now }
        ensures counters { result.counters ≡ length book.now.rules.counters }
        ensures version { result.version ≡ FullVersion }
        ensures outside { result.in_cover ≡ false }
        ensures none_wait { result.waiting ≡ [] }
        ensures sink { result.sink ≡ sink }
    {
        CertLog::of(Version::Full, book, line, sink)
    }

    /// The same, but lean: a bound leaf has its duals alone, and covers and their labels have no line.
    pub fn lean(book: &Book, line: Line, sink: S) -> CertLog<S>
        ensures activities { result.activities ≡ activities book.now }
        ensures aircraft { result.aircraft ≡ aircraft book.now }
        ensures counters { result.counters ≡ length book.now.rules.counters }
        ensures version { result.version ≡ LeanVersion }
        ensures outside { result.in_cover ≡ false }
        ensures none_wait { result.waiting ≡ [] }
        ensures sink { result.sink ≡ sink }
    {
        CertLog::of(Version::Lean, book, line, sink)
    }

    /// The same, of this version.
    pub fn of(version: Version, book: &Book, line: Line, sink: S) -> CertLog<S>
        ensures activities { result.activities ≡ activities book.now }
        ensures aircraft { result.aircraft ≡ aircraft book.now }
        ensures counters { result.counters ≡ length book.now.rules.counters }
        ensures version { result.version ≡ version }
        ensures outside { result.in_cover ≡ false }
        ensures none_wait { result.waiting ≡ [] }
        ensures sink { result.sink ≡ sink }
    {
        every_book_is_sound(book);
        let mut waiting = line;
        waiting.clear();
        CertLog {
            activities: book.activities.len() as u32,
            aircraft: book.tails.len() as u32,
            counters: book.rules.counters.len() as u32,
            version,
            in_cover: false,
            waiting,
            sink,
        }
    }

    /// Writes the header at once.
    pub fn begin(&mut self) -> Result<(), LogFail>
        ensures taken { OnOk result (Takes (S.shows self.old.sink) (S.shows self.new.sink) (header_text self.old)) }
        ensures front { OnErr result (TakesFront (S.shows self.old.sink) (S.shows self.new.sink) (header_text self.old)) }
        ensures none_wait { OnOk result (self.new.waiting ≡ []) }
        ensures outside { self.new.in_cover ≡ false }
        ensures beside { S.beside self.old.sink self.new.sink }
        ensures activities { self.new.activities ≡ self.old.activities }
        ensures aircraft { self.new.aircraft ≡ self.old.aircraft }
        ensures counters { self.new.counters ≡ self.old.counters }
        ensures version { self.new.version ≡ self.old.version }
        ensures ceases { (S.shows self.new.sink).ceased ≡ false → (S.shows self.old.sink).ceased ≡ false }
        ensures counts { (S.shows self.old.sink).faults ≤ (S.shows self.new.sink).faults }
        ensures cause { IsErrOf result LogFail.Write → PieceHasFailed (S.shows self.old.sink) (S.shows self.new.sink) }
    {
        let header = header_line(self.version, self.activities, self.aircraft, self.counters);
        self.in_cover = false;
        self.waiting.clear();
        if add_line(&header, &mut self.waiting).is_err() {
            return Err(LogFail::Memory);
        }
        put_all(&mut self.sink, &mut self.waiting)
    }

    /// Writes what waits, and behind it the plan of an outcome, where it has one, and its claim. All of it is one piece.
    pub fn finish(&mut self, alloc: Global, outcome: &Outcome) -> Result<(), LogFail>
        requires { IsSpelled self.old.aircraft outcome.now }
        ensures taken { OnOk result (Takes (S.shows self.old.sink) (S.shows self.new.sink) (end_text self.old outcome.now)) }
        ensures front { OnErr result (TakesFront (S.shows self.old.sink) (S.shows self.new.sink) (end_text self.old outcome.now)) }
        ensures beside { S.beside self.old.sink self.new.sink }
        ensures activities { self.new.activities ≡ self.old.activities }
        ensures aircraft { self.new.aircraft ≡ self.old.aircraft }
        ensures counters { self.new.counters ≡ self.old.counters }
        ensures version { self.new.version ≡ self.old.version }
        ensures ceases { (S.shows self.new.sink).ceased ≡ false → (S.shows self.old.sink).ceased ≡ false }
        ensures counts { (S.shows self.old.sink).faults ≤ (S.shows self.new.sink).faults }
        ensures cause { IsErrOf result LogFail.Write → PieceHasFailed (S.shows self.old.sink) (S.shows self.new.sink) }
    {
        if add_trailer(
            alloc,
            outcome,
            self.activities,
            self.aircraft,
            &mut self.waiting,
        )
        .is_err()
        {
            return Err(LogFail::Memory);
        }
        put_all(&mut self.sink, &mut self.waiting)
    }

    /// The sink as it stands.
    pub fn into_sink(self) -> S
        ensures { result ≡ self.sink }
    {
        let CertLog { sink, .. } = self;
        sink
    }
}

// The header of a certificate of so many activities, aircraft and counters.
fn header_line(version: Version, activities: u32, aircraft: u32, counters: u32) -> CertLine
    ensures header { result ≡ HeaderLine (number_of_version version) activities aircraft counters }
    ensures line { IsLine result }
{
    CertLine::Header {
        version: version.number(),
        n: activities,
        m: aircraft,
        c: counters,
    }
}

// Puts all that waits.
fn put_all<S: Sink>(sink: &mut S, waiting: &mut Line) -> Result<(), LogFail>
    ensures taken { OnOk result (Takes (S.shows sink.old) (S.shows sink.new) waiting.old) }
    ensures front { OnErr result (TakesFront (S.shows sink.old) (S.shows sink.new) waiting.old) }
    ensures none_wait { OnOk result (waiting.new ≡ []) }
    ensures beside { S.beside sink.old sink.new }
    ensures ceases { (S.shows sink.new).ceased ≡ false → (S.shows sink.old).ceased ≡ false }
    ensures counts { (S.shows sink.old).faults ≤ (S.shows sink.new).faults }
    ensures cause { IsErrOf result LogFail.Write → PieceHasFailed (S.shows sink.old) (S.shows sink.new) }
{
    match sink.put(waiting.bytes()) {
        Ok(()) => {
            waiting.clear();
            Ok(())
        }
        Err(Fault::Failed) => Err(LogFail::Write),
        Err(Fault::Memory) => Err(LogFail::Memory),
    }
}

// Adds a line to those that wait, if there is one. As soon as they are many, the sink takes all of them.
fn add<S: Sink>(cert: &Option<CertLine>, sink: &mut S, waiting: &mut Line) -> Result<(), LogFail>
    requires { IfSome cert.now IsLine }
    ensures added { OnOk result (AddsTo (S.shows sink.old) (S.shows sink.new) waiting.old waiting.new (cert_text (option_to_list cert.now))) }
    ensures front { OnErr result (AddsFrontTo (S.shows sink.old) (S.shows sink.new) waiting.old (cert_text (option_to_list cert.now))) }
    ensures beside { S.beside sink.old sink.new }
    ensures ceases { (S.shows sink.new).ceased ≡ false → (S.shows sink.old).ceased ≡ false }
    ensures counts { (S.shows sink.old).faults ≤ (S.shows sink.new).faults }
    ensures cause { IsErrOf result LogFail.Write → PieceHasFailed (S.shows sink.old) (S.shows sink.new) }
{
    let Some(cert) = cert else {
        return Ok(());
    };
    if add_line(cert, waiting).is_err() {
        return Err(LogFail::Memory);
    }
    if waiting.bytes().len() < PIECE {
        return Ok(());
    }
    put_all(sink, waiting)
}

impl<S: Sink> TreeLog for CertLog<S> {
    ghost use Rattle.std.specs.Prelude.{◌≡◌, refl, true};
    ghost use Rattle.std.proofs.Common.{◌∙◌};
    ghost use Rattle.cert_lines.specs.declared.cert_line.CertLine.TheVariants.{Header};
    ghost use Rattle.cert_lines.specs.Version.{number_of_version};
    ghost use Rattle.cert_writer.specs.CertText.{log_over};
    ghost use Rattle.cert_writer.specs.EventLines.{wants_labels_of};

    ghost shows = { λ c. log_over c.version c.in_cover (Header (number_of_version c.version) c.activities c.aircraft c.counters) (S.shows c.sink) c.waiting };

    // The version and the numbers of the header stay.
    ghost beside = { λ a b. S.beside a.sink b.sink × (b.activities ≡ a.activities) × (b.aircraft ≡ a.aircraft) × (b.counters ≡ a.counters)
        × (b.version ≡ a.version) };

    fn wants_events(&self) -> bool
        ensures all { result ≡ true }
    {
        true
    }

    // In a lean certificate no label of a cover has a line.
    fn wants_labels(&self) -> bool
        ensures exact { result ≡ wants_labels_of self.now.version }
    {
        matches!(self.version, Version::Full)
    }

    fn note(&mut self, event: &Event) -> Result<(), LogFail> {
        let line = line_for(self.version, self.in_cover, event);
        if let Err(fail) = add(&line, &mut self.sink, &mut self.waiting) {
            return Err(fail);
        }
        self.in_cover = in_cover_after(self.in_cover, event);
        Ok(())
    }

    ghost beside_same = { λ c. (S.beside_same c.sink, refl, refl, refl, refl) };

    ghost beside_chains = { λ a b c h k. (S.beside_chains a.sink b.sink c.sink h.0 k.0, k.1 ∙ h.1, k.2 ∙ h.2, k.3 ∙ h.3, k.4 ∙ h.4) };
}
