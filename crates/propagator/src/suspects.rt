//! Links that may be dead since marks were shut.
//!
//! Where a connection is dead that was not, some aircraft went on over it before. A new fact took the link from it: the
//! facts are noted, a Bar, a Must and a Tie at the activities where links begin and end that they take, and a Must also
//! for the links over its activity. Or the aircraft comes to the first activity with another floor: then the activity is
//! flagged while floors are renewed. So a link is asked by two flags and a number, and most are passed over.

ghost use Rattle.std.specs.Prelude.{◌≡◌, ◌<◌, ◌≤◌, ℕ, All, IfSome, true, drop, length, slice_index_or};
ghost use Rattle.tail_book.specs.Lookup.{activities};
ghost use Rattle.branch_marks.specs.Facts.{IsFactOf};
ghost use Rattle.branch_marks.specs.inside.MarkTables.{AreMarksOf};
ghost use Rattle.propagator.specs.inside.Moves.{KeepsFlags};
ghost use Rattle.propagator.specs.inside.Suspects.{is_suspect, AreNoted, IsNoted, LowersPasses};
ghost use Rattle.propagator.specs.inside.Touching.{is_set};
ghost use Rattle.propagator.specs.inside.Work.{IsWorkOf};

use crate::flags::{clear, set, set_each};
use crate::work::Work;
use branch_marks::{Fact, Marks};
use tail_book::Book;

/// Whether a link may be dead.
pub fn is_suspect(a: u32, b: u32, leave: &[bool], arrive: &[bool], pass: &[u32]) -> bool
    requires leave { a < length leave.now }
    requires arrive { b < length arrive.now }
    requires pass { a < length pass.now }
    ensures { result ≡ is_suspect leave.now arrive.now pass.now a b }
{
    leave[a as usize] || arrive[b as usize] || pass[a as usize] < b
}

// Takes back what Musts were noted.
fn clear_passes(pass: &mut [u32]) {
    for least in pass.iter_mut() {
        *least = u32::MAX;
    }
}

// Notes a Must over which links may be dead.
fn note_over(c: u32, pass: &mut [u32])
    requires { c < length pass.old }
    ensures below { (a : ℕ) → a < c → slice_index_or pass.new a 0 ≤ c }
    ensures lowers { LowersPasses pass.old pass.new }
{
    for a in 0..c as usize {
        pass[a] = pass[a].min(c);
    }
}

// Notes the links from an activity, and those to one.
fn note_ends(c: u32, d: u32, leave: &mut [bool], arrive: &mut [bool])
    requires leave { c < length leave.old }
    requires arrive { d < length arrive.old }
    ensures leave { is_set leave.new c ≡ true }
    ensures arrive { is_set arrive.new d ≡ true }
    ensures leaves { KeepsFlags leave.old leave.new }
    ensures arrives { KeepsFlags arrive.old arrive.new }
{
    set(c, leave);
    set(d, arrive);
}

// Notes the links that a fact may have taken from somebody.
fn note(book: &Book, fact: Fact, leave: &mut [bool], arrive: &mut [bool], pass: &mut [u32])
    requires fact { IsFactOf book.now fact }
    requires leave { length leave.old ≡ activities book.now }
    requires arrive { length arrive.old ≡ activities book.now }
    requires pass { length pass.old ≡ activities book.now }
    ensures noted { IsNoted leave.new arrive.new pass.new fact }
    ensures leave { KeepsFlags leave.old leave.new }
    ensures arrive { KeepsFlags arrive.old arrive.new }
    ensures lowers { LowersPasses pass.old pass.new }
{
    match fact {
        Fact::Bar(_, c) => note_ends(c, c, leave, arrive),
        Fact::Must(_, c) => {
            note_ends(c, c, leave, arrive);
            note_over(c, pass);
        }
        Fact::Cut(_, _) => (),
        Fact::Tie(c, d) => note_ends(c, d, leave, arrive),
    }
}

// Notes the links that the facts behind so many may have taken from somebody.
fn note_since(
    book: &Book,
    marks: &Marks,
    seen: usize,
    leave: &mut [bool],
    arrive: &mut [bool],
    pass: &mut [u32],
)
    requires facts { All (IsFactOf book.now) marks.now.facts }
    requires seen { seen ≤ length marks.now.facts }
    requires leave { length leave.old ≡ activities book.now }
    requires arrive { length arrive.old ≡ activities book.now }
    requires pass { length pass.old ≡ activities book.now }
    ensures noted { All (IsNoted leave.new arrive.new pass.new) (drop seen marks.now.facts) }
    ensures leave { KeepsFlags leave.old leave.new }
{
    for i in seen..marks.mark() {
        note(book, marks.fact_at(i), leave, arrive, pass);
    }
}

/// Flags the links that may be dead since so many of the facts were shut: all, where nothing was seen. Floors that moved
/// are flagged already.
pub fn suspect_links(book: &Book, marks: &Marks, seen: Option<usize>, work: &mut Work)
    requires marks { AreMarksOf book.now marks.now }
    requires seen { IfSome seen (λ n. n ≤ length marks.now.facts) }
    requires work { IsWorkOf book.now work.old }
    ensures work { IsWorkOf book.now work.new }
    ensures noted { AreNoted marks.now.facts seen work.old.leave.items work.new.leave.items work.new.arrive.items work.new.pass.items }
{
    marks.facts_are_of_book(book);
    match seen {
        None => set_each(&mut work.leave),
        Some(n) => {
            clear(&mut work.arrive);
            clear_passes(&mut work.pass);
            note_since(
                book,
                marks,
                n,
                &mut work.leave,
                &mut work.arrive,
                &mut work.pass,
            );
        }
    }
}
