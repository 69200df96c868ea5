//! Which Bars, Musts and Cuts there are: a bit for each that could be.
//!
//! Bars and Musts stand in a row for each aircraft, Cuts in a row for each activity: so the next Must behind a place,
//! and the Cuts behind an activity, are found in order.

ghost use Rattle.std.specs.Prelude.{◌≡◌, ◌<◌, ◌&&◌, ◌||◌, nat_eq, not};
ghost use Rattle.tail_book.specs.Lookup.{activities, aircraft};
ghost use Rattle.branch_marks.specs.inside.BitRows.{AreChanged};
ghost use Rattle.branch_marks.specs.Facts.{IsFactOf};
ghost use Rattle.branch_marks.specs.inside.MarkTables.{IsFactWithin, NamesBelow, is_bar, is_cut, is_must};

use crate::Fact;
use crate::bit_rows::BitRows;
use tail_book::Book;

/// Notes a fact among the Bars.
pub fn note_bar(book: &Book, bars: &mut BitRows, fact: Fact)
    requires fact { IsFactOf book.now fact }
    requires rows { bars.old.rows ≡ aircraft book.now }
    requires columns { bars.old.columns ≡ activities book.now }
    ensures { AreChanged (λ k a had. had || is_bar k a fact) bars.old bars.new }
{
    match fact {
        Fact::Bar(k, a) => bars.put(k as usize, a as usize),
        Fact::Must(_, _) | Fact::Cut(_, _) | Fact::Tie(_, _) => (),
    }
}

/// Notes a fact among the Musts.
pub fn note_must(book: &Book, musts: &mut BitRows, fact: Fact)
    requires fact { IsFactOf book.now fact }
    requires rows { musts.old.rows ≡ aircraft book.now }
    requires columns { musts.old.columns ≡ activities book.now }
    ensures { AreChanged (λ k a had. had || is_must k a fact) musts.old musts.new }
{
    match fact {
        Fact::Must(k, a) => musts.put(k as usize, a as usize),
        Fact::Bar(_, _) | Fact::Cut(_, _) | Fact::Tie(_, _) => (),
    }
}

/// Notes a fact among the Cuts.
pub fn note_cut(book: &Book, cuts: &mut BitRows, fact: Fact)
    requires fact { IsFactOf book.now fact }
    requires rows { cuts.old.rows ≡ activities book.now }
    requires columns { cuts.old.columns ≡ activities book.now }
    ensures { AreChanged (λ a b had. had || is_cut a b fact) cuts.old cuts.new }
{
    match fact {
        Fact::Cut(a, b) => cuts.put(a as usize, b as usize),
        Fact::Bar(_, _) | Fact::Must(_, _) | Fact::Tie(_, _) => (),
    }
}

// Takes a pair away.
fn take_away(table: &mut BitRows, row: u32, column: u32)
    requires row { row < table.old.rows }
    requires column { column < table.old.columns }
    ensures { AreChanged (λ r c had. had && not (nat_eq r row && nat_eq c column)) table.old table.new }
{
    table.remove(row as usize, column as usize);
}

/// Takes a fact back, which the others do not have, among the Bars.
pub fn undo_bar(bars: &mut BitRows, fact: Fact)
    requires { IsFactWithin bars.old.rows bars.old.columns fact }
    ensures { AreChanged (λ k a had. had && not (is_bar k a fact)) bars.old bars.new }
{
    match fact {
        Fact::Bar(k, a) => take_away(bars, k, a),
        Fact::Must(_, _) | Fact::Cut(_, _) | Fact::Tie(_, _) => (),
    }
}

/// Takes a fact back, which the others do not have, among the Musts.
pub fn undo_must(musts: &mut BitRows, fact: Fact)
    requires { IsFactWithin musts.old.rows musts.old.columns fact }
    ensures { AreChanged (λ k a had. had && not (is_must k a fact)) musts.old musts.new }
{
    match fact {
        Fact::Must(k, a) => take_away(musts, k, a),
        Fact::Bar(_, _) | Fact::Cut(_, _) | Fact::Tie(_, _) => (),
    }
}

/// Takes a fact back, which the others do not have, among the Cuts.
pub fn undo_cut(cuts: &mut BitRows, fact: Fact)
    requires rows { NamesBelow cuts.old.rows fact }
    requires columns { cuts.old.columns ≡ cuts.old.rows }
    ensures { AreChanged (λ a b had. had && not (is_cut a b fact)) cuts.old cuts.new }
{
    match fact {
        Fact::Cut(a, b) => take_away(cuts, a, b),
        Fact::Bar(_, _) | Fact::Must(_, _) | Fact::Tie(_, _) => (),
    }
}
