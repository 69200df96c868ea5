//! The activities that no route of a plan has, by number.
//!
//! Reading the names has set a mark at each activity that a route has, so one pass over the marks finds the others.

ghost use Rattle.std.specs.Prelude.{◌≡◌, ◌<◌, ◌++◌, ◌∷◌, [], map, filter, not, IfOk};
ghost use Rattle.tail_book.specs.Lookup.{activities};
ghost use Rattle.tail_book.specs.Numbers.{contains};
ghost use Rattle.plan_audit.specs.Met.{activities_met};
ghost use Rattle.plan_audit.specs.inside.MetNames.{AreMetNamesOf};
ghost use Rattle.plan_audit.specs.Rules.{uncovered};

use crate::broken::Broken;
use crate::met_names::MetNames;
use tail_book::laws::every_book_is_sound;
use tail_book::{Book, Memory};

/// Whether a route has an activity.
fn is_flown(book: &Book, met_names: &MetNames, a: usize) -> bool
    requires met_names { AreMetNamesOf book.now met_names.now }
    requires activity { a < activities book.now }
    ensures { result ≡ contains (activities_met met_names.now.met.items) a }
{
    met_names.activities[a]
}

fn add_unless_flown(a: u32, flown: bool, list: &mut Vec<Broken>) -> Result<(), Memory>
    ensures { IfOk result (λ _. list.new.items ≡ list.old.items ++ map Broken.Uncovered (filter (λ _. not flown) (a ∷ []))) }
{
    if !flown {
        list.push(Broken::Uncovered(a))?;
    }
    Ok(())
}

/// Adds the activities that no route has.
pub fn add_uncovered(
    book: &Book,
    met_names: &MetNames,
    list: &mut Vec<Broken>,
) -> Result<(), Memory>
    requires { AreMetNamesOf book.now met_names.now }
    ensures { IfOk result (λ _. list.new.items ≡ list.old.items ++ uncovered book.now met_names.now.met.items) }
{
    every_book_is_sound(book);
    for a in 0..book.activities.len() {
        add_unless_flown(a as u32, is_flown(book, met_names, a), list)?;
    }
    Ok(())
}
