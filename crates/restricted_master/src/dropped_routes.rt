//! Dropping the routes that marks rule out.
//!
//! What stays keeps its order and moves to the front, entry by entry. The activities of dropped routes stay where they
//! are, and nothing refers to them.

ghost use Rattle.std.specs.Prelude.{◌≡◌, ◌<◌, All, filter, length};
ghost use Rattle.tail_book.specs.Lookup.{aircraft};
ghost use Rattle.branch_marks.specs.Pool.{Pooled};
ghost use Rattle.branch_marks.specs.inside.MarkTables.{AreMarksOf};
ghost use Rattle.restricted_master.specs.declared.entry.Entry.{Entry};
ghost use Rattle.restricted_master.specs.Keeping.{fits_entry, KeepsFitting};
ghost use Rattle.restricted_master.specs.inside.Flat.{pooled_in, LiesWithin};

use crate::Pool;
use crate::entry::Entry;
use crate::index::clear_all;
use branch_marks::Marks;
use tail_book::Book;

// Whether an entry's route fits.
fn fits(book: &Book, marks: &Marks, activities: &[u32], entry: &Entry) -> bool
    requires marks { AreMarksOf book.now marks.now }
    requires aircraft { entry.now.aircraft < aircraft book.now }
    requires within { LiesWithin (length activities.now) entry.now }
    ensures { result ≡ fits_entry book.now marks.now.facts (pooled_in activities.now entry.now) }
{
    marks.fits(book, entry.aircraft, &activities[entry.start..entry.end])
}

// Lets the entries go whose routes do not fit. What stays keeps its order.
fn keep(book: &Book, marks: &Marks, activities: &[u32], entries: &mut Vec<Entry>)
    requires marks { AreMarksOf book.now marks.now }
    requires aircraft { All (λ (entry : Entry). entry.aircraft < aircraft book.now) entries.old.items }
    requires within { All (LiesWithin (length activities.now)) entries.old.items }
    ensures { entries.new.items ≡ filter (λ (entry : Entry). fits_entry book.now marks.now.facts (pooled_in activities.now entry)) entries.old.items }
{
    let mut kept = 0;
    for q in 0..entries.len() {
        let entry = entries[q];
        if fits(book, marks, activities, &entry) {
            entries[kept] = entry;
            kept += 1;
        }
    }
    entries.truncate(kept);
}

impl Pool {
    /// Drops the routes that do not fit the marks.
    pub fn keep_fitting(&mut self, book: &Book, marks: &Marks)
        requires marks { AreMarksOf book.now marks.now }
        requires aircraft { All (λ (entry : Pooled). entry.aircraft < aircraft book.now) self.old.entries }
        ensures { KeepsFitting book.now marks.now.facts self.old self.new }
    {
        keep(book, marks, &self.activities, &mut self.entries);
        self.listed = 0;
        clear_all(&mut self.lists);
    }
}
