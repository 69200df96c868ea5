//! The counters of a label, as an event carries them: a row of at most as many numbers as a book has counters.
//!
//! The numbers lie in an array that is 0 past their end, so a row is copied without memory, and what stands past its end
//! never shows.

ghost use Rattle.std.specs.Prelude.{◌≡◌, ◌≤◌, length};
ghost use Rattle.std.specs.Ordering.{int_eq};
ghost use Rattle.std.specs.Cmp.Lexicographic.{pointwise};
ghost use Rattle.std.specs.Cmp.Rules.{comparing};
ghost use Rattle.std.proofs.Common.{rules};
ghost use Rattle.tail_book.specs.declared.limits.TheConstants.{COUNTER_LIMIT};

use std::marker::Model;
use tail_book::limits::COUNTER_LIMIT;

/// At most six numbers, one for each counter of a book. Contracts see the list of them.
#[derive(Clone, Copy, Debug)]
pub struct Row {
    count: u8,
    values: [i64; COUNTER_LIMIT],
}

impl Model for Row {
    ghost use Rattle.std.specs.Prelude.{ℤ, List};
    ghost use Rattle.branch_marks.specs.inside.RowParts.{IsPadded, values_of, parts_of, parts_of-values_of};

    ghost Value = { List ℤ };

    ghost view = { values_of };

    ghost invariant = { IsPadded };

    ghost inverse = { parts_of };

    ghost inverse_ok = { parts_of-values_of };
}

impl Row {
    /// The row of these numbers.
    pub fn new(values: &[i64]) -> Row
        requires { length values.now ≤ COUNTER_LIMIT }
        ensures { result ≡ values.now }
    {
        let mut all = [0i64; COUNTER_LIMIT];
        all[..values.len()].copy_from_slice(values);
        Row {
            count: values.len() as u8,
            values: all,
        }
    }

    /// Its numbers.
    pub fn as_slice(&self) -> &[i64]
        ensures { result.now ≡ self.now }
    {
        &self.values[..self.count as usize]
    }
}

impl PartialEq for Row {
    ghost eq = { pointwise int_eq };

    ghost laws = { Prim.search (comparing, rules) };

    fn eq(&self, other: &Row) -> bool {
        self.as_slice() == other.as_slice()
    }
}

impl Eq for Row {
    ghost laws = { Prim.search (comparing, rules) };
}
