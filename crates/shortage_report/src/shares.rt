//! How many of the asked activities the aircraft can fly: all together, and each that can fly any.

ghost use Rattle.std.specs.Prelude.{◌≡◌, ◌<ℤ◌, ◌≤ℤ◌, ◌<◌, ◌++◌, ◌^◌, All, IfOk, OnOk, length, pos};
ghost use Rattle.tail_book.specs.Lookup.{aircraft};
ghost use Rattle.tail_book.specs.Sums.{total};
ghost use Rattle.shortage_report.specs.ShareText.{at_most_line, first_mark, share_text, shares_text};
ghost use Rattle.shortage_report.specs.inside.Told.{AreShares};

use std::alloc::Global;
use tail_book::{Book, Memory};
use tail_text::Line;

/// The line of the mosts of a book's aircraft.
pub fn at_most_line(alloc: Global, book: &Book, mosts: &[i64]) -> Result<Line, Memory>
    requires { AreShares book.now mosts.now }
    ensures { IfOk result (λ line. line ≡ at_most_line book.now mosts.now) }
{
    let mut line = Line::new(alloc)?;
    line.text(b"at most ")?;
    line.signed(total(mosts))?;
    add_shares(book, mosts, &mut line)?;
    line.text(b"\n")?;
    Ok(line)
}

// The sum of numbers of which none is negative.
fn total(list: &[i64]) -> i64
    requires none_below { All (λ z. pos 0 ≤ℤ z) list.now }
    requires small { total list.now <ℤ pos (2 ^ 63) }
    ensures { result ≡ total list.now }
{
    let mut sum = 0;
    for i in 0..list.len() {
        sum += list[i];
    }
    sum
}

// Each aircraft that has a most above 0, with it.
fn add_shares(book: &Book, mosts: &[i64], line: &mut Line) -> Result<(), Memory>
    requires { length mosts.now ≡ aircraft book.now }
    ensures { OnOk result (line.new ≡ line.old ++ shares_text book.now first_mark 0 mosts.now) }
{
    let mut mark = b": ".as_slice();
    for k in 0..mosts.len() {
        if mosts[k] != 0 {
            add_share(book, mark, k, mosts[k], line)?;
            mark = b", ".as_slice();
        }
    }
    Ok(())
}

fn add_share(book: &Book, mark: &[u8], k: usize, most: i64, line: &mut Line) -> Result<(), Memory>
    requires { k < aircraft book.now }
    ensures { OnOk result (line.new ≡ line.old ++ share_text book.now mark.now k most) }
{
    line.text(mark)?;
    line.text(book.tails[k].name.as_bytes())?;
    line.text(b" ")?;
    line.signed(most)
}
