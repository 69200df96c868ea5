//! The table by which nothing costs anything, so that duals alone make a weight.

ghost use Rattle.std.specs.Prelude.{◌≡◌, IfOk};
ghost use Rattle.tail_book.specs.CostTable.{IsTableFor};
ghost use Rattle.plan_shortage.specs.inside.Pricing.{costless};

use std::alloc::Global;
use tail_book::laws::every_book_is_sound;
use tail_book::{Book, CostTable, Memory};

/// The table for a book by which nothing costs anything. Its box of duals is a cost unit to either side of 0.
pub fn costless(alloc: Global, book: &Book) -> Result<CostTable, Memory>
    ensures table { IfOk result (λ table. table ≡ costless book.now) }
    ensures is_for { IfOk result (IsTableFor book.now) }
{
    every_book_is_sound(book);
    let (n, m) = (book.activities.len(), book.tails.len());
    let fly = vec![in alloc; 0; n * m]?;
    Ok(CostTable {
        n,
        m,
        fly,
        bands: Vec::new(alloc),
        fly_max: 0,
        band_max: 0,
    })
}
