//! Whether numbers can be those of a route: they rise and are below the number of activities. A yes is promised to be
//! right, so that tests may hand the numbers to what asks for a rising route.

ghost use Rattle.std.specs.Prelude.{IsTrue};
ghost use Rattle.tail_book.specs.declared.place.Place.TheVariants.{Carry};
ghost use Rattle.tail_book.specs.inside.Rising.{IsRisingFrom};

use tail_book::Place;

/// Whether the numbers rise and are below n.
pub fn is_rising(route: &[u32], n: usize) -> bool
    ensures { IsTrue result → IsRisingFrom n Carry route.now }
{
    let mut from = Place::Carry;
    for q in 0..route.len() {
        let after = match from {
            Place::Carry => true,
            Place::After(x) => x < route[q],
        };
        if !after || route[q] as usize >= n {
            return false;
        }
        from = Place::After(route[q]);
    }
    true
}
