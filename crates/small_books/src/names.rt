//! Names for whatever stands in a small book: ten of them, so that no list of it that takes its names here is longer.

use tail_book::Name;

/// Ten names in order.
pub fn names_in_order() -> [Name; 10] {
    [
        Name::new(b"0".as_slice()),
        Name::new(b"1".as_slice()),
        Name::new(b"2".as_slice()),
        Name::new(b"3".as_slice()),
        Name::new(b"4".as_slice()),
        Name::new(b"5".as_slice()),
        Name::new(b"6".as_slice()),
        Name::new(b"7".as_slice()),
        Name::new(b"8".as_slice()),
        Name::new(b"9".as_slice()),
    ]
}
