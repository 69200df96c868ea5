//! Books by hand.

use branch_marks::Fact;
use small_books::{
    SmallActivity, bands, book, counters, flight, plain_book, there_and_back, two_at_once,
};
use std::alloc::Global;
use std::test::Fail;
use tail_book::*;

/// A book by hand.
#[derive(Clone, Copy)]
pub enum ByHand {
    /// No flight, and two aircraft.
    Empty,
    /// To airport 1 and back, for one aircraft with this turn. Half an hour is left for it.
    Alone(i64),
    /// The same for two aircraft, with enough of a turn.
    ThereAndBack,
    /// Two flights at once, of an hour and of two. A minute costs the first aircraft 1 and the second 2.
    AtOnce,
    /// There and back twice, with so many landings between stops of an hour at airport 0, and with ground time between that may
    /// set their counter to 0. A gap below an hour costs nothing, any other one 500.
    Twice(i64, bool),
    /// There and back twice without ground time and bands. So airport 0 has two windows for two flights that end there, and
    /// airport 1 has one.
    WithoutBands(i64),
    /// To airport 1 in one long flight, or over two airports in three short ones; then back, and out once more. One way takes
    /// too many minutes, the other too many landings, and a floor takes the lesser of each: so propagation sees a way and
    /// pricing none.
    TwoWays,
}

fn twice(alloc: Global, limit: i64, resets: bool) -> Result<Book, Fail> {
    let rows = [
        flight((0, 1), (360, 420)),
        flight((1, 0), (450, 510)),
        SmallActivity {
            flight: false,
            leg: (0, 0),
            time: (540, 585),
            resets,
        },
        flight((0, 1), (600, 660)),
        flight((1, 0), (690, 750)),
    ];
    let landings = counters(alloc, 0, &[(CounterKind::Landings, limit, 60)])?;
    let bands = bands(alloc, &[(59, 0), (10_000_000, 500)])?;
    book(alloc, &rows, &[0, 1], 30, landings, bands)
}

/// The facts that have the first aircraft fly all four flights of these.
pub const MUSTS: &[Fact] = &[
    Fact::Must(0, 0),
    Fact::Must(0, 1),
    Fact::Must(0, 3),
    Fact::Must(0, 4),
];

fn without_bands(alloc: Global, limit: i64) -> Result<Book, Fail> {
    let rows = [
        flight((0, 1), (360, 420)),
        flight((1, 0), (450, 510)),
        flight((0, 1), (600, 660)),
        flight((1, 0), (690, 750)),
    ];
    let landings = counters(alloc, 0, &[(CounterKind::Landings, limit, 60)])?;
    book(alloc, &rows, &[0, 1], 30, landings, Vec::new(alloc))
}

/// Limits of minutes and of landings, between long stops at airport 2.
pub fn tight(alloc: Global, minutes: i64, landings: i64) -> Result<Vec<Counter>, Memory> {
    let rows = [
        (CounterKind::Minutes, minutes, 10_000),
        (CounterKind::Landings, landings, 10_000),
    ];
    counters(alloc, 2, &rows)
}

fn two_ways(alloc: Global) -> Result<Book, Fail> {
    let rows = [
        flight((0, 1), (360, 480)),
        flight((0, 2), (360, 380)),
        flight((2, 3), (400, 420)),
        flight((3, 1), (440, 460)),
        flight((1, 0), (500, 520)),
        flight((0, 1), (540, 600)),
    ];
    let counters = tight(alloc, 190, 4)?;
    book(alloc, &rows, &[0, 0], 10, counters, Vec::new(alloc))
}

/// Makes a book by hand.
pub fn make(alloc: Global, by_hand: ByHand) -> Result<Book, Fail> {
    match by_hand {
        ByHand::Empty => plain_book(alloc, &[], &[0, 1], 30),
        ByHand::Alone(turn) => there_and_back(alloc, &[0], turn),
        ByHand::ThereAndBack => there_and_back(alloc, &[0, 1], 30),
        ByHand::AtOnce => two_at_once(alloc),
        ByHand::Twice(limit, resets) => twice(alloc, limit, resets),
        ByHand::WithoutBands(limit) => without_bands(alloc, limit),
        ByHand::TwoWays => two_ways(alloc),
    }
}
