//! What ends at an airport, and the windows of its stays: made once for a book, and judged when it is made.
//!
//! Lists and windows are put together in any way, and a test that goes over them says whether they are what the lines
//! stand on: all flights that end there in order of their ends, all ground time there, and windows that join and in which
//! no band ends and no stop is reached. Only with such an airport do labels wait in lines.

ghost use Rattle.std.specs.Prelude.{ℕ, ◌≡◌, ◌<◌, ◌≤◌, ◌+◌, ◌≤ℤ◌, ◌⊎◌, pos, All, Contains, IsTrue, length, slice_index_or};
ghost use Rattle.tail_book.specs.Lookup.{activities, end_of};
ghost use Rattle.tail_book.specs.Numbers.{contains};
ghost use Rattle.pricing.specs.inside.Lines.{EndsOutside, StopsOutside, clears};
ghost use Rattle.pricing.specs.inside.Waiting.{AreCleared, AreFlights, AreWindows, EndsRise, IsArrival, IsWindowOf, window_at};
ghost use Rattle.pricing.specs.inside.Airports.{AreGrounds, IsGround};

use crate::waiting::Waiting;
use crate::window::Window;
use tail_book::{Band, Book, Counter, end_of};

/// The lines of an airport: the flights that end there, in order of their ends, the ground time there, the windows of its stays,
/// how many flights have entered the line of each, and what waits there.
#[derive(Drop)]
pub struct AirportLines {
    pub flights: Vec<u32>,
    pub grounds: Vec<u32>,
    pub windows: Vec<Window>,
    pub entered: Vec<usize>,
    pub waiting: Waiting,
}

// Whether a band ends before a window, or not within it.
fn ends_outside(band: &Band, lo: i64, hi: i64) -> bool
    requires { pos 0 ≤ℤ hi }
    ensures { IsTrue result → EndsOutside lo hi band.now }
{
    band.upto < lo || hi - 1 <= band.upto
}

fn all_end_outside(bands: &[Band], lo: i64, hi: i64) -> bool
    requires { pos 0 ≤ℤ hi }
    ensures { IsTrue result → All (EndsOutside lo hi) bands.now }
{
    for i in 0..bands.len() {
        if !ends_outside(&bands[i], lo, hi) {
            return false;
        }
    }
    true
}

// Whether a stop is reached by the beginning of a window, or not within it.
fn is_outside(stop: i64, lo: i64, hi: i64) -> bool
    ensures { IsTrue result → (stop ≤ℤ lo) ⊎ (hi ≤ℤ stop) }
{
    stop <= lo || hi <= stop
}

// Whether a counter has a base at an airport.
fn is_based(counter: &Counter, port: u32) -> bool
    ensures { result ≡ contains counter.now.bases port }
{
    counter.bases.contains(&port)
}

// Whether a counter's stop at an airport is reached by the beginning of a window, or not within it.
fn stops_outside(counter: &Counter, port: u32, lo: i64, hi: i64) -> bool
    ensures { IsTrue result → StopsOutside port lo hi counter.now }
{
    !is_based(counter, port) || is_outside(counter.stop, lo, hi)
}

fn all_stop_outside(counters: &[Counter], port: u32, lo: i64, hi: i64) -> bool
    ensures { IsTrue result → All (StopsOutside port lo hi) counters.now }
{
    for i in 0..counters.len() {
        if !stops_outside(&counters[i], port, lo, hi) {
            return false;
        }
    }
    true
}

// Whether a stay of so many minutes at an airport clears a counter.
fn clears(counter: &Counter, port: u32, lo: i64) -> bool
    ensures { result ≡ clears port lo counter.now }
{
    is_based(counter, port) && counter.stop <= lo
}

// Whether a window has as cleared what its shortest stay clears.
fn are_cleared(counters: &[Counter], port: u32, window: Window) -> bool
    requires { length counters.now ≤ 6 }
    ensures { IsTrue result → AreCleared counters.now port window }
{
    for c in 0..counters.len() {
        if window.cleared.has(c as u32) != clears(&counters[c], port, window.lo) {
            return false;
        }
    }
    true
}

// Whether the stays of a window are alike.
fn is_window(bands: &[Band], counters: &[Counter], port: u32, window: Window) -> bool
    requires { length counters.now ≤ 6 }
    ensures { IsTrue result → IsWindowOf bands.now counters.now port window }
{
    if window.lo < 0 || window.hi < window.lo {
        return false;
    }
    if window.lasting && !bands.is_empty() {
        return false;
    }
    all_end_outside(bands, window.lo, window.hi)
        && all_stop_outside(counters, port, window.lo, window.hi)
        && are_cleared(counters, port, window)
}

fn each_is_window(bands: &[Band], counters: &[Counter], port: u32, windows: &[Window]) -> bool
    requires { length counters.now ≤ 6 }
    ensures { IsTrue result → (i : ℕ) → i < length windows.now → IsWindowOf bands.now counters.now port (window_at windows.now i) }
{
    for i in 0..windows.len() {
        if !is_window(bands, counters, port, windows[i]) {
            return false;
        }
    }
    true
}

// Whether each window begins where the one before it ends.
fn join(windows: &[Window]) -> bool
    ensures { IsTrue result → (i : ℕ) → i + 1 < length windows.now → (window_at windows.now (i + 1)).lo ≡ (window_at windows.now i).hi }
{
    for i in 1..windows.len() {
        if windows[i].lo != windows[i - 1].hi {
            return false;
        }
    }
    true
}

/// Whether windows of an airport join, from no stay to more than anyone can wait.
pub fn are_windows(bands: &[Band], counters: &[Counter], port: u32, windows: &[Window]) -> bool
    requires { length counters.now ≤ 6 }
    ensures { IsTrue result → AreWindows bands.now counters.now port windows.now }
{
    let count = windows.len();
    if count == 0 || windows[0].lo != 0 || windows[count - 1].hi <= 120_968_639 {
        return false;
    }
    each_is_window(bands, counters, port, windows) && join(windows)
}

// Whether an activity is a flight that ends at an airport.
fn is_arrival(book: &Book, port: u32, x: u32) -> bool
    requires { x < activities book.now }
    ensures yes { IsTrue result → IsArrival book.now port x }
    ensures all { IsArrival book.now port x → IsTrue result }
{
    let activity = &book.activities[x as usize];
    activity.flight && activity.to == port
}

// Whether an activity is ground time at an airport.
fn is_ground(book: &Book, port: u32, x: u32) -> bool
    requires { x < activities book.now }
    ensures yes { IsTrue result → IsGround book.now port x }
    ensures all { IsGround book.now port x → IsTrue result }
{
    let activity = &book.activities[x as usize];
    !activity.flight && activity.to == port
}

fn each_arrives(book: &Book, port: u32, flights: &[u32]) -> bool
    ensures { IsTrue result → (q : ℕ) → q < length flights.now → IsArrival book.now port (slice_index_or flights.now q 0) }
{
    for q in 0..flights.len() {
        if flights[q] as usize >= book.activities.len() || !is_arrival(book, port, flights[q]) {
            return false;
        }
    }
    true
}

// Whether an activity is in a list, or no flight that ends at an airport.
fn has_if_arrival(book: &Book, port: u32, flights: &[u32], x: u32) -> bool
    requires { x < activities book.now }
    ensures { IsTrue result → IsArrival book.now port x → Contains flights.now x }
{
    !is_arrival(book, port, x) || flights.contains(&x)
}

fn has_arrivals(book: &Book, port: u32, flights: &[u32]) -> bool
    ensures { IsTrue result → (x : ℕ) → IsArrival book.now port x → Contains flights.now x }
{
    for x in 0..book.activities.len() as u32 {
        if !has_if_arrival(book, port, flights, x) {
            return false;
        }
    }
    true
}

fn ends_rise(book: &Book, flights: &[u32]) -> bool
    requires { (q : ℕ) → q < length flights.now → slice_index_or flights.now q 0 < activities book.now }
    ensures { IsTrue result → EndsRise book.now flights.now }
{
    for q in 1..flights.len() {
        if end_of(book, flights[q - 1]) > end_of(book, flights[q]) {
            return false;
        }
    }
    true
}

/// Whether a list has all flights that end at an airport, in order of their ends.
pub fn are_flights(book: &Book, port: u32, flights: &[u32]) -> bool
    ensures { IsTrue result → AreFlights book.now port flights.now }
{
    if !each_arrives(book, port, flights) {
        return false;
    }
    ends_rise(book, flights) && has_arrivals(book, port, flights)
}

// Whether an activity is in a list, or no ground time at an airport.
fn has_if_ground(book: &Book, port: u32, grounds: &[u32], x: u32) -> bool
    requires { x < activities book.now }
    ensures { IsTrue result → IsGround book.now port x → Contains grounds.now x }
{
    !is_ground(book, port, x) || grounds.contains(&x)
}

fn has_grounds(book: &Book, port: u32, grounds: &[u32]) -> bool
    ensures { IsTrue result → (x : ℕ) → IsGround book.now port x → Contains grounds.now x }
{
    for x in 0..book.activities.len() as u32 {
        if !has_if_ground(book, port, grounds, x) {
            return false;
        }
    }
    true
}

fn each_is_of_book(book: &Book, grounds: &[u32]) -> bool
    ensures { IsTrue result → (q : ℕ) → q < length grounds.now → slice_index_or grounds.now q 0 < activities book.now }
{
    for q in 0..grounds.len() {
        if grounds[q] as usize >= book.activities.len() {
            return false;
        }
    }
    true
}

/// Whether a list has all ground time at an airport.
pub fn are_grounds(book: &Book, port: u32, grounds: &[u32]) -> bool
    ensures { IsTrue result → AreGrounds book.now port grounds.now }
{
    each_is_of_book(book, grounds) && has_grounds(book, port, grounds)
}
