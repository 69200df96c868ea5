//! How many of each thing a book has at most, and how large its numbers get: each limit stands here, once.
//! Readers refuse what passes one, and every book keeps them all.

/// Activities of a book.
pub const ACTIVITY_LIMIT: usize = 4_000;

/// Aircraft of a book.
pub const TAIL_LIMIT: usize = 200;

/// Aircraft types.
pub const TYPE_LIMIT: usize = 20;

/// Airports.
pub const AIRPORT_LIMIT: usize = 200;

/// Curfews.
pub const CURFEW_LIMIT: usize = 400;

/// Counters.
pub const COUNTER_LIMIT: usize = 6;

/// Bands of the cost of a connection.
pub const BAND_LIMIT: usize = 8;

/// Entries of a list of types, tags, avoided airports, carry values or counters.
pub const ITEM_LIMIT: usize = 20;

/// Airports at which a long stop clears a counter.
pub const BASE_LIMIT: usize = 200;

/// The last moment: 2199-12-31T23:59, in minutes since 1970-01-01T00:00 UTC.
pub const LAST_MOMENT: i64 = 120_968_639;

/// A day, in minutes. A turn takes no longer.
pub const DAY: i64 = 1_440;

/// The longest activity, in minutes.
pub const SPAN_LIMIT: i64 = 2_880;

/// The farthest that local time is from UTC, in minutes, to either side.
pub const OFFSET_LIMIT: i64 = 840;

/// The longest stop that a counter may ask for, in minutes.
pub const STOP_LIMIT: i64 = 100_000;

/// The greatest limit of minutes or landings, carry value, and end of a band in minutes.
pub const VALUE_LIMIT: i64 = 10_000_000;

/// The greatest limit of a counter of days, in days.
pub const DAYS_LIMIT: i64 = 10_000;

/// The greatest limit of any counter: that of days, in minutes.
pub const COUNT_LIMIT: i64 = 14_400_000;

/// What a minute flown costs at most, in cost units.
pub const RATE_LIMIT: u64 = 300;

/// What an activity costs at most beside its minutes, in cost units.
pub const FIXED_LIMIT: u64 = 100_000;

/// What a band costs at most, in cost units.
pub const BAND_COST_LIMIT: u64 = 1_000_000;

/// What an activity costs at most, in cost units: 964,000, which its minutes and its fixed amount come to.
pub const ACTIVITY_COST_LIMIT: u64 = SPAN_LIMIT as u64 * RATE_LIMIT + FIXED_LIMIT;

/// The maximum of an entry of a book's own cost table, in cost units: a round number that no activity's cost passes.
pub const ENTRY_LIMIT: u64 = 1_000_000;

/// What an activity with the connection to it costs at most, in cost units: two million.
pub const LEG_COST_LIMIT: u64 = ENTRY_LIMIT + BAND_COST_LIMIT;
