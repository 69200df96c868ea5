//! The codes of refusals: what is wrong with a table, or with a plan's file. Each code stands here once, for all
//! readers; `docs/FORMATS.md` tells the author of a table what it means where.

/// More bytes than a text may have.
pub const TOO_BIG: u8 = 1;

/// Bytes that are not UTF-8.
pub const NOT_UTF8: u8 = 2;

/// Another header than the table's, or another first line than a plan's.
pub const HEADER: u8 = 3;

/// Another shape than is wanted: a number of fields, a line, an array.
pub const SHAPE: u8 = 4;

/// No name where one is wanted.
pub const NAME: u8 = 5;

/// No moment or time of day where one is wanted.
pub const STAMP: u8 = 6;

/// An activity that is too short or too long.
pub const SPAN: u8 = 7;

/// No kind of its thing.
pub const KIND: u8 = 8;

/// No number where one is wanted, or one out of its range.
pub const NUMBER: u8 = 9;

/// One too many.
pub const TOO_MANY: u8 = 10;

/// A name that stood before.
pub const TWICE: u8 = 11;

/// A name that nothing has.
pub const UNKNOWN: u8 = 12;

/// Rules that are no TOML.
pub const TOML: u8 = 13;

/// A key that is not listed.
pub const KEY: u8 = 14;

/// A listed key that is not there.
pub const MISSING: u8 = 15;

/// A ground activity that does not stay where it is.
pub const GROUND: u8 = 16;

/// No rule of local time where one is wanted, or an offset beside one.
pub const ZONE: u8 = 18;
