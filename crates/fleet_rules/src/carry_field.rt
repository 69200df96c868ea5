//! The values with which an aircraft comes in, in one field.
//!
//! The field is a list like the lists of names, and only what one item says stands here. It is cut at its first `=`.
//! Another one is then part of the value, which no number has, so it is code 9.

ghost use Rattle.std.specs.Prelude.{◌≡◌, ◌<◌, length, IfOk, IfSome};
ghost use Rattle.table_records.specs.inside.NoRow.{Judges};
ghost use Rattle.fleet_rules.specs.CarryField.{carry_in, cut_of, item_in};
ghost use Rattle.fleet_rules.specs.inside.Tail.{AreCarried, IsRawCarry};

use crate::RawCarry;
use std::alloc::Global;
use table_records::{Item, NoRow, list_of, name_in, number_in};
use tail_book::limits::VALUE_LIMIT;
use tail_text::codes;

// The greatest value with which an aircraft comes in, as a number without a sign.
const CARRY_LIMIT: u64 = VALUE_LIMIT as u64;

/// The values that a field lists, as `NAME=VALUE` with one space between each two. Code `NAME` or `NUMBER`
/// for a bad item, and `TOO_MANY` where all are good and more than one field may list.
pub(crate) fn carry_in(alloc: Global, field: &[u8]) -> Result<Vec<RawCarry>, NoRow>
    ensures value { Judges (λ carry. carry.items) (carry_in field.now) result }
    ensures sound { IfOk result (λ carry. AreCarried carry.items) }
{
    list_of(alloc, field)
}

impl Item for RawCarry {
    ghost item_of = { item_in };

    ghost holds = { IsRawCarry };

    fn item_of(text: &[u8]) -> Result<RawCarry, u8> {
        item_in(text)
    }
}

// The counter's name before the first `=`, and the value behind it.
fn item_in(item: &[u8]) -> Result<RawCarry, u8>
    ensures value { result ≡ item_in item.now }
    ensures sound { IfOk result IsRawCarry }
{
    let Some(cut) = cut_of(item) else {
        return Err(codes::NAME);
    };
    let counter = name_in(&item[..cut])?;
    let value = number_in(&item[cut + 1..], CARRY_LIMIT)?;
    Ok(RawCarry {
        counter,
        value: value as i64,
    })
}

fn cut_of(item: &[u8]) -> Option<usize>
    ensures value { result ≡ cut_of item.now }
    ensures within { IfSome result (λ cut. cut < length item.now) }
{
    item.iter().position(|byte| *byte == b'=')
}
