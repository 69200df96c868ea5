//! Rules of local time as texts. A text is read once from its front, and nothing is allocated.

ghost use Rattle.std.specs.Prelude.{◌≡◌, ◌+◌, ◌<◌, ◌≤◌, IfOk};
ghost use Rattle.tail_book.specs.inside.Sound.{IsOffset};
ghost use Rattle.fleet_rules.specs.Zone.{are_months_apart, daylight_part, daylight_rule, next_rule, zone_of};
ghost use Rattle.fleet_rules.specs.inside.Zone.{IsDayRule, IsZone};

use crate::ZoneRule;
use crate::zone_parts::{OffsetPart, RulePart, byte_at, name_end, offset_part, rule_part};
use tail_book::limits::OFFSET_LIMIT;
use tail_text::Bad;

/// The rule of local time that a text writes, as `CET-1CEST,M3.5.0,M10.5.0/3`. Any other text is `Bad`.
#[tactic(auto, unfolding(crate::specs::Zone::zone_of))]
pub fn zone(text: &[u8]) -> Result<ZoneRule, Bad>
    ensures value { result ≡ zone_of text.now }
    ensures sound { IfOk result IsZone }
{
    let name_ends = name_end(text, 0)?;
    let standard = offset_part(text, name_ends)?;
    if standard.next == text.len() {
        Ok(ZoneRule::Fixed(standard.minutes))
    } else {
        daylight_rule(standard.minutes, text, standard.next)
    }
}

// The rest of a text with daylight time.
#[tactic(auto, unfolding(crate::specs::Zone::daylight_rule))]
fn daylight_rule(standard: i64, text: &[u8], at: usize) -> Result<ZoneRule, Bad>
    requires standard { IsOffset standard }
    requires near { at ≤ 14 }
    ensures value { result ≡ daylight_rule standard text.now at }
    ensures sound { IfOk result IsZone }
{
    let name_ends = name_end(text, at)?;
    let daylight = daylight_part(standard, text, name_ends)?;
    let first = next_rule(text, daylight.next)?;
    let second = next_rule(text, first.next)?;
    if second.next != text.len() || !are_months_apart(first.rule.month, second.rule.month) {
        return Err(Bad);
    }
    Ok(ZoneRule::Daylight {
        standard,
        daylight: daylight.minutes,
        first: first.rule,
        second: second.rule,
    })
}

// The offset of daylight time, which is an hour more where it is not written.
#[tactic(auto, unfolding(crate::specs::Zone::daylight_part))]
fn daylight_part(standard: i64, text: &[u8], at: usize) -> Result<OffsetPart, Bad>
    requires standard { IsOffset standard }
    requires near { at < 90 }
    ensures value { result ≡ daylight_part standard text.now at }
    ensures range { IfOk result (λ part. IsOffset part.minutes) }
    ensures near { IfOk result (λ part. part.next ≤ at + 6) }
{
    if byte_at(text, at) != b',' {
        return offset_part(text, at);
    }
    let minutes = standard + 60;
    if minutes > OFFSET_LIMIT {
        return Err(Bad);
    }
    Ok(OffsetPart { minutes, next: at })
}

// A comma and a rule.
#[tactic(auto, unfolding(crate::specs::Zone::next_rule))]
fn next_rule(text: &[u8], at: usize) -> Result<RulePart, Bad>
    requires { at < 80 }
    ensures value { result ≡ next_rule text.now at }
    ensures sound { IfOk result (λ part. IsDayRule part.rule) }
    ensures near { IfOk result (λ part. part.next ≤ at + 14) }
{
    if byte_at(text, at) != b',' {
        return Err(Bad);
    }
    rule_part(text, at + 1)
}

// Whether two months are neither equal nor neighbours.
fn are_months_apart(a: u8, b: u8) -> bool
    requires { (a ≤ 12) × (b ≤ 12) }
    ensures { result ≡ are_months_apart a b }
{
    (a + 2 <= b && b <= a + 10) || (b + 2 <= a && a <= b + 10)
}
