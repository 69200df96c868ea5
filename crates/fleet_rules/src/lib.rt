//! The fleet and the rules, each read and checked up to its first refusal.
#![tactic(auto)]

mod airport_entry;
mod band_entry;
mod carry_field;
mod counter_entry;
mod curfew_entry;
mod entries;
mod fleet;
mod nested;
mod raw_rules;
mod rules_table;
mod tail;
mod toml_values;
mod type_entry;
mod zone_parts;
mod zone_rule;
mod zone_text;

pub use fleet::read_fleet;
pub use raw_rules::{RawAirport, RawCounter, RawCurfew, RawRules};
pub use rules_table::read_rules;
pub use tail::{RawCarry, RawTail};
pub use zone_rule::{DayRule, ZoneRule};
pub use zone_text::zone;
