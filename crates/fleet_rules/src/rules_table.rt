//! The rules as a whole, up to their first refusal.
//!
//! The text is read by `toml` in one go, and each key is then looked up by its name, so the order in which the text
//! writes the keys does not matter. The entries of one array keep the order of the text.

ghost use Rattle.toml.specs.View.{table_view};
ghost use Rattle.tail_text.specs.inside.Reading.{Answers};
ghost use Rattle.fleet_rules.specs.RulesTable.{rules_in, rules_of};

use crate::RawRules;
use crate::entries::{entries_at, refused};
use crate::nested::give_up;
use crate::toml_values::has_only;
use std::alloc::Global;
use tail_text::{SIZE_LIMIT, Stopped, codes};
use toml::Table;

/// The rules of a table, or its first refusal. Entries are numbered from 1 through all keys.
pub fn read_rules(alloc: Global, bytes: &[u8]) -> Result<RawRules, Stopped>
    ensures { Answers (λ rules. rules) (rules_of bytes.now) result }
{
    if bytes.len() > SIZE_LIMIT {
        return Err(refused(codes::TOO_BIG, 0));
    }
    let Ok(text) = str::from_utf8(bytes) else {
        return Err(refused(codes::NOT_UTF8, 0));
    };
    match toml::table_from_str(alloc, text) {
        Ok(table) => {
            let rules = rules_in(alloc, &table);
            give_up(alloc, table);
            rules
        }
        Err(error) => {
            if error.is_memory() {
                Err(Stopped::Memory)
            } else {
                Err(refused(codes::TOML, 0))
            }
        }
    }
}

#[tactic(auto, unfolding(crate::specs::RulesTable::rules_in))]
fn rules_in(alloc: Global, table: &Table) -> Result<RawRules, Stopped>
    ensures { Answers (λ rules. rules) (rules_in (table_view table.now)) result }
{
    if !has_only(table, &["type", "airport", "curfew", "counter", "band"]) {
        return Err(refused(codes::KEY, 0));
    }
    let kinds = entries_at(alloc, table, 0)?;
    let mut before = kinds.len() as u64;
    let airports = entries_at(alloc, table, before)?;
    before += airports.len() as u64;
    let curfews = entries_at(alloc, table, before)?;
    before += curfews.len() as u64;
    let counters = entries_at(alloc, table, before)?;
    before += counters.len() as u64;
    let bands = entries_at(alloc, table, before)?;
    Ok(RawRules {
        kinds,
        airports,
        curfews,
        counters,
        bands,
    })
}
