//! What is looked at: activities that may be a shortage.

use crate::bit_rows::BitRows;
use std::alloc::Global;
use tail_book::Memory;

/// Activities of which there may be too many, and those that may bring aircraft to them.
#[derive(Drop)]
pub struct Suspect {
    pub asked: Vec<u32>,
    pub brought: Vec<u32>,
}

impl Suspect {
    /// One activity that is asked for, and nothing brought.
    pub fn of_one(alloc: Global, a: u32) -> Result<Suspect, Memory> {
        let mut asked = Vec::new(alloc);
        asked.push(a)?;
        Ok(Suspect {
            asked,
            brought: Vec::new(alloc),
        })
    }

    /// How many activities it names.
    pub fn size(&self) -> usize {
        self.asked.len().saturating_add(self.brought.len())
    }
}

/// The one that names fewer activities.
pub fn smaller(least: Option<Suspect>, suspect: Suspect) -> Option<Suspect> {
    match least {
        Some(other) if other.size() <= suspect.size() => Some(other),
        _ => Some(suspect),
    }
}

/// All bits that rows may have.
pub fn all_bits(alloc: Global, rows: &BitRows) -> Result<Vec<u64>, Memory> {
    Ok(vec![in alloc; u64::MAX; rows.width()]?)
}
