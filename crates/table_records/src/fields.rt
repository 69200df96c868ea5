//! The fields of one record. One value takes in all records of a table, one after the other, and keeps its buffer; a
//! field is a part of that, and whoever keeps one copies it.

ghost use Rattle.std.specs.Prelude.{◌≡◌, [], length, map};
ghost use Rattle.table_records.specs.Fields.{are_same, field_at};

use csv::ByteRecord;
use std::alloc::Global;
use std::marker::Model;

/// The fields of one record, as bytes. One value takes in record after record, and keeps its buffer.
#[derive(Drop)]
pub struct Fields {
    pub(crate) record: ByteRecord,
}

impl Model for Fields {
    ghost use Rattle.std.specs.Prelude.{ℕ, List};
    ghost use Rattle.csv.specs.Records.{fields_of};

    ghost Value = { List (List ℕ) };

    ghost view = { λ f. fields_of f.record };
}

impl Fields {
    /// A record without fields.
    pub fn new(alloc: Global) -> Fields
        ensures { result ≡ [] }
    {
        Fields {
            record: ByteRecord::new(alloc),
        }
    }

    /// How many fields there are.
    pub fn len(&self) -> usize
        ensures { result ≡ length self.now }
    {
        self.record.len()
    }

    /// The field at a place, counted from 0, and an empty one past the last.
    pub fn at(&self, place: usize) -> &[u8]
        ensures { result.now ≡ field_at self.now place }
    {
        match self.record.get(place) {
            Some(field) => field,
            None => &[],
        }
    }

    /// Whether the fields are these texts.
    pub fn are(&self, texts: &[&str]) -> bool
        ensures { result ≡ are_same self.now (map (λ text. text.now) texts.now) }
    {
        if self.len() != texts.len() {
            return false;
        }
        for i in 0..texts.len() {
            if self.at(i) != texts[i].as_bytes() {
                return false;
            }
        }
        true
    }
}
