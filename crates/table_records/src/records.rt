//! The records of a text, one after the other.
//!
//! The reader of `csv` takes no record for a header and any number of fields, so what is wrong with a record is for the
//! table to say. What is left of its errors is want of memory. Behind that, and behind the end, no record is left.

ghost use Rattle.std.specs.Prelude.{◌≡◌, ◌∷◌, [], IfOk, IsErr};
ghost use Rattle.std.specs.Bool.{MatchBool};
ghost use Rattle.csv.specs.Records.{fields_of};
ghost use Rattle.table_records.specs.Records.{records_of};
ghost use Rattle.table_records.specs.inside.RecordsParts.{left_of, HasTaken, IsReading};

use crate::Fields;
use csv::{ByteRecord, Reader, ReaderBuilder};
use std::alloc::Global;
use std::marker::Model;
use tail_book::Memory;

/// The records of a text that are still to be read.
#[derive(Drop)]
pub struct Records<'a> {
    reader: Reader<&'a [u8]>,
    done: bool,
}

impl<'a> Model for Records<'a> {
    ghost use Rattle.std.specs.Prelude.{ℕ, List};
    ghost use Rattle.table_records.specs.inside.RecordsParts.{left_unless, IsSound};

    ghost Value = { List (List (List ℕ)) };

    ghost view = { λ r. left_unless r.done r.reader };

    ghost invariant = { λ r. IsSound r.done r.reader };
}

impl<'a> Records<'a> {
    /// All the records of the bytes. The value is large, so make it once a text.
    pub fn new(alloc: Global, bytes: &'a [u8]) -> Records<'a>
        ensures { result ≡ records_of bytes.now }
    {
        let reader = ReaderBuilder::new()
            .has_headers(false)
            .flexible(true)
            .from_reader(alloc, bytes);
        Records {
            reader,
            done: false,
        }
    }

    /// Takes the first record that is left into `fields`, and says whether there was one.
    /// After `Memory` none is left.
    pub fn take(&mut self, fields: &mut Fields) -> Result<bool, Memory>
        ensures taken { IfOk result (λ found. MatchBool found (self.old ≡ fields.new ∷ self.new) (self.old ≡ [])) }
        ensures memory { IsErr result → self.new ≡ [] }
    {
        if self.done {
            return Ok(false);
        }
        let read = read_next(&mut self.reader, &mut fields.record);
        self.done = read != Ok(true);
        read
    }
}

// One read of a reader that reads on. Every error of the reader counts as want of memory.
fn read_next(reader: &mut Reader<&[u8]>, record: &mut ByteRecord) -> Result<bool, Memory>
    requires { IsReading reader.old }
    ensures { IfOk result (λ found. MatchBool found (HasTaken reader.old (fields_of «record».new) reader.new) (left_of reader.old ≡ [])) }
{
    let Ok(found) = reader.read_byte_record(record) else {
        return Err(Memory);
    };
    Ok(found)
}
