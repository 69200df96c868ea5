//! The reading of the three tables, before one of them is judged: a file that can't be read is told, however bad another is.
//! A byte more is read than a table may have, which is enough to refuse it: no refusal looks at what lies behind.

ghost use Rattle.std.specs.Prelude.{◌≡◌, IfOk, IfSome, IsErrOf};
ghost use Rattle.tail_outside.specs.Outside.{OnlyRead, ReadHasFailed};
ghost use Rattle.run_frame.specs.TableFiles.{MayReadTables, tables_held};
ghost use Rattle.run_frame.specs.inside.TableFiles.{fronts, names_seen};

use crate::{TableNames, Tables};
use std::alloc::Global;
use tail_outside::{Files, ReadFail, read_all};
use tail_text::SIZE_LIMIT;

/// The most bytes that are read of a file: one more than it may have, so that a file cut here is still too big.
pub const READ_LIMIT: usize = SIZE_LIMIT + 1;

/// The bytes of the tables under three names, each up to the limit.
pub fn read_tables<F: Files>(
    alloc: Global,
    files: &mut F,
    names: &TableNames<'_>,
) -> Result<Tables, ReadFail>
    requires { MayReadTables (F.shows files.old) (names_seen names.now) }
    ensures tables { IfOk result (λ tables. IfSome (tables_held (F.shows files.old) (names_seen names.now))
        (λ whole. tables ≡ fronts whole)) }
    ensures only_read { OnlyRead (F.shows files.old) (F.shows files.new) }
    ensures cause { IsErrOf result ReadFail.Failed → ReadHasFailed (F.shows files.old) (F.shows files.new) }
{
    let timetable = match read_all(alloc, files, names.timetable, READ_LIMIT) {
        Ok(bytes) => bytes,
        Err(fail) => return Err(fail),
    };
    let fleet = match read_all(alloc, files, names.fleet, READ_LIMIT) {
        Ok(bytes) => bytes,
        Err(fail) => return Err(fail),
    };
    match read_all(alloc, files, names.rules, READ_LIMIT) {
        Ok(rules) => Ok(Tables {
            timetable,
            fleet,
            rules,
        }),
        Err(fail) => Err(fail),
    }
}
