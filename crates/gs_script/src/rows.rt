ghost use Rattle.std.specs.Prelude.{◌≡◌, ◌+◌, ◌≤◌, IfOk, length, map};
ghost use Rattle.csv.specs.Reading.{default_config, records_from, strip_bom};
ghost use Rattle.csv.specs.Records.{fields_of};
ghost use Rattle.csv.specs.declared.parser.State.TheVariants as st;
ghost use Rattle.gs_script.specs.inside.Rows.{IsMemory};

use crate::record::MAX_RECORDS;
use csv::{ByteRecord, Error, ErrorKind, ReaderBuilder};
use std::alloc::{AllocError, Global};

/// Running out of memory, which is all that a read of bytes is refused for where records may differ in length.
/// `Io` stands beside it since std's `Read` does not say of any source, a slice too, that it never fails,
/// and so csv's clause on why a read failed excludes every kind but these two.
fn refusal(error: Error) -> AllocError
    requires { IsMemory error.kind }
{
    match error.into_kind() {
        ErrorKind::OutOfMemory | ErrorKind::Io(_) => AllocError,
        ErrorKind::UnequalLengths { .. }
        | ErrorKind::Utf8 { .. }
        | ErrorKind::Serialize(_)
        | ErrorKind::Deserialize { .. } => unreachable!(),
    }
}

/// The first records of a text, one more than a script may have, as csv reads them: divided by commas,
/// with double quotes, no header and any count of fields.
pub(crate) fn first_rows(alloc: Global, text: &[u8]) -> Result<Vec<ByteRecord>, AllocError>
    ensures count { IfOk result (λ rows. length rows.items ≤ MAX_RECORDS + 1) }
    ensures rows { IfOk result (λ rows. map fields_of rows.items
        ≡ records_from default_config (MAX_RECORDS + 1) st.StartRecord (strip_bom text.now)) }
{
    let mut rdr = ReaderBuilder::new()
        .has_headers(false)
        .flexible(true)
        .from_reader(alloc, text);
    let mut rows = Vec::new(alloc);
    for i in 0..MAX_RECORDS + 1 {
        let mut row = ByteRecord::new(alloc);
        let found = match rdr.read_byte_record(&mut row) {
            Ok(found) => found,
            Err(error) => return Err(refusal(error)),
        };
        if !found {
            return Ok(rows);
        }
        rows.push(row)?;
    }
    Ok(rows)
}
