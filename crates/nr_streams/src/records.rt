//! The records of a text of comma-separated fields, read with the crate `csv`.

ghost use Rattle.std.specs.Prelude.{◌≡◌, [], ◌∷◌, ◌≤◌, if◌then◌else◌, true, false, length, MatchBool, IfOk};
ghost use Rattle.std.specs.Prelude.{OnErr};
ghost use Rattle.csv.specs.Records.{fields_of};
ghost use Rattle.nr_streams.specs.{Records.TakesRow, Records.records_of, Records.rows_before_end, inside.Words.IsPlainReader};

use csv::{ByteRecord, Reader, ReaderBuilder};
use std::alloc::{AllocError, Global};
use std::marker::Model;

/// The records of a text, one after another, as `csv` reads them without a header, without trimming, and with records
/// of any number of fields.
#[derive(Drop)]
pub struct Records<'a> {
    reader: Reader<&'a [u8]>,
    ended: bool,
}

impl<'a> Model for Records<'a> {
    ghost use Rattle.std.specs.Prelude.{◌≡◌, ℕ, List, false};
    ghost use Rattle.nr_streams.specs.Records.{rows_before_end};
    ghost use Rattle.nr_streams.specs.inside.Words.{IsPlainReader};

    ghost Value = { List (List (List ℕ)) };

    ghost view = { λ a. rows_before_end a.ended a.reader };

    ghost invariant = { λ a. a.ended ≡ false → IsPlainReader a.reader };
}

impl<'a> Records<'a> {
    /// Returns a reader for all records of the text.
    pub fn new(alloc: Global, text: &'a [u8]) -> Records<'a>
        ensures records { result ≡ records_of text.now }
        ensures few { length result ≤ length text.now }
    {
        let reader = ReaderBuilder::new()
            .has_headers(false)
            .flexible(true)
            .from_reader(alloc, text);
        Records {
            reader,
            ended: false,
        }
    }

    /// Reads the next record into `row` and returns true, or returns false if there are no more.
    ///
    /// # Errors
    ///
    /// `AllocError` if memory runs out. No further record can be read then.
    pub fn next(&mut self, row: &mut ByteRecord) -> Result<bool, AllocError>
        ensures next { IfOk result (λ found. TakesRow self.old self.new found (fields_of row.new)) }
        ensures err { OnErr result (self.new ≡ []) }
    {
        if self.ended {
            return Ok(false);
        }
        self.ended = true;
        let found = read_row(&mut self.reader, row)?;
        self.ended = !found;
        Ok(found)
    }
}

// Fills `row` with the next record of a text in memory, if there is one. It fails only if
// memory runs out.
fn read_row(reader: &mut Reader<&[u8]>, row: &mut ByteRecord) -> Result<bool, AllocError>
    requires { IsPlainReader reader.old }
    ensures plain { IfOk result (λ found. found ≡ true → IsPlainReader reader.new) }
    ensures next { IfOk result (λ found. rows_before_end false reader.old
        ≡ (if found then fields_of row.new ∷ rows_before_end false reader.new else [])) }
{
    reader.read_byte_record(row).map_err(|_| AllocError)
}
