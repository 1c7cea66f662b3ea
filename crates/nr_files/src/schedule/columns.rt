//! The columns of a schedule file: their names, the header, and a record's field in a column.

ghost use Rattle.std.specs.Prelude.{◌≡◌, ◌≤◌, bytes_eq, length, map, option_map};
ghost use Rattle.std.specs.List.{position, starts_with};
ghost use Rattle.csv.specs.Records.{fields_of};
ghost use Rattle.nr_streams.specs.Fields.{text_of_field};
ghost use Rattle.nr_files.specs.Columns.{column_names, field, has_column, is_schedule_header};

use csv::ByteRecord;
use nr_streams::stripped;

// The names of the columns, in their order.
const NAMES: [&[u8]; 10] = [
    b"block", b"rv", b"g", b"qm", b"nl", b"erase", b"flip", b"mask", b"process", b"fresh",
];

// How many columns a schedule may have: the first of them.
const WIDTHS: [usize; 4] = [6, 7, 8, 10];

/// Returns whether a record is a header: the first 6, 7, 8 or 10 of the names.
#[tactic(auto, unfolding(crate::specs::Columns::is_schedule_header))]
pub(crate) fn is_header(row: &ByteRecord) -> bool
    ensures { result ≡ is_schedule_header (fields_of row.now) }
{
    WIDTHS.contains(&row.len()) && begins_names(row)
}

// Whether a record's fields are the first of the names.
fn begins_names(row: &ByteRecord) -> bool
    requires { length (fields_of row.now) ≤ 10 }
    ensures { result ≡ starts_with bytes_eq column_names (map text_of_field (fields_of row.now)) }
{
    row.iter()
        .zip(NAMES.iter())
        .all(|(field, name)| stripped(field) == *name)
}

/// Returns the field of a record in the column of this name, without spaces and tabs at its ends, or `None` if there is
/// no such column.
pub(crate) fn field<'a>(row: &'a ByteRecord, name: &[u8]) -> Option<&'a [u8]>
    ensures { option_map (λ field. field.now) result ≡ field (fields_of row.now) name.now }
{
    let text = row.get(place_of(name)?)?;
    Some(stripped(text))
}

// Where the column of this name is, from 0.
fn place_of(name: &[u8]) -> Option<usize>
    ensures { result ≡ position (bytes_eq name.now) column_names }
{
    NAMES.iter().position(|column| name == *column)
}

/// Returns whether there is a column of this name.
pub(crate) fn has_column(row: &ByteRecord, name: &[u8]) -> bool
    ensures { result ≡ has_column (fields_of row.now) name.now }
{
    field(row, name).is_some()
}
