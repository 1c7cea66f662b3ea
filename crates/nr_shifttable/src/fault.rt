//! The errors of reading a table file, and of making a table from items.

use nr_graphpick::Graph;
use std::alloc::{AllocError, AllocFailed};
use thiserror::Error;

/// Why a table file is rejected. It prints as the variant's name, with the number that the variant carries.
///
/// `Read` or `TooLong` is returned while the octets are read, whichever is met first. The records are then checked one
/// by one, each for `Csv` or `Fields`, `Number`, `Range` and `Twice` in this order. `Empty` follows, and then, for each
/// base graph that has an entry, `Core`, `Extension` and `MissingRow`. `Memory` is returned when memory runs out.
#[derive(Clone, Copy, Debug, PartialEq, Eq, Error)]
pub enum TableFault {
    /// The source failed during the call.
    #[error("Read")]
    Read,
    /// The record of this number, counted from 1, does not have as many fields as record 1.
    #[error("Csv {0}")]
    Csv(u32),
    /// Record 1 does not have eleven fields.
    #[error("Fields")]
    Fields,
    /// A field of the record of this number is not 1 to 10 decimal digits.
    #[error("Number {0}")]
    Number(u32),
    /// A number in the record of this number is out of range.
    #[error("Range {0}")]
    Range(u32),
    /// The record of this number has the base graph, row and column of an earlier record.
    #[error("Twice {0}")]
    Twice(u32),
    /// Rows 0 to 3 of this base graph do not have the shape of the core parity columns.
    #[error("Core {0}")]
    Core(Graph),
    /// A row from 4 on of this base graph does not have a zero shift in its own parity column, or has an entry in
    /// another one.
    #[error("Extension {0}")]
    Extension(Graph),
    /// A row from 4 on of this base graph has no entry.
    #[error("MissingRow {0}")]
    MissingRow(Graph),
    /// No record gives an entry.
    #[error("Empty")]
    Empty,
    /// The source has more than 4,194,304 octets.
    #[error("TooLong")]
    TooLong,
    /// Memory ran out.
    #[error("Memory")]
    Memory,
}

/// Why stored entries are rejected. It prints as the variant's name with the number that the variant carries, or as the
/// error of the table.
///
/// The entries are checked one by one, each for `Range` and then `Order`, and then their table for `Table`. `Memory` is
/// returned when memory runs out, but never in place of `Range` or `Order`.
#[derive(Clone, Copy, Debug, PartialEq, Eq, Error)]
pub enum EntriesFault {
    /// The base graph of the entry of this number, counted from 1, is neither 1 nor 2, or does not have its row or its
    /// column.
    #[error("Range {0}")]
    Range(u32),
    /// The entry of this number, counted from 1, does not come after the one before it.
    #[error("Order {0}")]
    Order(u32),
    /// The table that the entries make is rejected: `Empty`, `Core`, `Extension` or `MissingRow`.
    #[error("{0}")]
    Table(TableFault),
    /// Memory ran out.
    #[error("Memory")]
    Memory,
}

impl From<AllocError> for TableFault {
    ghost use Rattle.std.specs.Prelude.{◌≡◌};
    ghost use Rattle.nr_shifttable.specs.declared.fault.TableFault.TheVariants.{Memory};

    ghost from_gives = { λ _ e. e ≡ Memory };

    fn from(_error: AllocError) -> TableFault {
        TableFault::Memory
    }
}

impl<T: Drop> From<AllocFailed<T>> for TableFault {
    ghost use Rattle.std.specs.Prelude.{◌≡◌};
    ghost use Rattle.nr_shifttable.specs.declared.fault.TableFault.TheVariants.{Memory};

    ghost from_gives = { λ _ e. e ≡ Memory };

    fn from(_failed: AllocFailed<T>) -> TableFault {
        TableFault::Memory
    }
}
