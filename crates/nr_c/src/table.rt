//! The calls on a shift table: judging its text, and listing its entries.

ghost use Rattle.std.specs.Prelude.{◌≡◌, ◌<◌, length};
ghost use Rattle.nr_refusal.specs.Refusal.{with_fault};
ghost use Rattle.nr_shifttable.specs.Accepted.{table_said};
ghost use Rattle.nr_calls.specs.Entries.{table_by};
ghost use Rattle.nr_calls.specs.Judging.{judged_status, listed_status, listing, listing_after, report_of};
ghost use Rattle.nr_calls.specs.Statuses.{OrOutOfMemory};

use nr_calls::entries::NrEntry;
use nr_calls::fault::Fault;
use nr_calls::table::NrReport;
use std::alloc::Global;

/// Checks the shift table of a text (TS 38.212, Tables 5.3.2-2 and 5.3.2-3) and writes what it finds to `out`, whether
/// the table is accepted or not.
///
/// # Errors
///
/// The first that applies: 30 `TooLong`, 21 `Csv`, 22 `Fields`, 23 `Number`, 24 `Range`, 25 `Twice`, 29 `Empty`,
/// 26 `Core`, 27 `Extension`, 28 `MissingRow`, 1 `Memory`.
///
/// A text that is too long is 30 even if no memory is left. Only with 1 is `out` not written.
#[unsafe(no_mangle)]
pub extern "C" fn nr_table_check(alloc: Global, text: &[u8], out: &mut NrReport) -> u32
    ensures said { OrOutOfMemory result out.old out.new ((result ≡ judged_status (table_said text.now))
        × (out.new ≡ report_of (table_said text.now))) }
    ensures long { 4194304 < length text.now → result ≡ 30 }
{
    nr_calls::table::nr_table_check(alloc, text, out)
}

/// Reads the shift table of a text and writes its entries to `out` in the order that the other calls take: base graph 1
/// before 2, then by row, then by column (TS 38.212, 5.3.2). `out` has an entry for each. `count` becomes the number of
/// entries, also if `out` has another length.
///
/// # Errors
///
/// The first that applies: 30 `TooLong`, 21 `Csv`, 22 `Fields`, 23 `Number`, 24 `Range`, 25 `Twice`, 29 `Empty`,
/// 26 `Core`, 27 `Extension`, 28 `MissingRow`, 1 `Memory`, 2 `Room`.
///
/// A text that is too long is 30 even if no memory is left. On an error `out` is not written, and `count` only with 2.
#[unsafe(no_mangle)]
pub extern "C" fn nr_table_entries(
    alloc: Global,
    text: &[u8],
    out: &mut [NrEntry],
    count: &mut usize,
) -> u32
    ensures said { OrOutOfMemory result (listing out.old count.old) (listing out.new count.new)
        ((result ≡ listed_status (length out.old) (table_said text.now)) × (listing out.new count.new
        ≡ listing_after (listing out.old count.old) (table_said text.now))) }
    ensures same_table { result ≡ 0
        → table_by out.new ≡ with_fault Fault.Table (table_said text.now) }
    ensures long { 4194304 < length text.now → result ≡ 30 }
{
    nr_calls::table::nr_table_entries(alloc, text, out, count)
}
