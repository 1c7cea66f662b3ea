//! Where the entries of each row and of each column begin. A base graph has at most 46 rows and 68 columns, which make
//! 3,128 places, so an index fits into 16 bits.

ghost use Rattle.std.specs.Prelude.{◌≡◌, ◌+◌, ◌<◌, ◌≤◌, All, length};
ghost use Rattle.nr_shifttable.specs.Tails.{row_of, column_of};
ghost use Rattle.nr_shifttable.specs.inside.Orders.{AreRowEnds, AreRowStarts, AreColumnStarts, Ascending};

use crate::entry::Entry;

/// One more than the largest number of rows of a base graph, so that the last row has an end too.
pub(crate) const ROWS: usize = 47;

/// One more than the largest number of columns of a base graph.
pub(crate) const COLS: usize = 69;

// Of each row and of the one after the last, how many entries there are up to the last one of the row before it. It is 0
// if that row has none.
fn row_ends(entries: &[Entry]) -> [u16; ROWS]
    requires short { All (λ e. e.row < 46) entries.now }
    requires few { length entries.now ≤ 3128 }
    ensures { AreRowEnds 47 entries.now (length entries.now) result }
{
    let mut ends = [0; ROWS];
    let mut count = 0;
    for entry in entries {
        count += 1;
        ends[usize::from(entry.row) + 1] = count;
    }
    ends
}

/// Returns for each row how many entries there are in the rows before it. The entries ascend.
pub(crate) fn row_starts(entries: &[Entry]) -> [u16; ROWS]
    requires order { Ascending 0 entries.now }
    requires short { All (λ e. e.row < 46) entries.now }
    requires few { length entries.now ≤ 3128 }
    ensures { AreRowStarts 47 entries.now result }
{
    // If a row has no entry, its end is the end of those before it.
    let mut starts = row_ends(entries);
    for row in 1..ROWS {
        starts[row] = starts[row].max(starts[row - 1]);
    }
    starts
}

/// Returns the entries of a row.
pub(crate) fn row_between<'a>(entries: &'a [Entry], starts: &[u16; ROWS], row: usize) -> &'a [Entry]
    requires starts { AreRowStarts 47 entries.now starts.now }
    requires row { row + 1 < 47 }
    ensures { result.now ≡ row_of entries.now row }
{
    &entries[usize::from(starts[row])..usize::from(starts[row + 1])]
}

/// Returns the entries of a column.
pub(crate) fn col_between<'a>(entries: &'a [Entry], starts: &[u16; COLS], col: usize) -> &'a [Entry]
    requires starts { AreColumnStarts 69 entries.now starts.now }
    requires col { col + 1 < 69 }
    ensures { result.now ≡ column_of entries.now col }
{
    &entries[usize::from(starts[col])..usize::from(starts[col + 1])]
}
