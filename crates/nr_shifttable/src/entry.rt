//! Entries of a shift table, and items, which are entries together with their base graph.

ghost use Rattle.std.specs.Prelude.{◌≡◌};
ghost use Rattle.nr_shifttable.specs.Listed.{kept_of};

use nr_graphpick::Graph;

/// One entry of a base graph's shift table (TS 38.212, 5.3.2, Tables 5.3.2-2 and 5.3.2-3): its row and its column, both
/// counted from 0, and its shift value for each of the lifting-size sets 0 to 7.
#[repr(C)]
#[derive(Clone, Copy, Debug, PartialEq, Eq)]
pub struct Entry {
    pub row: u16,
    pub col: u16,
    pub values: [u16; 8],
}

/// An entry together with its base graph, which is what one record of a table file gives. Base graph 1 has rows 0..=45
/// and columns 0..=67, base graph 2 rows 0..=41 and columns 0..=51 (TS 38.212, 5.3.2).
#[derive(Clone, Copy, Debug, PartialEq, Eq)]
pub struct Item {
    pub graph: Graph,
    pub entry: Entry,
}

/// An entry as a caller stores it, with the number of its base graph: 22 octets without padding, in the layout of C.
#[repr(C)]
#[derive(Clone, Copy, Debug, PartialEq, Eq)]
pub struct KeptEntry {
    /// The base graph: 1 or 2.
    pub graph: u16,
    /// The row, below 46 in base graph 1 and below 42 in base graph 2, the column, below 68 or 52, and the shift value
    /// V for each of the lifting-size sets 0 to 7, not reduced modulo a lifting size.
    pub entry: Entry,
}

impl KeptEntry {
    /// Returns an item in the form in which a caller stores it.
    pub fn of(item: &Item) -> KeptEntry
        ensures { result ≡ kept_of item.now }
    {
        let graph = match item.graph {
            Graph::One => 1,
            Graph::Two => 2,
        };
        KeptEntry {
            graph,
            entry: item.entry,
        }
    }
}
