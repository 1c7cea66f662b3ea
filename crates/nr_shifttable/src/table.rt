//! The accepted table of shift values.

ghost use Rattle.std.specs.Prelude.{◌≡◌, ◌↔◌, ◌⊎◌, ◌+◌, ◌^◌, ◌<◌, ◌≤◌, All, IfErr, IfOk};
ghost use Rattle.std.specs.Prelude.{IfSome, IsErrOf, Ok, length, map, option_map, slice_get, slice_index};
ghost use Rattle.nr_shifttable.specs.Accepted.{entries_in, has_graph, value_at, TellsTable, table_of, table_said, acceptance_of};
ghost use Rattle.nr_shifttable.specs.Accepted.{ColumnsAscend, RowsAscend, IsInRange, IsTable};
ghost use Rattle.nr_shifttable.specs.{inside.Orders.IsInside, Items.Apart, Tails.column_of, Tails.row_of};
ghost use Rattle.nr_shifttable.specs.Listed.{entries_said, item_kept, items_listed, kept_listed, places_said};
ghost use Rattle.nr_streams.specs.Source.{TookAtMost};
ghost use Rattle.nr_graphpick.specs.declared.Graph.TheVariants.{One, Two};
ghost use Rattle.nr_refusal.specs.Refusal.{FailsAs, Gives};

use crate::accept::judge;
use crate::entry::{Entry, Item, KeptEntry};
use crate::fault::{EntriesFault, TableFault};
use crate::items::read_items;
use crate::listed::{judge_places, ones_in};
use crate::sorted::{Sorted, values_in};
use nr_graphpick::Graph;
use nr_streams::{ReadFault, Source, read_to_end};
use std::alloc::Global;
use std::marker::Model;

// The most octets that a table file may have.
const LIMIT: usize = 4_194_304;

/// An accepted table of shift values: the entries of base graph 1, of base graph 2, or of both (TS 38.212, 5.3.2).
/// Reading it allocates nothing, and a row or a column is found through an index.
#[derive(Drop)]
pub struct Table {
    one: Sorted,
    two: Sorted,
}

impl Model for Table {
    ghost use Rattle.nr_shifttable.specs.Accepted.{Entries, IsTable};

    ghost Value = { Entries };

    ghost view = { λ t. record { one = t.one; two = t.two } };

    ghost invariant = { λ t. IsTable (record { one = t.one; two = t.two }) };
}

impl Table {
    /// Reads a table file to its end and checks it.
    ///
    /// The file is CSV text. Each record has eleven fields: base graph (1 or 2), row, column, and the shift values of
    /// the eight lifting-size sets, as TS 38.212, Tables 5.3.2-2 and 5.3.2-3 give them. A first record that begins with
    /// `graph` is a header. The order of the records does not matter.
    ///
    /// # Errors
    ///
    /// In the order that `TableFault` describes: `Read` if a pull fails before more than 4,194,304 octets came, or
    /// `TooLong`; then, record by record, `Csv`, `Fields`, `Number`, `Range`, `Twice`; then `Empty`; then, by base
    /// graph, `Core`, `Extension`, `MissingRow`. `Memory` is returned when memory runs out.
    pub fn read<S: Source>(alloc: Global, source: &mut S) -> Result<Table, TableFault>
        requires { S.failures source.old < 2 ^ 32 }
        ensures table { IfOk result IsTable }
        ensures pulled { FailsAs TableFault.Read result
            (S.failures source.old) (S.failures source.new) }
        ensures first { IsErrOf result TableFault.Read
            → TookAtMost 4194304 (S.remaining source.old) (S.remaining source.new) }
        ensures said { TellsTable (S.remaining source.old) result }
    {
        let text = match read_to_end(alloc, source, LIMIT) {
            Ok(text) => text,
            Err(ReadFault::Broken) => return Err(TableFault::Read),
            Err(ReadFault::TooLong) => return Err(TableFault::TooLong),
            Err(ReadFault::Memory) => return Err(TableFault::Memory),
        };
        Table::of_text(alloc, &text)
    }

    /// Checks the text of a table file that is in memory, and returns what `read` returns for a source that gives these
    /// octets and then ends.
    ///
    /// # Errors
    ///
    /// `TooLong` if the text has more than 4,194,304 octets, and never `Memory` in that case; then the errors of `read`
    /// from `Csv` on. `Read` is never returned.
    #[tactic(auto, unfolding(crate::specs::Accepted::table_said))]
    pub fn of_text(alloc: Global, text: &[u8]) -> Result<Table, TableFault>
        ensures table { IfOk result IsTable }
        ensures judged { IsErrOf result TableFault.Read → ⊥ }
        ensures long { IsErrOf result TableFault.TooLong ↔ (4194304 < length text.now) }
        ensures said { Gives TableFault.Memory (λ t. t) result (table_said text.now) }
    {
        if text.len() > LIMIT {
            return Err(TableFault::TooLong);
        }
        let items = read_items(alloc, text)?;
        Table::from_items(alloc, &items)
    }

    /// Checks stored entries and returns the table that they make. They must ascend: those of base graph 1 come before
    /// those of base graph 2, and those of a graph are sorted by row and then by column, as `item` lists them.
    ///
    /// # Errors
    ///
    /// The first entry that has an error decides: `Range` with its number, counted from 1, if its base graph is neither
    /// 1 nor 2 or does not have its row or its column; otherwise `Order`, if it does not come after the entry before
    /// it. Then `Table`: with `Empty` if there is no entry, or for each base graph that has an entry, base graph 1
    /// first, with `Core`, `Extension` or `MissingRow`. `Memory` is returned when memory runs out, but never in place
    /// of `Range` or `Order`.
    #[tactic(auto, unfolding(crate::specs::Listed::entries_said))]
    pub fn of_entries(alloc: Global, entries: &[KeptEntry]) -> Result<Table, EntriesFault>
        ensures table { IfOk result IsTable }
        ensures placed { IfErr (places_said entries.now) (λ fault. IsErrOf result fault) }
        ensures listed { IfOk result (λ t. kept_listed t ≡ entries.now) }
        ensures said { Gives EntriesFault.Memory (λ t. t) result (entries_said entries.now) }
    {
        judge_places(entries)?;
        match Table::of_ascending(alloc, entries) {
            Ok(table) => Ok(table),
            Err(TableFault::Memory) => Err(EntriesFault::Memory),
            Err(fault) => Err(EntriesFault::Table(fault)),
        }
    }

    /// Checks a list of items and returns the table that they make.
    ///
    /// # Errors
    ///
    /// In this order: `Empty` if there is no item; then, for each base graph that has an entry, base graph 1 first,
    /// `Core`, `Extension` and `MissingRow`. `Memory` is returned when memory runs out.
    pub(crate) fn from_items(alloc: Global, items: &[Item]) -> Result<Table, TableFault>
        requires apart { Apart items.now }
        requires in_range { All IsInside items.now }
        ensures table { IfOk result IsTable }
        ensures said { Gives TableFault.Memory (λ t. t) result (acceptance_of (table_of items.now)) }
    {
        let one = Sorted::new(alloc, Graph::One, items)?;
        let two = Sorted::new(alloc, Graph::Two, items)?;
        Table::of_sorted(one, two)
    }

    // The table of entries that ascend, those of base graph 1 first: they need no sorting.
    fn of_ascending(alloc: Global, entries: &[KeptEntry]) -> Result<Table, TableFault>
        requires ascending { places_said entries.now ≡ Ok tt }
        requires in_range { All (λ e. IsInside (item_kept e)) entries.now }
        ensures table { IfOk result IsTable }
        ensures said { Gives TableFault.Memory (λ t. t) result
            (acceptance_of (table_of (map item_kept entries.now))) }
    {
        let ones = ones_in(entries);
        let one = Sorted::of_ascending(alloc, &entries[..ones])?;
        let two = Sorted::of_ascending(alloc, &entries[ones..])?;
        Table::of_sorted(one, two)
    }

    // The table of the entries of both base graphs, judged.
    #[tactic(auto, unfolding(crate::specs::Accepted::acceptance_of))]
    fn of_sorted(one: Sorted, two: Sorted) -> Result<Table, TableFault>
        requires ones { All (IsInRange One) one }
        requires twos { All (IsInRange Two) two }
        ensures table { IfOk result IsTable }
        ensures said { Gives TableFault.Memory (λ t. t) result
            (acceptance_of (record { one = one; two = two })) }
    {
        if one.entries().is_empty() && two.entries().is_empty() {
            return Err(TableFault::Empty);
        }
        judge(Graph::One, &one)?;
        judge(Graph::Two, &two)?;
        Ok(Table { one, two })
    }

    /// States what the type promises of each table, at no cost, because a proof opens the type when a field is named.
    pub(crate) fn is_sound(&self)
        ensures { IsTable self.now }
    {
        let _named_field = &self.one;
    }

    // The entries of a base graph.
    fn sorted(&self, graph: Graph) -> &Sorted
        ensures table { IsTable self.now }
        ensures value { result.now ≡ entries_in graph self.now }
    {
        match graph {
            Graph::One => &self.one,
            Graph::Two => &self.two,
        }
    }

    /// Returns whether the table has entries of the base graph. If it has any, it has all that an accepted table must
    /// have.
    pub fn has(&self, graph: Graph) -> bool
        ensures table { IsTable self.now }
        ensures value { result ≡ has_graph graph self.now }
    {
        match graph {
            Graph::One => !self.one.entries().is_empty(),
            Graph::Two => !self.two.entries().is_empty(),
        }
    }

    /// Returns the shift value V at a row and a column of a base graph for the lifting-size set `set` in 0..=7, as the
    /// file has it, not reduced modulo a lifting size, or `None` if there is no entry.
    pub fn shift(&self, graph: Graph, row: u32, col: u32, set: u32) -> Option<u16>
        requires { set < 8 }
        ensures table { IsTable self.now }
        ensures value { result ≡ value_at graph row col set self.now }
    {
        let sorted = self.sorted(graph);
        match values_in(sorted.row(row), col) {
            Some(values) => Some(values[set as usize]),
            None => None,
        }
    }

    /// Returns the entries of a row of a base graph, sorted by column.
    pub fn row_entries(&self, graph: Graph, row: u32) -> &[Entry]
        ensures table { IsTable self.now }
        ensures entries { result.now ≡ row_of (entries_in graph self.now) row }
        ensures order { ColumnsAscend result.now }
        ensures in_range { All (IsInRange graph) result.now }
    {
        self.sorted(graph).row(row)
    }

    /// Returns the entries of a column of a base graph, sorted by row.
    pub fn col_entries(&self, graph: Graph, col: u32) -> &[Entry]
        ensures table { IsTable self.now }
        ensures entries { result.now ≡ column_of (entries_in graph self.now) col }
        ensures order { RowsAscend result.now }
        ensures in_range { All (IsInRange graph) result.now }
    {
        self.sorted(graph).column(col)
    }

    /// Returns the item of this number, counted from 0, or `None` past the last one. The items ascend: those of base
    /// graph 1 come before those of base graph 2, and those of a graph are sorted by row and then by column.
    /// `of_entries` makes the same table of all items, in the form of `KeptEntry::of`.
    pub fn item(&self, n: u32) -> Option<Item>
        ensures table { IsTable self.now }
        ensures value { result ≡ slice_get (items_listed self.now) n }
    {
        let (ones, twos) = (self.one.entries(), self.two.entries());
        let n = n as usize;
        if n < ones.len() {
            return Some(Item {
                graph: Graph::One,
                entry: ones[n],
            });
        }
        let rest = n - ones.len();
        if rest < twos.len() {
            return Some(Item {
                graph: Graph::Two,
                entry: twos[rest],
            });
        }
        None
    }

    /// Returns how many entries the table has of a base graph.
    pub fn entries(&self, graph: Graph) -> u32
        ensures table { IsTable self.now }
        ensures value { result ≡ length (entries_in graph self.now) }
    {
        self.sorted(graph).len()
    }
}
