//! Checking the text of a shift table, and reading its entries.

ghost use Rattle.std.specs.Prelude.{◌≡◌, ◌≢◌, ◌<◌, Ok, length};
ghost use Rattle.nr_refusal.specs.Refusal.{with_fault};
ghost use Rattle.nr_shifttable.specs.{Accepted.table_said, Listed.graph_number, Listed.kept_listed};
ghost use Rattle.nr_calls.specs.{Entries.table_by, Statuses.OrOutOfMemory};
ghost use Rattle.nr_calls.specs.Judging.{fault_place, judged_status, listing_after, listed_status, listing, report_of};

use crate::entries::NrEntry;
use crate::fault::{Fault, table_status};
use crate::laws;
use nr_graphpick::Graph;
use nr_shifttable::{Table, TableFault};
use std::alloc::Global;

/// What checking a shift table finds.
#[repr(C)]
#[derive(Clone, Copy)]
pub struct NrReport {
    /// The number of entries of base graph 1 if the table is accepted, else 0.
    pub one: u32,
    /// The number of entries of base graph 2 if the table is accepted, else 0.
    pub two: u32,
    /// If the table is rejected with 21, 23, 24 or 25, the number of the record, counted from 1; with 26 to 28 the base
    /// graph; else 0.
    pub place: u32,
    /// Reserved for later fields; it is written as 0.
    pub reserved: u32,
}

/// Checks the shift table of a text and writes what it finds to `out` (TS 38.212, 5.3.2). `nr_c` exports this call and
/// says what each status means.
pub fn nr_table_check(alloc: Global, text: &[u8], out: &mut NrReport) -> u32
    ensures said { OrOutOfMemory result out.old out.new ((result ≡ judged_status (table_said text.now))
        × (out.new ≡ report_of (table_said text.now))) }
    ensures long { 4194304 < length text.now → result ≡ 30 }
{
    write_report(Table::of_text(alloc, text), out)
}

// Writes what a judged table tells, and returns its number: 1 only if memory ran out, which writes nothing.
fn write_report(judged: Result<Table, TableFault>, out: &mut NrReport) -> u32
    ensures status { result ≡ judged_status judged }
    ensures told { result ≢ 1 → out.new ≡ report_of judged }
    ensures err { result ≡ 1 → out.new ≡ out.old }
{
    match judged {
        Ok(table) => {
            let (one, two) = (table.entries(Graph::One), table.entries(Graph::Two));
            *out = NrReport {
                one,
                two,
                place: 0,
                reserved: 0,
            };
            0
        }
        Err(TableFault::Memory) => 1,
        Err(fault) => {
            let place = fault_place(fault);
            *out = NrReport {
                one: 0,
                two: 0,
                place,
                reserved: 0,
            };
            table_status(fault)
        }
    }
}

/// Reads the shift table of a text and writes its entries to `out` (TS 38.212, 5.3.2). `nr_c` exports this call and
/// says what each status means.
pub fn nr_table_entries(alloc: Global, text: &[u8], out: &mut [NrEntry], count: &mut usize) -> u32
    ensures said { OrOutOfMemory result (listing out.old count.old) (listing out.new count.new)
        ((result ≡ listed_status (length out.old) (table_said text.now)) × (listing out.new count.new
        ≡ listing_after (listing out.old count.old) (table_said text.now))) }
    ensures same_table { result ≡ 0
        → table_by out.new ≡ with_fault Fault.Table (table_said text.now) }
    ensures long { 4194304 < length text.now → result ≡ 30 }
{
    list(Table::of_text(alloc, text), out, count)
}

// Writes what is listed of a judged table, and returns its number: 1 only if memory ran out.
fn list(judged: Result<Table, TableFault>, out: &mut [NrEntry], count: &mut usize) -> u32
    ensures status { result ≡ listed_status (length out.old) judged }
    ensures places { listing out.new count.new ≡ listing_after (listing out.old count.old) judged }
    ensures same_table { result ≡ 0 → table_by out.new ≡ with_fault Fault.Table judged }
{
    match judged {
        Ok(table) => list_of(&table, out, count),
        Err(fault) => table_status(fault),
    }
}

// Writes how many entries a table has, and the entries if there is room for so many.
fn list_of(table: &Table, out: &mut [NrEntry], count: &mut usize) -> u32
    ensures status { result ≡ listed_status (length out.old) (Ok table.now) }
    ensures places { listing out.new count.new
        ≡ listing_after (listing out.old count.old) (Ok table.now) }
    ensures same_table { result ≡ 0 → table_by out.new ≡ Ok table.now }
{
    let wanted = table.entries(Graph::One) as usize + table.entries(Graph::Two) as usize;
    *count = wanted;
    if out.len() != wanted {
        return Fault::Room.status();
    }
    write_entries(table, out);
    laws::listed_are_kept();
    laws::tables_are_sound(table);
    0
}

// Writes the entries of a table.
fn write_entries(table: &Table, out: &mut [NrEntry])
    requires { length out.old ≡ length (kept_listed table.now) }
    ensures { out.new ≡ kept_listed table.now }
{
    // A sound table has few entries, so that each number of one fits.
    laws::tables_are_sound(table);
    for (n, entry) in out.iter_mut().enumerate() {
        if let Some(item) = table.item(n as u32) {
            *entry = NrEntry::of(&item);
        }
    }
}

// The place of a shift table's fault: the number of a record or of a base graph, or 0.
fn fault_place(fault: TableFault) -> u32
    ensures { result ≡ fault_place fault }
{
    match fault {
        TableFault::Csv(record)
        | TableFault::Number(record)
        | TableFault::Range(record)
        | TableFault::Twice(record) => record,
        TableFault::Core(graph) | TableFault::Extension(graph) | TableFault::MissingRow(graph) =>
            graph_number(graph),
        _ => 0,
    }
}

// The number of a base graph.
pub(crate) fn graph_number(graph: Graph) -> u32
    ensures { result ≡ graph_number graph }
{
    match graph {
        Graph::One => 1,
        Graph::Two => 2,
    }
}
