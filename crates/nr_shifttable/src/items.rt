//! The items of a table file: its records, checked one by one.

ghost use Rattle.std.specs.Prelude.{◌≡◌, ◌^◌, ◌<◌, [], length, drop, nat_lt, if◌then◌else◌, Some, None, All};
ghost use Rattle.std.specs.{Prelude.IfOk, Prelude.OnErr, Prelude.OnOk, List.list_all};
ghost use Rattle.csv.specs.Records.{fields_of};
ghost use Rattle.nr_shifttable.specs.Items.{Apart, has_place, is_header, item_of, item_of_numbers, items_said, short_numbers};
ghost use Rattle.nr_shifttable.specs.{Items.same_place, Items.with_item, inside.Words.short_values, Orders.key_of};
ghost use Rattle.nr_shifttable.specs.inside.Orders.{IsInside, AreBefore};
ghost use Rattle.nr_streams.specs.Records.{records_of};
ghost use Rattle.nr_refusal.specs.Refusal.{Gives};

use crate::entry::{Entry, Item};
use crate::fault::TableFault;
use csv::ByteRecord;
use nr_graphpick::Graph;
use nr_streams::{Records, short_number, stripped};
use std::alloc::{AllocError, Global};

// How many fields a record has: base graph, row, column, and a value for each lifting-size set.
const FIELDS: usize = 11;

/// Returns the items of a table file's text, in the order of its records. The row and the column of each lie within its
/// base graph, and no two items have the same place.
///
/// # Errors
///
/// For the first record that has an error, `Fields` or `Csv`, `Number`, `Range`, `Twice`, in this order; `Memory` if
/// memory runs out.
pub fn read_items(alloc: Global, text: &[u8]) -> Result<Vec<Item>, TableFault>
    requires { length text.now < 2 ^ 32 }
    ensures said { Gives TableFault.Memory (λ v. v.items) result (items_said text.now) }
    ensures apart { IfOk result (λ v. Apart v.items) }
    ensures inside { IfOk result (λ v. All IsInside v.items) }
{
    read_records(alloc, text)
}

// The items, record by record.
fn read_records(alloc: Global, text: &[u8]) -> Result<Vec<Item>, TableFault>
    requires { length text.now < 2 ^ 32 }
    ensures { Gives TableFault.Memory (λ v. v.items) result (items_said text.now) }
{
    let mut records = Records::new(alloc, text);
    let mut row = ByteRecord::new(alloc);
    let mut items = Vec::new(alloc);
    let mut past = 0;
    let mut number = 0;
    while records.next(&mut row)? {
        number += 1;
        let found = item_of(number, &items, past, &row)?;
        past = add(&mut items, past, found)?;
    }
    Ok(items)
}

// Adds an item to the others, if there is one, and returns a number past all their keys.
fn add(items: &mut Vec<Item>, past: u32, found: Option<Item>) -> Result<u32, AllocError>
    requires { AreBefore past items.old.items }
    ensures ok { OnOk result (items.new.items ≡ with_item items.old.items found) }
    ensures past { IfOk result (λ more. AreBefore more items.new.items) }
    ensures err { OnErr result (items.new.items ≡ items.old.items) }
{
    let Some(item) = found else {
        return Ok(past);
    };
    let next = place_key(item.graph, item.entry.row, item.entry.col) + 1;
    items.push(item)?;
    Ok(past.max(next))
}

/// Returns a number by which places are sorted: base graph 1 before base graph 2, and each of them row by row.
pub(crate) fn place_key(graph: Graph, row: u16, col: u16) -> u32
    ensures key { result ≡ key_of graph row col }
    ensures few { result < 2 ^ 24 }
{
    let first = match graph {
        Graph::One => 0,
        Graph::Two => 4096,
    };
    first + 68 * u32::from(row) + u32::from(col)
}

// What a record says, given its number from 1, the items of the records before it and a number past
// their keys. A header gives none.
#[tactic(auto, unfolding(crate::specs::Items::item_of))]
fn item_of(
    number: u32,
    earlier: &[Item],
    past: u32,
    row: &ByteRecord,
) -> Result<Option<Item>, TableFault>
    requires { AreBefore past earlier.now }
    ensures { result ≡ item_of number earlier.now (fields_of row.now) }
{
    if row.len() != FIELDS {
        return Err(if number == 1 {
            TableFault::Fields
        } else {
            TableFault::Csv(number)
        });
    }
    if number == 1 && is_header(row) {
        return Ok(None);
    }
    let Some(numbers) = short_numbers(row) else {
        return Err(TableFault::Number(number));
    };
    let Some(item) = item_of_numbers(&numbers) else {
        return Err(TableFault::Range(number));
    };
    if has_place(earlier, past, &item) {
        return Err(TableFault::Twice(number));
    }
    Ok(Some(item))
}

// Whether the first field is the word `graph`.
fn is_header(row: &ByteRecord) -> bool
    ensures { result ≡ is_header (fields_of row.now) }
{
    match row.get(0) {
        Some(field) => stripped(field) == b"graph".as_slice(),
        None => false,
    }
}

// The numbers of a record's eleven fields, if each field is one.
fn short_numbers(row: &ByteRecord) -> Option<[u64; FIELDS]>
    requires { length (fields_of row.now) ≡ 11 }
    ensures { result ≡ short_numbers (fields_of row.now) }
{
    let mut numbers = [0; FIELDS];
    for i in 0..FIELDS {
        numbers[i] = short_number(stripped(row.get(i)?))?;
    }
    Some(numbers)
}

// The item that a record's numbers say, if they are in range.
fn item_of_numbers(numbers: &[u64; FIELDS]) -> Option<Item>
    ensures { result ≡ item_of_numbers numbers.now }
{
    let graph = match numbers[0] {
        1 => Graph::One,
        2 => Graph::Two,
        _ => return None,
    };
    let (row, col) = (numbers[1], numbers[2]);
    if row >= u64::from(graph.rows()) || col >= u64::from(graph.cols()) {
        return None;
    }
    let values = values_of(numbers)?;
    let entry = Entry {
        row: row as u16,
        col: col as u16,
        values,
    };
    Some(Item { graph, entry })
}

// The values of the lifting-size sets, if each fits 16 bits.
fn values_of(numbers: &[u64; FIELDS]) -> Option<[u16; 8]>
    ensures { result ≡ short_values (drop 3 numbers.now) }
{
    let mut values = [0; 8];
    for set in 0..8 {
        values[set] = u16::try_from(numbers[3 + set]).ok()?;
    }
    Some(values)
}

// Whether one of the items, whose keys are all below `past`, is at the place of this one.
//
// If the records ascend no item is looked at. Otherwise this goes over all of them for each record, which stays small. A
// base graph has at most 46 rows and 68 columns. So no more than 5,312 records pass before one is out of range or at
// the place of another.
fn has_place(items: &[Item], past: u32, item: &Item) -> bool
    requires { AreBefore past items.now }
    ensures { result ≡ has_place items.now item.now }
{
    if past <= place_key(item.graph, item.entry.row, item.entry.col) {
        return false;
    }
    items.iter().any(|other| same_place(other, item))
}

// Whether two items are at one place: in the same base graph, row and column.
fn same_place(one: &Item, other: &Item) -> bool
    ensures { result ≡ same_place one.now other.now }
{
    one.graph == other.graph && one.entry.row == other.entry.row && one.entry.col == other.entry.col
}
