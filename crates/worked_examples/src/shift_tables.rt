//! What the shift tables return that are read from files (TS 38.212, 5.3.2).

use crate::practice::practice;
use nr_graphpick::Graph;
use nr_shifttable::Table;
use std::alloc::Global;
use std::test::Fail;

// A table's shift at a place, in one of the eight sets.
fn shift(table: &Table, graph: Graph, place: (u32, u32), set: u32) -> Option<u16> {
    let (row, col) = place;
    table.shift(graph, row, col, set.min(7))
}

// Whether shifts of the practice table with one entry more are as they are to be.
fn shifts_stand(alloc: Global) -> Result<[bool; 5], Fail> {
    let table = practice(alloc, 0, 1, true)?;
    Ok([
        shift(&table, Graph::Two, (17, 7), 3) == Some(17),
        shift(&table, Graph::Two, (17, 8), 3) == None,
        shift(&table, Graph::Two, (2, 10), 4) == Some(1),
        shift(&table, Graph::Two, (1, 0), 7) == Some(1),
        shift(&table, Graph::One, (17, 7), 3) == None,
    ])
}

// How many entries there are, and whether the table has the base graph.
fn count(table: &Table, graph: Graph) -> (u32, bool) {
    (table.entries(graph), table.has(graph))
}

// Whether the entries of a row of base graph 2 are in these columns.
fn row_stands(table: &Table, row: u32, columns: &[u16]) -> bool {
    let entries = table.row_entries(Graph::Two, row);
    let mut same = entries.len() == columns.len();
    for (entry, column) in entries.iter().zip(columns.iter()) {
        same &= u32::from(entry.row) == row && entry.col == *column;
    }
    same
}

// Whether the entries of a column of base graph 2 are in these rows.
fn column_stands(table: &Table, col: u32, rows: &[u16]) -> bool {
    let entries = table.col_entries(Graph::Two, col);
    let mut same = entries.len() == rows.len();
    for (entry, row) in entries.iter().zip(rows.iter()) {
        same &= u32::from(entry.col) == col && entry.row == *row;
    }
    same
}

// Whether entries of the practice table are as they are to be. It has base graph 2 alone: 105 entries, and none of base graph 1.
// Row 2 has the even information columns and the columns 10, 12 and 13. Column 0 is in rows 0 and 2 and in each tenth row from 10
// on.
fn entries_stand(alloc: Global) -> Result<[bool; 4], Fail> {
    let table = practice(alloc, 0, 1, false)?;
    Ok([
        count(&table, Graph::One) == (0, false),
        count(&table, Graph::Two) == (105, true),
        row_stands(&table, 2, &[0, 2, 4, 6, 8, 10, 12, 13]),
        column_stands(&table, 0, &[0, 2, 10, 20, 30, 40]),
    ])
}

#[test]
fn the_practice_table_is_read(rt: HostRuntime) -> Result<(), Fail> {
    assert!(rt; shifts_stand(rt.alloc())? == [true; 5]);
    assert!(rt; entries_stand(rt.alloc())? == [true; 4]);
    Ok(())
}
