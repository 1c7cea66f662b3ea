//! Practice tables, made by one rule for both base graphs, so that their words can be written by hand. Made-up tables, whose
//! values differ from set to set, and transport blocks for tests.

use nr_bitvec::Bits;
use nr_blockdesk::{Settings, Tx};
use nr_graphpick::Graph;
use nr_ratematch::Mask;
use nr_shifttable::Table;
use nr_streams::Feed;
use std::alloc::{AllocError, Global};
use std::fmt::Write;
use std::test::Fail;

/// The highest code rate, and no limit of the buffer.
pub(crate) const PLAIN: Settings = Settings {
    rate2048: 2048,
    lbrm: None,
};

/// An entry of a table that a test makes.
#[derive(Clone, Copy)]
struct Cell {
    graph: Graph,
    row: u32,
    col: u32,
    values: [u32; 8],
}

/// Puts an entry at the end of a table's text. To write to a String fails only if memory runs out.
fn put(text: &mut String, cell: &Cell) -> Result<(), AllocError> {
    write!(text, "{},{},{}", cell.graph, cell.row, cell.col)?;
    for value in cell.values {
        write!(text, ",{value}")?;
    }
    text.push('\n')
}

/// The text of a table that has these entries.
fn text_of(alloc: Global, cells: &[Cell]) -> Result<String, AllocError> {
    let mut text = String::new(alloc);
    for cell in cells {
        put(&mut text, cell)?;
    }
    Ok(text)
}

/// The table of these entries.
fn table_of(alloc: Global, cells: &[Cell]) -> Result<Table, Fail> {
    let mut feed = Feed::new(text_of(alloc, cells)?.into_bytes(), 4096, 0);
    Ok(Table::read(alloc, &mut feed)?)
}

/// Pushes an entry with one value in all sets.
fn push(
    cells: &mut Vec<Cell>,
    graph: Graph,
    row: u32,
    col: u32,
    value: u32,
) -> Result<(), AllocError> {
    cells.push(Cell {
        graph,
        row,
        col,
        values: [value; 8],
    })?;
    Ok(())
}

/// Pushes the parity columns of rows 0 to 3, from column `n` on.
fn push_parity(
    cells: &mut Vec<Cell>,
    graph: Graph,
    n: u32,
    (first, middle): (u32, u32),
) -> Result<(), AllocError> {
    let parity = [
        (0, 0, first),
        (0, 1, 0),
        (1, 1, 0),
        (1, 2, 0),
        (2, 0, middle),
        (2, 2, 0),
        (2, 3, 0),
        (3, 0, 0),
        (3, 3, 0),
    ];
    for (row, col, value) in parity.iter().copied() {
        push(cells, graph, row, n.wrapping_add(col), value)?;
    }
    Ok(())
}

/// Pushes the practice table of a base graph. Rows 0 to 3 have the even or the odd information columns. Each row from 4 on
/// has one information column, rotated by the row's number. The first parity column has the values `first` and `middle` in
/// rows 0 and 2.
fn push_practice(cells: &mut Vec<Cell>, values: (u32, u32)) -> Result<(), AllocError> {
    let graph = Graph::Two;
    let n = graph.info_cols().max(1);
    for row in 0..4 {
        for col in 0..n {
            if row % 2 == col % 2 {
                push(cells, graph, row, col, 0)?;
            }
        }
    }
    push_parity(cells, graph, n, values)?;
    for row in 4..graph.rows() {
        push(cells, graph, row, row % n, row)?;
        push(cells, graph, row, n.wrapping_add(row), 0)?;
    }
    Ok(())
}

/// The text of the practice table of base graph 2.
pub(crate) fn practice_text(alloc: Global) -> Result<String, AllocError> {
    let mut cells = Vec::new(alloc);
    push_practice(&mut cells, (0, 1))?;
    text_of(alloc, &cells)
}

/// The practice table of base graph 2. With `more`, row 1 has column 0 too, rotated by one.
pub(crate) fn practice(alloc: Global, first: u32, middle: u32, more: bool) -> Result<Table, Fail> {
    let mut cells = Vec::new(alloc);
    push_practice(&mut cells, (first, middle))?;
    if more {
        push(&mut cells, Graph::Two, 1, 0, 1)?;
    }
    table_of(alloc, &cells)
}

/// So many zero bits.
pub(crate) fn zeros(alloc: Global, count: u32) -> Result<Bits, AllocError> {
    Bits::zeros(alloc, count.min(10_000))
}

/// The bits of octets, of which a test has few.
pub(crate) fn few_bits_of(alloc: Global, octets: &[u8]) -> Result<Bits, AllocError> {
    let most = octets.len().min(8192);
    Bits::from_bytes(alloc, &octets[..most])
}

/// How a transport block is sent on one layer.
pub(crate) fn on_one_layer(rv: u32, g: u32, qm: u32) -> Tx {
    Tx {
        rv,
        g,
        qm,
        nl: 1,
        mask: Mask::All,
    }
}

/// Values that look drawn and differ from set to set, most of them above the lifting sizes.
fn drawn_values(row: u32, col: u32) -> [u32; 8] {
    let mut values = [0; 8];
    for (set, value) in values.iter_mut().enumerate() {
        let mixed = row
            .wrapping_mul(2_654_435_761)
            .wrapping_add(col.wrapping_mul(40_503))
            .wrapping_add((set as u32).wrapping_mul(97_777));
        *value = mixed % 65_536;
    }
    values
}

/// Whether a row has a column, counted from the first parity column, whose values are all zero.
fn is_unturned(row: u32, k: u32) -> bool {
    match row {
        0 => k == 1,
        1 => k == 1 || k == 2,
        2 => k == 2 || k == 3,
        3 => k == 3,
        _ => k == row,
    }
}

/// What a made-up table has in a row and a column. Each row has some information columns, and each third row has
/// one of the first four parity columns. Of the three rows that have the first parity column, row 2 has other values there.
fn made_up_values(graph: Graph, row: u32, col: u32) -> Option<[u32; 8]> {
    let n = graph.info_cols().max(1);
    if col < n {
        let is_there = col.wrapping_mul(3).wrapping_add(row) % 4 == 0 || row % n == col;
        return is_there.then_some(drawn_values(row, col));
    }
    let k = col - n;
    let spare = if graph == Graph::One { 2 } else { 1 };
    if k == 0 && row < 4 && row != spare {
        return Some(drawn_values(if row == 2 { 99 } else { 98 }, col));
    }
    if is_unturned(row, k) {
        return Some([0; 8]);
    }
    let is_third = row > 3 && row % 3 == 0 && k == row % 4;
    is_third.then_some(drawn_values(row, col))
}

/// The entries of a made-up table of a base graph, by rows.
fn made_up(alloc: Global, graph: Graph) -> Result<Vec<Cell>, AllocError> {
    let mut cells = Vec::new(alloc);
    for row in 0..graph.rows() {
        for col in 0..graph.cols() {
            if let Some(values) = made_up_values(graph, row, col) {
                cells.push(Cell {
                    graph,
                    row,
                    col,
                    values,
                })?;
            }
        }
    }
    Ok(cells)
}

/// The table of these entries.
pub(crate) fn made_up_table(alloc: Global, graph: Graph) -> Result<Table, Fail> {
    let cells = made_up(alloc, graph)?;
    table_of(alloc, &cells)
}
