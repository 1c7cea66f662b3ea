//! Where a part's places are in the codeword, one place after another. Interleaving writes the selected bits row by row
//! into a matrix of Qm rows, and reads it column by column. So each row has its bits one after another, and mostly their
//! positions too. The next is one further on, and only at the start of a run is it computed.

ghost use Rattle.std.specs.Prelude.{◌≡◌, ℕ, ◌+◌, ◌*◌, ◌%◌, ◌^◌, ◌<◌, ◌≤◌};
ghost use Rattle.nr_graphpick.specs.Graph.{cols_of};
ghost use Rattle.nr_interleave.specs.Interleaving.{seat_of};
ghost use Rattle.nr_ratematch.specs.Selection.{Circular, place_of};
ghost use Rattle.nr_blockdesk.specs.inside.Cursors.{AreCursors, IsCursor, given_count, place_count};

use nr_ratematch::Buffer;

// The most rows that a matrix has, which is the highest modulation order.
const MOST_ROWS: usize = 8;

/// Where a row goes on.
#[derive(Clone, Copy)]
pub(crate) struct RowCursor {
    // The position of the row's next bit, if `left` is not 0.
    position: u32,
    // How many bits of the row, from the next one on, have positions one after another.
    left: u32,
}

impl RowCursor {
    // The position of the row's next bit, which is selected bit `k`. From it on the row has `most` bits.
    fn step(&mut self, buffer: &Buffer, rv: u32, k: u32, most: u32) -> u32
        requires version { rv < 4 }
        requires most { 0 < most }
        requires short { cols_of buffer.now.graph * buffer.now.z < 2 ^ 32 }
        requires cursor { IsCursor buffer.now rv k self.old }
        ensures value { result ≡ place_of buffer.now rv k }
        ensures inside { result < cols_of buffer.now.graph * buffer.now.z }
        ensures cursor { IsCursor buffer.now rv (k + 1) self.new }
    {
        if self.left == 0 {
            let (position, run) = buffer.run(rv, k, most);
            self.position = position;
            self.left = run;
        }
        let position = self.position;
        self.position += 1;
        self.left -= 1;
        position
    }
}

/// A cursor for each row of a part's matrix. They give the positions of its places in turn, and leave none out.
#[derive(Drop)]
pub(crate) struct PlaceCursors {
    // Where each row goes on.
    rows: [RowCursor; MOST_ROWS],
    // How many columns the matrix has.
    columns: u32,
    // The row of the next place.
    row: u32,
    // The column of the next place.
    column: u32,
}

impl PlaceCursors {
    // Before the first of `count` places.
    pub(crate) fn new(qm: u32, count: u32) -> PlaceCursors
        requires some { 0 < qm }
        requires few { qm ≤ 8 }
        requires whole { count % qm ≡ 0 }
        ensures cursors { (b : Circular) (rv : ℕ) → cols_of b.graph * b.z < 2 ^ 32
            → AreCursors b rv qm result }
        ensures places { place_count qm result ≡ count }
        ensures given { given_count qm result ≡ 0 }
    {
        PlaceCursors::at_column(qm, count, 0)
    }

    // Before the first place in column `column` of the matrix of `count` places.
    pub(crate) fn at_column(qm: u32, count: u32, column: u32) -> PlaceCursors
        requires some { 0 < qm }
        requires few { qm ≤ 8 }
        requires whole { count % qm ≡ 0 }
        ensures cursors { (b : Circular) (rv : ℕ) → cols_of b.graph * b.z < 2 ^ 32
            → AreCursors b rv qm result }
        ensures places { place_count qm result ≡ count }
        ensures given { given_count qm result ≡ qm * column }
    {
        let unread = RowCursor {
            position: 0,
            left: 0,
        };
        PlaceCursors {
            rows: [unread; MOST_ROWS],
            columns: count / qm,
            row: 0,
            column,
        }
    }

    // The position of the next place.
    pub(crate) fn next(&mut self, buffer: &Buffer, rv: u32, qm: u32) -> u32
        requires version { rv < 4 }
        requires cursors { AreCursors buffer.now rv qm self.old }
        requires more { given_count qm self.old < place_count qm self.old }
        ensures value { result ≡ place_of buffer.now rv
            (seat_of qm (place_count qm self.old) (given_count qm self.old)) }
        ensures inside { result < cols_of buffer.now.graph * buffer.now.z }
        ensures cursors { AreCursors buffer.now rv qm self.new }
        ensures places { place_count qm self.new ≡ place_count qm self.old }
        ensures given { given_count qm self.new ≡ given_count qm self.old + 1 }
    {
        let k = self.row * self.columns + self.column;
        let left = self.columns - self.column;
        let position = self.rows[self.row as usize].step(buffer, rv, k, left);
        self.row += 1;
        if self.row == qm {
            self.row = 0;
            self.column += 1;
        }
        position
    }
}
