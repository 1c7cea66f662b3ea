//! How a program of your own uses the crates of this repository. It reads a shift table from standard input, and sends a
//! transport block over a link that erases bits and flips one. After each transmission it prints what the receiver delivers.
//! `carry` does all of this: its clause is the theorem of docs/theorem.md, and its body is the part to copy.
#![tactic(auto)]

use nr_bitvec::Bits;
use nr_blockdesk::{DeskFault, Heard, Outcome, Sender, Settings, Tx};
use nr_ratematch::Mask;
use nr_shifttable::{Feed, Table, TableFault};
use nr_theorem::{Arrival, Carried, carry};
use std::alloc::{AllocError, Global};
use std::io::Read;
use std::{fmt, io};
use thiserror::Error;

/// Why the program ends early.
#[derive(Debug, Drop, Error)]
enum Fault {
    #[error("standard input or output: {0}")]
    Io(#[from] io::Error),
    #[error("shift table: {0}")]
    Table(#[from] TableFault),
    #[error("transport block or transmission: {0}")]
    Desk(#[from] DeskFault),
    #[error("memory: {0}")]
    Memory(#[from] AllocError),
}

/// The highest code rate, and a circular buffer that keeps all bits.
const SETTINGS: Settings = Settings {
    rate2048: 2048,
    lbrm: None,
};

/// The first 28 bits of the circular buffer, by a redundancy version.
const fn first_bits(rv: u32) -> Tx {
    Tx {
        rv,
        g: 28,
        qm: 1,
        nl: 1,
        mask: Mask::All,
    }
}

/// What the link does to each bit sent: `-` brings it, `x` flips it, and a dot erases it. The second transmission is rejected
/// because there is no redundancy version 4, and the third because 29 places are said to have arrived of 28.
const LINK: [(u32, &str); 5] = [
    (0, "------------------------...."),
    (4, "............................"),
    (0, "............................."),
    (0, "........................----"),
    (0, "---------------------------x"),
];

/// Reads a shift table from a reader, to its end.
fn read_table<R: Read>(alloc: Global, reader: &mut R) -> Result<Table, Fault> {
    let mut text = Vec::new(alloc);
    reader.read_to_end(&mut text)?;
    Ok(Table::read(alloc, &mut Feed::new(text, 4096, 0))?)
}

/// The bits that are sent of the transport block: the same in each transmission that is not rejected.
fn bits_sent(alloc: Global, table: &Table, block: &Bits) -> Result<Bits, DeskFault> {
    Sender::new(alloc, table, SETTINGS, block)?.send(&first_bits(0))
}

/// What arrives of the bits sent.
fn arrived(alloc: Global, sent: &Bits, link: &str) -> Result<Vec<Heard>, AllocError> {
    let mut heard = Vec::new(alloc);
    for (place, mark) in link.bytes().enumerate() {
        let bit = place < sent.len() && sent.get(place);
        heard.push(match (mark, bit) {
            (b'-', true) | (b'x', false) => Heard::One,
            (b'-', false) | (b'x', true) => Heard::Zero,
            _ => Heard::Erased,
        })?;
    }
    Ok(heard)
}

/// What is printed after a transmission: its fault, if it was rejected, and the outcome, with the octets of a transport block in
/// hexadecimal.
#[derive(Drop)]
struct Line<'a>(&'a Carried);

impl fmt::Display for Line<'_> {
    fn fmt<W: fmt::Write>(&self, f: &mut fmt::Formatter<W>) -> fmt::Result {
        let Line(carried) = self;
        match carried.answers.last() {
            Some(Err(fault)) => write!(f, "rejected ({fault}): ")?,
            _ => write!(f, "sent: ")?,
        }
        match &carried.outcome {
            Outcome::Delivered(block) => {
                write!(f, "delivered ")?;
                for octet in 0..block.len() / 8 {
                    write!(f, "{:02x}", block.octet(8 * octet))?;
                }
                Ok(())
            }
            Outcome::Open => write!(f, "open"),
            Outcome::Contradiction => write!(f, "contradiction"),
        }
    }
}

/// After each transmission of the link, prints what the receiver delivers of all that has arrived.
fn print_outcomes(
    rt: &impl Print,
    alloc: Global,
    table: &Table,
    block: &Bits,
    sent: &Bits,
) -> Result<(), Fault> {
    let mut arrivals = Vec::new(alloc);
    for (rv, link) in &LINK {
        let heard = arrived(alloc, sent, link)?;
        let tx = first_bits(*rv);
        let pushed = arrivals.push(Arrival { tx, heard });
        pushed.map_err(|_| AllocError)?;
        let carried = carry(alloc, table, SETTINGS, block, &arrivals)?;
        println!(rt; "{}", Line(&carried))?;
    }
    Ok(())
}

fn main(rt: HostRuntime) -> Result<(), Fault> {
    let alloc = rt.alloc();
    let table = read_table(alloc, &mut rt.reader())?;
    let block = Bits::from_bytes(alloc, &[0x01])?;
    let sent = bits_sent(alloc, &table, &block)?;
    print_outcomes(&rt, alloc, &table, &block, &sent)
}
