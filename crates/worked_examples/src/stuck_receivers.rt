//! What the peeler of a receiver is stuck on, and a base graph that a peeler's table lacks, by hand.

use crate::certificates::MOST;
use crate::fix_orders::{Columns, columns_of};
use crate::peeling::{Shown, new_peeler, show};
use crate::practice::{PLAIN, on_one_layer, practice};
use crate::receptions::{NONE, Places, arrived, receiver_of, take};
use nr_blockdesk::{Heard, Receiver};
use nr_graphpick::Graph;
use nr_ldpcenc::EncFault;
use nr_segment::{Plan, plan};
use nr_shifttable::Table;
use std::alloc::{AllocError, Global};
use std::test::Fail;

/// What the peeler of the first code block shows. Each block has one.
fn shown_of(alloc: Global, receiver: &Receiver<'_>) -> Result<Shown, AllocError> {
    if receiver.plan().c == 0 {
        return Err(AllocError);
    }
    show(alloc, receiver.peeler(0))
}

/// What is found about the columns of a receiver's first code block.
fn columns_in(alloc: Global, table: &Table, receiver: &Receiver<'_>) -> Result<Columns, Fail> {
    let shown = shown_of(alloc, receiver)?;
    columns_of(alloc, table, receiver.plan(), &shown)
}

/// What is found about the columns after these places of 320 bits were received.
fn columns_after(
    alloc: Global,
    table: &Table,
    receiver: &mut Receiver<'_>,
    places: &[Heard],
) -> Result<Columns, Fail> {
    match take(receiver, &on_one_layer(0, 320, 1), places) {
        Ok(_) => columns_in(alloc, table, receiver),
        Err(fault) => Err(fault.into()),
    }
}

/// What is found about the columns of a new receiver of 24 bits.
fn columns_over(alloc: Global, table: &Table, places: &[Heard]) -> Result<Columns, Fail> {
    match receiver_of(alloc, table, PLAIN, 24) {
        Ok(mut receiver) => columns_after(alloc, table, &mut receiver, places),
        Err(fault) => Err(fault.into()),
    }
}

/// What is found about the columns if these places of 24 zeros are received over the practice table.
fn columns_heard(alloc: Global, heard: Places<'_>) -> Result<Columns, Fail> {
    let table = practice(alloc, 0, 1, false)?;
    let places = arrived(alloc, &table, &[0; 3], (320, heard, NONE))?;
    columns_over(alloc, &table, &places)
}

// Column 1 is not sent, and is fixed by its copies. Column 0 is not sent, and the columns that are erased are all its
// copies, and the parity column 11 of row 1. The 49 positions of these 7 columns are stuck, and none can be left out.
#[test]
fn a_receiver_is_stuck_on_seven_columns(rt: HostRuntime) -> Result<(), Fail> {
    assert!(rt; columns_heard(rt.alloc(), MOST)? == (7, (true, true), 0));
    Ok(())
}

/// Why there is no peeler.
fn fault_of(alloc: Global, table: &Table, plan: &Plan) -> Option<EncFault> {
    new_peeler(alloc, table, plan).err()
}

/// Why there is none of a code block of 24 bits by base graph 1, over the practice table of base graph 2.
fn fault_without_graph_1(alloc: Global) -> Result<Option<EncFault>, Fail> {
    let plan = plan(Graph::One, 24)?;
    let table = practice(alloc, 0, 1, false)?;
    Ok(fault_of(alloc, &table, &plan))
}

#[test]
fn a_peeler_wants_its_base_graph(rt: HostRuntime) -> Result<(), Fail> {
    assert!(rt; fault_without_graph_1(rt.alloc())? == Some(EncFault::NoGraph));
    Ok(())
}
