//! The entries of a shift table, as a caller keeps them: the table is read from its text once.

ghost use Rattle.std.specs.Prelude.{◌≡◌, false, Err, IfOk};
ghost use Rattle.nr_refusal.specs.Refusal.{Gives};
ghost use Rattle.nr_shifttable.specs.Accepted.{IsTable};
ghost use Rattle.nr_calls.specs.Entries.{are_placed, fault_of, table_by};

use crate::fault::Fault;
use nr_shifttable::{EntriesFault, Table};
use std::alloc::Global;

/// An entry of a shift table (TS 38.212, 5.3.2: Tables 5.3.2-2 and 5.3.2-3). It has 22 octets, without padding.
pub use nr_shifttable::KeptEntry as NrEntry;

// The shift table of entries.
pub(crate) fn table_by(alloc: Global, entries: &[NrEntry]) -> Result<Table, Fault>
    ensures table { IfOk result IsTable }
    ensures said { Gives Fault.Memory (λ table. table) result (table_by entries.now) }
    ensures placed { are_placed entries.now ≡ false → result ≡ Err Fault.Entries }
{
    match Table::of_entries(alloc, entries) {
        Ok(table) => Ok(table),
        Err(fault) => Err(fault_of(fault)),
    }
}

// The fault of a call whose entries have this one.
fn fault_of(fault: EntriesFault) -> Fault
    ensures { result ≡ fault_of fault }
{
    match fault {
        EntriesFault::Range(_) | EntriesFault::Order(_) => Fault::Entries,
        EntriesFault::Table(fault) => Fault::Table(fault),
        EntriesFault::Memory => Fault::Memory,
    }
}
