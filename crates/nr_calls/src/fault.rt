//! The errors of a call, and the status that each is returned as.

ghost use Rattle.std.specs.Prelude.{◌≡◌};
ghost use Rattle.nr_calls.specs.Statuses.{block_status, desk_status, plan_status, rate_status, fault_number, table_status};

use nr_blockdesk::DeskFault;
use nr_graphpick::PickFault;
use nr_ratematch::RmFault;
use nr_segment::SegFault;
use nr_shifttable::TableFault;
use std::alloc::AllocError;

/// The error of a call.
#[derive(Clone, Copy)]
pub enum Fault {
    /// An allocation failed.
    Memory,
    /// An output does not have the length of the result.
    Room,
    /// There are more items than the call accepts.
    Many,
    /// No generator polynomial has this number.
    Poly,
    /// An octet that stands for a bit is neither 0 nor 1.
    Bit,
    /// No code block of the base graph has this lifting size.
    Lifting,
    /// No code block has this number, or this many fillers.
    CodeBlock,
    /// The receiver's state was created for another table, block size or buffer limit, or it is corrupt.
    State,
    /// An entry of a shift table is outside its base graph, or does not come after those before it.
    Entries,
    /// The shift table is rejected.
    Table(TableFault),
    /// The transport block or a transmission is rejected.
    Desk(DeskFault),
}

impl Fault {
    // The number of the fault, as it is returned to C.
    pub(crate) fn status(self) -> u32
        ensures { result ≡ fault_number self }
    {
        match self {
            Fault::Memory => 1,
            Fault::Room => 2,
            Fault::Many => 3,
            Fault::Poly => 4,
            Fault::Bit => 5,
            Fault::Lifting => 6,
            Fault::CodeBlock => 7,
            Fault::State => 8,
            Fault::Entries => 31,
            Fault::Table(fault) => table_status(fault),
            Fault::Desk(fault) => desk_status(fault),
        }
    }
}

// The number of a shift table's fault.
pub(crate) fn table_status(fault: TableFault) -> u32
    ensures { result ≡ table_status fault }
{
    match fault {
        TableFault::Memory => 1,
        TableFault::Read => 20,
        TableFault::Csv(_) => 21,
        TableFault::Fields => 22,
        TableFault::Number(_) => 23,
        TableFault::Range(_) => 24,
        TableFault::Twice(_) => 25,
        TableFault::Core(_) => 26,
        TableFault::Extension(_) => 27,
        TableFault::MissingRow(_) => 28,
        TableFault::Empty => 29,
        TableFault::TooLong => 30,
    }
}

// The number of the fault of a transport block or of a transmission.
fn desk_status(fault: DeskFault) -> u32
    ensures { result ≡ desk_status fault }
{
    match fault {
        DeskFault::Memory => 1,
        DeskFault::Size => 40,
        DeskFault::Pick(fault) => block_status(fault),
        DeskFault::Seg(fault) => plan_status(fault),
        DeskFault::Graph => 46,
        DeskFault::Rv => 50,
        DeskFault::Rm(fault) => rate_status(fault),
        DeskFault::Length => 56,
    }
}

// The number of the fault for which no base graph is picked.
fn block_status(fault: PickFault) -> u32
    ensures { result ≡ block_status fault }
{
    match fault {
        PickFault::RateRange => 41,
        PickFault::SizeRange => 42,
    }
}

// The number of the fault for which there is no plan.
fn plan_status(fault: SegFault) -> u32
    ensures { result ≡ plan_status fault }
{
    match fault {
        SegFault::Short => 43,
        SegFault::Long => 44,
        SegFault::Uneven => 45,
    }
}

// The number of the fault for which bits are not selected.
fn rate_status(fault: RmFault) -> u32
    ensures { result ≡ rate_status fault }
{
    match fault {
        RmFault::NoBuffer => 47,
        RmFault::Order => 51,
        RmFault::Layers => 52,
        RmFault::Total => 53,
        RmFault::Ragged => 54,
        RmFault::NoneScheduled => 55,
    }
}

impl From<AllocError> for Fault {
    ghost use Rattle.std.specs.Prelude.{◌≡◌};
    ghost use Rattle.nr_calls.specs.declared.fault.Fault.TheVariants.{Memory};

    ghost from_gives = { λ _ fault. fault ≡ Memory };

    fn from(_error: AllocError) -> Fault {
        Fault::Memory
    }
}
