//! The errors of the ends of a link.

use nr_graphpick::PickFault;
use nr_ratematch::RmFault;
use nr_segment::SegFault;
use std::alloc::AllocError;
use thiserror::Error;

/// Why a transport block or a transmission is rejected. It prints as the name of the innermost error.
#[derive(Clone, Copy, Debug, PartialEq, Eq, Error)]
pub enum DeskFault {
    /// The transport block does not have 8 to 1,310,720 bits in whole octets.
    #[error("Size")]
    Size,
    /// No base graph can be chosen.
    #[error("{0}")]
    Pick(PickFault),
    /// The transport block cannot be segmented.
    #[error("{0}")]
    Seg(SegFault),
    /// The shift table lacks the base graph.
    #[error("Graph")]
    Graph,
    /// The redundancy version is above 3.
    #[error("Rv")]
    Rv,
    /// There is no circular buffer, or the bits cannot be shared out.
    #[error("{0}")]
    Rm(RmFault),
    /// There are more or fewer received values, erased ones included, than the transmission has bits.
    #[error("Length")]
    Length,
    /// Memory ran out.
    #[error("Memory")]
    Memory,
}

impl From<AllocError> for DeskFault {
    ghost use Rattle.std.specs.Prelude.{◌≡◌};
    ghost use Rattle.nr_transmission.specs.declared.fault.DeskFault.TheVariants.{Memory};

    ghost from_gives = { λ _ fault. fault ≡ Memory };

    fn from(_error: AllocError) -> DeskFault {
        DeskFault::Memory
    }
}
