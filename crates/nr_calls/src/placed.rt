//! A transmission that was checked, with everything that places its bits.

ghost use Rattle.std.specs.Prelude.{◌≡◌, ◌*◌, ◌<◌};
ghost use Rattle.nr_graphpick.specs.Graph.{cols_of};
ghost use Rattle.nr_ratematch.specs.Lengths.{IsShared};
ghost use Rattle.nr_ratematch.specs.Selection.{IsCircular};
ghost use Rattle.nr_segment.specs.CodeBlock.{positions_of};

use arrayvec::ArrayVec;
use nr_blockdesk::Tx;
use nr_ratematch::{Buffer, MOST_BLOCKS};
use nr_segment::Plan;

// A transmission that has no fault, with the plan of its transport block, the buffer and E_r of each code block.
#[derive(Drop)]
pub(crate) struct Placed {
    pub(crate) plan: Plan,
    pub(crate) buffer: Buffer,
    pub(crate) tx: Tx,
    pub(crate) lengths: ArrayVec<u32, MOST_BLOCKS>,
    pub ghost version: { tx.rv < 4 },
    pub ghost shared: { IsShared plan.c tx.g tx.qm lengths.items },
    pub ghost lifted: { buffer.z ≡ plan.z },
    pub ghost circular: { IsCircular buffer },
    pub ghost columns: { cols_of buffer.graph * buffer.z ≡ positions_of plan },
}
