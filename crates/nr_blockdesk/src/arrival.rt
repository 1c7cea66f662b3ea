//! What arrives of one transmission.

ghost use Rattle.std.specs.Prelude.{◌≡◌, ◌<◌, ◌≤◌, length};
ghost use Rattle.nr_ratematch.specs.Lengths.{IsShared};

use nr_bitvec::Marks;
use nr_ratematch::Buffer;
use nr_transmission::Tx;

/// A transmission that is accepted, and what was received of it. `lengths` has E_r of each code block, and `marks` the
/// places at which a bit was received.
#[derive(Drop)]
pub(crate) struct Arrival<'m> {
    pub(crate) buffer: &'m Buffer,
    pub(crate) tx: &'m Tx,
    pub(crate) lengths: &'m [u32],
    pub(crate) marks: &'m Marks,
    ghost version: { tx.now.rv < 4 },
    ghost few: { tx.now.qm ≤ 8 },
    ghost shared: { IsShared (length lengths.now) tx.now.g tx.now.qm lengths.now },
    ghost whole: { length marks.now.heard.items ≡ tx.now.g },
}
