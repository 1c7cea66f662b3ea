//! Receiving a part of a transmission in up to 64 rounds side by side.

ghost use Rattle.std.specs.Prelude.{◌≡◌, ◌*◌, ◌%◌, ◌^◌, ◌<◌, ◌≤◌, length};
ghost use Rattle.nr_blockdesk.specs.Slices.{AreTold, ReceptionsTell, SlicesFollow, SlicesFollowBetween, LackingIsLeft};
ghost use Rattle.nr_blockdesk.specs.Slices.{FillersAreBetween};
ghost use Rattle.nr_graphpick.specs.Graph.{cols_of};

use crate::laws;
use crate::place_cursors::PlaceCursors;
use nr_ratematch::Buffer;

/// Receives a code block's part of a transmission. Bit j of word m of `arrived` says whether a bit was received at place m
/// in round j. Then round j has in `known` the position of that place.
pub fn hear_slices(buffer: &Buffer, rv: u32, qm: u32, arrived: &[u64], known: &mut [u64])
    requires version { rv < 4 }
    requires some { 0 < qm }
    requires few { qm ≤ 8 }
    requires whole { length arrived.now % qm ≡ 0 }
    requires short { length arrived.now < 2 ^ 32 }
    requires long { length known.old ≡ cols_of buffer.now.graph * buffer.now.z }
    requires positions { cols_of buffer.now.graph * buffer.now.z < 2 ^ 32 }
    ensures told { AreTold buffer.now rv qm arrived.now known.old known.new }
    ensures long { length known.new ≡ length known.old }
{
    let mut cursors = PlaceCursors::new(qm, arrived.len() as u32);
    for m in 0..arrived.len() {
        known[cursors.next(buffer, rv, qm) as usize] |= arrived[m];
    }
}

/// Law: after one more reception the positions of a code block are heard that were before it. So are those of the places
/// of its part at which a bit was received.
#[tactic(auto, using(crate::proofs::SliceFacts::receptions_tell))]
pub fn receptions_tell()
    ensures { ReceptionsTell }
{
    laws::parts_are_at();
    laws::places_have_one_owner();
    laws::accepted_are_matched();
}

/// Law: a set has the positions of a code block that are fixed. It takes those that one more reception tells, and is
/// closed. Then it has those that are fixed after it.
pub fn slices_follow()
    ensures { SlicesFollow }
{
    laws::parts_are_at();
    laws::places_have_one_owner();
    laws::accepted_are_matched();
    nr_ratematch::places_are_sent();
    laws::checks_are_sound();
    nr_peel::laws::closure_continues();
}

/// Law: the same of a set that has what was given and nothing that isn't fixed.
pub fn slices_between()
    ensures { SlicesFollowBetween }
{
    laws::parts_are_at();
    laws::places_have_one_owner();
    laws::accepted_are_matched();
    nr_ratematch::places_are_sent();
    laws::checks_are_sound();
    laws::closure_is_monotone();
    nr_peel::laws::closure_continues();
}

/// Law: if a set has what is fixed below K', it lacks as many positions there as are left.
pub fn lacking_is_left()
    ensures { LackingIsLeft }
{}

/// Law: before any reception the fillers are a set with what was given and nothing that isn't fixed.
pub fn fillers_are_between()
    ensures { FillersAreBetween }
{
    laws::checks_are_sound();
    nr_peel::laws::steps_stay_in_closure();
}
