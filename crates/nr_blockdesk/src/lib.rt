//! Both ends of a link that carries transport blocks by NR's data coding chain (3GPP TS 38.212, Release 15: 6.2 and
//! 7.2). `send` of a `Sender` returns `sent` of the block and the transmission (specs/Sent.antt), whatever was sent
//! before. `take` of a `Receiver` returns the outcome of all that was received (specs/Outcome.antt). A delivered block
//! is the only one possible.
//!
//! Inside, a `Sender` encodes its block once, and a `Receiver` keeps the record of all that arrived (specs/Heard.antt).
//! `take_marks` takes places as marks (specs/Marks.antt).
#![tactic(auto)]

mod arrival;
mod candidate;
mod code_block;
mod encoder;
mod gather_part;
mod heard;
mod hearing;
mod laws;
mod link;
mod marks;
mod outcome;
mod part;
mod part_masks;
mod place_cursors;
mod processes;
mod receiver;
mod receiver_laws;
mod selected;
mod sender;
mod slices;
mod turns;

pub use heard::Heard;
pub use laws::{
    accepted_are_matched, accepted_send_all, links_are_sound, parts_are_at, sent_bits_are_at,
    sent_is_long, words_are_only, words_are_plain,
};
pub use link::Link;
pub use nr_peel::{Recorded, Recording, Unrecorded};
pub use nr_transmission::{DeskFault, Settings, Tx};
pub use outcome::Outcome;
pub use processes::{Processes, processes_are_apart};
pub use receiver::Receiver;
pub use receiver_laws::{
    decided_is_only, delivered_is_only, ends_are_safe, erasures_are_safe, erasures_decide,
    explained_is_delivered, explained_never_contradicts, explainers_agree, explains_by_record,
    nothing_is_open, nothing_leaves_all, one_explains, outcomes_are_decided, outcomes_are_exact,
    outcomes_settle, places_decide, positions_decide, records_continue,
};
pub use sender::Sender;
pub use slices::{
    fillers_are_between, hear_slices, lacking_is_left, receptions_tell, slices_between,
    slices_follow,
};
