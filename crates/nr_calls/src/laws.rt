//! The laws of the crates below that bodies call. Such a call does nothing: it hands the body what the law says.

pub(crate) use nr_blockdesk::{
    accepted_send_all, decided_is_only, delivered_is_only, erasures_are_safe, erasures_decide,
    fillers_are_between, lacking_is_left, links_are_sound, nothing_is_open, parts_are_at,
    sent_bits_are_at, slices_between,
};
pub(crate) use nr_crcattach::attachment_lengthens;
pub(crate) use nr_ratematch::{buffers_are_circular, places_are_sent};
pub(crate) use nr_segment::code_blocks_are_long;
pub(crate) use nr_shifttable::laws::{listed_are_kept, tables_are_sound};
