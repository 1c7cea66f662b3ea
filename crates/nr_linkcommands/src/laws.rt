//! The laws of lower crates that bodies call here. Such a call does nothing at run time: it makes the law known to the
//! proof of the body.

pub(crate) use nr_blockdesk::{
    accepted_send_all, delivered_is_only, explained_is_delivered, explained_never_contradicts,
    links_are_sound, nothing_is_open,
};
pub(crate) use nr_segment::plans_are_sound;
