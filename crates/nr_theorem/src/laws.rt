//! The laws of nr_blockdesk that `carry` calls. Such a call does nothing when it runs: it hands the proof what the law says.

pub(crate) use nr_blockdesk::{
    delivered_is_only, explained_never_contradicts, nothing_is_open, outcomes_are_exact,
    words_are_plain,
};
