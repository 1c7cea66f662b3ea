//! The laws of lower crates that bodies call here. Such a call does nothing at run time: it makes the law known to the
//! proof of the body.

pub(crate) use nr_crcattach::attachment_lengthens;
