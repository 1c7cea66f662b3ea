//! What both ends of a link have to agree on (3GPP TS 38.212, 5.4.2). These are plain types whose values promise
//! nothing, so each end says in its own contract what it accepts.
//!
//! `Settings` is the code rate and the limit of the circular buffer, `Tx` is one transmission of a transport block, and
//! `DeskFault` is why an end rejects a block or a transmission.
#![tactic(auto)]

mod fault;
mod settings;
mod tx;

pub use fault::DeskFault;
pub use settings::Settings;
pub use tx::Tx;
