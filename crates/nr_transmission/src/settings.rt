//! The settings of a link.

/// The settings that both ends of a link share.
#[derive(Clone, Copy, Debug, PartialEq, Eq)]
pub struct Settings {
    /// The code rate in 2048ths: 1 to 2048.
    pub rate2048: u32,
    /// TBS_LBRM in bits, if the circular buffer is limited (TS 38.212, 5.4.2.1).
    pub lbrm: Option<u32>,
}
