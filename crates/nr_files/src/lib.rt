//! The input files of the commands. `read_blocks`, `read_settings` and `read_schedule` read a file to its end. Their
//! clause `said` defines the result as `blocks_said`, `settings_said` and `schedule_said` of the file's octets
//! (specs/), and their clause `pulled` is about a failed pull.
//!
//! The formats are those of transport blocks, of settings, and of a schedule of transmissions, which also says which
//! bits the link erases or flips and to which HARQ process each transmission belongs. `csv` and `toml` read the files,
//! `memchr` finds the ends of lines, and `thiserror` words the errors.
#![tactic(auto)]

mod blocks;
mod erasure;
mod marks;
mod place_fields;
mod rounds;
mod schedule;
mod settings;

pub use blocks::{BlocksFault, read_blocks};
pub use erasure::{Erasure, PlaceList, PlaceRange, Places, erased, named};
pub use place_fields::mask_of;
pub use rounds::{Round, blocks_are_rounds, goes_on, round_of};
pub use schedule::{PROCESSES, Schedule, ScheduleFault, Transmission, read_schedule};
pub use settings::{SettingsFault, read_settings};
