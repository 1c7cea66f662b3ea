//! The contents of the four files of a command over a schedule, read and checked.

ghost use Rattle.std.{specs.Prelude.◌≤◌, specs.Prelude.All, specs.Prelude.length, proofs.Props.props};
ghost use Rattle.nr_files.specs.{Blocks.IsBlockLength, Schedule.IsTimetable, Schedule.timetable_by};
ghost use Rattle.nr_linkcommands.specs.inside.Linked.{IsPlaced-prop};

mod reading;

use nr_blockdesk::Settings;
use nr_files::Schedule;
use nr_shifttable::Table;
pub use reading::read_inputs;

/// The contents of the four files of a command over a schedule.
#[derive(Drop)]
pub struct Inputs {
    /// The accepted shift table.
    pub table: Table,
    /// The code rate and the limit of the circular buffer.
    pub settings: Settings,
    /// The transport blocks as octets, in their order.
    pub blocks: Vec<Vec<u8>>,
    /// The transmissions, in their order, and whether they name HARQ processes.
    pub schedule: Schedule,
    pub ghost few: { length blocks.items ≤ 256 },
    pub ghost sizes: { All (λ block. IsBlockLength (length block.items)) blocks.items },
    pub ghost timetable: { IsTimetable (length blocks.items) (timetable_by schedule) } by { Prim.hlevel (props, IsPlaced-prop) },
}
