//! Sixteen HARQ processes of one link end.

ghost use Rattle.std.specs.Prelude.{◌≡◌, ◌<◌, ◌++◌, [], ◌∷◌, List, None, Some, replicate, IsErrOf, IsOk};
ghost use Rattle.std.specs.Prelude.{IsTrue, IfOk, OnErr, OnOk, is_some, option_map};
ghost use Rattle.nr_blockdesk.specs.Calls.{Call, HadMemory, IsAfter, ProcessesAreApart, answer_after, begin, take};
ghost use Rattle.nr_blockdesk.specs.{Explains.reception, Link.link_said, Receiving.RefusesAs, Receiving.verdict};
ghost use Rattle.nr_blockdesk.specs.Processing.{BeginsAt, TakesAt, process};

use crate::heard::Heard;
use crate::outcome::Outcome;
use crate::receiver::Receiver;
use arrayvec::ArrayVec;
use nr_shifttable::Table;
use nr_transmission::{DeskFault, Settings, Tx};
use std::alloc::Global;
use std::marker::Model;

/// How many HARQ processes there are.
const COUNT: usize = 16;

/// Sixteen HARQ processes, numbered from 0, over one shift table and one setting. Each process that has begun has a
/// receiver of its own, and no call on one process changes another one. They keep their allocator, and take memory for
/// the processes that have begun alone.
#[derive(Drop)]
pub struct Processes<'t> {
    table: &'t Table,
    settings: Settings,
    places: ArrayVec<Option<Receiver<'t>>, COUNT>,
    alloc: Global,
}

impl<'t> Model for Processes<'t> {
    ghost use Rattle.std.specs.Prelude.{◌≡◌, length};
    ghost use Rattle.nr_blockdesk.specs.Processing.{ProcessesView};

    ghost Value = { ProcessesView };

    ghost view = { λ x. record {
      table = x.table.now;
      settings = x.settings;
      places = x.places.items;
    } };

    ghost invariant = { λ x. length x.places.items ≡ 16 };
}

impl<'t> Processes<'t> {
    /// The processes, of which none has begun. Takes no memory.
    pub fn new(alloc: Global, table: &'t Table, settings: Settings) -> Processes<'t>
        ensures none { result ≡ record {
          table = table.now;
          settings = settings;
          places = replicate 16 None;
        } }
        ensures after { IsAfter result [] }
    {
        let mut places = ArrayVec::new();
        for _ in 0..COUNT {
            places.push(None);
        }
        Processes {
            table,
            settings,
            places,
            alloc,
        }
    }

    /// Process `p`, 0 to 15, begins: it has a new receiver of a transport block of `a` bits, which has received nothing
    /// yet. The receiver that it had is kept until the new one is there, so memory is wanted for both.
    ///
    /// # Errors
    ///
    /// Those of `Receiver::new`, in its order. All processes are then as before.
    pub fn begin(&mut self, p: u8, a: u32) -> Result<(), DeskFault>
        requires { p < 16 }
        ensures refused { RefusesAs DeskFault.Memory result
            (link_said self.old.table self.old.settings a) }
        ensures judged { IsErrOf result DeskFault.Memory
            → IsOk (link_said self.old.table self.old.settings a) }
        ensures begins { OnOk result (BeginsAt self.old self.new p a) }
        ensures err { OnErr result (self.new ≡ self.old) }
        ensures after { HadMemory result → (calls : List Call) → IsAfter self.old calls
            → IsAfter self.new (calls ++ begin p a ∷ []) }
    {
        let receiver = Receiver::new(self.alloc, self.table, self.settings, a)?;
        self.places[p as usize] = Some(receiver);
        Ok(())
    }

    /// Whether process `p`, 0 to 15, has begun.
    pub fn begun(&self, p: u8) -> bool
        requires { p < 16 }
        ensures { result ≡ is_some (process self.now p) }
    {
        self.places[p as usize].is_some()
    }

    /// The receiver of process `p`, 0 to 15, if it has begun.
    pub fn receiver(&self, p: u8) -> Option<&Receiver<'t>>
        requires { p < 16 }
        ensures { option_map (λ r. r.now) result ≡ process self.now p }
    {
        self.places[p as usize].as_ref()
    }

    /// Process `p`, 0 to 15, which must have begun, receives a transmission, place by place (TS 38.212, 5.4.2 and 5.5).
    /// Returns what may be handed up of all that it received since it last began.
    ///
    /// # Errors
    ///
    /// Those of `Receiver::take`, in its order. Nothing is received then.
    pub fn take(&mut self, p: u8, tx: &Tx, heard: &[Heard]) -> Result<Outcome, DeskFault>
        requires place { p < 16 }
        requires begun { IsTrue (is_some (process self.old p)) }
        ensures takes { TakesAt self.old self.new p (reception tx.now heard.now) result }
        ensures err { OnErr result (self.new ≡ self.old) }
        ensures after { HadMemory result → (calls : List Call) → IsAfter self.old calls
            → IsAfter self.new (calls ++ take p (reception tx.now heard.now) ∷ []) }
        ensures answers { IfOk result (λ answer. (calls : List Call) → IsAfter self.old calls
            → answer_after self.old p (calls ++ take p (reception tx.now heard.now) ∷ [])
            ≡ Some (verdict answer)) }
    {
        match &mut self.places[p as usize] {
            Some(receiver) => receiver.take(tx, heard),
            None => unreachable!(),
        }
    }
}

/// Law: what a process has received after a list of calls on the processes follows from the calls on it alone.
pub fn processes_are_apart()
    ensures { ProcessesAreApart }
{}
