//! The peeler of one code block.

ghost use Rattle.std.specs.Prelude.{◌≡◌, ℕ, ◌+◌, ◌<◌, ◌≤◌, ◌↔◌, ◌==◌, false, true, unwrap_or, IfOk};
ghost use Rattle.std.specs.Prelude.{IsErrOf, OnErr, OnOk, length, slice_set, take};
ghost use Rattle.std.specs.Int.{bit_at};
ghost use Rattle.nr_bitvec.specs.Bit.{bit};
ghost use Rattle.nr_segment.specs.CodeBlock.{numbers};
ghost use Rattle.nr_shifttable.specs.Accepted.{has_graph};
ghost use Rattle.nr_peel.specs.Certificates.{IsFixOrder};
ghost use Rattle.nr_peel.specs.Peeling.{
  GivesAll,
  HasEachStopping,
  IsCounted,
  IsPeeled,
  IsSameCode,
  IsStarted,
  KeepsAllWords,
  KeepsBits,
  KeepsKnown,
  KeepsWords,
  StopsWhereLeft,
  TakesAll,
  checks_for,
  gained_in,
  known_at,
  left_of,
  most_visits,
  unknown_in,
};

use crate::any_sweep::AnySweep;
use crate::fix::Fix;
use crate::lifted::{Lifted, reciprocal};
use crate::progress::Progress;
use crate::recording::{Recorded, Recording};
use nr_bitvec::{Bits, Marks};
use nr_ldpcenc::EncFault;
use nr_segment::Plan;
use nr_shifttable::Table;
use std::alloc::{AllocError, Global};
use std::marker::{Model, PhantomData};

/// A peeler of one code block: which positions of its codeword were given, which are known by them, and the steps
/// that fixed the others. With `Unrecorded` it forgets the steps, and leaves an extension column unknown if nothing was given
/// of it. Each position of such a column is in one row alone, so no other one follows from it.
#[derive(Drop)]
pub struct Peeler<'t, K: Recording = Recorded> {
    lifted: Lifted<'t>,
    progress: Progress,
    sweep: AnySweep,
    recording: PhantomData<K>,
}

impl<'t, K: Recording> Model for Peeler<'t, K> {
    ghost use Rattle.std.specs.Prelude.{◌≡◌};
    ghost use Rattle.nr_peel.specs.Peeling.{Peeling};
    ghost use Rattle.nr_peel.specs.State.{any_view};
    ghost use Rattle.nr_peel.specs.inside.Learning.{IsAnySettled};

    ghost Value = { Peeling };

    ghost view = { λ a. any_view a.lifted a.progress a.sweep };

    ghost invariant = { λ a. IsAnySettled a.lifted a.progress a.sweep × (a.progress.order.kept ≡ K.recorded) };
}

impl<'t> Peeler<'t> {
    /// A peeler of a code block of a plan, to which only the fillers are given, as zeros (TS 38.212, 5.3.2). They fix
    /// no position below K'. All memory of its life is taken here.
    ///
    /// # Errors
    ///
    /// `NoGraph`, if the table lacks the plan's base graph; then `Memory`, if memory is refused.
    #[tactic(auto, using(crate::proofs::Common::set_below))]
    pub fn new(alloc: Global, table: &'t Table, plan: &Plan) -> Result<Peeler<'t>, EncFault>
        ensures no_graph { IsErrOf result EncFault.NoGraph
            ↔ (has_graph plan.now.graph table.now ≡ false) }
        ensures started { IfOk result (IsStarted table.now plan.now.graph (numbers plan.now)) }
        ensures left { IfOk result (λ s. left_of plan.now.kdash s.known ≡ plan.now.kdash) }
        ensures recorded { IfOk result (λ s. s.recorded ≡ true) }
    {
        Peeler::start(alloc, table, plan)
    }

    /// The steps that fixed positions, in turn. If no position below K' is left they are a fix order from the
    /// given positions.
    #[tactic(auto, using(crate::proofs::LeftPositionFacts::whole_order, crate::proofs::LearningFacts::kdash_fits, crate::proofs::SweepViewFacts::any_peeled))]
    pub fn order(&self) -> &[Fix]
        ensures value { result.now ≡ self.now.order }
        ensures peeled { IsPeeled self.now }
        ensures recorded { self.now.recorded ≡ true }
        ensures fixes { left_of self.now.numbers.kdash self.now.known ≡ 0
            → IsFixOrder (checks_for self.now) self.now.numbers.kdash
            (bit self.now.given) self.now.order }
    {
        &self.progress.order.list
    }

    /// How many positions peeling fixed: those that are known and were not given. A step whose position was given later is
    /// none of them.
    pub fn gained(&self) -> u32
        ensures value { result ≡ gained_in self.now.known self.now.given }
        ensures peeled { IsPeeled self.now }
        ensures recorded { self.now.recorded ≡ true }
    {
        self.sweep.gained(&self.lifted, &self.progress)
    }

    /// All positions that aren't known, ascending. If a position below K' is left they are a stopping set beside
    /// the given positions, and have every other one's members.
    ///
    /// # Errors
    ///
    /// `AllocError` means that memory ran out.
    pub fn stuck(&self) -> Result<Vec<u32>, AllocError>
        ensures value { IfOk result (λ v. v.items ≡ unknown_in self.now.known) }
        ensures peeled { IsPeeled self.now }
        ensures recorded { self.now.recorded ≡ true }
        ensures stops { IfOk result (λ v. StopsWhereLeft self.now v.items) }
        ensures largest { IfOk result (λ v. HasEachStopping self.now v.items) }
    {
        let alloc = *self.progress.order.list.allocator();
        let size = self.lifted.plan.graph.cols() * self.lifted.plan.z;
        let positions = self.sweep.unknown(alloc, size)?;
        Ok(positions)
    }
}

impl<'t, K: Recording> Peeler<'t, K> {
    /// A peeler that records its steps or not, as its type says. It is `new` of that type.
    ///
    /// # Errors
    ///
    /// As `new`: `NoGraph`, then `Memory`.
    #[tactic(auto, using(crate::proofs::Common::set_below))]
    pub fn start(alloc: Global, table: &'t Table, plan: &Plan) -> Result<Peeler<'t, K>, EncFault>
        ensures no_graph { IsErrOf result EncFault.NoGraph
            ↔ (has_graph plan.now.graph table.now ≡ false) }
        ensures started { IfOk result (IsStarted table.now plan.now.graph (numbers plan.now)) }
        ensures left { IfOk result (λ s. left_of plan.now.kdash s.known ≡ plan.now.kdash) }
        ensures recorded { IfOk result (λ s. s.recorded ≡ K.recorded) }
    {
        if !table.has(plan.graph) {
            return Err(EncFault::NoGraph);
        }
        let lifted = Lifted {
            table,
            plan: *plan,
            reciprocal: reciprocal(plan.z),
        };
        let Ok(mut progress) = Progress::new(alloc, &lifted, K::is_recorded()) else {
            return Err(EncFault::Memory);
        };
        let Ok(sweep) = AnySweep::new(alloc, &lifted, &mut progress) else {
            return Err(EncFault::Memory);
        };
        Ok(Peeler {
            lifted,
            progress,
            sweep,
            recording: PhantomData,
        })
    }

    /// Becomes equal to another peeler of the same code, and keeps its own memory. No clause says what this costs: the body
    /// sweeps no row, and takes no memory if no steps are recorded.
    ///
    /// # Errors
    ///
    /// `AllocError` means that memory ran out. Nothing has changed then.
    pub fn copy_from(&mut self, from: &Peeler<'t, K>) -> Result<(), AllocError>
        requires { checks_for self.old ≡ checks_for from.now }
        ensures same { OnOk result (self.new ≡ from.now) }
        ensures err { OnErr result (self.new ≡ self.old) }
    {
        self.progress.copy_from(&from.progress)?;
        self.sweep.copy_from(&from.sweep);
        self.lifted = from.lifted;
        Ok(())
    }

    /// Gives a position, which takes the bit if it was not known, and fixes all that follows. Takes no memory. Many
    /// positions cost less by `learn_all`.
    #[tactic(auto, using(std::proofs::lemmas::Bool::Decides::nat_tests))]
    pub fn learn(&mut self, pos: u32, value: bool)
        requires { pos < (checks_for self.old).size }
        ensures code { IsSameCode self.old self.new }
        ensures given { self.new.given ≡ slice_set self.old.given pos true }
        ensures known { KeepsKnown self.old self.new }
        ensures bits { KeepsBits self.old self.new }
        ensures taken { bit self.old.known pos ≡ false → bit self.new.bits pos ≡ value }
        ensures words { KeepsWords pos value self.old self.new }
        ensures steps { take (length self.old.order) self.new.order ≡ self.old.order }
        ensures counted { self.old.touches ≤ self.new.touches }
        ensures peeled { IsPeeled self.new }
    {
        self.sweep
            .learn(&self.lifted, &mut self.progress, pos, value);
    }

    /// Gives all marked positions; those that weren't known take their bits, and all that follows is fixed. Takes no memory.
    /// No clause says how long it takes. If each marked position was given before, the body reads and writes words of 64
    /// positions alone.
    pub fn learn_all(&mut self, marks: &Marks)
        requires { length marks.now.heard.items ≡ (checks_for self.old).size }
        ensures code { IsSameCode self.old self.new }
        ensures given { GivesAll (bit marks.now.heard.items) self.old self.new }
        ensures known { KeepsKnown self.old self.new }
        ensures bits { KeepsBits self.old self.new }
        ensures taken { TakesAll (bit marks.now.heard.items) (bit marks.now.value.items) self.old self.new }
        ensures words { KeepsAllWords (bit marks.now.heard.items) (bit marks.now.value.items)
            self.old self.new }
        ensures steps { take (length self.old.order) self.new.order ≡ self.old.order }
        ensures counted { self.old.touches ≤ self.new.touches }
        ensures peeled { IsPeeled self.new }
    {
        self.sweep
            .learn_all(&self.lifted, &mut self.progress, marks);
    }

    /// The bit of a position, if it is known.
    pub fn known(&self, pos: u32) -> Option<bool>
        requires { pos < (checks_for self.now).size }
        ensures value { result ≡ known_at self.now pos }
        ensures peeled { IsPeeled self.now }
        ensures recorded { self.now.recorded ≡ K.recorded }
    {
        self.sweep.known(pos as usize)
    }

    /// The bits of the positions from `pos` on, the first of them lowest, and zero for one that isn't known. Then how many
    /// positions these are: at least one, and at most 64.
    pub fn bits_from(&self, pos: u32) -> (u64, u32)
        requires { pos < (checks_for self.now).size }
        ensures bits { (j : ℕ) → j < result.1
            → (bit_at result.0 j == 1) ≡ unwrap_or (known_at self.now (pos + j)) false }
        ensures some { 0 < result.1 }
        ensures few { result.1 ≤ 64 }
        ensures peeled { IsPeeled self.now }
        ensures recorded { self.now.recorded ≡ K.recorded }
    {
        let (word, count) = self.sweep.bits_from(pos as usize);
        (word, count as u32)
    }

    /// How many positions below K' aren't known. No clause says how long this takes: they are counted at the end of each
    /// call that gives positions.
    pub fn left(&self) -> u32
        ensures value { result ≡ left_of self.now.numbers.kdash self.now.known }
        ensures peeled { IsPeeled self.now }
        ensures recorded { self.now.recorded ≡ K.recorded }
    {
        self.progress.left
    }

    /// How many visits there were of a row and a position of it. With n the number of pairs of a row and a known position of it,
    /// they are at most 2 n, and at least n if steps are recorded, as the type says (`recorded`). So all calls of a peeler's life
    /// together make at most twice the lifting size times the entries of the base graph. Operations are counted beside visits. They
    /// are at most three a visit and one for each row block, and visits are at most Zc times as many (`worked`). The crate's README
    /// says what one is.
    #[tactic(auto, using(crate::proofs::CountedPairFacts::visits_few, crate::proofs::SweepViewFacts::any_peeled))]
    pub fn touches(&self) -> u64
        ensures value { result ≡ self.now.touches }
        ensures few { result ≤ most_visits self.now }
        ensures worked { IsCounted self.now }
        ensures peeled { IsPeeled self.now }
        ensures recorded { self.now.recorded ≡ K.recorded }
    {
        self.progress.touches
    }

    /// The positions given, marked: the fillers and those learned.
    pub fn given(&self) -> &Bits
        ensures value { result.now.items ≡ self.now.given }
        ensures peeled { IsPeeled self.now }
        ensures recorded { self.now.recorded ≡ K.recorded }
    {
        &self.progress.given
    }
}
