//! The receiver of one transport block.

ghost use Rattle.std.specs.Prelude.{◌≡◌, ℕ, ◌<◌, ◌≤◌, [], Bool, true, List, Ok, false, length, slice_index_or};
ghost use Rattle.std.specs.Prelude.{All, IfOk, IfErr, IsErrOf, IsOk};
ghost use Rattle.nr_crcattach.specs.Attachment.{attached_length};
ghost use Rattle.nr_bitvec.specs.Bit.{bit};
ghost use Rattle.nr_refusal.specs.Refusal.{Gives};
ghost use Rattle.nr_segment.specs.CodeBlock.{positions_of, numbers};
ghost use Rattle.nr_harqbuf.specs.Record.{record_of};
ghost use Rattle.nr_peel.specs.Peeling.{AgreesWith, IsPeeled, Peeling};
ghost use Rattle.nr_blockdesk.specs.{Explains.Explains, Explains.Reception, Explains.reception, Heard.IsRecordOf, Heard.heard_of};
ghost use Rattle.nr_blockdesk.specs.Link.{IsBlock, Link, link_said, word};
ghost use Rattle.nr_blockdesk.specs.Outcome.{IsDecided, all_fixed, given, left};
ghost use Rattle.nr_blockdesk.specs.Receiving.{AreStoresFor, Takes, peelers_of, peeling_of, verdict};

mod copying;
mod resuming;
mod taking;

use crate::candidate::{all_known, any_clash, candidate, explains, settled};
use crate::code_block::{CodeBlock, code_blocks_of};
use crate::encoder::encode_words;
use crate::heard::Heard;
use crate::link::Link;
use crate::marks::marks_of;
use crate::outcome::Outcome;
use crate::part_masks::empty_masks;
use crate::selected::Selected;
use crate::{laws, receiver_laws};
use nr_bitvec::{Bits, Marks};
use nr_crcattach::attach_into;
use nr_harqbuf::Store;
use nr_peel::{Peeler, Recorded, Recording};
use nr_segment::Plan;
use nr_shifttable::Table;
use nr_transmission::{DeskFault, Settings, Tx};
use std::alloc::{AllocError, Global};
use std::marker::Model;

/// The receiver of one transport block: it keeps the first bit received of each position of each code block, and what
/// follows from them. Once every position below K' is known it keeps the codewords of the one transport block
/// that may explain all. That is one more bit for each position. What a transmission tells of a code block is put
/// together in two bits for each position of one. It keeps its allocator. `new` takes all memory but what `take` asks
/// for. That is the delivered transport block, two bits for each place of a transmission, and two for each place of its
/// longest code block. The last are kept for the next transmission.
#[derive(Drop)]
pub struct Receiver<'t, K: Recording = Recorded> {
    link: Link<'t>,
    stores: Vec<Store>,
    code_blocks: Vec<CodeBlock<'t, K>>,
    block: Bits,
    candidate_read: bool,
    part_masks: Marks,
    selected: Selected,
    alloc: Global,
}

impl<'t, K: Recording> Model for Receiver<'t, K> {
    ghost use Rattle.nr_blockdesk.specs.Receiving.{ReceiverView, peelers_of};
    ghost use Rattle.nr_blockdesk.specs.inside.Receiving.{IsReceiver};

    ghost Value = { ReceiverView };

    ghost view = { λ x. record {
      link = x.link;
      heard = x.stores.items;
      peelings = peelers_of x.code_blocks.items;
    } };

    ghost invariant = { λ x. IsReceiver x.link
        x.stores.items x.code_blocks.items x.block x.candidate_read x.part_masks };
}

impl<'t> Receiver<'t> {
    /// The receiver of a transport block of `a` bits, which has received nothing yet.
    ///
    /// # Errors
    ///
    /// In this order:
    ///
    /// - `Size`, if `a` is not 8 to 1,310,720 in whole octets;
    /// - `Pick`, if no base graph is picked;
    /// - `Seg`, if there is no plan;
    /// - `Graph`, if the table lacks the base graph;
    /// - `Rm`, if the limited buffer keeps no bit (`NoBuffer`);
    /// - `Memory`, if memory runs out.
    pub fn new(
        alloc: Global,
        table: &'t Table,
        settings: Settings,
        a: u32,
    ) -> Result<Receiver<'t>, DeskFault>
        ensures said { Gives DeskFault.Memory (λ receiver. receiver.link) result
            (link_said table.now settings a) }
        ensures judged { IsErrOf result DeskFault.Memory → IsOk (link_said table.now settings a) }
        ensures empty { IfOk result (λ receiver. IsRecordOf receiver.link [] receiver.heard) }
    {
        let link = Link::new(table, settings, a)?;
        Receiver::over(alloc, link)
    }
}

impl<'t, K: Recording> Receiver<'t, K> {
    /// The receiver over a link, which has received nothing yet.
    ///
    /// # Errors
    ///
    /// `Memory` if memory runs out.
    pub fn over(alloc: Global, link: Link<'t>) -> Result<Receiver<'t, K>, DeskFault>
        ensures link { IfOk result (λ receiver. receiver.link ≡ link.entry) }
        ensures empty { IfOk result (λ receiver. IsRecordOf receiver.link [] receiver.heard) }
        ensures err { IfErr result (λ e. e ≡ DeskFault.Memory) }
    {
        let stores = blank_stores(alloc, link.plan())?;
        Receiver::of_stores(alloc, link, stores)
    }

    /// The receiver over a link that goes on from a record which was kept elsewhere. `stores` has what was received of each
    /// code block. `take` then is right for every list of receptions that has this record. Any stores of this many positions
    /// will do. No clause says what this costs: the body learns what they tell at once, code block by code block.
    ///
    /// # Errors
    ///
    /// `Memory` if memory runs out.
    pub fn of_stores(
        alloc: Global,
        link: Link<'t>,
        stores: Vec<Store>,
    ) -> Result<Receiver<'t, K>, DeskFault>
        requires { AreStoresFor link stores.items }
        ensures link { IfOk result (λ receiver. receiver.link ≡ link.entry) }
        ensures heard { IfOk result (λ receiver. receiver.heard ≡ stores.items) }
        ensures err { IfErr result (λ e. e ≡ DeskFault.Memory) }
    {
        link.is_sound();
        let code_blocks = code_blocks_of(alloc, &link, &stores)?;
        let plan = link.plan();
        let block = Bits::with_room(alloc, plan.b)?;
        let part_masks = empty_masks(alloc, plan)?;
        Ok(Receiver {
            link,
            stores,
            code_blocks,
            block,
            candidate_read: false,
            part_masks,
            selected: Selected::new(alloc),
            alloc,
        })
    }

    /// Receives a transmission, code block by code block (TS 38.212, 5.4.2 and 5.5). Returns what may be handed up of
    /// all that was received so far. This is true for every list of receptions that has this record. A
    /// transport block is delivered only if it explains all that arrived, and no other one does. When every position
    /// below K' is known for the first time, that block is encoded. From then on each call compares its codewords with
    /// all that was received. So it costs its G places, the peelers' visits, and a copy of the block, though clauses bound
    /// the visits alone (`IsPeeled`). A peeler counts at most three operations a visit and one for each row block.
    ///
    /// # Errors
    ///
    /// In this order:
    ///
    /// - `Rv`, if the redundancy version is above 3;
    /// - `Rm`, if the bits can't be shared out: `Order`, `Layers`, `Total`, `Ragged` or `NoneScheduled`;
    /// - `Length`, if `heard` does not have G places;
    /// - `Memory`, if memory runs out.
    ///
    /// Nothing is received then.
    pub fn take(&mut self, tx: &Tx, heard: &[Heard]) -> Result<Outcome, DeskFault>
        ensures { Takes self.old self.new (reception tx.now heard.now) result }
    {
        self.link.heard_lengths(tx, heard.len())?;
        let marks = marks_of(self.alloc, heard)?;
        self.take_marks(tx, &marks)
    }

    /// How many positions below K' of code block `r`, counted from 0 and below C, aren't fixed.
    pub fn left(&self, r: u32) -> u32
        requires { r < self.now.link.plan.c }
        ensures { result ≡ left self.now.link self.now.heard r }
    {
        laws::plans_are_sound();
        self.code_blocks[r as usize].peeler.left()
    }

    /// What was received of each code block.
    pub fn stores(&self) -> &[Store]
        ensures same { result.now ≡ self.now.heard }
        ensures fit { AreStoresFor self.now.link result.now }
    {
        self.stores.as_slice()
    }

    /// The link that it is the end of.
    pub fn link(&self) -> &Link<'t>
        ensures { result.now ≡ self.now.link }
    {
        &self.link
    }

    /// The numbers by which the transport block with its CRC is cut (TS 38.212, 5.2.2).
    pub fn plan(&self) -> &Plan
        ensures graph { result.now.graph ≡ self.now.link.graph }
        ensures numbers { numbers result.now ≡ self.now.link.plan }
        ensures whole { result.now.b ≡ attached_length self.now.link.a }
    {
        self.link.plan()
    }

    /// The peeler of code block `r`, counted from 0 and below C: it is given the positions received, and the
    /// fillers. The bits that it knows are those of the codeword of each transport block that explains all that was
    /// received.
    pub fn peeler(&self, r: u32) -> &Peeler<'t, K>
        requires { r < self.now.link.plan.c }
        ensures table { result.now.table ≡ self.now.link.table }
        ensures graph { result.now.graph ≡ self.now.link.graph }
        ensures numbers { result.now.numbers ≡ self.now.link.plan }
        ensures given { (k : ℕ) → bit result.now.given k
            ≡ given self.now.link (heard_of self.now.heard r) k }
        ensures value { result.now ≡ peeling_of self.now.link self.now.peelings r }
        ensures bits { (list : List Reception) (block : List Bool)
            → IsRecordOf self.now.link list self.now.heard → IsBlock self.now.link block
            → Explains self.now.link list block
            → AgreesWith result.now (bit (word self.now.link block r)) }
        ensures peeled { IsPeeled result.now }
        ensures recorded { result.now.recorded ≡ K.recorded }
    {
        laws::words_are_plain();
        receiver_laws::explains_by_record();
        let peeler = &self.code_blocks[r as usize].peeler;
        // This call does nothing but hand over its clause `recorded`.
        let _left = peeler.left();
        peeler
    }

    // What may be handed up, in an empty list that has room for A bits.
    fn answer(&mut self, mut list: Bits) -> Outcome
        requires empty { list.items ≡ [] }
        requires room { self.old.link.a ≤ list.room }
        ensures same { self.new ≡ self.old }
        ensures decided { IsDecided self.old.link self.old.heard (verdict result) }
    {
        laws::plans_are_sound();
        if !all_known(&self.code_blocks) {
            return Outcome::Open;
        }
        // Nothing has to be read and encoded to see this.
        if any_clash(&self.stores) {
            return Outcome::Contradiction;
        }
        if !self.candidate_read {
            return self.read_candidate(list);
        }
        list.extend_range(&self.block, 0, self.link.a() as usize);
        settled(explains(&self.stores, &self.code_blocks), list)
    }

    // What may be handed up when every position below K' is first known: reads the transport block, and keeps its codewords.
    fn read_candidate(&mut self, list: Bits) -> Outcome
        requires empty { list.items ≡ [] }
        requires room { self.old.link.a ≤ list.room }
        requires all { all_fixed self.old.link self.old.heard ≡ true }
        ensures same { self.new ≡ self.old }
        ensures decided { IsDecided self.old.link self.old.heard (verdict result) }
    {
        laws::attachment_lengthens();
        laws::code_blocks_are_long();
        laws::words_are_plain();
        laws::plans_are_sound();
        let plan = self.link.plan();
        let block = candidate(plan, &self.code_blocks, self.link.a(), list);
        attach_into(&block, &mut self.block);
        encode_words(self.link.table(), plan, &self.block, &mut self.code_blocks);
        self.candidate_read = true;
        settled(explains(&self.stores, &self.code_blocks), block)
    }
}

// A store of each code block, in which nothing was received yet.
fn blank_stores(alloc: Global, plan: &Plan) -> Result<Vec<Store>, AllocError>
    ensures many { IfOk result (λ stores. length stores.items ≡ plan.now.c) }
    ensures empty { IfOk result
        (λ stores. All (λ s. s ≡ record_of (positions_of plan.now) []) stores.items) }
{
    let mut stores = Vec::with_capacity(alloc, plan.c as usize)?;
    for _ in 0..plan.c {
        stores.push_reserved(Store::new(alloc, plan)?);
    }
    Ok(stores)
}
