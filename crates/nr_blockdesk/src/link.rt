//! What both ends of a link agree on before a bit is sent.

ghost use Rattle.std.specs.Prelude.{◌≡◌, ◌^◌, ◌<◌, ◌≤◌, IfOk, MatchResult, Ok, Err};
ghost use Rattle.nr_crcattach.specs.Attachment.{attached_length};
ghost use Rattle.nr_ratematch.specs.Lengths.{IsShared};
ghost use Rattle.nr_segment.specs.{CodeBlock.numbers, CodeBlock.positions_of, Plan.word_size};
ghost use Rattle.nr_blockdesk.specs.{Explains.hearing_said_of, Link.IsLink, Link.is_size, Link.link_said, Sent.tx_said};

use crate::laws;
use arrayvec::ArrayVec;
use nr_crcattach::attached_len;
use nr_graphpick::pick;
use nr_ratematch::{Buffer, MOST_BLOCKS, lengths};
use nr_segment::{Plan, plan};
use nr_shifttable::Table;
use nr_transmission::{DeskFault, Settings, Tx};
use std::marker::Model;

// The most bits of a transport block.
const MOST_BITS: u32 = 1_310_720;

/// What both ends of a link agree on for transport blocks of one size. It has the shift table, the plan, A, and the circular
/// buffer of each code block. Each end keeps one. It takes no memory.
#[derive(Drop)]
pub struct Link<'t> {
    table: &'t Table,
    plan: Plan,
    a: u32,
    buffer: Buffer,
}

impl<'t> Model for Link<'t> {
    ghost use Rattle.nr_blockdesk.specs.Link.{IsLink, Link, link_of};

    ghost Value = { Link };

    ghost view = { λ x. link_of x.table.now x.plan x.a x.buffer };

    ghost invariant = { λ x. IsLink (link_of x.table.now x.plan x.a x.buffer) };
}

// Whether a transport block may have `a` bits.
fn is_whole(a: u32) -> bool
    ensures { result ≡ is_size a }
{
    a % 8 == 0 && (8..=MOST_BITS).contains(&a)
}

impl<'t> Link<'t> {
    /// The link for transport blocks of `a` bits. Takes no memory.
    ///
    /// # Errors
    ///
    /// In this order:
    ///
    /// - `Size`, if `a` is not 8 to 1,310,720 in whole octets;
    /// - `Pick`, if no base graph is picked;
    /// - `Seg`, if there is no plan;
    /// - `Graph`, if the table lacks the base graph;
    /// - `Rm`, if the limited buffer keeps no bit (`NoBuffer`).
    pub fn new(table: &'t Table, settings: Settings, a: u32) -> Result<Link<'t>, DeskFault>
        ensures { MatchResult result
            (λ link. link_said table.now settings a ≡ Ok link)
            (λ e. link_said table.now settings a ≡ Err e) }
    {
        laws::links_are_sound();
        if !is_whole(a) {
            return Err(DeskFault::Size);
        }
        let graph = match pick(a, settings.rate2048) {
            Ok(graph) => graph,
            Err(fault) => return Err(DeskFault::Pick(fault)),
        };
        let plan = match plan(graph, attached_len(a)) {
            Ok(plan) => plan,
            Err(fault) => return Err(DeskFault::Seg(fault)),
        };
        if !table.has(graph) {
            return Err(DeskFault::Graph);
        }
        match Buffer::new(&plan, settings.lbrm) {
            Ok(buffer) => Ok(Link {
                table,
                plan,
                a,
                buffer,
            }),
            Err(fault) => Err(DeskFault::Rm(fault)),
        }
    }

    /// The same link, for another end of it.
    pub fn again(&self) -> Link<'t>
        ensures { result ≡ self.now }
    {
        Link {
            table: self.table,
            plan: self.plan,
            a: self.a,
            buffer: self.buffer,
        }
    }

    /// E_r, how many bits of each code block a transmission sends (TS 38.212, 5.4.2.1). Takes no memory.
    ///
    /// # Errors
    ///
    /// In this order:
    ///
    /// - `Rv`, if the redundancy version is above 3;
    /// - `Rm`, if the bits can't be shared out: `Order`, `Layers`, `Total`, `Ragged` or `NoneScheduled`.
    pub fn lengths(&self, tx: &Tx) -> Result<ArrayVec<u32, MOST_BLOCKS>, DeskFault>
        ensures said { MatchResult result
            (λ lengths. tx_said self.now tx.now ≡ Ok lengths.items)
            (λ e. tx_said self.now tx.now ≡ Err e) }
        ensures version { IfOk result (λ lengths. tx.now.rv < 4) }
        ensures shared { IfOk result
            (λ lengths. IsShared self.now.plan.c tx.now.g tx.now.qm lengths.items) }
        ensures order { IfOk result (λ lengths. tx.now.qm ≤ 8) }
    {
        if tx.rv > 3 {
            return Err(DeskFault::Rv);
        }
        match lengths(&self.plan, tx.g, tx.qm, tx.nl, tx.mask) {
            Ok(lengths) => Ok(lengths),
            Err(fault) => Err(DeskFault::Rm(fault)),
        }
    }

    /// E_r of each code block, as `lengths` returns it, of a transmission of which `count` places were received.
    ///
    /// # Errors
    ///
    /// Those of `lengths`, in its order, and then `Length`, if a transmission does not have so many places.
    pub fn heard_lengths(
        &self,
        tx: &Tx,
        count: usize,
    ) -> Result<ArrayVec<u32, MOST_BLOCKS>, DeskFault>
        ensures said { MatchResult result
            (λ lengths. hearing_said_of self.now.plan.c tx.now count ≡ Ok lengths.items)
            (λ e. hearing_said_of self.now.plan.c tx.now count ≡ Err e) }
        ensures version { IfOk result (λ lengths. tx.now.rv < 4) }
        ensures shared { IfOk result
            (λ lengths. IsShared self.now.plan.c tx.now.g tx.now.qm lengths.items) }
        ensures order { IfOk result (λ lengths. tx.now.qm ≤ 8) }
        ensures whole { IfOk result (λ lengths. count ≡ tx.now.g) }
    {
        let lengths = self.lengths(tx)?;
        if count != tx.g as usize {
            return Err(DeskFault::Length);
        }
        Ok(lengths)
    }

    /// Tells what the type promises of each link, at no cost.
    pub fn is_sound(&self)
        ensures { IsLink self.now }
    {
        let _ = &self.plan;
    }

    /// The shift table.
    pub fn table(&self) -> &'t Table
        ensures { result.now ≡ self.now.table }
    {
        self.table
    }

    /// The numbers by which the transport block with its CRC is cut (TS 38.212, 5.2.2).
    pub fn plan(&self) -> &Plan
        ensures graph { result.now.graph ≡ self.now.graph }
        ensures numbers { numbers result.now ≡ self.now.plan }
        ensures positions { positions_of result.now ≡ word_size self.now.graph self.now.plan }
        ensures whole { result.now.b ≡ attached_length self.now.a }
    {
        laws::plans_are_sound();
        &self.plan
    }

    /// A, the number of bits of a transport block (TS 38.212, 6.2.1 and 7.2.1).
    pub fn a(&self) -> u32
        ensures { result ≡ self.now.a }
    {
        self.a
    }

    /// The circular buffer of each code block (TS 38.212, 5.4.2.1).
    pub fn buffer(&self) -> &Buffer
        ensures { result.now ≡ self.now.buffer }
    {
        &self.buffer
    }
}
