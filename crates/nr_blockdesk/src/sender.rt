//! The sender of one transport block.

ghost use Rattle.std.specs.Prelude.{◌≡◌, ℕ, ◌<◌, ◌≤◌, ◌*◌, length, sum, All, IfOk, IfErr, IsErrOf, IsOk, []};
ghost use Rattle.std.specs.Prelude.{slice_index, slice_index_or};
ghost use Rattle.nr_crcattach.specs.Attachment.{attached_length};
ghost use Rattle.nr_graphpick.specs.Graph.{cols_of};
ghost use Rattle.nr_refusal.specs.Refusal.{Gives};
ghost use Rattle.nr_ldpcenc.specs.Codeword.{IsCodeword};
ghost use Rattle.nr_ratematch.specs.Lengths.{IsShared};
ghost use Rattle.nr_segment.specs.CodeBlock.{numbers};
ghost use Rattle.nr_blockdesk.specs.{Heard.IsRecordOf, Link.IsBlock, Link.IsLink, Link.code_bits_of, Link.link_said, Link.word};
ghost use Rattle.nr_blockdesk.specs.inside.Words.{words_of};
ghost use Rattle.nr_blockdesk.specs.Sent.{matching_of, sending_said, sent_of, sent_said, tx_said};

use crate::encoder::encode_into;
use crate::laws;
use crate::link::Link;
use crate::receiver::Receiver;
use nr_bitvec::Bits;
use nr_crcattach::attach;
use nr_interleave::spread_onto;
use nr_ldpcenc::Word;
use nr_peel::Recording;
use nr_ratematch::{Buffer, select_onto};
use nr_segment::Plan;
use nr_shifttable::Table;
use nr_transmission::{DeskFault, Settings, Tx};
use std::alloc::{AllocError, Global};
use std::marker::Model;

/// The sender of one transport block. It keeps the codeword of each code block, and sends bits of them as often as it
/// is asked to. Each of these begins with its code block, so the transport block is not kept beside them. It keeps its
/// allocator.
#[derive(Drop)]
pub struct Sender<'t> {
    link: Link<'t>,
    words: Vec<Word>,
    alloc: Global,
}

impl<'t> Model for Sender<'t> {
    ghost use Rattle.nr_blockdesk.specs.Sent.{SenderView, carried};
    ghost use Rattle.nr_blockdesk.specs.inside.Words.{IsSender};

    ghost Value = { SenderView };

    ghost view = { λ s. record {
      link = s.link;
      block = carried s.link s.words.items;
    } };

    ghost invariant = { λ s. IsSender s.link s.words.items };
}

impl<'t> Sender<'t> {
    /// The sender of a transport block, with the parity checks of a table. The block gets its CRC and is cut into code
    /// blocks. Each of these is encoded once (TS 38.212, 6.2.1 to 6.2.4 and 7.2.1 to 7.2.4).
    ///
    /// # Errors
    ///
    /// In this order:
    ///
    /// - `Size`, if the block does not have 8 to 1,310,720 bits in whole octets;
    /// - `Pick`, if no base graph is picked;
    /// - `Seg`, if there is no plan;
    /// - `Graph`, if the table lacks the base graph;
    /// - `Rm`, if the limited buffer keeps no bit (`NoBuffer`);
    /// - `Memory`, if memory runs out.
    pub fn new(
        alloc: Global,
        table: &'t Table,
        settings: Settings,
        block: &Bits,
    ) -> Result<Sender<'t>, DeskFault>
        ensures said { Gives DeskFault.Memory (λ sender. sender) result
            (sending_said table.now settings block.now.items) }
        ensures judged { IsErrOf result DeskFault.Memory
            → IsOk (link_said table.now settings (length block.now.items)) }
    {
        laws::blocks_are_carried();
        let link = Link::new(table, settings, block.len() as u32)?;
        link.is_sound();
        let words = words_of(alloc, &link, block)?;
        Ok(Sender { link, words, alloc })
    }

    /// The bits that a transmission sends (TS 38.212, 5.4.2 and 5.5). They are E_r bits of each code block, selected
    /// from the redundancy version's start on and interleaved, one code block after the other. They do not depend on
    /// what was sent before.
    ///
    /// # Errors
    ///
    /// In this order:
    ///
    /// - `Rv`, if the redundancy version is above 3;
    /// - `Rm`, if the bits can't be shared out: `Order`, `Layers`, `Total`, `Ragged` or `NoneScheduled`;
    /// - `Memory`, if memory runs out.
    pub fn send(&self, tx: &Tx) -> Result<Bits, DeskFault>
        ensures said { Gives DeskFault.Memory (λ bits. bits.items) result
            (sent_said self.now.link tx.now self.now.block) }
        ensures judged { IsErrOf result DeskFault.Memory → IsOk (tx_said self.now.link tx.now) }
    {
        laws::words_are_plain();
        let lengths = self.link.lengths(tx)?;
        match send_words(self.alloc, self.link.buffer(), &self.words, tx, &lengths) {
            Ok(bits) => Ok(bits),
            Err(_) => Err(DeskFault::Memory),
        }
    }

    /// A receiver of the transport block, which has received nothing yet: both have one link.
    ///
    /// # Errors
    ///
    /// `AllocError` if memory runs out.
    pub fn receiver(&self) -> Result<Receiver<'t>, AllocError>
        ensures link { IfOk result (λ receiver. receiver.link ≡ self.now.link) }
        ensures empty { IfOk result (λ receiver. IsRecordOf receiver.link [] receiver.heard) }
    {
        self.receiver_as()
    }

    /// `receiver`, whose peelers record their steps or not, as its type says.
    ///
    /// # Errors
    ///
    /// `AllocError` if memory runs out.
    pub fn receiver_as<K: Recording>(&self) -> Result<Receiver<'t, K>, AllocError>
        ensures link { IfOk result (λ receiver. receiver.link ≡ self.now.link) }
        ensures empty { IfOk result (λ receiver. IsRecordOf receiver.link [] receiver.heard) }
    {
        match Receiver::over(self.alloc, self.link.again()) {
            Ok(receiver) => Ok(receiver),
            Err(_) => Err(AllocError),
        }
    }

    /// The link that it is the end of.
    pub fn link(&self) -> &Link<'t>
        ensures { result.now ≡ self.now.link }
    {
        &self.link
    }

    /// Tells what the type promises of each sender's link, at no cost.
    pub fn is_sound(&self)
        ensures { IsLink self.now.link }
    {
        let _ = &self.words;
    }

    /// The codeword of code block `r`, counted from 0 and below C (TS 38.212, 5.3.2). Takes no memory.
    pub fn word(&self, r: u32) -> &Word
        requires { r < self.now.link.plan.c }
        ensures value { result.now ≡ word self.now.link self.now.block r }
        ensures meets { IsCodeword self.now.link.table self.now.link.graph self.now.link.plan
            (code_bits_of self.now.link self.now.block r) result.now }
    {
        laws::words_are_plain();
        &self.words[r as usize]
    }

    /// A, the number of bits of the transport block (TS 38.212, 6.2.1 and 7.2.1).
    pub fn a(&self) -> u32
        ensures { result ≡ self.now.link.a }
    {
        self.link.a()
    }

    /// The numbers by which the transport block with its CRC is cut (TS 38.212, 5.2.2).
    pub fn plan(&self) -> &Plan
        ensures graph { result.now.graph ≡ self.now.link.graph }
        ensures numbers { numbers result.now ≡ self.now.link.plan }
        ensures whole { result.now.b ≡ attached_length self.now.link.a }
    {
        self.link.plan()
    }
}

// The codewords of a transport block.
fn words_of(alloc: Global, link: &Link<'_>, block: &Bits) -> Result<Vec<Word>, DeskFault>
    requires { IsBlock link.now block.now.items }
    ensures words { IfOk result (λ words. words.items ≡ words_of link.now block.now.items) }
    ensures err { IfErr result (λ e. e ≡ DeskFault.Memory) }
{
    laws::attachment_lengthens();
    link.is_sound();
    let table = link.table();
    let plan = link.plan();
    let attached = attach(alloc, block)?;
    let mut words = Vec::with_capacity(alloc, plan.c as usize)?;
    for r in 0..plan.c {
        let mut word = Word::new(alloc, plan)?;
        encode_into(table, plan, &attached, r, &mut word);
        words.push_reserved(word);
    }
    Ok(words)
}

// The longest of some lengths.
pub(crate) fn longest(lengths: &[u32]) -> u32
    ensures all { (r : ℕ) → r < length lengths.now → slice_index lengths.now r ≤ result }
    ensures together { result ≤ sum lengths.now }
{
    let mut longest = 0;
    for e in lengths {
        longest = longest.max(*e);
    }
    longest
}

// The bits that a transmission sends of codewords, so many of each as `lengths` says.
fn send_words(
    alloc: Global,
    buffer: &Buffer,
    words: &[Word],
    tx: &Tx,
    lengths: &[u32],
) -> Result<Bits, AllocError>
    requires version { tx.now.rv < 4 }
    requires long { All (λ w. length w ≡ cols_of buffer.now.graph * buffer.now.z) words.now }
    requires shared { IsShared (length words.now) tx.now.g tx.now.qm lengths.now }
    ensures { IfOk result (λ sent. sent.items ≡ sent_of (matching_of buffer.now tx.now lengths.now)
        (λ r. slice_index_or words.now r [])) }
{
    let mut sent = Bits::with_room(alloc, tx.g)?;
    let most = longest(lengths);
    let mut selected = Bits::with_room(alloc, most)?;
    for r in 0..lengths.len() {
        selected.clear();
        select_onto(buffer, &words[r], tx.rv, lengths[r], &mut selected);
        spread_onto(tx.qm, &selected, &mut sent);
    }
    Ok(sent)
}
