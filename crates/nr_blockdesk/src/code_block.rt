//! What a receiver makes of a code block's store.

ghost use Rattle.std.specs.Prelude.{◌≡◌, ℕ, ◌<◌, length, slice_index_or, IfOk, IfErr, OnOk};
ghost use Rattle.nr_segment.specs.{Plan.word_size};
ghost use Rattle.nr_peel.specs.Peeling.{Peeling, checks_for};
ghost use Rattle.nr_blockdesk.specs.{Heard.heard_of, Receiving.AreStoresFor, Receiving.peelers_of};
ghost use Rattle.nr_blockdesk.specs.inside.Receiving.{AreWords, IsTied, kept_words};

use crate::laws;
use crate::link::Link;
use crate::part_masks::has_no_mark;
use nr_harqbuf::Store;
use nr_ldpcenc::Word;
use nr_peel::{Peeler, Recording};
use nr_transmission::DeskFault;
use std::alloc::{AllocError, Global};

/// What follows from a code block's store: a peeler, which has learned what the store tells, and a word. Once the candidate
/// has been read, `word` is its codeword.
#[derive(Drop)]
pub(crate) struct CodeBlock<'t, K: Recording> {
    pub(crate) peeler: Peeler<'t, K>,
    pub(crate) word: Word,
}

impl<'t, K: Recording> CodeBlock<'t, K> {
    // The code block of a store.
    fn new(alloc: Global, link: &Link<'t>, store: &Store) -> Result<CodeBlock<'t, K>, DeskFault>
        requires { length store.now.first ≡ word_size link.now.graph link.now.plan }
        ensures tied { IfOk result (λ block. IsTied link.now store.now block.peeler) }
        ensures word { IfOk result (λ block. length block.word ≡ word_size link.now.graph link.now.plan) }
        ensures err { IfErr result (λ e. e ≡ DeskFault.Memory) }
    {
        laws::plans_are_sound();
        link.is_sound();
        let Ok(mut peeler) = Peeler::start(alloc, link.table(), link.plan()) else {
            return Err(DeskFault::Memory);
        };
        // A store of a new receiver has heard nothing, so nothing is learned from it.
        if !has_no_mark(store.marks()) {
            peeler.learn_all(store.marks());
        }
        let word = Word::new(alloc, link.plan())?;
        Ok(CodeBlock { peeler, word })
    }

    // Its peeler now knows what that of another code block knows. Its word is as it was.
    fn know_as(&mut self, from: &CodeBlock<'t, K>) -> Result<(), AllocError>
        requires { checks_for self.old.peeler ≡ checks_for from.now.peeler }
        ensures peeler { OnOk result (self.new.peeler ≡ from.now.peeler) }
        ensures word { self.new.word ≡ self.old.word }
    {
        self.peeler.copy_from(&from.peeler)
    }
}

// The code block of each store. A new peeler takes 13 KiB of stack while it is made. Inlined, this room was part of the frame of
// a command's outermost call, and of each run.
#[inline(never)]
pub(crate) fn code_blocks_of<'t, K: Recording>(
    alloc: Global,
    link: &Link<'t>,
    stores: &[Store],
) -> Result<Vec<CodeBlock<'t, K>>, DeskFault>
    requires { AreStoresFor link.now stores.now }
    ensures many { IfOk result (λ blocks. length blocks.items ≡ link.now.plan.c) }
    ensures tied { IfOk result (λ blocks. (r : ℕ) (d : Peeling) → r < link.now.plan.c
        → IsTied link.now (heard_of stores.now r) (slice_index_or (peelers_of blocks.items) r d)) }
    ensures words { IfOk result (λ blocks. AreWords link.now.plan.c
        (word_size link.now.graph link.now.plan) (kept_words blocks.items)) }
    ensures err { IfErr result (λ e. e ≡ DeskFault.Memory) }
{
    let mut blocks = Vec::with_capacity(alloc, stores.len())?;
    for r in 0..stores.len() {
        blocks.push_reserved(CodeBlock::new(alloc, link, &stores[r])?);
    }
    Ok(blocks)
}

// Code blocks whose peelers know the same as those of others. No candidate was read into their words. It isn't inlined, as
// `code_blocks_of` isn't.
#[inline(never)]
pub(crate) fn code_blocks_again<'t, K: Recording>(
    mut blocks: Vec<CodeBlock<'t, K>>,
    from: &[CodeBlock<'t, K>],
) -> Result<Vec<CodeBlock<'t, K>>, AllocError>
    requires many { length blocks.items ≡ length from.now }
    requires code { (r : ℕ) (d : CodeBlock K) → r < length from.now
        → checks_for (slice_index_or blocks.items r d).peeler ≡ checks_for (slice_index_or from.now r d).peeler }
    ensures peelers { IfOk result (λ copies. peelers_of copies.items ≡ peelers_of from.now) }
    ensures words { IfOk result (λ copies. kept_words copies.items ≡ kept_words blocks.entry.items) }
{
    for r in 0..from.len() {
        blocks[r].know_as(&from[r])?;
    }
    Ok(blocks)
}
