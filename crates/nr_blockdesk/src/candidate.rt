//! The one transport block that may explain what was received. It is read from the peelers, and handed up if its codewords
//! have all that was received.

ghost use Rattle.std.specs.Prelude.{◌≡◌, ◌↔◌, ℕ, ◌+◌, ◌*◌, ◌^◌, ◌==◌, ◌<◌, ◌≤◌, [], IsTrue};
ghost use Rattle.std.specs.{Prelude.length, Prelude.true, Prelude.false, Prelude.slice_index_or, List.list_all};
ghost use Rattle.nr_bitvec.specs.Bit.{bit};
ghost use Rattle.nr_peel.specs.Peeling.{checks_for, left_of};
ghost use Rattle.nr_segment.specs.CodeBlock.{numbers};
ghost use Rattle.nr_blockdesk.specs.{Heard.heard_of, Outcome.contradiction, Outcome.delivered, Receiving.peelers_of};
ghost use Rattle.nr_blockdesk.specs.{Receiving.verdict, declared.code_block.CodeBlock.CodeBlock};
ghost use Rattle.nr_blockdesk.specs.inside.Receiving.{Fits, IsRead, kept_words, word_at};

use crate::code_block::CodeBlock;
use crate::outcome::Outcome;
use nr_bitvec::Bits;
use nr_harqbuf::Store;
use nr_ldpcenc::Word;
use nr_peel::Recording;
use nr_segment::Plan;

// Whether every position below K' of each code block is known.
pub(crate) fn all_known<K: Recording>(code_blocks: &[CodeBlock<'_, K>]) -> bool
    ensures { result ≡ list_all (λ b. left_of b.peeler.numbers.kdash b.peeler.known == 0) code_blocks.now }
{
    for code_block in code_blocks {
        if code_block.peeler.left() > 0 {
            return false;
        }
    }
    true
}

// Whether some position of a code block was received with both bits, which no transport block explains.
pub(crate) fn any_clash(stores: &[Store]) -> bool
    ensures { result ≡ true
        → ((r : ℕ) → r < length stores.now → (heard_of stores.now r).clash ≡ false) → ⊥ }
{
    for r in 0..stores.len() {
        if stores[r].clash() {
            return true;
        }
    }
    false
}

// The bits that are known of a transport block of `a` bits, put into an empty list that has room for them.
pub(crate) fn candidate<K: Recording>(
    plan: &Plan,
    code_blocks: &[CodeBlock<'_, K>],
    a: u32,
    mut list: Bits,
) -> Bits
    requires empty { list.items ≡ [] }
    requires room { a ≤ list.room }
    requires inside { a ≤ plan.now.b }
    requires all { length code_blocks.now ≡ plan.now.c }
    requires sized { (r : ℕ) (d : CodeBlock K) → r < plan.now.c
        → plan.now.kdash ≤ (checks_for (slice_index_or code_blocks.now r d).peeler).size }
    ensures long { length result.items ≡ a }
    ensures read { (i : ℕ) → i < a
        → IsRead (numbers plan.now) (peelers_of code_blocks.now) result.items i }
{
    let share = plan.kdash - plan.l;
    // Bit i is bit k of code block r.
    let (mut i, mut r, mut k) = (0, 0, 0);
    while i < a {
        let (word, count) = code_blocks[r].peeler.bits_from(k);
        let count = count.min(share - k).min(a - i);
        list.push_word(count as usize, word);
        i += count;
        (r, k) = seen_from(r, k + count, share);
    }
    list
}

// Bit `k` of code block `r`; a bit past the last of a code block's share is the next one's first.
fn seen_from(r: usize, k: u32, share: u32) -> (usize, u32)
    requires some { 0 < share }
    requires within { k ≤ share }
    requires few { r < 2 ^ 32 }
    ensures same { result.0 * share + result.1 ≡ r * share + k }
    ensures within { result.1 < share }
{
    if k == share { (r + 1, 0) } else { (r, k) }
}

// Whether a word has every first bit that was received, and no position was received with both bits.
fn agrees(store: &Store, word: &Word) -> bool
    requires { length store.now.first ≡ length word.now }
    ensures fits { result ≡ true → Fits store.now (bit word.now) }
    ensures misfits { result ≡ false → Fits store.now (bit word.now) → ⊥ }
{
    !store.clash() && store.fits(word.bits())
}

// Whether each code block's word has every first bit of its store, and no position was received with both bits.
pub(crate) fn explains<K: Recording>(stores: &[Store], code_blocks: &[CodeBlock<'_, K>]) -> bool
    requires paired { length code_blocks.now ≡ length stores.now }
    requires sized { (r : ℕ) → r < length stores.now
        → length (heard_of stores.now r).first ≡ length (word_at (kept_words code_blocks.now) r) }
    ensures { IsTrue result ↔ ((r : ℕ) → r < length stores.now
        → Fits (heard_of stores.now r) (bit (word_at (kept_words code_blocks.now) r))) }
{
    for r in 0..stores.len() {
        if !agrees(&stores[r], &code_blocks[r].word) {
            return false;
        }
    }
    true
}

// What is handed up once the one transport block that may explain all is known, and whether it does.
pub(crate) fn settled(explained: bool, block: Bits) -> Outcome
    ensures delivered { explained ≡ true → verdict result ≡ delivered block.items }
    ensures refuted { explained ≡ false → verdict result ≡ contradiction }
{
    if explained {
        Outcome::Delivered(block)
    } else {
        Outcome::Contradiction
    }
}
