//! Encoding a transport block in memory that is there.

ghost use Rattle.std.specs.Prelude.{◌≡◌, ℕ, ◌+◌, ◌-◌, ◌*◌, ◌<◌, ◌==◌, IsTrue, length};
ghost use Rattle.std.specs.Int.{bit_at};
ghost use Rattle.nr_bitvec.specs.Bit.{bit};
ghost use Rattle.nr_ldpcenc.specs.Codeword.{codeword};
ghost use Rattle.nr_segment.specs.CodeBlock.{positions_of, code_bits, code_block, numbers};
ghost use Rattle.nr_shifttable.specs.Accepted.{has_graph};
ghost use Rattle.nr_blockdesk.specs.{Receiving.peelers_of, inside.Receiving.AreWords};
ghost use Rattle.nr_blockdesk.specs.inside.Receiving.{kept_words, word_at};

use crate::code_block::CodeBlock;
use crate::laws;
use nr_bitvec::{Bits, reversed};
use nr_crcattach::{Poly, crc_range};
use nr_ldpcenc::{Word, fill};
use nr_peel::Recording;
use nr_segment::{Plan, part};
use nr_shifttable::Table;

// Word `j` of code block `r` with its fillers, after its bits of the transport block. Only a CRC24B has ones there.
fn tail_word(plan: &Plan, attached: &Bits, r: u32, j: usize) -> u64
    requires whole { length attached.now.items ≡ plan.now.b }
    requires block { r < plan.now.c }
    ensures { (t : ℕ) → t < 64 → plan.now.kdash - plan.now.l + (64 * j + t) < plan.now.k
        → (bit_at result t == 1) ≡ bit (code_block (numbers plan.now) attached.now.items r)
        (plan.now.kdash - plan.now.l + (64 * j + t)) }
{
    laws::code_blocks_are_long();
    if j == 0 && plan.l > 0 {
        let start = part(plan, r, 0) as usize;
        let check = crc_range(Poly::B24, attached, start, (plan.kdash - plan.l) as usize);
        reversed(u64::from(check)) >> 40
    } else {
        0
    }
}

// Encodes code block `r` of a transport block with its CRC (TS 38.212, 5.2.2 and 5.3.2). Both ends of a link do it by
// this call. Takes no memory.
pub(crate) fn encode_into(table: &Table, plan: &Plan, attached: &Bits, r: u32, word: &mut Word)
    requires graph { IsTrue (has_graph plan.now.graph table.now) }
    requires whole { length attached.now.items ≡ plan.now.b }
    requires block { r < plan.now.c }
    requires long { length word.old ≡ positions_of plan.now }
    ensures encoded { word.new ≡ codeword table.now plan.now.graph (numbers plan.now)
        (code_bits (numbers plan.now) attached.now.items r) }
    ensures long { length word.new ≡ positions_of plan.now }
{
    laws::code_blocks_are_long();
    let share = (plan.kdash - plan.l) as usize;
    let start = part(plan, r, 0) as usize;
    let whole = share / 64;
    for i in 0..whole {
        word.put(64 * i, 64, attached.window(start + 64 * i));
    }
    word.put(64 * whole, share % 64, attached.window(start + 64 * whole));
    let tail = plan.k as usize - share;
    for j in 0..tail.div_ceil(64) {
        let wide = (tail - 64 * j).min(64);
        word.put(share + 64 * j, wide, tail_word(plan, attached, r, j));
    }
    fill(table, plan, word);
}

// Encodes each code block of a transport block with its CRC. Its word is then its codeword.
pub(crate) fn encode_words<K: Recording>(
    table: &Table,
    plan: &Plan,
    attached: &Bits,
    code_blocks: &mut [CodeBlock<'_, K>],
)
    requires graph { IsTrue (has_graph plan.now.graph table.now) }
    requires whole { length attached.now.items ≡ plan.now.b }
    requires words { AreWords plan.now.c (positions_of plan.now) (kept_words code_blocks.old) }
    ensures encoded { (r : ℕ) → r < plan.now.c → word_at (kept_words code_blocks.new) r
        ≡ codeword table.now plan.now.graph (numbers plan.now)
        (code_bits (numbers plan.now) attached.now.items r) }
    ensures words { AreWords plan.now.c (positions_of plan.now) (kept_words code_blocks.new) }
    ensures peelers { peelers_of code_blocks.new ≡ peelers_of code_blocks.old }
{
    for r in 0..plan.c {
        encode_into(table, plan, attached, r, &mut code_blocks[r as usize].word);
    }
}
