//! The encoder, and checking a word against the parity-check matrix.

ghost use Rattle.std.specs.Prelude.{◌≡◌, ◌↔◌, false, length, IfOk, IsErrOf, IsTrue};
ghost use Rattle.nr_bitvec.specs.Bit.{bit};
ghost use Rattle.nr_ldpcenc.specs.{Codeword.codeword, Codeword.IsCodeword, Rows.plan_checks, Rows.Meets};
ghost use Rattle.nr_segment.specs.CodeBlock.{positions_of, numbers};
ghost use Rattle.nr_shifttable.specs.Accepted.{has_graph};

use crate::fault::EncFault;
use crate::laws;
use crate::row_test::TestWord;
use crate::word::{Word, fill};
use nr_bitvec::Bits;
use nr_lifting::at_size;
use nr_segment::Plan;
use nr_shifttable::Table;
use std::alloc::Global;

/// Returns the codeword of the K' bits of a code block (TS 38.212, 5.3.2): the only word that begins with these bits,
/// has zeros for the fillers, and meets every check row.
///
/// # Errors
///
/// In this order:
///
/// 1. `NoGraph` if the table lacks the plan's base graph, before any memory is allocated
/// 2. `Memory` if memory runs out
pub fn encode(alloc: Global, table: &Table, plan: &Plan, bits: &Bits) -> Result<Word, EncFault>
    requires { length bits.now.items ≡ plan.now.kdash }
    ensures no_graph { IsErrOf result EncFault.NoGraph
        ↔ (has_graph plan.now.graph table.now ≡ false) }
    ensures word { IfOk result (λ word. word
        ≡ codeword table.now plan.now.graph (numbers plan.now) bits.now.items) }
    ensures plain { IfOk result
        (IsCodeword table.now plan.now.graph (numbers plan.now) bits.now.items) }
{
    laws::codewords_are_plain();
    if !table.has(plan.graph) {
        return Err(EncFault::NoGraph);
    }
    let Ok(mut word) = Word::new(alloc, plan) else {
        return Err(EncFault::Memory);
    };
    word.begin(bits);
    fill(table, plan, &mut word);
    Ok(word)
}

/// Returns whether a word meets every row of a code block's parity-check matrix (TS 38.212, 5.3.2). Allocates nothing.
pub fn meets(table: &Table, plan: &Plan, word: &Word) -> bool
    requires graph { IsTrue (has_graph plan.now.graph table.now) }
    requires long { length word.now ≡ positions_of plan.now }
    ensures { IsTrue result
        ↔ Meets (plan_checks table.now plan.now) (bit word.now) }
{
    let bits = word.bits();
    at_size(plan.z as usize, &mut TestWord { table, plan, bits })
}
