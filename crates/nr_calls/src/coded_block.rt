//! What a code block is encoded to.

ghost use Rattle.std.specs.Prelude.{◌≡◌, length};
ghost use Rattle.nr_segment.specs.CodeBlock.{positions_of};

use nr_ldpcenc::Word;
use nr_segment::Plan;

// A code block's codeword, with the plan of its transport block.
#[derive(Drop)]
pub(crate) struct CodedBlock {
    pub(crate) plan: Plan,
    pub(crate) word: Word,
    pub ghost long: { length word ≡ positions_of plan },
}
