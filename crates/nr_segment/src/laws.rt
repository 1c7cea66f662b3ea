//! Laws about segmentation and code blocks, stated as contracts of empty functions.

ghost use Rattle.nr_segment.specs.CodeBlock.{CodeBlocksAreLong, FilledBlocksAreLong, JoinPutsParts, JoinUndoesCut};
ghost use Rattle.nr_segment.specs.Plan.{PlansAreSound};

/// Law: what holds for the numbers of every plan (TS 38.212, 5.3.2). Among other things, K' is above 2 Zc, so that not
/// all bits of a code block are punctured.
pub fn plans_are_sound()
    ensures { PlansAreSound }
{}

/// Law: each code block has K' bits, and K bits with its fillers (TS 38.212, 5.2.2).
pub fn code_blocks_are_long()
    ensures bits { CodeBlocksAreLong }
    ensures filled { FilledBlocksAreLong }
{}

/// Law: `join` puts bit `k` of list `r` at index `part(r, k)`.
pub fn join_puts_parts()
    ensures { JoinPutsParts }
{}

/// Law: `join` undoes `cut`.
pub fn join_undoes_cut()
    ensures { JoinUndoesCut }
{}
