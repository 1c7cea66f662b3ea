//! Laws of what is sent, stated as contracts of empty functions, and the laws of the crates below that bodies call. Such a call
//! does nothing: it hands the body what the law says.

ghost use Rattle.nr_blockdesk.specs.{inside.Words.BlocksAreCarried, Link.LinksAreSound, Link.WordsAreOnly, Link.WordsArePlain};
ghost use Rattle.nr_blockdesk.specs.Sent.{
  AcceptedAreMatched,
  AcceptedSendAll,
  PartsAreAt,
  SentBitsAreAt,
  SentIsLong,
};

pub(crate) use nr_cbconcat::places_have_one_owner;
pub(crate) use nr_crcattach::attachment_lengthens;
pub(crate) use nr_harqbuf::{fits_by_record, record_continues, record_merges};
use nr_interleave::seats_are_seating;
use nr_ldpcenc::{codewords_are_plain, one_codeword};
pub(crate) use nr_peel::laws::{
    checks_are_sound, closure_is_monotone, nothing_heard_fixes_nothing, words_agree_on_closure,
};
use nr_ratematch::{lengths_are_shared, places_are_sent};
pub(crate) use nr_segment::{code_blocks_are_long, join_undoes_cut, plans_are_sound};

/// Law: what `link_said` returns for an accepted table is a sound link. Its plan is that of the transport block with
/// its CRC, and the table has its base graph. Its circular buffer is one of the plan's (TS 38.212, 5.4.2.1).
pub fn links_are_sound()
    ensures { LinksAreSound }
{}

/// Law: each codeword of a transport block begins with its code block, has zeros for the fillers and meets every row
/// (TS 38.212, 5.3.2).
pub fn words_are_plain()
    ensures { WordsArePlain }
{
    attachment_lengthens();
    code_blocks_are_long();
    codewords_are_plain();
}

/// Law: of the words that begin with a code block and have zeros for the fillers, its codeword alone meets every row
/// (TS 38.212, 5.3.2).
#[tactic(auto, using(crate::proofs::WordFacts::words_only))]
pub fn words_are_only()
    ensures { WordsAreOnly }
{
    attachment_lengthens();
    code_blocks_are_long();
    one_codeword();
    plans_are_sound();
}

// Law: the codewords of a transport block carry it, since each begins with its code block (TS 38.212, 5.2.2 and 5.3.2).
#[tactic(auto, using(crate::proofs::SenderFacts::blocks_carried))]
pub(crate) fn blocks_are_carried()
    ensures { BlocksAreCarried }
{
    attachment_lengthens();
    join_undoes_cut();
    code_blocks_are_long();
    plans_are_sound();
    words_are_plain();
}

/// Law: the lengths of an accepted transmission share out its G bits in whole symbols (TS 38.212, 5.4.2.1).
pub fn accepted_are_matched()
    ensures { AcceptedAreMatched }
{
    lengths_are_shared();
}

/// Law: as many bits are sent as the lengths say (TS 38.212, 5.5).
#[tactic(auto, using(crate::proofs::SenderFacts::sent_long))]
pub fn sent_is_long()
    ensures { SentIsLong }
{}

/// Law: an accepted transmission sends G bits (TS 38.212, 5.5).
#[tactic(auto, using(crate::proofs::SenderFacts::accepted_all))]
pub fn accepted_send_all()
    ensures { AcceptedSendAll }
{
    lengths_are_shared();
}

/// Law: each place of the sent bits has a bit of one code block's codeword (TS 38.212, 5.4.2 and 5.5). Its position is
/// neither punctured nor a filler.
pub fn sent_bits_are_at()
    ensures { SentBitsAreAt }
{
    places_have_one_owner();
    places_are_sent();
    seats_are_seating();
}

/// Law: place p of code block r's part of the sent bits has the bit at the position of the p-th interleaved bit.
pub fn parts_are_at()
    ensures { PartsAreAt }
{
    places_have_one_owner();
}
