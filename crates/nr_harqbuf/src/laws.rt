//! Lemmas about the record of what was received, stated as contracts of empty functions so that the gate asks for their proofs.

ghost use Rattle.nr_harqbuf.specs.{Marks.KeptAgain, Marks.RecordMerges, Record.FitsByRecord, Record.RecordContinues};

/// Receiving one more bit gives the record of the longer list of received bits.
pub fn record_continues()
    ensures { RecordContinues }
{}

/// A word is consistent with everything received if and only if the record has no clash and its first bits are those of the word.
pub fn fits_by_record()
    ensures { FitsByRecord }
{}

/// Merging the marks of further received bits, none of which gives an index both bits, gives the record of the longer list.
pub fn record_merges()
    ensures { RecordMerges }
{}

/// A buffer restored from the marks that keep a record has that record.
pub fn kept_again()
    ensures { KeptAgain }
{}
