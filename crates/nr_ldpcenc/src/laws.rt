//! Laws about codewords, stated as contracts of empty functions.

ghost use Rattle.nr_ldpcenc.specs.{Codeword.OneCodeword, Codeword.CodewordsArePlain, CoreRows.CoreRowsAddUp};

use nr_segment::plans_are_sound;

/// Law: from the first parity column on, the four core rows of an accepted table add up to that column, rotated once,
/// because equal shifts cancel (TS 38.212, 5.3.2). This holds for each base graph of the table, each lifting-size set
/// and each lifting size.
pub fn core_rows_add_up()
    ensures { CoreRowsAddUp }
{}

/// Law: for every accepted table that has the base graph, every plan and every K bits, there is exactly one word that
/// begins with these bits and meets every check row (TS 38.212, 5.3.2).
pub fn one_codeword()
    ensures { OneCodeword }
{
    plans_are_sound();
}

/// Law: the codeword of K' bits begins with them, has zeros for the fillers, and meets every check row (TS 38.212,
/// 5.3.2).
pub fn codewords_are_plain()
    ensures { CodewordsArePlain }
{
    plans_are_sound();
}
