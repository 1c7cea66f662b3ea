//! Laws about bit selection, stated as contracts of empty functions.

ghost use Rattle.nr_ratematch.specs.Selection.{SelectionEnds, PlacesAreSent, BuffersAreCircular};

use nr_segment::laws;

/// Law: once round every buffer, from the start of each redundancy version, there is a bit that is not a filler, so
/// selection ends (TS 38.212, 5.4.2.1).
pub fn selection_ends()
    ensures { SelectionEnds }
{}

/// Law: every selected codeword index lies in the buffer, is not punctured and is not a filler (TS 38.212, 5.3.2 and
/// 5.4.2.1).
pub fn places_are_sent()
    ensures { PlacesAreSent }
{}

/// Law: the buffers of every plan satisfy what the two laws above require.
pub fn buffers_are_circular()
    ensures { BuffersAreCircular }
{
    laws::plans_are_sound();
}
