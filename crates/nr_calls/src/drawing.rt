//! Erasing places that a generator draws.

ghost use Rattle.std.specs.Prelude.{◌≡◌, length};
ghost use Rattle.nr_drawing.specs.Drawing.{AreOverwritten, places_drawn};

use nr_drawing::overwrite;

// The octet of an erased place.
const ERASED: u8 = 2;

/// Erases the places that a pseudo-random generator draws. `nr_c` exports this call and says what each status means.
pub fn nr_erase(seed: u64, threshold: u32, heard: &mut [u8]) -> u32
    ensures status { result ≡ 0 }
    ensures erased { AreOverwritten 2 (places_drawn seed threshold (length heard.old))
        heard.old heard.new }
{
    overwrite(seed, threshold, ERASED, heard);
    0
}
