//! The CBG mask: which code blocks of a transmission are scheduled.

ghost use Rattle.std.specs.Prelude.{◌≡◌, ℕ, ◌<◌, ◌≤◌, false, get_or, length};
ghost use Rattle.nr_ratematch.specs.{Lengths.is_scheduled, Marks.mask_word_of, Marks.mask_words};
ghost use Rattle.nr_ratematch.specs.declared.mask.Mask.TheVariants.{Only};

/// The CBG mask: which code blocks are scheduled for a transmission (TS 38.212, 5.4.2.1).
#[derive(Clone, Copy, Debug, PartialEq, Eq)]
pub enum Mask {
    /// Every code block.
    All,
    /// Code block r, counted from 0, if bit r mod 64 of word r div 64 is set. Bits from C, the number of code blocks,
    /// on are ignored.
    Only([u64; 6]),
}

impl Mask {
    /// Returns the mask that schedules the marked code blocks. There is one mark for each of at most 384 code blocks,
    /// counted from 0 (TS 38.212, 5.4.2.1). Allocates nothing.
    pub fn of_marks(marks: &[bool]) -> Mask
        requires { length marks.now ≡ 384 }
        ensures words { result ≡ Only (mask_words marks.now) }
        ensures marked { (r : ℕ) → r < 384 → is_scheduled result r ≡ get_or marks.now r false }
    {
        Mask::Only([
            word_of(&marks[..64]),
            word_of(&marks[64..128]),
            word_of(&marks[128..192]),
            word_of(&marks[192..256]),
            word_of(&marks[256..320]),
            word_of(&marks[320..384]),
        ])
    }

    /// Returns whether code block `r`, which is below 384, is scheduled (TS 38.212, 5.4.2.1). Allocates nothing.
    pub fn has(&self, r: u32) -> bool
        requires { r < 384 }
        ensures { result ≡ is_scheduled self.now r }
    {
        match self {
            Mask::All => true,
            Mask::Only(words) => words[(r / 64) as usize] >> (r % 64) & 1 == 1,
        }
    }
}

// The number that at most 64 marks write, the first of them lowest.
fn word_of(bits: &[bool]) -> u64
    requires { length bits.now ≤ 64 }
    ensures { result ≡ mask_word_of bits.now }
{
    let mut word = 0;
    let mut at = bits.len();
    while at > 0 {
        at -= 1;
        word = 2 * word + u64::from(bits[at]);
    }
    word
}
