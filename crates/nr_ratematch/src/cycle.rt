//! Once round the buffer, in numbers.

ghost use Rattle.std.specs.Prelude.{◌≡◌, ℕ, ◌+◌, ◌%◌, ◌^◌, ◌<◌, ◌≤◌};
ghost use Rattle.nr_ratematch.specs.inside.Cycles.{index_of, index_from};

// The places of a buffer that are no fillers, from the start of a redundancy version on.
#[derive(Clone, Copy)]
pub(crate) struct BufferCycle {
    // How many places are before the fillers.
    pub front: u32,
    // How many places fillers have.
    pub skip: u32,
    // How many places have none.
    pub count: u32,
    // How many of these are before the start.
    pub first: u32,
    // How many positions of the codeword are before the buffer: 2 Zc.
    pub punctured: u32,
    ghost some: { 0 < count },
    ghost within: { first ≤ count },
    ghost short: { count + skip + punctured < 2 ^ 16 },
}

impl BufferCycle {
    // The position in the codeword of selected bit k.
    pub(crate) fn place(self, k: u32) -> u32
        ensures { result
            ≡ index_from self.front self.skip self.count self.first k + self.punctured }
    {
        let place = (self.first + k % self.count) % self.count;
        let index = if place < self.front {
            place
        } else {
            place + self.skip
        };
        index + self.punctured
    }

    // The places from place `at` on of those that have no filler, up to the fillers or to the end of the cycle. It is
    // the position in the codeword of the first of them, and how many there are.
    pub(crate) fn run(self, at: u32) -> (u32, u32)
        requires { at < self.count }
        ensures some { 0 < result.1 }
        ensures inside { at + result.1 ≤ self.count }
        ensures places { (j : ℕ) → j < result.1
            → index_of self.front self.skip (at + j) + self.punctured ≡ result.0 + j }
    {
        if at < self.front {
            (at + self.punctured, self.front.min(self.count) - at)
        } else {
            (at + self.skip + self.punctured, self.count - at)
        }
    }

    // The place after the `count` places from place `at` on, which do not go past the end of the cycle.
    pub(crate) fn after(self, at: u32, count: u32) -> u32
        requires { at + count ≤ self.count }
        ensures value { result ≡ (at + count) % self.count }
        ensures inside { result < self.count }
    {
        if at + count == self.count {
            0
        } else {
            at + count
        }
    }
}
