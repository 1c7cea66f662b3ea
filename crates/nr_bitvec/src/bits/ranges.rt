//! Copies a range of a list, to the end of another list or into a list of its own.

ghost use Rattle.std.specs.Prelude.{◌≡◌, ◌+◌, ◌*◌, ◌%◌, ◌<◌, ◌≤◌, ◌++◌, length, take, drop, IfOk};

use super::Bits;
use crate::words::push_windows;
use std::alloc::AllocError;

impl Bits {
    /// Returns a new list with the `len` bits that begin at bit `from`. The caller guarantees that `from + len` is at
    /// most the length.
    ///
    /// # Errors
    ///
    /// `AllocError` if memory runs out.
    pub fn copy_range(&self, from: usize, len: usize) -> Result<Bits, AllocError>
        requires { from + len ≤ length self.now.items }
        ensures { IfOk result (λ b. b.items ≡ take len (drop from self.now.items)) }
    {
        let past = self.len();
        prove!(from + len <= past);
        let mut copy = Bits::with_room(*self.words.allocator(), len as u32)?;
        copy.extend_range(self, from, len);
        Ok(copy)
    }

    /// Appends the `count` bits of `from` that begin at its bit `at`. The caller guarantees that `from` has these bits
    /// and that this list has room for them, so nothing is allocated.
    pub fn extend_range(&mut self, from: &Bits, at: usize, count: usize)
        requires inside { at + count ≤ length from.now.items }
        requires room { count ≤ self.old.room }
        ensures items { self.new.items ≡ self.old.items ++ take count (drop at from.now.items) }
        ensures room { self.new.room + count ≡ self.old.room }
    {
        let past = from.len();
        prove!(at + count <= past);
        // The first bits fill the list's last word.
        let first = count.min(64 - self.len() % 64);
        self.push_word(first, from.window(at));
        if first < count {
            self.extend_filled(from, at + first, count - first);
        }
    }

    // The same for a list whose bits fill its words.
    fn extend_filled(&mut self, from: &Bits, at: usize, count: usize)
        requires filled { length self.old.items % 64 ≡ 0 }
        requires inside { at + count ≤ length from.now.items }
        requires room { count ≤ self.old.room }
        ensures items { self.new.items ≡ self.old.items ++ take count (drop at from.now.items) }
        ensures room { self.new.room + count ≡ self.old.room }
    {
        let past = from.len();
        prove!(at + count <= past);
        let whole = count / 64;
        self.extend_words(from, at, whole);
        self.push_word(count % 64, from.window(at + 64 * whole));
    }

    // The same for as many bits as `count` words have.
    fn extend_words(&mut self, from: &Bits, at: usize, count: usize)
        requires filled { length self.old.items % 64 ≡ 0 }
        requires inside { at + 64 * count ≤ length from.now.items }
        requires room { 64 * count ≤ self.old.room }
        ensures items { self.new.items ≡ self.old.items ++ take (64 * count) (drop at from.now.items) }
        ensures room { self.new.room + 64 * count ≡ self.old.room }
    {
        push_windows(&mut self.words, &from.words, at / 64, at % 64, count);
        self.len += 64 * count;
    }
}
