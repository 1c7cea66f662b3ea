//! The list of bits and how it is kept in words.

ghost use Rattle.std.specs.Prelude.{◌≡◌, ℕ, ◌+◌, ◌*◌, ◌^◌, ◌<◌, ◌≤◌, ◌==◌, ◌||◌, false, List};
ghost use Rattle.std.specs.Prelude.{[], ◌∷◌, ◌++◌, length, drop, replicate, slice_set, IfOk, OnOk, OnErr};
ghost use Rattle.std.specs.{Int.bit_at, Cmp.on_equiv, Cmp.on_per, Cmp.partial_equiv_from_equiv, Cmp.bool_eq_equiv};
ghost use Rattle.std.specs.Cmp.Lexicographic.{lists_equiv, lists_per};
ghost use Rattle.nr_bitvec.specs.{Bit.bit, Packed.place};
ghost use Rattle.nr_bitvec.specs.BitList.{bits_of, low_first, number_of, octets_of, same_bits};

mod ranges;

use super::octets::{turned, word_of_octets, write_octets};
use super::words::{append_words, change, flip, low_bits, push_bits, same_words, window};
use std::alloc::{AllocError, Global};
use std::marker::Model;

/// A list of at most 2^24 bits, which keeps its allocator. Two lists are equal if they have the same bits in the same
/// order; the room left in them does not count.
#[derive(Debug, Drop)]
pub struct Bits {
    words: Vec<u64>,
    len: usize,
}

impl Model for Bits {
    ghost use Rattle.std.specs.Prelude.{vec_capacity};
    ghost use Rattle.nr_bitvec.specs.BitList.{BitList};
    ghost use Rattle.nr_bitvec.specs.Packed.{bit_list};
    ghost use Rattle.nr_bitvec.specs.inside.Packed.{IsPacked};

    ghost Value = { BitList };

    ghost view = { λ b. bit_list b.len b.words.items (vec_capacity b.words) };

    ghost invariant = { λ b. IsPacked b.len b.words.items };
}

impl Bits {
    /// Returns an empty list. Allocates nothing.
    pub fn new(alloc: Global) -> Bits
        ensures { result.items ≡ [] }
    {
        Bits {
            words: Vec::new(alloc),
            len: 0,
        }
    }

    /// Returns an empty list with room for `n` bits, where `n` is at most 2^24.
    ///
    /// # Errors
    ///
    /// `AllocError` if memory runs out.
    pub fn with_room(alloc: Global, n: u32) -> Result<Bits, AllocError>
        requires { n ≤ 2 ^ 24 }
        ensures items { IfOk result (λ b. b.items ≡ []) }
        ensures room { IfOk result (λ b. n ≤ b.room) }
    {
        let words = Vec::with_capacity(alloc, (n as usize).div_ceil(64))?;
        Ok(Bits { words, len: 0 })
    }

    /// Returns a list of `n` zero bits, where `n` is at most 2^24.
    ///
    /// # Errors
    ///
    /// `AllocError` if memory runs out.
    pub fn zeros(alloc: Global, n: u32) -> Result<Bits, AllocError>
        requires { n ≤ 2 ^ 24 }
        ensures { IfOk result (λ b. b.items ≡ replicate n false) }
    {
        let len = n as usize;
        let words = vec![in alloc; 0; len.div_ceil(64)]?;
        Ok(Bits { words, len })
    }

    /// Returns the bits of at most 2^21 octets, each with its most significant bit first, so that the first bit of a
    /// transport block is the highest bit of its first octet (TS 38.212, 6.2.1 and 7.2.1).
    ///
    /// # Errors
    ///
    /// `AllocError` if memory runs out.
    pub fn from_bytes(alloc: Global, octets: &[u8]) -> Result<Bits, AllocError>
        requires { 8 * length octets.now ≤ 2 ^ 24 }
        ensures { IfOk result (λ b. b.items ≡ bits_of octets.now) }
    {
        let whole = octets.len() / 8;
        let count = octets.len().div_ceil(8);
        let mut words = Vec::with_capacity(alloc, count)?;
        for i in 0..whole {
            words.push_reserved(word_of_octets(&octets[8 * i..8 * i + 8]));
        }
        // What is left is less than a word.
        for i in whole..count {
            words.push_reserved(word_of_octets(&octets[8 * i..]));
        }
        Ok(Bits {
            words,
            len: 8 * octets.len(),
        })
    }

    /// Returns the bits packed into octets, the first bit most significant. If the length is not a multiple of eight,
    /// the last octet is padded with zero bits.
    ///
    /// # Errors
    ///
    /// `AllocError` if memory runs out.
    pub fn to_bytes(&self) -> Result<Vec<u8>, AllocError>
        ensures { IfOk result (λ v. v.items ≡ octets_of self.now.items) }
    {
        let mut octets = vec![in *self.words.allocator(); 0; 8 * self.words.len()]?;
        write_octets(&self.words, &mut octets);
        octets.truncate(self.len.div_ceil(8));
        Ok(octets)
    }

    /// Returns the eight bits that begin at bit `at` as an octet, the first bit most significant. Bits past the end
    /// read as zero.
    pub fn octet(&self, at: usize) -> u8
        ensures { result ≡ number_of 8 (drop at self.now.items) }
    {
        (turned(self.window(at)) & 0xff) as u8
    }

    /// Appends one bit. The list must have fewer than 2^24 bits, and its room shrinks by at most one bit.
    ///
    /// # Errors
    ///
    /// `AllocError` if the list has no room and memory runs out. The list and its room are then unchanged.
    pub fn push(&mut self, bit: bool) -> Result<(), AllocError>
        requires { length self.old.items < 2 ^ 24 }
        ensures ok { OnOk result (self.new.items ≡ self.old.items ++ bit ∷ []) }
        ensures err { OnErr result (self.new ≡ self.old) }
        ensures full { OnErr result (self.old.room ≡ 0) }
        ensures room { OnOk result (self.old.room ≤ self.new.room + 1) }
    {
        self.make_room(1)?;
        self.push_in_room(bit);
        Ok(())
    }

    // Asks for memory for `count` more bits.
    fn make_room(&mut self, count: usize) -> Result<(), AllocError>
        requires { length self.old.items + count ≤ 2 ^ 24 }
        ensures items { self.new.items ≡ self.old.items }
        ensures room { OnOk result (count ≤ self.new.room) }
        ensures kept { self.old.room ≤ self.new.room }
        ensures err { OnErr result (self.new ≡ self.old) }
        ensures full { OnErr result (self.old.room < count) }
    {
        let words = (self.len + count).div_ceil(64);
        self.words.reserve(words - self.words.len())
    }

    /// Returns how many more bits fit without an allocation. The list never grows past 2^24 bits in all.
    pub fn room(&self) -> u32
        ensures { result ≡ self.now.room }
    {
        (64 * self.words.capacity().min(1 << 18) - self.len) as u32
    }

    /// Appends one bit to a list that has room for it. Allocates nothing.
    pub fn push_in_room(&mut self, bit: bool)
        requires { 0 < self.old.room }
        ensures items { self.new.items ≡ self.old.items ++ bit ∷ [] }
        ensures room { self.new.room + 1 ≡ self.old.room }
    {
        self.push_word(1, bit as u64);
    }

    /// Appends the `count` lowest bits of `word`, the lowest first, where `count` is at most 64 and the list has room
    /// for them. Allocates nothing.
    pub fn push_word(&mut self, count: usize, word: u64)
        requires count { count ≤ 64 }
        requires room { count ≤ self.old.room }
        ensures items { self.new.items ≡ self.old.items ++ low_first count word }
        ensures room { self.new.room + count ≡ self.old.room }
    {
        push_bits(&mut self.words, self.len, count, low_bits(word, count));
        self.len += count;
    }

    /// Sets every bit to zero. The length stays the same, and nothing is allocated.
    pub fn zero(&mut self)
        ensures items { self.new.items ≡ replicate (length self.old.items) false }
        ensures long { length self.new.items ≡ length self.old.items }
        ensures room { self.new.room ≡ self.old.room }
    {
        self.words.fill(0);
    }

    /// Removes all bits and keeps their memory as room.
    pub fn clear(&mut self)
        ensures items { self.new.items ≡ [] }
        ensures room { length self.old.items + self.old.room ≤ self.new.room }
    {
        self.words.clear();
        self.len = 0;
    }

    /// Appends the bits of `more`. The two lists together must have at most 2^24 bits, and the room shrinks by at most
    /// the number of bits appended.
    ///
    /// # Errors
    ///
    /// `AllocError` if the list lacks the room and memory runs out. The list and its room are then unchanged.
    pub fn extend(&mut self, more: &Bits) -> Result<(), AllocError>
        requires { length self.old.items + length more.now.items ≤ 2 ^ 24 }
        ensures ok { OnOk result (self.new.items ≡ self.old.items ++ more.now.items) }
        ensures err { OnErr result (self.new ≡ self.old) }
        ensures full { OnErr result (self.old.room < length more.now.items) }
        ensures room { OnOk result (self.old.room ≤ self.new.room + length more.now.items) }
    {
        let count = more.len();
        self.make_room(count)?;
        self.extend_range(more, 0, count);
        Ok(())
    }

    /// Returns the number of bits, at most 2^24.
    pub fn len(&self) -> usize
        ensures value { result ≡ length self.now.items }
        ensures short { result ≤ 2 ^ 24 }
    {
        self.len
    }

    /// Law: a list has at most 2^24 bits.
    pub fn is_short(&self)
        ensures { length self.now.items ≤ 2 ^ 24 }
    {
        let _ = self.len();
    }

    /// Returns whether the list has no bits.
    pub fn is_empty(&self) -> bool
        ensures { result ≡ (length self.now.items == 0) }
    {
        self.len == 0
    }

    /// Returns bit `i`, counted from 0, which must be below the length.
    pub fn get(&self, i: usize) -> bool
        requires { i < length self.now.items }
        ensures { result ≡ bit self.now.items i }
    {
        self.words[i / 64] >> (i % 64) & 1 == 1
    }

    /// Sets bit `i`, counted from 0, to `value`. The caller guarantees that `i` is below the length. Allocates nothing.
    pub fn set(&mut self, i: usize, value: bool)
        requires { i < length self.old.items }
        ensures items { self.new.items ≡ slice_set self.old.items i value }
        ensures room { self.new.room ≡ self.old.room }
    {
        self.put(i, 1, value as u64);
    }

    /// Returns the 64 bits that begin at bit `at`, the first of them lowest. Bits past the end read as zero.
    pub fn window(&self, at: usize) -> u64
        ensures { (j : ℕ) → j < 64 → (bit_at result j == 1) ≡ bit self.now.items (at + j) }
    {
        window(&self.words, at / 64, at % 64)
    }

    /// Overwrites the bits from bit `at` on with the `count` lowest bits of `word`, the lowest first. The caller
    /// guarantees that `count` is at most 64 and that the list has these bits. Allocates nothing.
    pub fn put(&mut self, at: usize, count: usize, word: u64)
        requires count { count ≤ 64 }
        requires inside { at + count ≤ length self.old.items }
        ensures within { (t : ℕ) → t < count → bit self.new.items (at + t) ≡ (bit_at word t == 1) }
        ensures before { (t : ℕ) → t < at → bit self.new.items t ≡ bit self.old.items t }
        ensures after { (t : ℕ) → at + count ≤ t → bit self.new.items t ≡ bit self.old.items t }
        ensures long { length self.new.items ≡ length self.old.items }
        ensures room { self.new.room ≡ self.old.room }
    {
        if at % 64 == 0 && count == 64 {
            self.words[at / 64] = word;
            return;
        }
        let added = change(&self.words, at, count, word);
        flip(&mut self.words, at, added);
    }

    /// Writes at most 64 `words` from bit `at` on, the lowest bit of each first. The caller guarantees that the list
    /// has only zeros from there on, and that no bit of `words` past its end is set. Allocates nothing.
    pub fn put_words(&mut self, at: usize, words: &[u64])
        requires at { at ≤ length self.old.items }
        requires few { length words.now ≤ 64 }
        requires zeros { (t : ℕ) → at ≤ t → bit self.old.items t ≡ false }
        requires inside { (t : ℕ) → length self.old.items ≤ at + t → place words.now t ≡ 0 }
        ensures before { (t : ℕ) → t < at → bit self.new.items t ≡ bit self.old.items t }
        ensures within { (t : ℕ) → t < 64 * length words.now
            → bit self.new.items (at + t) ≡ (place words.now t == 1) }
        ensures after { (t : ℕ) → at + 64 * length words.now ≤ t → bit self.new.items t ≡ false }
        ensures long { length self.new.items ≡ length self.old.items }
        ensures room { self.new.room ≡ self.old.room }
    {
        append_words(&mut self.words, at, words);
    }

    /// Sets every bit that is set in `more`, a list of the same length, and leaves the others unchanged. Allocates
    /// nothing.
    pub fn union_with(&mut self, more: &Bits)
        requires { length more.now.items ≡ length self.old.items }
        ensures joined { (p : ℕ) → bit self.new.items p ≡ (bit self.old.items p || bit more.now.items p) }
        ensures long { length self.new.items ≡ length self.old.items }
        ensures room { self.new.room ≡ self.old.room }
    {
        for i in 0..self.words.len() {
            self.words[i] |= more.words[i];
        }
    }

    /// Returns a copy of the list.
    ///
    /// # Errors
    ///
    /// `AllocError` if memory runs out.
    pub fn try_clone(&self) -> Result<Bits, AllocError>
        ensures { IfOk result (λ b. b.items ≡ self.now.items) }
    {
        let words = Vec::from_slice(*self.words.allocator(), &self.words)?;
        Ok(Bits {
            words,
            len: self.len,
        })
    }
}

impl PartialEq for Bits {
    ghost eq = { same_bits };

    ghost laws = { on_per (λ b. b.items) (lists_per (partial_equiv_from_equiv bool_eq_equiv)) };

    fn eq(&self, other: &Bits) -> bool {
        self.len == other.len && same_words(&self.words, &other.words)
    }
}

impl Eq for Bits {
    ghost laws = { on_equiv (λ b. b.items) (lists_equiv bool_eq_equiv) };
}
