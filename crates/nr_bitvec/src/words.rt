//! Slices of 64-bit words read as bits, bit 0 being the lowest bit of the first word. Lists of bits and rotated blocks
//! are stored in this way.

ghost use Rattle.std.specs.Prelude.{◌≡◌, ℕ, ◌+◌, ◌-◌, ◌*◌, ◌^◌, ◌<◌, ◌≤◌, length, vec_len};
ghost use Rattle.std.specs.{Prelude.vec_capacity, Prelude.IsTrue, Int.bit_at};
ghost use Rattle.nr_bitvec.specs.Packed.{place, IsClear};
ghost use Rattle.nr_bitvec.specs.inside.Packed.{Adds, Changes, Grows, IsPacked, Joins, Loads, SamePlaces, followed};

/// Returns the `count` lowest bits of a word, with zeros above them.
pub fn low_bits(word: u64, count: usize) -> u64
    ensures low { (j : ℕ) → j < count → bit_at result j ≡ bit_at word j }
    ensures high { (j : ℕ) → count ≤ j → bit_at result j ≡ 0 }
{
    if count < 64 {
        word & ((1 << count) - 1)
    } else {
        word
    }
}

/// Returns the 64 bits that begin at bit `turn` of word `word`, the first of them lowest. The caller guarantees that
/// `turn` is below 64. Bits past the end read as zero.
pub fn window(words: &[u64], word: usize, turn: usize) -> u64
    requires { turn < 64 }
    ensures { (j : ℕ) → j < 64 → bit_at result j ≡ place words.now (64 * word + turn + j) }
{
    if word >= words.len() {
        return 0;
    }
    let low = words[word] >> turn;
    if turn == 0 || word + 1 == words.len() {
        return low;
    }
    low | words[word + 1] << (64 - turn)
}

// Adds 64 bits modulo two, from place `at` on, the lowest first. Those that go past the end are
// zero.
pub(crate) fn flip(words: &mut Vec<u64>, at: usize, bits: u64)
    requires { (j : ℕ) → 64 * length words.old.items ≤ at + j → bit_at bits j ≡ 0 }
    ensures places { Adds at bits words.old.items words.new.items }
    ensures len { vec_len words.new ≡ vec_len words.old }
    ensures capacity { vec_capacity words.new ≡ vec_capacity words.old }
{
    let word = at / 64;
    let turn = at % 64;
    if word < words.len() {
        words[word] ^= bits << turn;
        if turn != 0 && word + 1 < words.len() {
            words[word + 1] ^= bits >> (64 - turn);
        }
    }
}

// What is added from place `at` on to put the `count` lowest bits of `word` there.
pub(crate) fn change(words: &[u64], at: usize, count: usize, word: u64) -> u64
    requires { count ≤ 64 }
    ensures { Changes words.now at count word result }
{
    low_bits(window(words, at / 64, at % 64) ^ word, count)
}

// Puts `count` bits after the first `len` places, the lowest first, in words that have memory for them. No bit is set
// past the count.
pub(crate) fn push_bits(words: &mut Vec<u64>, len: usize, count: usize, bits: u64)
    requires packed { IsPacked len words.old.items }
    requires count { count ≤ 64 }
    requires high { (j : ℕ) → count ≤ j → bit_at bits j ≡ 0 }
    requires room { len + count ≤ 64 * vec_capacity words.old }
    ensures grows { Grows len count bits words.old.items words.new.items }
    ensures capacity { vec_capacity words.new ≡ vec_capacity words.old }
{
    let turn = len % 64;
    if turn == 0 {
        if count > 0 {
            words.push_reserved(bits);
        }
        return;
    }
    words[len / 64] ^= bits << turn;
    if turn + count > 64 {
        words.push_reserved(bits >> (64 - turn));
    }
}

// Puts `count` words after words that have memory for them: the places from place `turn` of word `word` on, all of
// which `from` has.
pub(crate) fn push_windows(
    words: &mut Vec<u64>,
    from: &[u64],
    word: usize,
    turn: usize,
    count: usize,
)
    requires turn { turn < 64 }
    requires inside { 64 * word + turn + 64 * count ≤ 64 * length from.now }
    requires room { vec_len words.old + count ≤ vec_capacity words.old }
    ensures places { Loads (followed words.old.items from.now (64 * word + turn)) words.new.items
        (length words.old.items + count) }
    ensures capacity { vec_capacity words.new ≡ vec_capacity words.old }
{
    if turn == 0 {
        for i in 0..count {
            words.push_reserved(from[word + i]);
        }
        return;
    }
    for i in 0..count {
        words.push_reserved(from[word + i] >> turn | from[word + i + 1] << (64 - turn));
    }
}

// Puts words after the first `len` places, if no place is set. Their places past the end are
// zero.
pub(crate) fn append_words(words: &mut Vec<u64>, len: usize, more: &[u64])
    requires clear { IsClear words.old.items len }
    requires fits { (t : ℕ) → 64 * length words.old.items ≤ len + t → place more.now t ≡ 0 }
    requires short { len + 64 * length more.now < 2 ^ 32 }
    ensures places { Joins len words.old.items more.now words.new.items (length more.now) }
    ensures capacity { vec_capacity words.new ≡ vec_capacity words.old }
{
    for (i, word) in more.iter().enumerate() {
        flip(words, len + 64 * i, *word);
    }
}

// Whether two lists of words are equal. Lists of one length are equal if they have the same places.
pub(crate) fn same_words(a: &[u64], b: &[u64]) -> bool
    ensures equal { IsTrue result → a.now ≡ b.now }
    ensures places { length a.now ≡ length b.now → SamePlaces a.now b.now → IsTrue result }
{
    if a.len() != b.len() {
        return false;
    }
    for (i, word) in a.iter().enumerate() {
        if *word != b[i] {
            return false;
        }
    }
    true
}
