//! The cyclic redundancy checks of NR (TS 38.212, 5.1) and their attachment to transport blocks (6.2.1, 7.2.1) and to
//! code blocks (5.2.2). `attach` returns a list followed by its parity bits (specs/Attachment.antt), which are defined
//! as the remainder of a polynomial (specs/Crc.antt). The law `attachment_divides` says that a list with its parity
//! bits leaves remainder 0.
//!
//! A list of bits is read as a polynomial whose highest coefficient is the first bit.
#![tactic(auto)]

ghost use Rattle.nr_crcattach.specs.Attachment.{AttachedBlocksDivide, CheckedListsDivide, BlocksLengthen, CheckedListsLengthen};
ghost use Rattle.nr_crcattach.specs.Attachment.{LongBlocksLengthen, ShortBlocksLengthen, attached, attached_length, length_poly};
ghost use Rattle.nr_crcattach.specs.Crc.{IsDivided, JoinedListsAdd, PowersMultiply, TimesDIsAdditive, crc_of, degree, generator};
ghost use Rattle.nr_crcattach.specs.{Attachment.with_check, Crc.times_d, declared.Poly.Poly};
ghost use Rattle.std.specs.Prelude.{◌≡◌, ◌+◌, ◌*◌, ◌<◌, ◌≤◌, ◌^◌, ◌↔◌, IfOk, IsTrue, drop};
ghost use Rattle.std.specs.Prelude.{length, take};

mod octets;
mod tables;

use nr_bitvec::Bits;
use std::alloc::{AllocError, Global};

// The most bits of a transport block that has 16 parity bits, and not 24 (TS 38.212, 6.2.1 and
// 7.2.1).
const MOST_FOR_C16: usize = 3824;

/// A generator polynomial of TS 38.212, 5.1.
#[derive(Clone, Copy, Debug, PartialEq, Eq)]
pub enum Poly {
    /// gCRC24A, for long transport blocks: 24 parity bits.
    A24,
    /// gCRC24B, for code blocks: 24 parity bits.
    B24,
    /// gCRC16, for short transport blocks: 16 parity bits.
    C16,
}

impl Poly {
    /// Returns the generator for a transport block of `a` bits: CRC24A if `a` is above 3824, otherwise CRC16 (TS
    /// 38.212, 6.2.1 and 7.2.1).
    pub fn of_block(a: usize) -> Poly
        ensures { result ≡ length_poly a }
    {
        if a > MOST_FOR_C16 {
            Poly::A24
        } else {
            Poly::C16
        }
    }

    // The number of parity bits: 24 for `A24` and `B24`, 16 for `C16`.
    pub(crate) fn degree(self) -> u32
        ensures { result ≡ degree self }
    {
        match self {
            Poly::A24 | Poly::B24 => 24,
            Poly::C16 => 16,
        }
    }

    // The coefficients, that of D^0 lowest.
    fn generator(self) -> u32
        ensures { result ≡ generator self }
    {
        match self {
            Poly::A24 => 0x186_4cfb,
            Poly::B24 => 0x180_0063,
            Poly::C16 => 0x1_1021,
        }
    }

    // A remainder times D.
    fn times_d(self, remainder: u32) -> u32
        requires { remainder < 2 ^ degree self }
        ensures value { result ≡ times_d self remainder }
        ensures fits { result < 2 ^ degree self }
    {
        let doubled = 2 * remainder;
        if doubled < 1 << self.degree() {
            doubled
        } else {
            doubled ^ self.generator()
        }
    }
}

/// Returns the parity bits of `bits` as a number of 24 or 16 bits, the first parity bit most significant (TS 38.212,
/// 5.1). Allocates nothing.
pub fn crc(poly: Poly, bits: &Bits) -> u32
    ensures value { result ≡ crc_of poly bits.now.items }
    ensures fits { result < 2 ^ degree poly }
{
    crc_range(poly, bits, 0, bits.len())
}

/// Returns the parity bits of the `len` bits that begin at bit `from`, as `crc` does for a list of just these bits. The
/// caller guarantees that the list has them. Allocates nothing.
pub fn crc_range(poly: Poly, bits: &Bits, from: usize, len: usize) -> u32
    requires { from + len ≤ length bits.now.items }
    ensures value { result ≡ crc_of poly (take len (drop from bits.now.items)) }
    ensures fits { result < 2 ^ degree poly }
{
    // So no place below `from + len` overflows.
    bits.is_short();
    let words = len / 64;
    let top = poly.degree() - 1;
    let mut register = crc_of_words(poly, bits, from, words);
    for i in 64 * words..len {
        let entering = u32::from(bits.get(from + i)) << top;
        register = poly.times_d(register ^ entering);
    }
    register
}

// The parity bits of 64 bits a word, of so many words, from bit `from` on.
fn crc_of_words(poly: Poly, bits: &Bits, from: usize, words: usize) -> u32
    requires { from + 64 * words ≤ length bits.now.items }
    ensures value { result ≡ crc_of poly (take (64 * words) (drop from bits.now.items)) }
    ensures fits { result < 2 ^ degree poly }
{
    // No place overflows, as in `crc_range`.
    bits.is_short();
    let mut register = 0;
    for i in 0..words {
        register = poly.with_word(register, bits.window(from + 64 * i));
    }
    poly.flipped(register)
}

/// Returns whether `bits`, read as a polynomial, leaves remainder 0 when divided by the generator (TS 38.212, 5.1), as
/// every list followed by its parity bits does. Allocates nothing.
pub fn divides(poly: Poly, bits: &Bits) -> bool
    ensures { IsTrue result ↔ IsDivided poly bits.now.items }
{
    // The parity bits are the remainder times a power of D, which is 0 only if the remainder is.
    crc(poly, bits) == 0
}

/// Returns a transport block of at most 2^24 - 24 bits followed by its parity bits: 24 of CRC24A if the block has more
/// than 3824 bits, otherwise 16 of CRC16 (TS 38.212, 6.2.1 and 7.2.1).
///
/// # Errors
///
/// `AllocError` if memory runs out.
pub fn attach(alloc: Global, block: &Bits) -> Result<Bits, AllocError>
    requires { length block.now.items + 24 ≤ 2 ^ 24 }
    ensures { IfOk result (λ b. b.items ≡ attached block.now.items) }
{
    followed_by_check(alloc, Poly::of_block(block.len()), block, 0, block.len())
}

/// Replaces the bits of `list` by a transport block followed by its parity bits, as `attach` returns them (TS 38.212,
/// 6.2.1 and 7.2.1). The caller guarantees that the memory of the list suffices, so nothing is allocated, and the list
/// keeps its memory.
pub fn attach_into(block: &Bits, list: &mut Bits)
    requires room { length (attached block.now.items) ≤ length list.old.items + list.old.room }
    ensures items { list.new.items ≡ attached block.now.items }
    ensures room { length list.old.items + list.old.room
        ≤ length list.new.items + list.new.room }
{
    put_with_check(Poly::of_block(block.len()), block, 0, block.len(), list);
}

/// Returns B, the number of bits of a transport block of `a` bits with its parity bits: `a` + 24 if `a` is above 3824,
/// otherwise `a` + 16 (TS 38.212, 6.2.1 and 7.2.1).
pub fn attached_len(a: u32) -> u32
    requires { a < 2 ^ 24 }
    ensures { result ≡ attached_length a }
{
    a + Poly::of_block(a as usize).degree()
}

/// Returns the bits of a code block, at most 2^24 - 24, followed by their 24 parity bits of CRC24B (TS 38.212, 5.2.2).
///
/// # Errors
///
/// `AllocError` if memory runs out.
pub fn attach_code(alloc: Global, bits: &Bits) -> Result<Bits, AllocError>
    requires { length bits.now.items + 24 ≤ 2 ^ 24 }
    ensures { IfOk result (λ b. b.items ≡ with_check Poly.B24 bits.now.items) }
{
    attach_code_range(alloc, bits, 0, bits.len())
}

/// Returns the `len` bits that begin at bit `from` followed by their CRC24B, as `attach_code` does for a list of just
/// these bits. The caller guarantees that the list has them.
///
/// # Errors
///
/// `AllocError` if memory runs out.
pub fn attach_code_range(
    alloc: Global,
    bits: &Bits,
    from: usize,
    len: usize,
) -> Result<Bits, AllocError>
    requires inside { from + len ≤ length bits.now.items }
    requires short { len + 24 ≤ 2 ^ 24 }
    ensures { IfOk result (λ b. b.items ≡ with_check Poly.B24 (take len (drop from bits.now.items))) }
{
    followed_by_check(alloc, Poly::B24, bits, from, len)
}

// The `len` bits from bit `from` on, followed by their parity bits. The room for all of them is
// asked for once.
fn followed_by_check(
    alloc: Global,
    poly: Poly,
    bits: &Bits,
    from: usize,
    len: usize,
) -> Result<Bits, AllocError>
    requires inside { from + len ≤ length bits.now.items }
    requires short { len + 24 ≤ 2 ^ 24 }
    ensures { IfOk result (λ b. b.items ≡ with_check poly (take len (drop from bits.now.items))) }
{
    let mut checked = Bits::with_room(alloc, len as u32 + poly.degree())?;
    put_with_check(poly, bits, from, len, &mut checked);
    Ok(checked)
}

// Puts the `len` bits from bit `from` on in the place of a list's, in room that it has. Their
// parity bits follow them, the highest first.
fn put_with_check(poly: Poly, bits: &Bits, from: usize, len: usize, list: &mut Bits)
    requires inside { from + len ≤ length bits.now.items }
    requires room { length (with_check poly (take len (drop from bits.now.items)))
        ≤ length list.old.items + list.old.room }
    ensures items { list.new.items ≡ with_check poly (take len (drop from bits.now.items)) }
    ensures room { length list.old.items + list.old.room
        ≤ length list.new.items + list.new.room }
{
    list.clear();
    list.extend_range(bits, from, len);
    // Of the copy, whose first bit begins a word, as that of the range may not.
    let check = crc(poly, list);
    list.push_word(poly.degree() as usize, u64::from(poly.flipped(check)));
}

/// Law: every list followed by its parity bits leaves remainder 0 when divided by their generator, and so does every
/// transport block that `attach` returns.
pub fn attachment_divides()
    ensures check { CheckedListsDivide }
    ensures block { AttachedBlocksDivide }
{}

/// Law: parity bits lengthen a list by their number. They lengthen a transport block by 24 bits if it has more than
/// 3824 bits, and by 16 otherwise, as `attached_len` computes.
pub fn attachment_lengthens()
    ensures check { CheckedListsLengthen }
    ensures block { BlocksLengthen }
    ensures long { LongBlocksLengthen }
    ensures short { ShortBlocksLengthen }
{}

/// Laws of remainders: multiplying by D distributes over sums; one more power of D multiplies the remainder by D; the
/// remainder of two joined lists is the sum of both, with that of the first raised by as many powers as the second list
/// has bits.
pub fn residues_add()
    ensures sum { TimesDIsAdditive }
    ensures power { PowersMultiply }
    ensures joined { JoinedListsAdd }
{}
