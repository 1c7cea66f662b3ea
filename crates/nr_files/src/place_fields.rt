//! The fields of a schedule that list places: place lists, erasures, and the code blocks that are scheduled.

ghost use Rattle.std.specs.Prelude.{◌≡◌, ◌==◌, ◌≤◌, IfOk, IfSome, length, option_map};
ghost use Rattle.std.specs.List.{position};
ghost use Rattle.nr_streams.specs.Fields.{numeral, short_number};
ghost use Rattle.nr_files.specs.PlaceLists.{below, drawn_of_parts, erasure_of, text_parts, place_list, places_of, range_between};
ghost use Rattle.nr_files.specs.{Masks.IsMaskOf, Masks.mask_of, PlaceLists.range_of};

use crate::erasure::{Erasure, PlaceList, PlaceRange, Places, listed};
use nr_ratematch::Mask;
use nr_streams::{numeral, short_number};
use std::alloc::{AllocError, Global};

// How many code blocks a mask has room for.
const MASK_BLOCKS: u32 = 384;

// What comes before the first `separator` of a text, and what comes after it; `None` if the text has none.
fn parted(text: &[u8], separator: u8) -> Option<(&[u8], &[u8])>
    ensures { option_map (λ parts. (parts.0.now, parts.1.now)) result ≡ text_parts separator text.now }
{
    let at = first_place(text, separator)?;
    Some((&text[..at], &text[at + 1..]))
}

// The place of the first separator.
fn first_place(text: &[u8], separator: u8) -> Option<usize>
    ensures { result ≡ position (λ c. c == separator) text.now }
{
    text.iter().position(|octet| *octet == separator)
}

/// Returns the number of at most 32 bits that 1 to 10 decimal digits write, leading zeros included, or `None` for any
/// other text.
pub(crate) fn short_word(text: &[u8]) -> Option<u32>
    ensures { result ≡ below 4294967296 (short_number text.now) }
{
    let number = short_number(text)?;
    if number <= u64::from(u32::MAX) {
        Some(number as u32)
    } else {
        None
    }
}

// The number of at most 64 bits that 1 to 20 decimal digits write, leading zeros included; `None` at any other text.
fn long_word(text: &[u8]) -> Option<u64>
    ensures { result ≡ below 18446744073709551616 (numeral 20 text.now) }
{
    let number = numeral(20, text)?;
    if number <= u128::from(u64::MAX) {
        Some(number as u64)
    } else {
        None
    }
}

// The places from one to another that is no less.
fn range_between(first: u64, last: u64) -> Option<PlaceRange>
    ensures { result ≡ range_between first last }
{
    if first <= last {
        Some(PlaceRange { first, last })
    } else {
        None
    }
}

// The places of an item of a place list: a place `m`, or a range `m-n` with m at most n. Each number has 1 to 10
// decimal digits. Of any other text there are none.
#[tactic(auto, unfolding(crate::specs::PlaceLists::range_of))]
fn range_of(item: &[u8]) -> Option<PlaceRange>
    ensures { result ≡ range_of item.now }
{
    match parted(item, b'-') {
        Some((first, last)) => range_between(short_number(first)?, short_number(last)?),
        None => {
            let place = short_number(item)?;
            Some(PlaceRange {
                first: place,
                last: place,
            })
        }
    }
}

// The ranges of a place list: one or more items with one space between them. Any other text has no list.
fn place_list(alloc: Global, text: &[u8]) -> Result<Option<PlaceList>, AllocError>
    ensures { IfOk result (λ list. list ≡ place_list text.now) }
{
    let mut ranges = Vec::new(alloc);
    for item in text.split(|octet| *octet == b' ') {
        match range_of(item) {
            Some(range) => ranges.push(range)?,
            None => return Ok(None),
        }
    }
    Ok(Some(PlaceList::new(ranges)))
}

/// Returns the places that a field lists, or `None` if the field is neither `-` (no place), `all`, nor a place list. A
/// list has one or more items separated by one space. An item is a place `m`, or a range `m-n` with m at most n. Places
/// are counted from 0, and each number has 1 to 10 decimal digits.
///
/// # Errors
///
/// `AllocError` if memory runs out.
#[tactic(auto, unfolding(crate::specs::PlaceLists::places_of))]
pub(crate) fn places_of(alloc: Global, text: &[u8]) -> Result<Option<Places>, AllocError>
    ensures { IfOk result (λ places. places ≡ places_of text.now) }
{
    if text == b"-".as_slice() {
        return Ok(Some(Places::Nothing));
    }
    if text == b"all".as_slice() {
        return Ok(Some(Places::All));
    }
    match place_list(alloc, text)? {
        Some(list) => Ok(Some(Places::Listed(list))),
        None => Ok(None),
    }
}

/// Returns the erasure that a field describes: `pcg:seed:threshold`, or places as `places_of` reads them. The seed has
/// 64 bits in 1 to 20 decimal digits, the threshold 32 bits in 1 to 10. For any other text the result is `None`.
///
/// # Errors
///
/// `AllocError` if memory runs out.
#[tactic(auto, unfolding(crate::specs::PlaceLists::erasure_of))]
pub(crate) fn erasure_of(alloc: Global, text: &[u8]) -> Result<Option<Erasure>, AllocError>
    ensures { IfOk result (λ erasure. erasure ≡ erasure_of text.now) }
{
    if text.starts_with(b"pcg:") {
        return Ok(drawn_of(&text[4..]));
    }
    match places_of(alloc, text)? {
        Some(places) => Ok(Some(Erasure::Named(places))),
        None => Ok(None),
    }
}

// The drawn erasure of `seed:threshold`.
fn drawn_of(text: &[u8]) -> Option<Erasure>
    ensures { result ≡ drawn_of_parts (text_parts 58 text.now) }
{
    let (seed, threshold) = parted(text, b':')?;
    let seed = long_word(seed)?;
    let threshold = short_word(threshold)?;
    Some(Erasure::Drawn { seed, threshold })
}

/// Returns the code blocks that a field schedules (TS 38.212, 5.4.2.1): all of them for `all`, or those of a place list
/// as `read_schedule` describes it, counted from 0; numbers from 384 on are ignored. For any other text, `-`
/// among them, the result is `None`.
///
/// # Errors
///
/// `AllocError` if memory runs out.
#[tactic(auto, unfolding(crate::specs::Masks::mask_of))]
pub fn mask_of(alloc: Global, text: &[u8]) -> Result<Option<Mask>, AllocError>
    ensures said { IfOk result (λ mask. mask ≡ mask_of text.now) }
    ensures schedules { IfOk result (λ mask. IfSome mask
        (λ mask. IfSome (places_of text.now) (λ places. IsMaskOf places mask))) }
{
    match places_of(alloc, text)? {
        Some(Places::All) => Ok(Some(Mask::All)),
        Some(Places::Listed(list)) => {
            let marks = listed(alloc, list.ranges(), MASK_BLOCKS)?;
            Ok(Some(Mask::of_marks(&marks)))
        }
        Some(Places::Nothing) | None => Ok(None),
    }
}
