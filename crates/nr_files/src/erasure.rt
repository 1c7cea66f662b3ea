//! Which bits of a transmission are not received: those that a schedule lists, or those that are drawn at random. A
//! place is the index of a bit among the G bits sent.

ghost use Rattle.std.specs.Prelude.{◌≡◌, ℕ, ◌^◌, ◌<◌, ◌≤◌, length, map, slice_index, IfOk};
ghost use Rattle.std.specs.List.{list_any, range_with_len};
ghost use Rattle.nr_files.specs.Erasures.{erased_of, is_within, is_named};
ghost use Rattle.nr_files.specs.inside.Furthest.{begins_at, furthest};

use crate::marks::{mark, ones, packed};
use nr_bitvec::Bits;
use nr_drawing::drawn;
use std::alloc::{AllocError, Global};
use std::marker::Model;

// At most this many ranges are marked in turn, each by words: no more work than place by place.
const RANGES_BY_WORDS: usize = 64;

/// The places from `first` to `last` inclusive, counted from 0.
#[derive(Clone, Copy, Debug, PartialEq, Eq)]
pub struct PlaceRange {
    /// The first place.
    pub first: u64,
    /// The last place. If it is less than the first, the range is empty.
    pub last: u64,
}

/// Ranges of places, in any order. They may overlap.
#[derive(Drop)]
pub struct PlaceList {
    ranges: Vec<PlaceRange>,
}

impl Model for PlaceList {
    ghost use Rattle.std.specs.Prelude.{List};
    ghost use Rattle.nr_files.specs.declared.erasure.PlaceRange.{PlaceRange};

    ghost Value = { List PlaceRange };

    ghost view = { λ list. list.ranges.items };
}

impl PlaceList {
    /// Returns the list of these ranges.
    pub fn new(ranges: Vec<PlaceRange>) -> PlaceList
        ensures { result ≡ ranges.items }
    {
        PlaceList { ranges }
    }

    /// Returns the ranges.
    pub fn ranges(&self) -> &[PlaceRange]
        ensures { result.now ≡ self.now }
    {
        &self.ranges
    }
}

/// Some places of a transmission.
#[derive(Drop)]
pub enum Places {
    /// No place.
    Nothing,
    /// Every place.
    All,
    /// The places in any range of the list.
    Listed(PlaceList),
}

/// Which places of a transmission are erased.
#[derive(Drop)]
pub enum Erasure {
    /// The places that are listed.
    Named(Places),
    /// The places that are drawn: place m if word m of the generator, counted from 0, is below the threshold.
    Drawn {
        /// The seed of the generator.
        seed: u64,
        /// The least word that erases nothing.
        threshold: u32,
    },
}

/// Returns one bit for each of the first `count` places (at most 2^24), set if the place is erased.
///
/// # Errors
///
/// `AllocError` if memory runs out.
pub fn erased(alloc: Global, erasure: &Erasure, count: u32) -> Result<Bits, AllocError>
    requires { count ≤ 2 ^ 24 }
    ensures { IfOk result (λ marks. marks.items ≡ erased_of erasure.now count) }
{
    match erasure {
        Erasure::Named(places) => named(alloc, places, count),
        Erasure::Drawn { seed, threshold } => drawn(alloc, *seed, *threshold, count),
    }
}

/// Returns one bit for each of the first `count` places (at most 2^24), set if the place is among `places`.
///
/// # Errors
///
/// `AllocError` if memory runs out.
pub fn named(alloc: Global, places: &Places, count: u32) -> Result<Bits, AllocError>
    requires { count ≤ 2 ^ 24 }
    ensures { IfOk result
        (λ marks. marks.items ≡ map (is_named places.now) (range_with_len 0 count)) }
{
    match places {
        Places::Nothing => Bits::zeros(alloc, count),
        Places::All => ones(alloc, count),
        Places::Listed(list) if list.ranges().len() <= RANGES_BY_WORDS => ranged(
            alloc,
            list.ranges(),
            count,
        ),
        Places::Listed(list) => {
            let marks = listed(alloc, list.ranges(), count)?;
            packed(alloc, &marks)
        }
    }
}

// For each of the first `count` places whether it is in a range, range by range.
fn ranged(alloc: Global, ranges: &[PlaceRange], count: u32) -> Result<Bits, AllocError>
    requires { count ≤ 2 ^ 24 }
    ensures { IfOk result (λ marks. marks.items
        ≡ map (λ m. list_any (is_within m) ranges.now) (range_with_len 0 count)) }
{
    let mut marks = Bits::zeros(alloc, count)?;
    for range in ranges {
        if range.first < u64::from(count) {
            let end = range.last.min(u64::from(count) - 1) as usize + 1;
            mark(&mut marks, range.first as usize, end);
        }
    }
    Ok(marks)
}

// For each of the first `count` places whether it is in a range. A place does if a range that begins at it or
// before it ends after it.
pub(crate) fn listed(
    alloc: Global,
    ranges: &[PlaceRange],
    count: u32,
) -> Result<Vec<bool>, AllocError>
    ensures { IfOk result (λ marks. marks.items
        ≡ map (λ m. list_any (is_within m) ranges.now) (range_with_len 0 count)) }
{
    let ends = ends_from(alloc, ranges, count)?;
    let mut marks = Vec::with_capacity(alloc, count as usize)?;
    let mut end = 0;
    for place in 0..count {
        end = end.max(ends[place as usize]);
        marks.push_reserved(place < end);
    }
    Ok(marks)
}

// For each of the first `count` places how far the ranges reach that begin there. That is the place after the last
// one, but no more than `count`, or 0 if no range begins.
fn ends_from(alloc: Global, ranges: &[PlaceRange], count: u32) -> Result<Vec<u32>, AllocError>
    ensures len { IfOk result (λ ends. length ends.items ≡ count) }
    ensures ends { IfOk result (λ ends. (m : ℕ) → m < count
        → slice_index ends.items m ≡ furthest (begins_at m) count ranges.now) }
{
    let mut ends = vec![in alloc; 0; count as usize]?;
    for range in ranges {
        if range.first < u64::from(count) {
            let first = range.first as usize;
            let end = range.last.min(u64::from(count) - 1) as u32 + 1;
            ends[first] = ends[first].max(end);
        }
    }
    Ok(ends)
}
