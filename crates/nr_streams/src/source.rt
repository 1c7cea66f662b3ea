//! Where octets come from, piece by piece, and reading a source to its end.

ghost use Rattle.std.specs.Prelude.{◌≡◌, ◌==◌, if◌then◌else◌, ℕ, ◌+◌, ◌-◌, ◌^◌, ◌<◌, ◌≤◌};
ghost use Rattle.std.specs.Prelude.{◌++◌, List, length, take, drop, min, Option, Some, None, option_map, Ok, IfOk, IfSome};
ghost use Rattle.std.specs.{Prelude.IsErrOf, Prelude.is_err, Io.KnownBytes.ReadConsumes};
ghost use Rattle.nr_streams.specs.Source.{HasMore, IsWhole, TookAtMost, broken, fails_next, fed_count};
ghost use Rattle.nr_streams.specs.declared.source.ReadFault.{ReadFault};
ghost use Rattle.nr_refusal.specs.Refusal.{FailsAs};

use std::alloc::{AllocError, Global};
use std::marker::Model;

// How many octets are asked for at once.
const PIECE: usize = 65_536;

/// The error of a pull or a put that failed.
#[derive(Clone, Copy, Debug, PartialEq, Eq)]
pub struct Broken;

/// Something that gives octets, piece by piece.
pub trait Source {
    /// The octets still to come, if they are known. Those of a file or of standard input are not.
    ghost remaining: { Self → Option (List ℕ) };

    /// How many pulls have failed.
    ghost failures: { Self → ℕ };

    /// Reads the next octets into the front of `buf` and returns how many they are. If `buf` is not empty, 0 means that
    /// the octets have ended.
    ///
    /// # Errors
    ///
    /// `Broken` if the source failed. No octet was taken then.
    fn pull(&mut self, buf: &mut [u8]) -> Result<usize, Broken>
        requires { failures self.old < 2 ^ 32 }
        ensures within { IfOk result (λ n. n ≤ length buf.new) }
        ensures octets { ReadConsumes (remaining self.old) (remaining self.new) result buf.new }
        ensures broken { FailsAs broken result (failures self.old) (failures self.new) };
}

/// Why a source was not read to its end.
#[derive(Clone, Copy, Debug, PartialEq, Eq)]
pub enum ReadFault {
    /// The source failed.
    Broken,
    /// The source has more octets than allowed.
    TooLong,
    /// Memory ran out.
    Memory,
}

impl From<AllocError> for ReadFault {
    ghost use Rattle.std.specs.Prelude.{◌≡◌};
    ghost use Rattle.nr_streams.specs.declared.source.ReadFault.TheVariants.{Memory};

    ghost from_gives = { λ _ e. e ≡ Memory };

    fn from(_error: AllocError) -> ReadFault {
        ReadFault::Memory
    }
}

/// Reads a source to its end and returns its octets, at most `limit` of them.
///
/// # Errors
///
/// Whichever is met first:
///
/// - `Broken` if a pull failed; the source is not pulled again
/// - `TooLong` if more than `limit` octets came, which also ends reading a source that never ends
/// - `Memory` if memory runs out
pub fn read_to_end<S: Source>(
    alloc: Global,
    source: &mut S,
    limit: usize,
) -> Result<Vec<u8>, ReadFault>
    requires { S.failures source.old < 2 ^ 32 }
    ensures whole { IfOk result (λ text. IsWhole (S.remaining source.old) text.items) }
    ensures within { IfOk result (λ text. length text.items ≤ limit) }
    ensures too_long { IsErrOf result ReadFault.TooLong → HasMore (S.remaining source.old) limit }
    ensures first { IsErrOf result ReadFault.Broken
        → TookAtMost limit (S.remaining source.old) (S.remaining source.new) }
    ensures pulled { FailsAs ReadFault.Broken result
        (S.failures source.old) (S.failures source.new) }
{
    let mut text = Vec::new(alloc);
    let mut memory = piece_memory(alloc)?;
    let piece = memory.as_mut_slice();
    loop {
        let count = match source.pull(piece) {
            Ok(count) => count,
            Err(Broken) => return Err(ReadFault::Broken),
        };
        if count == 0 {
            return Ok(text);
        }
        if count > limit - text.len() {
            return Err(ReadFault::TooLong);
        }
        text.extend_from_slice(&piece[..count])?;
    }
}

// Room on the heap for the octets of one pull.
fn piece_memory(alloc: Global) -> Result<Vec<u8>, AllocError>
    ensures { IfOk result (λ memory. 0 < length memory.items) }
{
    vec![in alloc; 0; PIECE]
}

/// A source over memory.
#[derive(Drop)]
pub struct Feed {
    octets: Vec<u8>,
    at: usize,
    step: u32,
    sound: Option<u32>,
    failed: u64,
}

impl Model for Feed {
    ghost use Rattle.std.specs.Prelude.{◌<◌, ◌≤◌, length, drop};
    ghost use Rattle.nr_streams.specs.Source.{Feeding};

    ghost Value = { Feeding };

    ghost view = { λ a. record {
      octets = drop a.at a.octets.items;
      step = a.step;
      sound = a.sound;
      failed = a.failed;
    } };

    ghost invariant = { λ a. (a.at ≤ length a.octets.items) × (0 < a.step) };
}

impl Feed {
    /// Returns a source that gives these octets, at most `step` for each pull, where `step` is not 0. From its pull
    /// number `fail` on it fails, or never if `fail` is 0.
    pub fn new(octets: Vec<u8>, step: u32, fail: u32) -> Feed
        requires { 0 < step }
        ensures octets { ⟦<Feed as Source>⟧.remaining result ≡ Some octets.items }
        ensures failures { ⟦<Feed as Source>⟧.failures result ≡ 0 }
        ensures step { result.step ≡ step }
        ensures sound { result.sound ≡ (if fail == 0 then None else Some (fail - 1)) }
    {
        Feed {
            octets,
            at: 0,
            step,
            sound: if fail == 0 { None } else { Some(fail - 1) },
            failed: 0,
        }
    }
}

impl Source for Feed {
    ghost remaining = { λ feed. Some feed.octets };

    ghost failures = { λ feed. feed.failed };

    fn pull(&mut self, buf: &mut [u8]) -> Result<usize, Broken>
        requires { self.old.failed < 2 ^ 32 }
        ensures within { IfOk result (λ n. n ≤ length buf.new) }
        ensures octets { ReadConsumes (Some self.old.octets) (Some self.new.octets) result buf.new }
        ensures broken { FailsAs broken result self.old.failed self.new.failed }
        ensures fails { is_err result ≡ fails_next self.old.sound }
        ensures count { IfOk result (λ n. n ≡ fed_count self.old (length buf.old)) }
        ensures later { self.new.sound ≡ option_map (λ n. n - 1) self.old.sound }
        ensures step { self.new.step ≡ self.old.step }
    {
        match self.sound {
            Some(0) => {
                self.failed += 1;
                return Err(Broken);
            }
            Some(sound) => self.sound = Some(sound - 1),
            None => {}
        }
        let count = copy_front(&self.octets[self.at..], buf, self.step);
        self.at += count;
        Ok(count)
    }
}

/// A source that gives one octet for each pull and never ends. The octets are unspecified.
#[derive(Debug, Drop)]
pub struct Endless {
    pulls: u32,
}

impl Model for Endless {
    ghost use Rattle.nr_streams.specs.Source.{Pulled};

    ghost Value = { Pulled };

    ghost view = { λ a. record { pulls = a.pulls } };
}

impl Endless {
    /// Returns a source that has not been pulled yet.
    pub fn new() -> Endless
        ensures pulls { result.pulls ≡ 0 }
        ensures failures { ⟦<Endless as Source>⟧.failures result ≡ 0 }
    {
        Endless { pulls: 0 }
    }

    /// Returns how many pulls there were. The count stops at 2^32 - 1.
    pub fn pulls(&self) -> u32
        ensures { result ≡ self.now.pulls }
    {
        self.pulls
    }
}

impl Source for Endless {
    ghost remaining = { λ _. None };

    ghost failures = { λ _. 0 };

    fn pull(&mut self, buf: &mut [u8]) -> Result<usize, Broken>
        ensures octets { ReadConsumes None None result buf.new }
        ensures gives { result ≡ Ok (min (length buf.old) 1) }
        ensures long { length buf.new ≡ length buf.old }
        ensures counted { self.new.pulls ≡ min (self.old.pulls + 1) (2 ^ 32 - 1) }
    {
        self.pulls = self.pulls.saturating_add(1);
        match buf.first_mut() {
            Some(octet) => {
                *octet = b'0';
                Ok(1)
            }
            None => Ok(0),
        }
    }
}

// Copies as much of the front of `from` to the front of `to` as both and `most` allow, and returns
// how much.
fn copy_front(from: &[u8], to: &mut [u8], most: u32) -> usize
    ensures count { result ≡ min (min (length from.now) (length to.old)) most }
    ensures copied { to.new ≡ take result from.now ++ drop result to.old }
{
    let count = from.len().min(to.len()).min(most as usize);
    to[..count].copy_from_slice(&from[..count]);
    count
}
