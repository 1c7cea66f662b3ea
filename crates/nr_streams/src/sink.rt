//! Where a text is written to, and a Sink over memory for tests.

ghost use Rattle.std.specs.Prelude.{◌≡◌, ℕ, ◌+◌, ◌^◌, ◌<◌, ◌≤◌, List, Option, Some, length, take, is_err};
ghost use Rattle.std.specs.Prelude.{IfOk, OnOk, OnErr, vec_capacity, vec_len};
ghost use Rattle.nr_streams.specs.Sink.{TapeState, WritesPrefix, blank, is_spent, taken_count, with_failure, with_octets};
ghost use Rattle.nr_streams.specs.{Sink.with_text, Source.broken};
ghost use Rattle.nr_refusal.specs.Refusal.{FailsAs};

use crate::source::Broken;
use std::alloc::{AllocError, Global};
use std::marker::Model;

/// Something that takes octets: a file, standard output or memory.
///
/// Contracts see the octets written so far, if they are known, and the number of failures, which is below 2^32 at every
/// call.
pub trait Sink {
    ghost written: { Self → Option (List ℕ) };

    ghost failures: { Self → ℕ };

    /// Writes the first octets of `buf` and returns how many: at least one, unless `buf` is empty.
    ///
    /// # Errors
    ///
    /// `Broken` exactly if the number of failures rises. Nothing was written then.
    fn put(&mut self, buf: &[u8]) -> Result<usize, Broken>
        requires { failures self.old < 2 ^ 32 }
        ensures count { IfOk result (λ n. n ≤ length buf.now) }
        ensures some { 0 < length buf.now → IfOk result (λ n. 0 < n) }
        ensures taken { IfOk result
            (λ n. written self.new ≡ with_text (written self.old) (take n buf.now)) }
        ensures err { OnErr result (written self.new ≡ written self.old) }
        ensures failed { FailsAs broken result (failures self.old) (failures self.new) };
}

/// Writes all of `text`, with as many calls of `put` as it takes.
///
/// # Errors
///
/// `Broken` if a put fails. The sink then has some first part of `text`, and the rest is lost.
pub fn put_all<S: Sink>(sink: &mut S, text: &[u8]) -> Result<(), Broken>
    requires { S.failures sink.old < 2 ^ 32 }
    ensures all { OnOk result (S.written sink.new ≡ with_text (S.written sink.old) text.now) }
    ensures part { OnErr result (WritesPrefix (S.written sink.old) (S.written sink.new) text.now) }
    ensures failed { FailsAs broken result (S.failures sink.old) (S.failures sink.new) }
{
    let mut at = 0;
    while at < text.len() {
        at += sink.put(&text[at..])?;
    }
    Ok(())
}

/// A Sink over memory with limited room, which can be made to fail.
#[derive(Drop)]
pub struct Tape {
    octets: Vec<u8>,
    room: usize,
    step: usize,
    puts_left: Option<u32>,
    failures: u64,
}

impl Model for Tape {
    ghost Value = { TapeState };

    ghost view = { λ t. record {
      octets = t.octets.items;
      room = t.room;
      step = t.step;
      puts_left = t.puts_left;
      failures = t.failures;
    } };

    ghost invariant = { λ t. (0 < t.step) × (vec_len t.octets + t.room ≤ vec_capacity t.octets) };
}

impl Tape {
    /// Returns an empty tape. It has room for `room` octets, which are allocated here, and takes at most `step` octets
    /// for each put. From its put number `fail` on it returns `Broken` (never, if `fail` is 0), and also when its room
    /// is used up.
    ///
    /// # Errors
    ///
    /// `AllocError` if there is no memory for the room.
    pub fn new(alloc: Global, room: u32, step: u32, fail: u32) -> Result<Tape, AllocError>
        requires { 0 < step }
        ensures { IfOk result (λ t. t ≡ blank room step fail) }
    {
        Ok(Tape {
            octets: Vec::with_capacity(alloc, room as usize)?,
            room: room as usize,
            step: step as usize,
            puts_left: fail.checked_sub(1),
            failures: 0,
        })
    }

    /// Returns the octets written so far.
    pub fn bytes(&self) -> &[u8]
        ensures { result.now ≡ self.now.octets }
    {
        &self.octets
    }
}

impl Sink for Tape {
    ghost written = { λ t. Some t.octets };

    ghost failures = { λ t. t.failures };

    fn put(&mut self, buf: &[u8]) -> Result<usize, Broken>
        requires { self.old.failures < 2 ^ 32 }
        ensures count { IfOk result (λ n. n ≤ length buf.now) }
        ensures some { 0 < length buf.now → IfOk result (λ n. 0 < n) }
        ensures taken { IfOk result (λ n. self.new ≡ with_octets self.old (take n buf.now)) }
        ensures err { OnErr result (self.new ≡ with_failure self.old) }
        ensures failed { FailsAs broken result self.old.failures self.new.failures }

        // What a Tape promises beyond a Sink: when it is Broken, and how much it takes.
        ensures spent { is_err result ≡ is_spent self.old }
        ensures amount { IfOk result (λ n. n ≡ taken_count self.old buf.now) }
    {
        if self.room == 0 || self.puts_left == Some(0) {
            self.failures += 1;
            return Err(Broken);
        }
        let count = buf.len().min(self.step).min(self.room);
        self.octets.extend_from_slice(&buf[..count]).unwrap();
        self.room -= count;
        self.puts_left = self.puts_left.map(|puts| puts - 1);
        Ok(count)
    }
}
