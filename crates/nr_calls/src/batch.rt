//! Up to 64 rounds over drawn erasures, side by side: bit j of a word is round j's, and number j of a row.

ghost use Rattle.std.specs.Prelude.{◌≡◌, ◌+◌, ◌*◌, ◌++◌, ◌∷◌, [], ◌<◌, ◌≤◌, ◌==◌, ◌||◌};
ghost use Rattle.std.specs.Prelude.{ℕ, false, true, not, Bool, List, flat_map};
ghost use Rattle.std.specs.Prelude.{if◌then◌else◌, length, map, slice_index, IfErr, IfOk, IsOk, IsTrue, OnOk};
ghost use Rattle.std.specs.List.{range_with_len};
ghost use Rattle.nr_bitvec.specs.Bit.{bit};
ghost use Rattle.nr_drawing.specs.Drawing.{AreRounds, IsAmong, places_drawn, seeded};
ghost use Rattle.nr_blockdesk.specs.Explains.{Reception};
ghost use Rattle.nr_blockdesk.specs.Link.{IsBlock};
ghost use Rattle.nr_blockdesk.specs.Sent.{tx_said};
ghost use Rattle.nr_calls.specs.Simulating.{delivered_within, drawn_round, erased_row, left_row};
ghost use Rattle.nr_calls.specs.inside.Batches.{AreBetween, AreWhole, HasCome, Hears, PassesBy, column, words_in};
ghost use Rattle.nr_calls.specs.inside.Simulating.{AreAccepted};

use crate::crossing::NrTx;
use crate::fault::Fault;
use crate::rounds::{Rounds, laws_of_rounds, shares_of};
use crate::side::{begun, fit, hear_block};
use arrayvec::ArrayVec;
use nr_blockdesk::{Link, Tx};
use nr_drawing::side_by_side;
use rand_pcg::Pcg32;
use std::alloc::{AllocError, Global};

// The most rounds side by side: a word has so many bits.
pub(crate) const MOST_ROUNDS: usize = 64;

// What is known of each code block, a word for each position. For each round after how many transmissions it is
// delivered. And for each transmission and code block a row: how much is left, and how many places are erased.
#[derive(Drop)]
pub(crate) struct Batch {
    known: Vec<Vec<u64>>,
    delivered: [u32; 64],
    left: Vec<[u32; 64]>,
    erased: Vec<[u32; 64]>,
}

// The numbers of the rounds that are open, and zeros for the others.
fn masked(delivered: &[u32; 64], counts: &[u32; 64]) -> [u32; 64]
    ensures { (j : ℕ) → j < 64 → slice_index result j
        ≡ (if slice_index delivered.now j == 0 then slice_index counts.now j else 0) }
{
    let mut row = [0; 64];
    for j in 0..64 {
        if delivered[j] == 0 {
            row[j] = counts[j];
        }
    }
    row
}

// A round goes on that did, or of which a position is left.
fn keep_going(going: &mut [bool; 64], left: &[u32; 64])
    ensures { (j : ℕ) → j < 64 → bit going.new j ≡ (bit going.old j || not (slice_index left.now j == 0)) }
{
    for j in 0..64 {
        if left[j] != 0 {
            going[j] = true;
        }
    }
}

impl Batch {
    // No round has heard anything. There is room for the rows of so many transmissions.
    fn begin(alloc: Global, link: &Link<'_>, sent: usize) -> Result<Batch, AllocError>
        ensures whole { IfOk result (λ batch. AreWhole link.now (words_in batch)) }
        ensures between { IfOk result (λ batch. (j : ℕ) → j < 64 → AreBetween link.now [] j (words_in batch)) }
        ensures fresh { IfOk result (λ batch. (j : ℕ) → slice_index batch.delivered j ≡ 0) }
        ensures left { IfOk result (λ batch. batch.left.items ≡ []) }
        ensures erased { IfOk result (λ batch. batch.erased.items ≡ []) }
    {
        let rows = sent.saturating_mul(link.plan().c as usize);
        let known = begun(alloc, link)?;
        let left = Vec::with_capacity(alloc, rows)?;
        let erased = Vec::with_capacity(alloc, rows)?;
        Ok(Batch {
            known,
            delivered: [0; MOST_ROUNDS],
            left,
            erased,
        })
    }

    // Puts a row for a code block, with zeros for the rounds that were delivered.
    #[tactic(auto, using(crate::proofs::BatchFacts::column_rules))]
    fn push(&mut self, left: &[u32; 64], erased: &[u32; 64]) -> Result<(), AllocError>
        ensures left { OnOk result ((j : ℕ) → j < 64 → column self.new.left.items j ≡ column self.old.left.items j
            ++ (if slice_index self.old.delivered j == 0 then slice_index left.now j else 0) ∷ []) }
        ensures erased { OnOk result ((j : ℕ) → j < 64 → column self.new.erased.items j ≡ column self.old.erased.items j
            ++ (if slice_index self.old.delivered j == 0 then slice_index erased.now j else 0) ∷ []) }
        ensures known { OnOk result (self.new.known ≡ self.old.known) }
        ensures still { OnOk result (self.new.delivered ≡ self.old.delivered) }
    {
        self.left.push(masked(&self.delivered, left))?;
        self.erased.push(masked(&self.delivered, erased))?;
        Ok(())
    }

    // Each round that is listed hears a transmission, as zeros at the places that are not drawn. Returns in which a position is
    // left then.
    fn hear(
        &mut self,
        alloc: Global,
        link: &Link<'_>,
        tx: &Tx,
        threshold: u32,
        seeds: &[u64; 64],
        listed: &[usize],
    ) -> Result<[bool; 64], Fault>
        requires said { IsOk (tx_said link.now tx.now) }
        requires listed { AreRounds listed.now }
        requires whole { AreWhole link.now (words_in self.old) }
        ensures whole { OnOk result (AreWhole link.now (words_in self.new)) }
        ensures still { OnOk result (self.new.delivered ≡ self.old.delivered) }
        ensures hears { IfOk result (λ going. (j : ℕ) (list : List Reception) → IsAmong listed.now j
            → slice_index self.old.delivered j ≡ 0 → AreBetween link.now list j (words_in self.old)
            → Hears link.now list (tx.now, places_drawn (slice_index seeds.now j) threshold tx.now.g) j
            (not (bit going j)) self.old self.new) }
        ensures passes { OnOk result ((j : ℕ) → j < 64 → (slice_index self.old.delivered j == 0) ≡ false
            → PassesBy link.now.plan.c j self.old self.new) }
        ensures err { IfErr result (λ fault. fault ≡ Fault.Memory) }
    {
        let mut generators = side_by_side(alloc, seeds)?;
        let mut arrived = Vec::new(alloc);
        self.hear_blocks(link, tx, threshold, &mut generators, listed, &mut arrived)
    }

    // The same of one code block after the other, with generators that begin with the seeds. `hear` makes them and lends them, so
    // that an error in here drops nothing.
    fn hear_blocks(
        &mut self,
        link: &Link<'_>,
        tx: &Tx,
        threshold: u32,
        generators: &mut Vec<Pcg32>,
        listed: &[usize],
        arrived: &mut Vec<u64>,
    ) -> Result<[bool; 64], Fault>
        requires said { IsOk (tx_said link.now tx.now) }
        requires listed { AreRounds listed.now }
        requires whole { AreWhole link.now (words_in self.old) }
        requires all { length generators.old.items ≡ 64 }
        ensures whole { OnOk result (AreWhole link.now (words_in self.new)) }
        ensures still { OnOk result (self.new.delivered ≡ self.old.delivered) }
        ensures hears { (seeds : List ℕ) → generators.old.items ≡ map seeded seeds
            → IfOk result (λ going. (j : ℕ) (list : List Reception) → IsAmong listed.now j
            → slice_index self.old.delivered j ≡ 0 → AreBetween link.now list j (words_in self.old)
            → Hears link.now list (tx.now, places_drawn (slice_index seeds j) threshold tx.now.g) j
            (not (bit going j)) self.old self.new) }
        ensures passes { OnOk result ((j : ℕ) → j < 64 → (slice_index self.old.delivered j == 0) ≡ false
            → PassesBy link.now.plan.c j self.old self.new) }
        ensures err { IfErr result (λ fault. fault ≡ Fault.Memory) }
    {
        let shares = shares_of(link, tx)?;
        let mut going = [false; 64];
        for r in 0..shares.len() {
            fit(arrived, shares[r] as usize)?;
            let (erased, left) = hear_block(
                link,
                tx,
                threshold,
                generators,
                listed,
                arrived,
                &mut self.known[r],
            );
            self.push(&left, &erased)?;
            keep_going(&mut going, &left);
        }
        Ok(going)
    }

    // Puts rows of zeros for a transmission that is not sent in any round, of `c` code blocks.
    fn pass(&mut self, c: u32) -> Result<(), AllocError>
        ensures passes { OnOk result ((j : ℕ) → j < 64 → PassesBy c j self.old self.new) }
        ensures known { OnOk result (self.new.known ≡ self.old.known) }
        ensures still { OnOk result (self.new.delivered ≡ self.old.delivered) }
    {
        for _ in 0..c {
            self.left.push([0; 64])?;
            self.erased.push([0; 64])?;
        }
        Ok(())
    }
}

// The seeds of transmission `k` of `count` rounds of `t` transmissions each. The other rounds have 0.
#[tactic(auto, using(crate::proofs::BatchFacts::seat_fits))]
fn seeds_of(seeds: &[u64], k: usize, t: usize, count: usize) -> [u64; 64]
    requires sent { k < t }
    requires few { count ≤ 64 }
    requires seeds { length seeds.now ≡ count * t }
    ensures { (j : ℕ) → j < count → slice_index result j ≡ slice_index seeds.now (j * t + k) }
{
    let mut own = [0; MOST_ROUNDS];
    for j in 0..count {
        own[j] = seeds[j * t + k];
    }
    own
}

// The first rounds of those that are open.
fn open_rounds(delivered: &[u32; 64], count: usize) -> ArrayVec<usize, MOST_ROUNDS>
    requires { count ≤ 64 }
    ensures rounds { AreRounds result.items }
    ensures among { (j : ℕ) → j < count → slice_index delivered.now j ≡ 0 → IsAmong result.items j }
{
    let mut listed = ArrayVec::new();
    for j in 0..count {
        if delivered[j] == 0 {
            listed.push(j);
        }
    }
    listed
}

// The rounds that were open and of which nothing is left are delivered after `n` transmissions.
fn deliver(delivered: &mut [u32; 64], going: &[bool; 64], n: u32)
    ensures { (j : ℕ) → j < 64 → slice_index delivered.new j ≡ (if slice_index delivered.old j == 0
        then (if not (bit going.now j) then n else 0) else slice_index delivered.old j) }
{
    for j in 0..64 {
        if delivered[j] == 0 && !going[j] {
            delivered[j] = n;
        }
    }
}

// Puts the numbers of a round at the end of a list.
#[tactic(auto, using(crate::proofs::BatchFacts::column_rules))]
fn push_column(rows: &[[u32; 64]], j: usize, numbers: &mut Vec<u32>) -> Result<(), AllocError>
    requires { j < 64 }
    ensures { OnOk result (numbers.new.items ≡ numbers.old.items ++ column rows.now j) }
{
    for row in rows {
        numbers.push(row[j])?;
    }
    Ok(())
}

// Puts what is found in the first rounds at the end of the result.
fn push_all(batch: &Batch, count: usize, rounds: &mut Rounds) -> Result<(), AllocError>
    requires { count ≤ 64 }
    ensures delivered { OnOk result (rounds.new.delivered.items
        ≡ rounds.old.delivered.items ++ map (slice_index batch.now.delivered) (range_with_len 0 count)) }
    ensures left { OnOk result (rounds.new.left.items
        ≡ rounds.old.left.items ++ flat_map (column batch.now.left.items) (range_with_len 0 count)) }
    ensures erased { OnOk result (rounds.new.erased.items
        ≡ rounds.old.erased.items ++ flat_map (column batch.now.erased.items) (range_with_len 0 count)) }
{
    for j in 0..count {
        rounds.delivered.push(batch.delivered[j])?;
        push_column(&batch.left, j, &mut rounds.left)?;
        push_column(&batch.erased, j, &mut rounds.erased)?;
    }
    Ok(())
}

impl Batch {
    // The first rounds hear the transmissions in turn, each until its block is delivered.
    fn hear_all(
        &mut self,
        alloc: Global,
        link: &Link<'_>,
        txs: &[NrTx],
        thresholds: &[u32],
        seeds: &[u64],
        count: usize,
    ) -> Result<(), Fault>
        requires accepted { AreAccepted link.now txs.now }
        requires few { length txs.now ≤ 1000 }
        requires thresholds { length thresholds.now ≡ length txs.now }
        requires rounds { count ≤ 64 }
        requires seeds { length seeds.now ≡ count * length txs.now }
        requires whole { AreWhole link.now (words_in self.old) }
        requires between { (j : ℕ) → j < 64 → AreBetween link.now [] j (words_in self.old) }
        requires fresh { (j : ℕ) → slice_index self.old.delivered j ≡ 0 }
        requires left { self.old.left.items ≡ [] }
        requires erased { self.old.erased.items ≡ [] }
        ensures come { OnOk result ((j : ℕ) (block : List Bool) → j < count → IsBlock link.now block
            → HasCome link.now block (drawn_round txs.now thresholds.now seeds.now j) (length txs.now)
            (slice_index self.new.delivered j) [] [] (column self.new.left.items j) (column self.new.erased.items j)) }
        ensures err { IfErr result (λ fault. fault ≡ Fault.Memory) }
    {
        laws_of_rounds();
        link.is_sound();
        for k in 0..txs.len() {
            let listed = open_rounds(&self.delivered, count);
            if listed.is_empty() {
                self.pass(link.plan().c)?;
            } else {
                let own = seeds_of(seeds, k, txs.len(), count);
                let going = self.hear(alloc, link, &txs[k].tx(), thresholds[k], &own, &listed)?;
                deliver(&mut self.delivered, &going, k as u32 + 1);
            }
        }
        Ok(())
    }
}

// Hears up to 64 rounds, each until the block is delivered. Each has seeds of its own, one for each transmission.
pub(crate) fn hear_batch(
    alloc: Global,
    link: &Link<'_>,
    txs: &[NrTx],
    thresholds: &[u32],
    seeds: &[u64],
    count: usize,
    rounds: &mut Rounds,
) -> Result<(), Fault>
    requires accepted { AreAccepted link.now txs.now }
    requires few { length txs.now ≤ 1000 }
    requires thresholds { length thresholds.now ≡ length txs.now }
    requires rounds { count ≤ 64 }
    requires seeds { length seeds.now ≡ count * length txs.now }
    ensures delivered { OnOk result ((block : List Bool) → IsBlock link.now block
        → rounds.new.delivered.items ≡ rounds.old.delivered.items
        ++ map (λ j. delivered_within link.now block (drawn_round txs.now thresholds.now seeds.now j) (length txs.now))
        (range_with_len 0 count)) }
    ensures left { OnOk result ((block : List Bool) → IsBlock link.now block
        → rounds.new.left.items ≡ rounds.old.left.items
        ++ flat_map (λ j. flat_map (left_row link.now block (drawn_round txs.now thresholds.now seeds.now j))
        (range_with_len 0 (length txs.now))) (range_with_len 0 count)) }
    ensures erased { OnOk result ((block : List Bool) → IsBlock link.now block
        → rounds.new.erased.items ≡ rounds.old.erased.items
        ++ flat_map (λ j. flat_map (erased_row link.now block (drawn_round txs.now thresholds.now seeds.now j))
        (range_with_len 0 (length txs.now))) (range_with_len 0 count)) }
    ensures err { IfErr result (λ fault. fault ≡ Fault.Memory) }
{
    let mut batch = Batch::begin(alloc, link, txs.len())?;
    batch.hear_all(alloc, link, txs, thresholds, seeds, count)?;
    push_all(&batch, count, rounds)?;
    Ok(())
}
