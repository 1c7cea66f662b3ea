//! The circular buffer of a code block.

ghost use Rattle.std.specs.Prelude.{◌≡◌, ℕ, ◌+◌, ◌-◌, ◌*◌, ◌<◌, ◌≤◌};
ghost use Rattle.nr_graphpick.specs.Graph.{cols_of, info_cols_of};
ghost use Rattle.nr_segment.specs.CodeBlock.{numbers};
ghost use Rattle.nr_ratematch.specs.inside.Places.{GivesPlaces};
ghost use Rattle.nr_ratematch.specs.Selection.{buffer_by, buffer_said, live, start_columns, start_of, place_of, IsSent};
ghost use Rattle.std.specs.Prelude.{length};

use crate::cycle::BufferCycle;
use crate::fault::RmFault;
use nr_graphpick::Graph;
use nr_segment::Plan;
use std::marker::Model;

/// The circular buffer of the code blocks of a plan (TS 38.212, 5.4.2.1): all N bits of a codeword after the punctured
/// ones, or only the first Nref of them. Contracts see it as the numbers that selection depends on, Ncb among them.
#[derive(Clone, Copy, Debug, PartialEq, Eq)]
pub struct Buffer {
    graph: Graph,
    z: u32,
    kdash: u32,
    k: u32,
    ncb: u32,
}

impl Model for Buffer {
    ghost use Rattle.nr_ratematch.specs.Selection.{Circular, IsCircular};

    ghost Value = { Circular };

    ghost view = { λ b. record {
      graph = b.graph;
      z = b.z;
      kdash = b.kdash;
      k = b.k;
      ncb = b.ncb;
    } };

    ghost inverse = { λ b. record {
      graph = b.graph;
      z = b.z;
      kdash = b.kdash;
      k = b.k;
      ncb = b.ncb;
    } };

    ghost invariant = { λ b. IsCircular
        (record { graph = b.graph; z = b.z; kdash = b.kdash; k = b.k; ncb = b.ncb }) };
}

// The numerators of Table 5.4.2.1-2, by redundancy version.
fn start_columns_of(graph: Graph) -> [u32; 4]
    ensures { result ≡ start_columns graph }
{
    match graph {
        Graph::One => [0, 17, 33, 56],
        Graph::Two => [0, 13, 25, 43],
    }
}

impl Buffer {
    /// Returns the buffer of each code block of a plan. If `lbrm` gives TBS_LBRM in bits, the buffer is limited to the
    /// first Nref = 3 TBS_LBRM / (2 C) bits, rounded down (TS 38.212, 5.4.2.1, with R_LBRM = 2/3). Allocates nothing.
    ///
    /// # Errors
    ///
    /// `NoBuffer` if Nref is 0.
    pub fn new(plan: &Plan, lbrm: Option<u32>) -> Result<Buffer, RmFault>
        ensures { result ≡ buffer_said plan.now.graph (numbers plan.now) lbrm }
    {
        let mut ncb = plan.n;
        if let Some(tbs) = lbrm {
            let reference = 3 * u64::from(tbs) / (2 * u64::from(plan.c));
            if reference == 0 {
                return Err(RmFault::NoBuffer);
            }
            ncb = reference.min(u64::from(ncb)) as u32;
        }
        Ok(Buffer {
            graph: plan.graph,
            z: plan.z,
            kdash: plan.kdash,
            k: plan.k,
            ncb,
        })
    }

    /// Returns the buffer of a code block given by its own numbers: the lifting size `z`, the number of its fillers,
    /// and Ncb (TS 38.212, 5.3.2 and 5.4.2.1). Allocates nothing.
    ///
    /// # Errors
    ///
    /// `NoBuffer` if `ncb` is not within 1 to N.
    pub fn by_numbers(graph: Graph, z: u32, fillers: u32, ncb: u32) -> Result<Buffer, RmFault>
        requires some { 0 < z }
        requires lifted { z ≤ 384 }
        requires unpunctured { fillers < (info_cols_of graph - 2) * z }
        ensures { result ≡ buffer_by graph z fillers ncb }
    {
        if !(1..=(graph.cols() - 2) * z).contains(&ncb) {
            return Err(RmFault::NoBuffer);
        }
        let k = graph.info_cols() * z;
        Ok(Buffer {
            graph,
            z,
            kdash: k - fillers,
            k,
            ncb,
        })
    }

    /// Returns Ncb, the number of bits of a code block that the buffer keeps: 1 to N, at most 25,344.
    pub fn ncb(&self) -> u32
        ensures { result ≡ self.now.ncb }
    {
        let Buffer { ncb, .. } = self;
        *ncb
    }

    /// Returns k0, the index in the buffer at which the redundancy version `rv` begins, below Ncb (TS 38.212, Table
    /// 5.4.2.1-2).
    #[tactic(auto, unfolding(crate::specs::Selection::start_of))]
    pub fn start(&self, rv: u32) -> u32
        requires { rv < 4 }
        ensures value { result ≡ start_of self.now rv }
        ensures inside { result < self.now.ncb }
    {
        let column = start_columns_of(self.graph)[rv as usize];
        column * self.ncb / ((self.graph.cols() - 2) * self.z) * self.z
    }

    /// Returns the codeword index of bit `k` of those that the redundancy version `rv` selects (TS 38.212, 5.4.2.1).
    /// Selection goes round the buffer from its start, again and again, and skips the fillers. Allocates nothing.
    pub fn place(&self, rv: u32, k: u32) -> u32
        requires { rv < 4 }
        ensures value { result ≡ place_of self.now rv k }
        ensures sent { IsSent self.now result }
    {
        self.cycle(rv).place(k)
    }

    /// Returns a run of the bits that the redundancy version `rv` selects from bit `k` on: the codeword index of bit
    /// `k`, and how many bits have that index and the ones after it in a row, from 1 to `most`. A run may end before
    /// the fillers, at the end of the buffer, or where the start comes again (TS 38.212, 5.4.2.1). Allocates nothing.
    pub fn run(&self, rv: u32, k: u32, most: u32) -> (u32, u32)
        requires version { rv < 4 }
        requires most { 0 < most }
        ensures some { 0 < result.1 }
        ensures most { result.1 ≤ most }
        ensures inside { result.0 + result.1 ≤ cols_of self.now.graph * self.now.z }
        ensures places { (j : ℕ) → j < result.1
            → place_of self.now rv (k + j) ≡ result.0 + j }
    {
        let cycle = self.cycle(rv);
        let at = (cycle.first + k % cycle.count) % cycle.count;
        let (position, run) = cycle.run(at);
        (position, run.min(most))
    }

    /// Returns how many bits the redundancy version `rv` selects before it comes back to the first of them, which is
    /// the number of bits in the buffer that are not fillers (TS 38.212, 5.4.2.1). Allocates nothing.
    pub fn turn(&self, rv: u32) -> u32
        requires { rv < 4 }
        ensures value { result ≡ length (live self.now rv) }
        ensures some { 0 < result }
        ensures again { (k : ℕ) → place_of self.now rv (k + result) ≡ place_of self.now rv k }
    {
        self.cycle(rv).count
    }

    // The places of the buffer once round, as a redundancy version takes them.
    pub(crate) fn cycle(&self, rv: u32) -> BufferCycle
        requires { rv < 4 }
        ensures places { GivesPlaces result self.now rv }
        ensures count { result.count ≡ length (live self.now rv) }
        ensures sent { (k : ℕ) → IsSent self.now (place_of self.now rv k) }
    {
        let start = self.start(rv);
        let punctured = 2 * self.z;
        let front = (self.kdash - punctured).min(self.ncb);
        let end = (self.k - punctured).min(self.ncb);
        BufferCycle {
            front,
            skip: end - front,
            count: self.ncb - (end - front),
            first: start.min(front) + start.saturating_sub(end),
            punctured,
        }
    }
}
