//! Chooses between the two LDPC base graphs and gives their sizes (3GPP TS 38.212, 5.3.2, 6.2.2 and 7.2.2). `pick`
//! returns the base graph for a transport block of a given size and code rate: by its contract, what `pick_said` of
//! specs/Graph.antt defines, or the first of two errors.
//!
//! The rate is compared in whole numbers, and nothing is allocated.
#![tactic(auto)]

ghost use Rattle.std.specs.Prelude.{◌≡◌};
ghost use Rattle.nr_graphpick.specs.Graph.{rows_of, cols_of, info_cols_of, pick_said};

use std::fmt;
use thiserror::Error;

// The largest transport block that is handled, in bits.
const MOST_BITS: u32 = 1_310_720;

// The largest code rate, in 2048ths: 1.
const FULL_RATE: u32 = 2048;

/// An LDPC base graph (TS 38.212, 5.3.2), which prints as its number, `1` or `2`.
#[derive(Clone, Copy, Debug, PartialEq, Eq)]
pub enum Graph {
    /// LDPC base graph 1, for long transport blocks at high code rates.
    One,
    /// LDPC base graph 2, for short transport blocks and for low code rates.
    Two,
}

impl Graph {
    /// Returns the number of rows of Zc by Zc blocks in the parity-check matrix: 46 or 42 (TS 38.212, 5.3.2).
    pub fn rows(self) -> u32
        ensures { result ≡ rows_of self }
    {
        match self {
            Graph::One => 46,
            Graph::Two => 42,
        }
    }

    /// Returns the number of columns of Zc by Zc blocks in the parity-check matrix: 68 or 52 (TS 38.212, 5.3.2).
    pub fn cols(self) -> u32
        ensures { result ≡ cols_of self }
    {
        match self {
            Graph::One => 68,
            Graph::Two => 52,
        }
    }

    /// Returns how many of the columns, counted from the first, carry information bits: 22 or 10 (TS 38.212, 5.2.2).
    pub fn info_cols(self) -> u32
        ensures { result ≡ info_cols_of self }
    {
        match self {
            Graph::One => 22,
            Graph::Two => 10,
        }
    }
}

impl fmt::Display for Graph {
    ghost use Rattle.std.specs.Prelude.{Some};
    ghost use Rattle.nr_graphpick.specs.Graph.{digits_of};

    ghost output = { λ graph. Some (digits_of graph) };

    fn fmt<W: fmt::Write>(&self, f: &mut fmt::Formatter<W>) -> fmt::Result {
        match self {
            Graph::One => f.write_str("1"),
            Graph::Two => f.write_str("2"),
        }
    }
}

/// Why no base graph can be chosen.
#[derive(Clone, Copy, Debug, PartialEq, Eq, Error)]
pub enum PickFault {
    /// The code rate is not within 1..=2048 2048ths.
    #[error("RateRange")]
    RateRange,
    /// The size of the transport block is not within 1..=1,310,720 bits.
    #[error("SizeRange")]
    SizeRange,
}

/// Returns the base graph for a transport block of `a` bits at the code rate `rate2048` / 2048 (TS 38.212, 6.2.2 and
/// 7.2.2).
///
/// Base graph 2 is used if `a` is at most 292, if `a` is at most 3824 and the rate is at most 0.67, or if the rate is
/// at most 0.25; otherwise base graph 1 is used. The rate is compared in whole numbers, as `100 * rate2048 <= 137216`
/// and `4 * rate2048 <= 2048`.
///
/// # Errors
///
/// In this order:
///
/// 1. `RateRange` if `rate2048` is not within 1..=2048
/// 2. `SizeRange` if `a` is not within 1..=1,310,720
pub fn pick(a: u32, rate2048: u32) -> Result<Graph, PickFault>
    ensures { result ≡ pick_said a rate2048 }
{
    if !(1..=FULL_RATE).contains(&rate2048) {
        return Err(PickFault::RateRange);
    }
    if !(1..=MOST_BITS).contains(&a) {
        return Err(PickFault::SizeRange);
    }
    if a <= 292 || (a <= 3824 && 100 * rate2048 <= 137_216) || 4 * rate2048 <= 2048 {
        Ok(Graph::Two)
    } else {
        Ok(Graph::One)
    }
}
