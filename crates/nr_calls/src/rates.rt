//! How the bits of a transmission are shared out to the code blocks, and the circular buffer that they are selected from.

ghost use Rattle.std.specs.Prelude.{◌≡◌, length, IfOk, MatchResult, Ok, Err};
ghost use Rattle.nr_calls.specs.{Crossing.settings_in, Crossing.tx_of, Statuses.HasValue, Statuses.Returns, Statuses.no_memory};
ghost use Rattle.nr_calls.specs.Rates.{nr_buffer_said, shares_into_said, shares_said};

use crate::crossing::{NrSettings, NrTx};
use crate::fault::Fault;
use crate::plan::plan_on;
use arrayvec::ArrayVec;
use nr_blockdesk::{DeskFault, Settings, Tx};
use nr_ratematch::{Buffer, MOST_BLOCKS, lengths};

/// The circular buffer of a code block, and where a redundancy version begins in it.
#[repr(C)]
#[derive(Clone, Copy)]
pub struct NrBuffer {
    /// Ncb, the number of bits of a code block that the buffer keeps: 1 to N, at most 25,344.
    pub ncb: u32,
    /// k0, the index in the buffer at which the redundancy version begins, below Ncb.
    pub k0: u32,
    /// Reserved for later fields; it is written as 0.
    pub reserved: [u32; 2],
}

/// Writes E_r, the number of bits that a transmission sends of each code block (TS 38.212, 5.4.2.1). `nr_c` exports
/// this call and says what each status means.
pub fn nr_lengths(rate2048: u32, a: u32, tx: &NrTx, out: &mut [u32]) -> u32
    ensures { Returns no_memory result out.old out.new HasValue
        (shares_into_said rate2048 a (tx_of tx.now) (length out.old)) }
{
    match shares_into(rate2048, a, &tx.tx(), out.len()) {
        Ok(shares) => {
            out.copy_from_slice(&shares);
            0
        }
        Err(fault) => fault.status(),
    }
}

// E_r of each code block, for a room of so many.
fn shares_into(
    rate2048: u32,
    a: u32,
    tx: &Tx,
    room: usize,
) -> Result<ArrayVec<u32, MOST_BLOCKS>, Fault>
    ensures said { MatchResult result
        (λ shares. shares_into_said rate2048 a tx.now room ≡ Ok shares.items)
        (λ fault. shares_into_said rate2048 a tx.now room ≡ Err fault) }
    ensures room { IfOk result (λ shares. length shares.items ≡ room) }
{
    let shares = shares(rate2048, a, tx)?;
    if shares.len() != room {
        return Err(Fault::Room);
    }
    Ok(shares)
}

// E_r of each code block, or the first cause against the transmission.
#[tactic(auto, unfolding(crate::specs::Rates::shares_said))]
fn shares(rate2048: u32, a: u32, tx: &Tx) -> Result<ArrayVec<u32, MOST_BLOCKS>, Fault>
    ensures { MatchResult result
        (λ shares. shares_said rate2048 a tx.now ≡ Ok shares.items)
        (λ fault. shares_said rate2048 a tx.now ≡ Err fault) }
{
    let plan = plan_on(rate2048, a)?;
    if tx.rv > 3 {
        return Err(Fault::Desk(DeskFault::Rv));
    }
    match lengths(&plan, tx.g, tx.qm, tx.nl, tx.mask) {
        Ok(shares) => Ok(shares),
        Err(fault) => Err(Fault::Desk(DeskFault::Rm(fault))),
    }
}

/// Writes the length of the circular buffer of each code block, and where a redundancy version begins (TS 38.212,
/// 5.4.2.1). `nr_c` exports this call and says what each status means.
pub fn nr_buffer(settings: &NrSettings, a: u32, rv: u32, out: &mut NrBuffer) -> u32
    ensures { Returns no_memory result out.old out.new HasValue
        (nr_buffer_said (settings_in settings.now) a rv) }
{
    match buffer_on(settings.settings(), a, rv) {
        Ok(buffer) => {
            *out = buffer;
            0
        }
        Err(fault) => fault.status(),
    }
}

// The buffer, and where a redundancy version begins in it, or the first cause against them.
#[tactic(auto, unfolding(crate::specs::Rates::nr_buffer_said))]
fn buffer_on(settings: Settings, a: u32, rv: u32) -> Result<NrBuffer, Fault>
    ensures { result ≡ nr_buffer_said settings a rv }
{
    let plan = plan_on(settings.rate2048, a)?;
    let buffer = match Buffer::new(&plan, settings.lbrm) {
        Ok(buffer) => buffer,
        Err(fault) => return Err(Fault::Desk(DeskFault::Rm(fault))),
    };
    if rv > 3 {
        return Err(Fault::Desk(DeskFault::Rv));
    }
    Ok(NrBuffer {
        ncb: buffer.ncb(),
        k0: buffer.start(rv),
        reserved: [0; 2],
    })
}
