//! Putting a receiver back to what another one has received.

ghost use Rattle.std.specs.Prelude.{◌≡◌, ℕ, ◌<◌, IfOk, IfErr, length};
ghost use Rattle.nr_blockdesk.specs.Heard.{heard_of};

use super::Receiver;
use crate::code_block::code_blocks_again;
use nr_harqbuf::Store;
use nr_peel::Recording;
use nr_transmission::DeskFault;

impl<'t, K: Recording> Receiver<'t, K> {
    /// This receiver, which has now received what another one over its link has, and nothing else. It goes on with its own
    /// stores, peelers and lists. No clause says what that costs; `over` takes their memory and sweeps the parity rows.
    ///
    /// # Errors
    ///
    /// `Memory` if memory runs out.
    pub fn restored(self, from: &Receiver<'t, K>) -> Result<Receiver<'t, K>, DeskFault>
        requires link { self.link ≡ from.now.link }
        ensures same { IfOk result (λ receiver. receiver ≡ from.now) }
        ensures err { IfErr result (λ e. e ≡ DeskFault.Memory) }
    {
        let Receiver {
            link,
            stores,
            code_blocks,
            block,
            part_masks,
            selected,
            alloc,
            ..
        } = self;
        let stores = stores_again(stores, &from.stores);
        let code_blocks = code_blocks_again(code_blocks, &from.code_blocks)?;
        Ok(Receiver {
            link,
            stores,
            code_blocks,
            block,
            // A candidate that was read is read anew at the next transmission.
            candidate_read: false,
            part_masks,
            selected,
            alloc,
        })
    }
}

// Stores in which the same was heard as in others.
fn stores_again(mut stores: Vec<Store>, from: &[Store]) -> Vec<Store>
    requires many { length stores.items ≡ length from.now }
    requires long { (r : ℕ) → r < length from.now
        → length (heard_of stores.items r).first ≡ length (heard_of from.now r).first }
    ensures { result.items ≡ from.now }
{
    for r in 0..from.len() {
        stores[r].copy_from(&from[r]);
    }
    stores
}
