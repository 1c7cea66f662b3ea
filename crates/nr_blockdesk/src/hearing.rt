//! Receiving one transmission. What it gives a code block is put together in two masks first. Then the store and the peeler
//! take them at once.

ghost use Rattle.std.specs.Prelude.{◌≡◌, ◌≢◌, ℕ, ◌^◌, ◌<◌, ◌≤◌};
ghost use Rattle.std.specs.Prelude.{false, length, slice_index, slice_index_or, List};
ghost use Rattle.nr_bitvec.specs.{Bit.bit, Marks.marks_in};
ghost use Rattle.nr_harqbuf.specs.{Marks.AreMarks, Marks.merge_of, Record.Hearing, Record.HeardBits};
ghost use Rattle.nr_peel.specs.Peeling.{checks_for};
ghost use Rattle.nr_blockdesk.specs.{Heard.heard_of, Link.Link, Marks.heards, inside.PartMasks.AreEmpty};
ghost use Rattle.nr_blockdesk.specs.inside.Words.{HasRoomFor, heards_of, positions_on};
ghost use Rattle.nr_blockdesk.specs.inside.Receiving.{HasNews, HearsPart, IsNews, IsTied, StoresAll, StoresPart, piece};
ghost use Rattle.nr_blockdesk.specs.declared.code_block.CodeBlock.{CodeBlock};

use crate::arrival::Arrival;
use crate::code_block::CodeBlock;
use crate::gather_part::{gather_part, gather_told};
use crate::laws;
use crate::part::Part;
use crate::part_masks::{has_no_mark, settle};
use crate::place_cursors::PlaceCursors;
use crate::selected::Selected;
use nr_bitvec::Marks;
use nr_harqbuf::Store;
use nr_peel::{Peeler, Recording};

// Learning one place by itself takes as long as going over so many positions by words.
const POSITIONS_PER_PLACE: usize = 128;

// Receives one code block's part of a transmission into its store: only the first bit of a position is kept. The masks then
// have what is received for the first time. Returns whether there is something.
fn store_part(
    part: &Part<'_, '_>,
    store: &mut Store,
    part_masks: &mut Marks,
    selected: &mut Selected,
) -> bool
    requires long { length store.old.first ≡ positions_on part.now.arrival.now.buffer.now }
    requires empty { AreEmpty (positions_on part.now.arrival.now.buffer.now) part_masks.old }
    requires room { HasRoomFor part.now.count selected.old }
    ensures stored { StoresPart part.now.arrival.now.buffer.now part.now.arrival.now.tx.now (heards_of part.now)
        store.old store.new }
    ensures news { HasNews (positions_on part.now.arrival.now.buffer.now) store.old store.new part_masks.new }
    ensures none { result ≡ false → (p : ℕ) → bit part_masks.new.heard.items p ≡ false }
    ensures room { (n : ℕ) → HasRoomFor n selected.old → HasRoomFor n selected.new }
{
    let Arrival { buffer, tx, .. } = part.arrival;
    if (part.count as usize) < part_masks.heard.len() / POSITIONS_PER_PLACE {
        return store_by_places(part, store, part_masks);
    }
    selected.load(part);
    if gather_part(buffer, tx.rv, selected, part_masks) {
        absorb(part_masks, store)
    } else {
        store_firsts(part, store, part_masks, selected)
    }
}

// Receives a part that tells a position both bits, as `store_part` does: only the places of such positions are looked at one by
// one. The store has a clash after it has received both bits of one of them again.
fn store_firsts(
    part: &Part<'_, '_>,
    store: &mut Store,
    part_masks: &mut Marks,
    selected: &mut Selected,
) -> bool
    requires long { length store.old.first ≡ positions_on part.now.arrival.now.buffer.now }
    requires empty { AreEmpty (positions_on part.now.arrival.now.buffer.now) part_masks.old }
    requires room { HasRoomFor part.now.count selected.old }
    ensures stored { StoresPart part.now.arrival.now.buffer.now part.now.arrival.now.tx.now (heards_of part.now)
        store.old store.new }
    ensures news { HasNews (positions_on part.now.arrival.now.buffer.now) store.old store.new part_masks.new }
    ensures none { result ≡ false → (p : ℕ) → bit part_masks.new.heard.items p ≡ false }
    ensures room { (n : ℕ) → HasRoomFor n selected.old → HasRoomFor n selected.new }
{
    let Arrival { buffer, tx, .. } = part.arrival;
    selected.load(part);
    gather_told(buffer, tx.rv, selected, part_masks);
    let both = settle(part, part_masks);
    // A position is told if it is told zero or one.
    part_masks.heard.union_with(&part_masks.value);
    let any = absorb(part_masks, store);
    if let Some(pos) = both {
        store.hear(pos, false);
        store.hear(pos, true);
    }
    any
}

// Takes the masks of a part into a store. Of the marks those of positions received for the first time stay. Returns whether
// there is one.
fn absorb(part_masks: &mut Marks, store: &mut Store) -> bool
    requires long { length store.old.first ≡ length part_masks.old.heard.items }
    ensures stored { (more : List Hearing)
        → AreMarks more (marks_in part_masks.old) → StoresAll more store.old store.new }
    ensures news { HasNews (length part_masks.old.heard.items) store.old store.new part_masks.new }
    ensures merged { store.new ≡ merge_of store.old (marks_in part_masks.old) }
    ensures none { result ≡ false → (p : ℕ) → bit part_masks.new.heard.items p ≡ false }
{
    laws::record_merges();
    store.hear_all(part_masks);
    !has_no_mark(part_masks)
}

// Receives a part place by place: what is received for the first time is put into the masks. Returns whether there is
// something. If not, nobody has to read the masks: a few bits of a long block leave most parts empty.
fn store_by_places(part: &Part<'_, '_>, store: &mut Store, part_masks: &mut Marks) -> bool
    requires long { length store.old.first ≡ positions_on part.now.arrival.now.buffer.now }
    requires empty { AreEmpty (positions_on part.now.arrival.now.buffer.now) part_masks.old }
    ensures stored { StoresPart part.now.arrival.now.buffer.now part.now.arrival.now.tx.now (heards_of part.now)
        store.old store.new }
    ensures news { HasNews (positions_on part.now.arrival.now.buffer.now) store.old store.new part_masks.new }
    ensures none { result ≡ false → (p : ℕ) → bit part_masks.new.heard.items p ≡ false }
{
    laws::record_continues();
    // So no position overflows.
    part_masks.heard.is_short();
    let Arrival {
        buffer,
        tx,
        marks,
        ..
    } = part.arrival;
    let mut cursors = PlaceCursors::new(tx.qm, part.count);
    let mut any = false;
    for m in 0..part.count {
        let pos = cursors.next(buffer, tx.rv, tx.qm);
        let at = (part.from + m) as usize;
        if marks.heard.get(at) {
            let bit = marks.value.get(at);
            if store.heard(pos).is_none() {
                part_masks.heard.set(pos as usize, true);
                part_masks.value.set(pos as usize, bit);
                any = true;
            }
            store.hear(pos, bit);
        }
    }
    any
}

// Learns the positions of the masks, which are empty then.
fn learn_masks<K: Recording>(part_masks: &mut Marks, peeler: &mut Peeler<'_, K>)
    requires heard { length part_masks.old.heard.items ≡ (checks_for peeler.old).size }
    ensures tied { (link : Link) (s t : HeardBits)
        → IsNews s t part_masks.old.heard.items part_masks.old.value.items
        → IsTied link s peeler.old → IsTied link t peeler.new }
    ensures visited { peeler.old.touches ≤ peeler.new.touches }
    ensures empty { AreEmpty (length part_masks.old.heard.items) part_masks.new }
{
    peeler.learn_all(part_masks);
    part_masks.heard.zero();
}

// Receives one code block's part of a transmission into its store. What is received for the first time is learned at once, if
// there is code block `r`.
fn hear_part<K: Recording>(
    part: &Part<'_, '_>,
    store: &mut Store,
    code_blocks: &mut [CodeBlock<'_, K>],
    r: usize,
    part_masks: &mut Marks,
    selected: &mut Selected,
)
    requires long { length store.old.first ≡ positions_on part.now.arrival.now.buffer.now }
    requires sized { (d : CodeBlock K) → r < length code_blocks.old
        → (checks_for (slice_index_or code_blocks.old r d).peeler).size ≡ positions_on part.now.arrival.now.buffer.now }
    requires empty { AreEmpty (positions_on part.now.arrival.now.buffer.now) part_masks.old }
    requires room { HasRoomFor part.now.count selected.old }
    ensures stored { StoresPart part.now.arrival.now.buffer.now part.now.arrival.now.tx.now (heards_of part.now)
        store.old store.new }
    ensures hears { (d : CodeBlock K) → r < length code_blocks.old
        → HearsPart part.now.arrival.now.buffer.now part.now.arrival.now.tx.now (heards_of part.now)
        store.old (slice_index_or code_blocks.old r d) store.new (slice_index_or code_blocks.new r d) }
    ensures others { (q : ℕ) (d : CodeBlock K) → q ≢ r
        → slice_index_or code_blocks.new q d ≡ slice_index_or code_blocks.old q d }
    ensures code_blocks { length code_blocks.new ≡ length code_blocks.old }
    ensures empty { AreEmpty (positions_on part.now.arrival.now.buffer.now) part_masks.new }
    ensures room { (n : ℕ) → HasRoomFor n selected.old → HasRoomFor n selected.new }
{
    if store_part(part, store, part_masks, selected) {
        if r < code_blocks.len() {
            let code_block = &mut code_blocks[r];
            learn_masks(part_masks, &mut code_block.peeler);
        } else {
            part_masks.heard.zero();
        }
    }
}

// Receives a transmission: each store has its part of the places. Its code block learns at once what is new. If it isn't there,
// that is left to be learned.
pub(crate) fn hear<K: Recording>(
    arrival: &Arrival<'_>,
    stores: &mut [Store],
    code_blocks: &mut [CodeBlock<'_, K>],
    part_masks: &mut Marks,
    selected: &mut Selected,
)
    requires all { length arrival.now.lengths.now ≡ length stores.old }
    requires long { (r : ℕ) → r < length stores.old
        → length (heard_of stores.old r).first ≡ positions_on arrival.now.buffer.now }
    requires sized { (r : ℕ) (d : CodeBlock K) → r < length code_blocks.old
        → (checks_for (slice_index_or code_blocks.old r d).peeler).size ≡ positions_on arrival.now.buffer.now }
    requires empty { AreEmpty (positions_on arrival.now.buffer.now) part_masks.old }
    requires room { (r : ℕ) → r < length stores.old
        → HasRoomFor (slice_index arrival.now.lengths.now r) selected.old }
    ensures stores { length stores.new ≡ length stores.old }
    ensures code_blocks { length code_blocks.new ≡ length code_blocks.old }
    ensures stored { (r : ℕ) → r < length stores.old
        → StoresPart arrival.now.buffer.now arrival.now.tx.now
        (piece arrival.now.lengths.now (heards arrival.now.marks.now.heard.items arrival.now.marks.now.value.items) r)
        (heard_of stores.old r) (heard_of stores.new r) }
    ensures parts { (r : ℕ) (d : CodeBlock K) → r < length stores.old → r < length code_blocks.old
        → HearsPart arrival.now.buffer.now arrival.now.tx.now
        (piece arrival.now.lengths.now (heards arrival.now.marks.now.heard.items arrival.now.marks.now.value.items) r)
        (heard_of stores.old r) (slice_index_or code_blocks.old r d)
        (heard_of stores.new r) (slice_index_or code_blocks.new r d) }
    ensures empty { AreEmpty (positions_on arrival.now.buffer.now) part_masks.new }
{
    let mut from = 0;
    for r in 0..arrival.lengths.len() {
        let count = arrival.lengths[r];
        let part = Part {
            arrival,
            from,
            count,
        };
        hear_part(&part, &mut stores[r], code_blocks, r, part_masks, selected);
        from += count;
    }
}
