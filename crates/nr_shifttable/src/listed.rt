//! Checks the places of entries that a caller stores.

ghost use Rattle.std.specs.Prelude.{◌≡◌, ◌-◌, ◌^◌, ◌<◌, ◌≤◌, All, IfSome, None, Ok, OnOk, Some, drop};
ghost use Rattle.std.specs.Prelude.{if◌then◌else◌, length, map, take};
ghost use Rattle.nr_graphpick.specs.declared.Graph.TheVariants.{One, Two};
ghost use Rattle.nr_shifttable.specs.{Accepted.entries_for, inside.Orders.IsInside};
ghost use Rattle.nr_shifttable.specs.Listed.{is_of_graph, is_placed, item_in_graph, item_key, item_kept, places_from, places_said};

use crate::entry::{Entry, KeptEntry};
use crate::fault::EntriesFault;
use crate::items::place_key;
use crate::laws;
use nr_graphpick::Graph;

/// Checks entry by entry that each lies within its base graph and comes after the one before it.
///
/// # Errors
///
/// For the first entry that has an error, `Range` or `Order`, in this order, with its number counted from 1.
#[tactic(auto, unfolding(crate::specs::Listed::places_from))]
pub(crate) fn judge_places(entries: &[KeptEntry]) -> Result<(), EntriesFault>
    ensures said { result ≡ places_said entries.now }
    ensures inside { OnOk result (All (λ e. IsInside (item_kept e)) entries.now) }
{
    let mut number = 0;
    let mut past = 0;
    for entry in entries {
        number += 1;
        let Some(key) = key_within(entry) else {
            return Err(EntriesFault::Range(number));
        };
        if key < past {
            return Err(EntriesFault::Order(number));
        }
        past = key + 1;
    }
    Ok(())
}

// The key of an entry's place, if its base graph is 1 or 2 and has its row and its column.
fn key_within(kept: &KeptEntry) -> Option<u32>
    ensures key { result
        ≡ (if is_placed kept.now then Some (item_key (item_kept kept.now)) else None) }
    ensures inside { IfSome result (λ key. IsInside (item_kept kept.now)) }
    ensures few { IfSome result (λ key. key < 2 ^ 24) }
{
    match kept.graph {
        1 => key_in(Graph::One, &kept.entry),
        2 => key_in(Graph::Two, &kept.entry),
        _ => None,
    }
}

// The key of an entry's place in a base graph, if that has its row and its column.
fn key_in(graph: Graph, entry: &Entry) -> Option<u32>
    ensures key { let item = item_in_graph graph entry.now in result
        ≡ (if is_of_graph item then Some (item_key item) else None) }
    ensures inside { IfSome result (λ key. IsInside (item_in_graph graph entry.now)) }
    ensures few { IfSome result (λ key. key < 2 ^ 24) }
{
    laws::values_fit(entry.values);
    if u32::from(entry.row) < graph.rows() && u32::from(entry.col) < graph.cols() {
        Some(place_key(graph, entry.row, entry.col))
    } else {
        None
    }
}

/// Returns how many of the entries belong to base graph 1. Since the entries ascend, they are the first ones.
pub(crate) fn ones_in(entries: &[KeptEntry]) -> usize
    requires { places_said entries.now ≡ Ok tt }
    ensures bound { result ≤ length entries.now }
    ensures ones { map (λ e. e.entry) (take result entries.now)
        ≡ entries_for One (map item_kept entries.now) }
    ensures twos { map (λ e. e.entry) (take (length entries.now - result) (drop result entries.now))
        ≡ entries_for Two (map item_kept entries.now) }
{
    entries.partition_point(|entry| entry.graph == 1)
}
