//! The walk for the item that a query stands for.
ghost use Rattle.std.specs.Prelude.{◌≡◌, ◌+◌, ◌*◌, ◌<◌, ◌≤◌, length, IfNone, IfSome};
ghost use Rattle.iddqd_hash_index.specs.Groups.{hash_at, pairs_of, slot_at, ComparedAt, ComparedIn, HoldsPair, IsPlaced, LacksAt, LacksIn};
ghost use Rattle.iddqd_hash_index.specs.Lanes.{pair_in};
ghost use Rattle.iddqd_hash_index.specs.HashPairs.{AreOccupied, HoldsKey};

use super::cell::Cell;
use super::group::{Group, LANES};
use super::probe_sequence::{after, home, tag};
use iddqd_store::{Equivalent, ItemStore, KeyOf, Steps};

// The cell of a lane. The group's cells come first, since their address is then reckoned once for all lanes.
#[inline]
fn cell_at(cells: &[Cell], at: usize, lane: usize) -> &Cell
    requires within { LANES * at + LANES ≤ length cells.now }
    requires small { lane < LANES }
    ensures hash { (pair_in result.now).0 ≡ hash_at cells.now (LANES * at + lane) }
    ensures slot { (pair_in result.now).1 ≡ slot_at cells.now (LANES * at + lane) }
{
    let group = &cells[LANES * at..LANES * at + LANES];
    &group[lane]
}

// The lane in this group whose item has the query's key, and its slot. It compares keys at lanes of exactly this hash.
// A search is always inlined into the map's call: to pass what it asks for takes a fifth of its instructions.
#[inline(always)]
fn find_at<T, K: KeyOf<T>, Q: Equivalent<K::Key>>(
    groups: &[Group],
    cells: &[Cell],
    at: usize,
    store: &ItemStore<T>,
    hash: u64,
    query: &Q,
    steps: &mut Steps,
) -> Option<(usize, u32)>
    requires within { at < length groups.now }
    requires long { length cells.now ≡ LANES * length groups.now }
    requires occupied { AreOccupied store.now (pairs_of groups.now cells.now) hash }

    // what it finds
    ensures lane { IfSome result (λ f. HoldsPair groups.now cells.now hash at f.0 f.1) }
    ensures found { IfSome result (λ f. HoldsKey K.key (Q.equivalent query.now) store.now f.1) }
    ensures missed { IfNone result (LacksAt groups.now cells.now hash K.key (Q.equivalent query.now) store.now at) }

    // what it costs
    ensures compared { ComparedAt groups.now cells.now hash at steps.old steps.new }
    ensures never_resets { steps.old ≤ steps.new }
{
    let mut lanes = groups[at].matching(tag(hash, groups.len()));
    'search: while let Some(lane) = lanes.first() {
        let cell = cell_at(cells, at, lane);
        let slot = cell.slot();
        if cell.hash() == hash {
            let item = store.item(slot);
            if steps.equal(query, K::key_of(item)) {
                return Some((lane, slot));
            }
        }
        lanes = lanes.without(lane);
    }
    None
}

// The group, lane and slot of the pair whose item has the query's key. It compares keys at pairs of exactly this hash,
// and goes round once at most.
#[inline(always)]
pub(super) fn find_among<T, K: KeyOf<T>, Q: Equivalent<K::Key>>(
    groups: &[Group],
    cells: &[Cell],
    store: &ItemStore<T>,
    hash: u64,
    query: &Q,
    steps: &mut Steps,
) -> Option<(usize, usize, u32)>
    requires long { length cells.now ≡ LANES * length groups.now }
    requires placed { IsPlaced groups.now cells.now }
    requires occupied { AreOccupied store.now (pairs_of groups.now cells.now) hash }

    // what it finds
    ensures lane { IfSome result (λ f. HoldsPair groups.now cells.now hash f.0 f.1 f.2) }
    ensures found { IfSome result (λ f. HoldsKey K.key (Q.equivalent query.now) store.now f.2) }
    ensures absent { IfNone result (LacksIn groups.now cells.now hash K.key (Q.equivalent query.now) store.now) }

    // what it costs
    ensures steps { ComparedIn groups.now cells.now hash steps.old steps.new }
{
    let count = groups.len();
    if count == 0 {
        return None;
    }
    let mut at = home(hash, count);
    'walk: for step in 0..count {
        let found = find_at::<T, K, Q>(groups, cells, at, store, hash, query, steps);
        if let Some((lane, slot)) = found {
            return Some((at, lane, slot));
        }
        if groups[at].has_no_overflow() {
            return None;
        }
        at = after(at, count);
    }
    None
}
