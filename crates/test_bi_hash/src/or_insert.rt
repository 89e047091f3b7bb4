//! `or_insert` and `or_insert_with`: what an entry of no host, of one, and of two lends.
use crate::held::*;
use iddqd_bi_hash::bi_hash_map::OccupiedEntryMut;

// The hosts that are lent, before a write, and whether that is by a guard, which writes the load. It is `None` if memory
// is refused.
#[tactic(auto, using(iddqd_bi_hash::proofs::GuardLemmas::both_keys_kept))]
fn or_insert(map: &mut BiHashMap<Host>, new: Host, load: u32) -> Option<(Met, bool)>
    requires keyed { ⟦<BiHashMap<Host> as Keyed>⟧.keyed map.old }
    ensures keyed { ⟦<BiHashMap<Host> as Keyed>⟧.keyed map.new }
{
    match map.entry(&new.number, &new.address).or_insert(new) {
        Ok(lent) => match lent {
            OccupiedEntryMut::Unique(mut one) => {
                let before = *one;
                one.load = load;
                one.finish();
                Some(((Some(before), None), true))
            }
            OccupiedEntryMut::NonUnique(entry) => Some((shown(&entry.items()), false)),
        },
        Err(_refused) => None,
    }
}

// The host that a guard lends by `or_insert_with`. It counts how often that asks for the host.
#[tactic(auto, using(iddqd_bi_hash::proofs::GuardLemmas::both_keys_kept))]
fn or_insert_with(map: &mut BiHashMap<Host>, new: Host, asked: &mut u32) -> Option<Host>
    requires keyed { ⟦<BiHashMap<Host> as Keyed>⟧.keyed map.old }
    ensures keyed { ⟦<BiHashMap<Host> as Keyed>⟧.keyed map.new }
{
    let make = || {
        *asked = asked.saturating_add(1);
        new
    };
    match map.entry(&new.number, &new.address).or_insert_with(make) {
        Ok(lent) => match lent {
            OccupiedEntryMut::Unique(one) => {
                let shown = *one;
                one.finish();
                Some(shown)
            }
            OccupiedEntryMut::NonUnique(_) => None,
        },
        Err(_refused) => None,
    }
}

// A new host is inserted and lent, one of both keys is lent, and two are left as they are, or one of one key.
#[test]
fn an_entry_inserts_if_vacant(rt: HostRuntime) {
    let mut all = Hosts::below(&rt, rt.alloc(), 3);
    let (written, two) = (host_of(1, 101, 8), Some(host(2)));
    for (new, load, lent) in [
        (host(3), 7, ((Some(host(3)), None), true)),
        (host_of(1, 101, 9), 8, ((Some(host(1)), None), true)),
        (host_of(1, 102, 9), 9, ((Some(written), two), false)),
        (host_of(9, 102, 9), 9, ((two, None), false)),
    ] {
        check(&rt, or_insert(&mut all.map, new, load) == Some(lent));
    }
    let last = host_of(3, 103, 7);
    check(&rt, all.holds(&[host(0), written, host(2), last]));
}

// The closure is called once where the entry is vacant, and else not.
#[test]
fn a_host_is_made_if_vacant(rt: HostRuntime) {
    let mut all = Hosts::below(&rt, rt.alloc(), 3);
    let mut asked = 0;
    for (new, lent, count, length) in [
        (host_of(1, 101, 9), Some(host(1)), 0, 3),
        (host_of(1, 102, 9), None, 0, 3),
        (host(3), Some(host(3)), 1, 4),
    ] {
        check(&rt, or_insert_with(&mut all.map, new, &mut asked) == lent);
        check(&rt, asked == count && all.holds_below(length));
    }
}
