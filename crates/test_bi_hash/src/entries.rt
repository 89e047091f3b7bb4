//! Entries: what they find, and what they insert, replace and remove.
use crate::held::*;
use iddqd_bi_hash::bi_hash_map::Entry;

// What is done with the hosts of an entry.
#[derive(Clone, Copy)]
enum Use {
    Show,
    Remove,
    Replace,
    // Writes the load of the host that has both keys.
    Load,
}

impl Held<Host> {
    // Does this with the entry of the host's keys: the hosts that it has, and whether it is one that has both. It is
    // `None` if the entry is vacant.
    #[tactic(auto, using(iddqd_bi_hash::proofs::GuardLemmas::both_keys_kept))]
    fn entered(&mut self, what: Use, new: Host) -> Option<(Met, bool)> {
        match self.map.entry(&new.number, &new.address) {
            Entry::Vacant(_) => None,
            Entry::Occupied(mut entry) => {
                let is_unique = entry.is_unique();
                let hosts = match what {
                    Use::Remove => met(&entry.remove()),
                    Use::Replace => met(&entry.insert(new)),
                    Use::Load if is_unique => {
                        entry.get_mut().load = new.load;
                        (Some(new), None)
                    }
                    Use::Show | Use::Load => shown(&entry.items()),
                };
                Some((hosts, is_unique))
            }
        }
    }

    // Does this with the entry of each host, and looks whether it has these.
    fn enter(&mut self, rt: &impl Abort, rows: &[(Use, Host, Option<(Met, bool)>)]) {
        for (what, new, wanted) in rows {
            check(rt, self.entered(*what, *new) == *wanted);
        }
    }
}

// Inserts the host as an entry, and removes it by that again. It is `None` if it was not inserted.
fn passed_through(map: &mut BiHashMap<Host>, new: Host) -> Option<Host>
    requires keyed { ⟦<BiHashMap<Host> as Keyed>⟧.keyed map.old }
    ensures keyed { ⟦<BiHashMap<Host> as Keyed>⟧.keyed map.new }
{
    match map.entry(&new.number, &new.address) {
        Entry::Vacant(entry) => match entry.insert_entry(new) {
            Ok(added) => added.remove().get(0).copied(),
            Err(_refused) => None,
        },
        Entry::Occupied(_) => None,
    }
}

// Whether a vacant entry inserts the host.
fn is_inserted(all: Hosts, new: Host) -> bool {
    let mut map = all.map;
    let is_in = match map.entry(&new.number, &new.address) {
        Entry::Vacant(entry) => match entry.insert(new) {
            Ok(added) => {
                added.finish();
                true
            }
            Err(_refused) => false,
        },
        Entry::Occupied(_) => false,
    };
    is_in && map.len() == 1
}

#[test]
fn a_vacant_entry_inserts(rt: HostRuntime) {
    check(&rt, is_inserted(Hosts::new(rt.alloc()), host(1)));
}

// The keys of one host, of two, of one alone, and of none.
#[test]
fn entries_find_one_or_two(rt: HostRuntime) {
    let mut all = Hosts::below(&rt, rt.alloc(), 3);
    let (one, other) = (Some(host(1)), Some(host(2)));
    let rows = [
        (Use::Show, host_of(1, 101, 0), Some(((one, None), true))),
        (Use::Show, host_of(1, 102, 0), Some(((one, other), false))),
        (Use::Show, host_of(2, 101, 0), Some(((other, one), false))),
        (Use::Show, host_of(9, 102, 0), Some(((other, None), false))),
        (Use::Show, host_of(9, 109, 0), None),
    ];
    all.enter(&rt, &rows);
    check(&rt, all.holds_below(3));
    let rows = [
        (Use::Remove, host_of(2, 101, 0), Some(((other, one), false))),
        (Use::Remove, host_of(2, 101, 0), None),
    ];
    all.enter(&rt, &rows);
    check(&rt, all.holds(&[host(0)]));
}

// Both hosts of the entry are returned, and the new one is found by both keys in their place.
#[test]
fn an_entry_of_two_is_replaced(rt: HostRuntime) {
    let mut all = Hosts::below(&rt, rt.alloc(), 3);
    let new = host_of(2, 101, 9);
    let both = (Some(host(2)), Some(host(1)));
    let rows = [
        (Use::Replace, new, Some((both, false))),
        (Use::Show, new, Some(((Some(new), None), true))),
    ];
    all.enter(&rt, &rows);
    check(&rt, all.holds(&[host(0), new]));
}

// With memory at hand a vacant entry becomes the new item's, and its removal leaves the others.
#[test]
fn an_inserted_entry_has_the_item(rt: HostRuntime) {
    let mut all = Hosts::below(&rt, rt.alloc(), 2);
    for (new, back) in [(host(2), Some(host(2))), (host(1), None)] {
        check(&rt, passed_through(&mut all.map, new) == back);
    }
    check(&rt, all.holds(&[host(0), host(1)]));
}

#[test]
fn a_unique_entry_is_written(rt: HostRuntime) {
    let mut all = Hosts::below(&rt, rt.alloc(), 3);
    let (written, other) = (host_of(1, 101, 7), Some(host(2)));
    let rows = [
        (Use::Load, written, Some(((Some(written), None), true))),
        (
            Use::Load,
            host_of(1, 102, 8),
            Some(((Some(written), other), false)),
        ),
        (Use::Load, host_of(9, 102, 8), Some(((other, None), false))),
        (Use::Load, host_of(9, 109, 8), None),
    ];
    all.enter(&rt, &rows);
    check(&rt, all.holds(&[host(0), written, host(2)]));
}
