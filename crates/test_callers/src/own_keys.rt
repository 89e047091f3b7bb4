//! Changes of either map by a key of two numbers: what that key finds then, and what each other key finds.
ghost use Rattle.std.specs.Prelude.{◌≡◌, IsTrue, None, Some};
ghost use Rattle.iddqd.specs.Contents.{Ascends, find_item};
ghost use Rattle.test_callers.specs.OwnKeys.{KeepsOtherKeys, ReadsTook};

use crate::items::{At, Event};
use iddqd::id_ord_map::Entry;
use iddqd::{IdHashMap, IdOrdMap, Keyed};

#[tactic(auto, using(iddqd::proofs::ChangeLemmas::after_changes, std::proofs::lemmas::Bool::Decides::nat_tests))]
fn add(all: &mut IdOrdMap<Event>, event: Event) -> bool
    requires keyed { Ascends (λ e. e.at) ⟦<At as Ord>⟧.cmp all.old.items }
    ensures found { IsTrue result → find_item (λ e. e.at) (⟦<At as PartialEq>⟧.eq event.at) all.new.items ≡ Some event }
    ensures others { KeepsOtherKeys (λ e. e.at) ⟦<At as PartialEq>⟧.eq event.at all.old.items all.new.items }
    ensures keyed { Ascends (λ e. e.at) ⟦<At as Ord>⟧.cmp all.new.items }
{
    all.insert_unique(event).is_ok()
}

#[tactic(auto, using(iddqd::proofs::ChangeLemmas::after_changes, std::proofs::lemmas::Bool::Decides::nat_tests))]
fn remove(all: &mut IdOrdMap<Event>, at: &At) -> Option<Event>
    requires keyed { Ascends (λ e. e.at) ⟦<At as Ord>⟧.cmp all.old.items }
    ensures gone { find_item (λ e. e.at) (⟦<At as PartialEq>⟧.eq at.now) all.new.items ≡ None }
    ensures others { KeepsOtherKeys (λ e. e.at) ⟦<At as PartialEq>⟧.eq at.now all.old.items all.new.items }
    ensures keyed { Ascends (λ e. e.at) ⟦<At as Ord>⟧.cmp all.new.items }
{
    all.remove(at)
}

#[tactic(auto, using(iddqd::proofs::ChangeLemmas::after_changes, std::proofs::lemmas::Bool::Decides::nat_tests))]
fn set_took(all: &mut IdOrdMap<Event>, at: &At, took: u32)
    requires keyed { Ascends (λ e. e.at) ⟦<At as Ord>⟧.cmp all.old.items }
    ensures others { KeepsOtherKeys (λ e. e.at) ⟦<At as PartialEq>⟧.eq at.now all.old.items all.new.items }
    ensures keyed { Ascends (λ e. e.at) ⟦<At as Ord>⟧.cmp all.new.items }
{
    if let Some(mut event) = all.get_mut(at) {
        event.took = took;
        event.finish();
    }
}

#[tactic(auto, using(iddqd::proofs::ChangeLemmas::after_changes, std::proofs::lemmas::Bool::Decides::nat_tests))]
fn set_took_by_entry(all: &mut IdOrdMap<Event>, at: &At, took: u32)
    requires keyed { Ascends (λ e. e.at) ⟦<At as Ord>⟧.cmp all.old.items }
    ensures read { ReadsTook ⟦<At as PartialEq>⟧.eq at.now took all.old.items all.new.items }
    ensures others { KeepsOtherKeys (λ e. e.at) ⟦<At as PartialEq>⟧.eq at.now all.old.items all.new.items }
    ensures keyed { Ascends (λ e. e.at) ⟦<At as Ord>⟧.cmp all.new.items }
{
    if let Entry::Occupied(mut entry) = all.entry(at) {
        entry.get_mut().took = took;
    }
}

#[tactic(auto, using(iddqd::proofs::ChangeLemmas::after_changes, std::proofs::lemmas::Bool::Decides::nat_tests))]
fn add_hashed(all: &mut IdHashMap<Event>, event: Event) -> bool
    requires keyed { ⟦<IdHashMap<Event> as Keyed>⟧.keyed all.old }
    ensures found { IsTrue result → find_item (λ e. e.at) (⟦<At as PartialEq>⟧.eq event.at) all.new.items ≡ Some event }
    ensures others { KeepsOtherKeys (λ e. e.at) ⟦<At as PartialEq>⟧.eq event.at all.old.items all.new.items }
    ensures keyed { ⟦<IdHashMap<Event> as Keyed>⟧.keyed all.new }
{
    all.insert_unique(event).is_ok()
}

#[tactic(auto, using(iddqd::proofs::ChangeLemmas::after_changes, std::proofs::lemmas::Bool::Decides::nat_tests))]
fn set_took_hashed(all: &mut IdHashMap<Event>, at: &At, took: u32)
    requires keyed { ⟦<IdHashMap<Event> as Keyed>⟧.keyed all.old }
    ensures read { ReadsTook ⟦<At as PartialEq>⟧.eq at.now took all.old.items all.new.items }
    ensures others { KeepsOtherKeys (λ e. e.at) ⟦<At as PartialEq>⟧.eq at.now all.old.items all.new.items }
    ensures keyed { ⟦<IdHashMap<Event> as Keyed>⟧.keyed all.new }
{
    if let Some(mut event) = all.get_mut(at) {
        event.took = took;
        event.finish();
    }
}
