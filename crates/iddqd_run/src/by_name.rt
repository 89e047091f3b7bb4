//! A map of entries that is asked by texts.
ghost use Rattle.std.specs.Prelude.{◌≡◌, ℕ, ◌+◌, ◌*◌, ◌≤◌, Bool, List, length, drop, IfErr, IfNone, IfOk, None, OnErr, OnOk, option_copied, slice_get, bytes_eq, string_bytes};
ghost use Rattle.std.specs.Hash as fed;
ghost use Rattle.iddqd.specs.Digits.{digits};
ghost use Rattle.iddqd.specs.IdHashMap.{of_stored_hash};
ghost use Rattle.iddqd.specs.Hashing.{hash_under};
ghost use Rattle.iddqd.specs.Visiting.{VisitsKeepKeys};
ghost use Rattle.idtable_commands.specs.KeyedMap.{RemovesFrom, VisitsIn};
ghost use Rattle.iddqd_run.specs.Answer.{last_of, without_last};
ghost use Rattle.iddqd_run.specs.Named.{Stays, named_in};
ghost use Rattle.iddqd_run.specs.Shown.{AppendsList, HasEnds, KeepsOnly, ListsItems, RefusesList, all_lent};
ghost use Rattle.idtable_lines.specs.declared.arguments.Kind.{Kind};
ghost use Rattle.iddqd_run.specs.declared.entries.Entry.{Entry};
ghost use Rattle.idtable_lines.specs.declared.arguments.Kind.TheVariants.{Hash, Ord};

mod sorted;

use crate::entries::{Entry, begin_list, write_entry};
use iddqd::{DefaultHashBuilder, IdHashMap, IdOrdMap, Steps, Text, Visit};
use idtable_commands::KeyedMap;
use sorted::by_name;
use std::alloc::{AllocError, Global};
use std::hash::{BuildHasher, FoldHasher, Hasher};

/// What tells of each item whether it is to stay.
pub(crate) trait Keeps<T> {
    // What `keeps` returns.
    ghost keeps: { Self → T → Bool };

    /// Whether the item is to stay.
    fn keeps(&self, item: &T) -> bool
        ensures { result ≡ keeps self.now item.now };
}

/// A map that keeps no order has no ends.
#[derive(Clone, Copy)]
pub(crate) struct NoEnds;

/// Why a list was not written.
#[derive(Clone, Copy)]
pub(crate) enum ListStop {
    /// Memory to put the entries in order was refused, and nothing was written.
    Entries,
    /// Memory for the text was refused.
    Text,
}

/// A map that is asked by texts too, as lines ask it. Its other calls are those of its `KeyedMap`.
pub(crate) trait ByName: KeyedMap {
    // Which of the two maps it is.
    ghost kind: { Kind };

    // What it holds.
    ghost entries: { Self → List Entry };

    // Whether a key is this text.
    ghost is_text: { List ℕ → Self.Key → Bool };

    // The most comparisons that a lookup by a text makes.
    ghost most_steps: { Self → List ℕ → ℕ };

    /// Returns the item of the name, or `None`. Does not allocate.
    fn find(&self, name: &str) -> Option<&Self::Item>
        requires keyed { Self.keyed self.now }
        ensures { option_copied result ≡ named_in Self.KeyedMap (is_text name.now) self.now };

    /// As `find`, with the comparisons counted.
    fn find_counted(&self, name: &str, steps: &mut Steps) -> Option<&Self::Item>
        requires keyed { Self.keyed self.now }
        ensures found { option_copied result ≡ named_in Self.KeyedMap (is_text name.now) self.now }
        ensures steps { steps.new ≤ steps.old + most_steps self.now name.now };

    /// Visits the item of the name by a guard, and returns what the visit did, or `None` if there is none.
    fn visit_found<V: Visit<Self::Item>>(&mut self, name: &str, visitor: &mut V) -> Option<bool>
        requires keyed { Self.keyed self.old }
        requires keeps_keys { VisitsKeepKeys Self.key Self.Key.eq V.visits }

        // if it is found
        ensures visited { VisitsIn Self.state Self.key V.visits (is_text name.now) visitor.old visitor.new self.old self.new result }

        // if it is absent
        ensures absent { IfNone result (named_in Self.KeyedMap (is_text name.now) self.old ≡ None) }
        ensures unchanged { IfNone result (self.new ≡ self.old) }

        // either way
        ensures stays { Stays Self.KeyedMap self.old self.new };

    /// Keeps the items that are to stay.
    fn keep<K: Keeps<Self::Item>>(&mut self, which: &K)
    where
        Self::Item: Drop,
        requires keyed { Self.keyed self.old }
        ensures items { KeepsOnly Self.state (K.keeps which.now) self.old self.new }
        ensures stays { Stays Self.KeyedMap self.old self.new };

    /// Removes the item of the name and returns it, or returns `None` if there is none. Does not allocate.
    fn take_out(&mut self, name: &str) -> Option<Self::Item>
        requires keyed { Self.keyed self.old }
        ensures value { result ≡ named_in Self.KeyedMap (is_text name.now) self.old }
        ensures items { RemovesFrom Self.state Self.key (is_text name.now) self.old self.new }
        ensures stays { Stays Self.KeyedMap self.old self.new };

    /// The entry of the least name, or `None`.
    fn least(&self) -> Result<Option<&Entry>, NoEnds>
        requires keyed { Self.keyed self.now }
        ensures found { IfOk result (λ e. option_copied e ≡ slice_get (entries self.now) 0) }
        ensures ordered { OnOk result (HasEnds kind (entries self.now)) }
        ensures endless { OnErr result (kind ≡ Hash) };

    /// The entry of the greatest name, or `None`.
    fn greatest(&self) -> Result<Option<&Entry>, NoEnds>
        requires keyed { Self.keyed self.now }
        ensures found { IfOk result (λ e. option_copied e ≡ last_of (entries self.now)) }
        ensures ordered { OnOk result (HasEnds kind (entries self.now)) }
        ensures endless { OnErr result (kind ≡ Hash) };

    /// Removes the entry of the least name and returns it, or returns `None` if there is none. Does not allocate.
    fn take_least(&mut self) -> Result<Option<Entry>, NoEnds>
        requires keyed { Self.keyed self.old }

        // in an ordered map
        ensures taken { IfOk result (λ taken. taken ≡ slice_get (entries self.old) 0) }
        ensures left { OnOk result (entries self.new ≡ drop 1 (entries self.old)) }
        ensures ordered { OnOk result (HasEnds kind (entries self.old)) }
        ensures stays { OnOk result (Stays Self.KeyedMap self.old self.new) }

        // in a hash map
        ensures endless { OnErr result (kind ≡ Hash) }
        ensures unchanged { OnErr result (self.new ≡ self.old) };

    /// Removes the entry of the greatest name and returns it, or returns `None` if there is none. Does not
    /// allocate.
    fn take_greatest(&mut self) -> Result<Option<Entry>, NoEnds>
        requires keyed { Self.keyed self.old }

        // in an ordered map
        ensures taken { IfOk result (λ taken. taken ≡ last_of (entries self.old)) }
        ensures left { OnOk result (entries self.new ≡ without_last (entries self.old)) }
        ensures ordered { OnOk result (HasEnds kind (entries self.old)) }
        ensures stays { OnOk result (Stays Self.KeyedMap self.old self.new) }

        // in a hash map
        ensures endless { OnErr result (kind ≡ Hash) }
        ensures unchanged { OnErr result (self.new ≡ self.old) };

    /// Writes the number of entries, and each of them, by ascending name. A map that keeps no order allocates to
    /// sort them; beside the text no other memory is needed.
    fn write_list(&self, alloc: Global, text: &mut String) -> Result<(), ListStop>
        requires keyed { Self.keyed self.now }
        ensures listed { OnOk result (ListsItems (entries self.now) text.old text.new) }
        ensures refused { IfErr result (RefusesList kind text.old text.new) };
}

impl ByName for IdOrdMap<Entry> {
    ghost kind = { Ord };

    ghost entries = { λ m. m.items };

    ghost is_text = { λ name key. bytes_eq name (string_bytes key) };

    ghost most_steps = { λ map _. 4 + 2 * digits (length map.items) };

    fn find(&self, name: &str) -> Option<&Entry> {
        self.get(&Text(name))
    }

    fn find_counted(&self, name: &str, steps: &mut Steps) -> Option<&Entry> {
        self.get_counted(&Text(name), steps)
    }

    fn visit_found<V: Visit<Entry>>(&mut self, name: &str, visitor: &mut V) -> Option<bool> {
        let mut found = self.get_mut(&Text(name))?;
        let answer = visitor.visit(&mut found);
        found.finish();
        Some(answer)
    }

    fn keep<K: Keeps<Entry>>(&mut self, which: &K) {
        self.retain(|entry| which.keeps(entry));
    }

    fn take_out(&mut self, name: &str) -> Option<Entry> {
        self.remove(&Text(name))
    }

    fn least(&self) -> Result<Option<&Entry>, NoEnds> {
        Ok(self.first())
    }

    fn greatest(&self) -> Result<Option<&Entry>, NoEnds> {
        Ok(self.last())
    }

    fn take_least(&mut self) -> Result<Option<Entry>, NoEnds> {
        Ok(self.pop_first())
    }

    fn take_greatest(&mut self) -> Result<Option<Entry>, NoEnds> {
        Ok(self.pop_last())
    }

    fn write_list(&self, _alloc: Global, text: &mut String) -> Result<(), ListStop> {
        match write_ascending(self, text) {
            Ok(()) => Ok(()),
            Err(_) => Err(ListStop::Text),
        }
    }
}

impl ByName for IdHashMap<Entry> {
    ghost kind = { Hash };

    ghost entries = { λ m. m.items };

    ghost is_text = { λ name key. bytes_eq name (string_bytes key) };

    ghost most_steps = { λ map name. of_stored_hash map (hash_under ⟦<DefaultHashBuilder as BuildHasher>⟧ ⟦<FoldHasher as Hasher>⟧ map.hasher (fed.str name)) };

    fn find(&self, name: &str) -> Option<&Entry> {
        self.get(&Text(name))
    }

    fn find_counted(&self, name: &str, steps: &mut Steps) -> Option<&Entry> {
        self.get_counted(&Text(name), steps)
    }

    fn visit_found<V: Visit<Entry>>(&mut self, name: &str, visitor: &mut V) -> Option<bool> {
        let mut found = self.get_mut(&Text(name))?;
        let answer = visitor.visit(&mut found);
        found.finish();
        Some(answer)
    }

    fn keep<K: Keeps<Entry>>(&mut self, which: &K) {
        self.retain(|entry| which.keeps(entry));
    }

    fn take_out(&mut self, name: &str) -> Option<Entry> {
        self.remove(&Text(name))
    }

    fn least(&self) -> Result<Option<&Entry>, NoEnds> {
        Err(NoEnds)
    }

    fn greatest(&self) -> Result<Option<&Entry>, NoEnds> {
        Err(NoEnds)
    }

    fn take_least(&mut self) -> Result<Option<Entry>, NoEnds> {
        Err(NoEnds)
    }

    fn take_greatest(&mut self) -> Result<Option<Entry>, NoEnds> {
        Err(NoEnds)
    }

    fn write_list(&self, alloc: Global, text: &mut String) -> Result<(), ListStop> {
        let Ok(sorted) = by_name(alloc, self) else {
            return Err(ListStop::Entries);
        };
        match write_sorted(sorted.as_slice(), text) {
            Ok(()) => Ok(()),
            Err(_) => Err(ListStop::Text),
        }
    }
}

// Writes the entries along the ordered map.
fn write_ascending(map: &IdOrdMap<Entry>, text: &mut String) -> Result<(), AllocError>
    ensures { OnOk result (AppendsList map.now.items text.old text.new) }
{
    begin_list(text, map.len())?;
    for entry in map.iter() {
        write_entry(text, entry)?;
    }
    Ok(())
}

// Writes the entries that are lent, in their order.
fn write_sorted(sorted: &[&Entry], text: &mut String) -> Result<(), AllocError>
    ensures { OnOk result (AppendsList (all_lent sorted.now) text.old text.new) }
{
    begin_list(text, sorted.len())?;
    for entry in sorted {
        write_entry(text, entry)?;
    }
    Ok(())
}
