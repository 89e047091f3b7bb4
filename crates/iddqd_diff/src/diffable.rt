//! What compares two maps by key, for maps of either kind.
ghost use Rattle.std.specs.Prelude.{◌≡◌, ◌+◌, ◌<◌, ◌≤◌, ◌^◌, All, filter, length, map};
ghost use Rattle.std.specs.List.{filter_map};
ghost use Rattle.iddqd_diff.specs.Difference.{IsAkin, added_item, key_at, lacks, new_item, old_item, removed_item};

/// A reference to a map that can be compared by key with another map that came after it.
pub trait Diffable<After> {
    ghost use Rattle.std.specs.Prelude.{List};
    ghost use Rattle.iddqd_diff.specs.declared.difference.Difference.{Difference};

    /// What both maps hold.
    type Item;

    /// What tells an item from others.
    type Key: Eq;

    /// The differences, one after the other.
    type Diff;

    // The key that an item shows.
    ghost key: { Self.Item → Self.Key };

    // The items of the old map.
    ghost old_items: { Self → List Self.Item };

    // The items of the new map.
    ghost new_items: { After → List Self.Item };

    // Lookups of both maps find their items.
    ghost are_keyed: { Self → After → Type 0 };

    // The differences that are to come.
    ghost to_come: { Self.Diff → List (Difference Self.Item Self.Item) };

    // Two lists have the same items, and in the same order if the maps are ordered.
    ghost same_items: { List Self.Item → List Self.Item → Type 0 };

    // The keys ascend, if the maps are ordered.
    ghost in_order: { List Self.Key → Type 0 };

    /// Compares this map with one that came after it. The result gives one difference for each key that either map has.
    /// Does not allocate, and no step of the result does.
    fn diff(self, after: After) -> Self::Diff
        requires keyed { are_keyed self after }

        // each item of either map is there once
        ensures old { filter_map old_item (to_come result) ≡ old_items self }
        ensures new { same_items (filter_map new_item (to_come result)) (new_items after) }
        ensures ascends { in_order (map (key_at key) (to_come result)) }

        // which are paired
        ensures akin { All (IsAkin key Self.Key.eq) (to_come result) }
        ensures removed { filter_map removed_item (to_come result)
            ≡ filter (lacks key Self.Key.eq (new_items after)) (old_items self) }
        ensures added { filter_map added_item (to_come result)
            ≡ filter (lacks key Self.Key.eq (old_items self)) (new_items after) }

        // how many there are
        ensures at_most { length (to_come result)
            ≤ length (old_items self) + length (new_items after) }
        ensures fits { length (to_come result) < 2 ^ 33 };
}
