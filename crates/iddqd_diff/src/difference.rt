//! What two maps have at one key.
ghost use Rattle.std.specs.Prelude.{◌≡◌};
ghost use Rattle.iddqd_diff.specs.Difference.{is_change, shown};

/// What an old map and a new one have at one key. A reference to an old item lives as long as the old map, and one to a
/// new item as long as the new map.
#[derive(Clone, Copy, Debug, Drop)]
pub enum Difference<O, N = O> {
    /// The old map has this item, and the new one has none of an equal key.
    Removed(O),
    /// The new map has this item, and the old one has none of an equal key.
    Added(N),
    /// The old map's item and the new map's, whose keys are equal.
    Kept(O, N),
}

impl<'o, 'n, T: PartialEq> Difference<&'o T, &'n T> {
    /// Returns true if an item was removed or added, or if the two items differ by the items' `==`. Compares the items
    /// once if both maps have one, and else never. Does not allocate.
    pub fn is_changed(&self) -> bool
        ensures { result ≡ is_change T.eq (shown self.now) }
    {
        match self {
            Difference::Removed(_) | Difference::Added(_) => true,
            Difference::Kept(old, new) => **old != **new,
        }
    }
}
