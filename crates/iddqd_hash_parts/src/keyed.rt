//! What a lookup requires of a map.
/// What a lookup requires of a map, for contracts to cite. It has no code.
pub trait Keyed {
    ghost use Rattle.std.specs.Prelude.{ℕ};
    ghost use Rattle.std.specs.Hash.{HashWrites};

    /// What the map holds.
    type Item;

    // No two items have equal keys, and a lookup finds each.
    ghost keyed: { Self → Type 0 };

    // The map's hasher gives this hash after these writes.
    ghost hash: { Self → HashWrites → ℕ };

    // The items have equal keys, so one may be written in place of the other.
    ghost akin: { Self.Item → Self.Item → Type 0 };
}
