//! A walk that lends the items of a hash map of two keys for writing, one after the other.
ghost use Rattle.std.specs.Prelude.{◌≡◌};
ghost use Rattle.iddqd_hash_parts.specs.SlotOrder.{behind};

mod steps;

use super::{BiHashMap, DefaultHashBuilder};

/// The items of a map, for writing, in no particular order. It returns a plain reference to one item at a time. So its
/// caller learns what the map is then.
#[derive(Drop)]
pub struct IterMut<'a, T, S = DefaultHashBuilder> {
    map: &'a mut BiHashMap<T, S>,
    // The number of items that it has returned.
    done: usize,
    // The number behind the slot of the last of them.
    next: u32,
    ghost from: { next ≡ behind map.now.slots done },
}
