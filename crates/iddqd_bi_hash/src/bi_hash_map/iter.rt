//! Reading walks, in no particular order.
ghost use Rattle.std.specs.Prelude.{◌≡◌, ◌≤◌, length};

use super::BiHashMap;
use iddqd_hash_parts::Iter;

impl<T, S> BiHashMap<T, S> {
    /// Returns a walk over the items, in no particular order. It looks at vacant slots too. Does not allocate.
    pub fn iter(&self) -> Iter<'_, T>
        ensures items { result ≡ self.now.items }
        ensures fits { length result ≤ u32.MAX }
    {
        Iter::over(&self.store)
    }
}

impl<'a, T, S> IntoIterator for &'a BiHashMap<T, S> {
    type Item = &'a T;

    type IntoIter = Iter<'a, T>;

    ghost into_iter_gives = { λ map it. it ≡ map.now.items };

    fn into_iter(self) -> Iter<'a, T> {
        self.iter()
    }
}
