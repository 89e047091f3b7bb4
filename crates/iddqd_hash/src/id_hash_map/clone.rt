//! A copy of a map.
ghost use Rattle.std.specs.Prelude.{◌≡◌, IfErr, IfOk};
ghost use Rattle.std.specs.List.{AllZip};
ghost use Rattle.iddqd_store.specs.Contents.{ClonesKeepKeys};
ghost use Rattle.iddqd_store.specs.Refusal.{memory_refused};

use super::{IdHashMap, Keyed};
use iddqd_store::{IdHashItem, TryReserveError};
use std::hash::BuildHasher;

impl<T: IdHashItem, S: BuildHasher> IdHashMap<T, S> {
    ghost use Rattle.iddqd_hash.specs.HashMap.{CloneHashesAlike, SpareFits};

    /// Returns a map of the items' clones, in the same slots and under the same limit. Its hasher is the hasher's
    /// clone. It returns `Err` if memory for a clone, for the slots or for the index was refused, and drops what was
    /// cloned. Hashes and compares no keys. This is no `Clone`, which cannot refuse.
    pub fn clone(&self) -> Result<Self, TryReserveError>
    where
        T: Clone,
        S: Clone,
        requires keyed { ⟦<Self as Keyed>⟧.keyed self.now }
        requires keeps_keys { ClonesKeepKeys T.key T.Key.eq T.is_clone }
        requires hashes_alike { CloneHashesAlike S.is_clone ⟦<Self as Keyed>⟧.hash self.now }

        // on success
        ensures items { IfOk result (λ copy. AllZip T.is_clone self.now.items copy.items) }
        ensures slots { IfOk result (λ copy. copy.slots ≡ self.now.slots) }
        ensures vacant { IfOk result (λ copy. copy.vacant ≡ self.now.vacant) }
        ensures limit { IfOk result (λ copy. copy.limit ≡ self.now.limit) }
        ensures hasher { IfOk result (λ copy. S.is_clone self.now.hasher copy.hasher) }
        ensures spare_fits { IfOk result SpareFits }
        ensures keyed { IfOk result ⟦<Self as Keyed>⟧.keyed }

        // on refusal
        ensures only_memory { IfErr result (λ e. e ≡ memory_refused) }
    {
        let index = self.index.try_clone()?;
        let Ok(hasher) = self.hasher.clone() else {
            return Err(TryReserveError::alloc_error());
        };
        let Ok(store) = self.store.try_clone() else {
            return Err(TryReserveError::alloc_error());
        };
        prove!(store.len() <= store.capacity());
        Ok(IdHashMap {
            store,
            index,
            hasher,
            done: (),
        })
    }
}
