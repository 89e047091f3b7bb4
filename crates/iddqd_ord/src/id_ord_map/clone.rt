//! A copy of a map.
ghost use Rattle.std.specs.Prelude.{◌≡◌, IfErr, IfOk};
ghost use Rattle.std.specs.List.{AllZip};
ghost use Rattle.iddqd_store.specs.Contents.{Ascends, ClonesKeepKeys};
ghost use Rattle.iddqd_store.specs.Refusal.{memory_refused};

use super::IdOrdMap;
use iddqd_store::{IdOrdItem, TryReserveError};

impl<T: IdOrdItem> IdOrdMap<T> {
    /// Returns a map of the items' clones, in the same slots and under the same limit. It returns `Err` if memory for a
    /// clone, for the slots or for the index was refused, and drops what was cloned. Compares no keys. This is no
    /// `Clone`, which cannot refuse.
    pub fn clone(&self) -> Result<Self, TryReserveError>
    where
        T: Clone,
        requires keyed { Ascends T.key T.Key.cmp self.now.items }
        requires keeps_keys { ClonesKeepKeys T.key T.Key.eq T.is_clone }

        // on success
        ensures items { IfOk result (λ copy. AllZip T.is_clone self.now.items copy.items) }
        ensures slots { IfOk result (λ copy. copy.slots ≡ self.now.slots) }
        ensures vacant { IfOk result (λ copy. copy.vacant ≡ self.now.vacant) }
        ensures limit { IfOk result (λ copy. copy.limit ≡ self.now.limit) }
        ensures keyed { IfOk result (λ copy. Ascends T.key T.Key.cmp copy.items) }

        // on refusal
        ensures only_memory { IfErr result (λ e. e ≡ memory_refused) }
    {
        let index = self.index.try_clone()?;
        match self.store.try_clone() {
            Ok(store) => Ok(IdOrdMap {
                store,
                index,
                done: (),
            }),
            Err(_) => Err(TryReserveError::alloc_error()),
        }
    }
}
