//! Room for the items that an iterator announces.
ghost use Rattle.std.specs.Prelude.{◌≡◌};
ghost use Rattle.iddqd_store.specs.Collecting as collecting;

/// Returns for how many items to reserve room before an iterator's items are inserted, by the lower bound of its
/// size hint. An empty map reserves for all of them. Another map reserves for half of them, rounded up, since it
/// may have their keys already.
#[doc(hidden)]
pub fn room_to_reserve(there: usize, announced: usize) -> usize
    ensures { result ≡ collecting.room_to_reserve there announced }
{
    if there == 0 {
        announced
    } else {
        announced.div_ceil(2)
    }
}
