//! A search by halves among the slots of one node.
ghost use Rattle.std.specs.Prelude.{◌≡◌, length};
ghost use Rattle.iddqd_store.specs.Counting.{CountsAtMost};
ghost use Rattle.iddqd_ord_index.specs.Digits.{digits};
ghost use Rattle.iddqd_ord_index.specs.Listed.{AreOccupied};
ghost use Rattle.iddqd_ord_index.specs.Standing.{StandsAt, StandsMonotone};

use iddqd_store::{Comparable, IdOrdItem, ItemStore, Steps};

/// Returns the place of the slot whose item the query stands for, or the place where it belongs. It makes at most
/// as many comparisons as the number of slots has binary digits.
pub fn search<T: IdOrdItem, Q: Comparable<T::Key>>(
    slots: &[u32],
    store: &ItemStore<T>,
    query: &Q,
    steps: &mut Steps,
) -> Result<usize, usize>
    requires occupied { AreOccupied store.now slots.now }
    requires monotone { StandsMonotone T.key (Q.compare query.now) store.now slots.now }
    ensures place { StandsAt T.key (Q.compare query.now) store.now slots.now result }
    ensures steps { CountsAtMost steps.old steps.new (digits (length slots.now)) }
{
    // The greatest count is known of the counter's own fields alone.
    prove!(steps.count() <= u32::MAX);
    let mut low = 0;
    let mut high = slots.len();
    while low < high {
        let middle = low + (high - low) / 2;
        let item = store.item(slots[middle]);
        // Of a match on the order the compiler makes a number, and tests that again; of this it makes two jumps.
        let order = steps.compare(query, item.key()) as i8;
        if order > 0 {
            low = middle + 1;
        } else if order < 0 {
            high = middle;
        } else {
            return Ok(middle);
        }
    }
    Err(low)
}
