//! The entries of a hash map in the order of their names.
ghost use Rattle.std.specs.Prelude.{◌≡◌, IfOk, string_eq, IsPermutation};
ghost use Rattle.iddqd.specs.Contents.{NoTwoAkin};
ghost use Rattle.iddqd_run.specs.Shown.{AreByName, all_lent};

use crate::entries::Entry;
use iddqd::IdHashMap;
use std::alloc::{AllocError, Global};

/// The map's entries, by ascending name.
pub(super) fn by_name(alloc: Global, map: &IdHashMap<Entry>) -> Result<Vec<&Entry>, AllocError>
    requires differ { NoTwoAkin (λ entry. entry.name) string_eq map.now.items }
    ensures same { IfOk result (λ sorted. IsPermutation map.now.items (all_lent sorted.items)) }
    ensures ascending { IfOk result (λ sorted. AreByName (all_lent sorted.items)) }
{
    let mut sorted = references(alloc, map)?;
    sorted.sort_unstable_by(|one, other| one.name.cmp(&other.name));
    Ok(sorted)
}

// The map's entries, in the map's order.
fn references(alloc: Global, map: &IdHashMap<Entry>) -> Result<Vec<&Entry>, AllocError>
    ensures { IfOk result (λ lent. all_lent lent.items ≡ map.now.items) }
{
    let mut lent = Vec::with_capacity(alloc, map.len())?;
    for entry in map.iter() {
        lent.push(entry)?;
    }
    Ok(lent)
}
