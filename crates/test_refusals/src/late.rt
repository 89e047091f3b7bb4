//! Items that come unannounced, of which one is refused when others are in. Each owns memory.
use crate::prelude::*;
use iddqd::errors::ExtendError;
use test_support::bulk::Announced;

// Twenty items, from the name 19 on down.
fn twenty(alloc: Global) -> Result<Announced<Kept>, AllocError> {
    let mut items = Vec::new(alloc);
    for name in 0..20u32 {
        let value = Box::new(alloc, name)?;
        items.push(Kept { name, value })?;
    }
    Ok(Announced::new(items, 0))
}

// How many items a call took, or why it stopped.
type Outcome = Result<usize, TryReserveError>;

// The refused item comes back, and those before it are in.
fn extend(map: &mut Either<Kept>, items: Announced<Kept>) -> Outcome {
    match map.extend(items) {
        Ok(()) => Ok(map.len()),
        Err(ExtendError { item, error }) => {
            let left = item.map(|item| item.name as usize);
            let is_next = left.is_some() && left == 19usize.checked_sub(map.len());
            if is_next { Err(error) } else { Ok(0) }
        }
    }
}

// Three maps of the items. One call was refused if a request was.
fn late(alloc: Global, kind: Kind, mut map: Either<Kept>) -> Word {
    let (first, second, third) = (twenty(alloc)?, twenty(alloc)?, twenty(alloc)?);
    let refused = Err(TryReserveError::alloc_error());
    arm(alloc);
    let taken = [
        Either::collected(kind, alloc, first).map(|map| map.len()),
        unique(Either::collected_unique(kind, alloc, second)).map(|map| map.len()),
        extend(&mut map, third),
    ];
    let rows = rows! {
        "all_taken": ([Ok(20), Ok(20), Ok(20)], false);
        "collection_refused": ([refused, Ok(20), Ok(20)], true);
        "unique_collection_refused": ([Ok(20), refused, Ok(20)], true);
        "extension_refused": ([Ok(20), Ok(20), refused], true);
    };
    word_of(&rows, &(taken, is_met(alloc)))
}

#[test]
fn unannounced(rt: HostRuntime) -> Result<(), Fail> {
    tell(&rt, late(rt.alloc(), Kind::Ordered, in_order(rt.alloc())))
}

#[test]
fn hash_unannounced(rt: HostRuntime) -> Result<(), Fail> {
    tell(&rt, late(rt.alloc(), Kind::Hashed, by_hash(rt.alloc())))
}
