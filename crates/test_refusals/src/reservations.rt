//! What was reserved is there where memory is refused.
use crate::prelude::*;

// Whether four items of new keys are inserted beside a removal and a write, and then a hundred times another takes the
// place of one.
fn keeps_its_room(map: &mut Either<Numbered>) -> bool {
    map.insert(numbered(1, 5)) == Inserted::Done
        && map.insert(numbered(2, 5)) == Inserted::Done
        && map.remove(&1) == Some(numbered(1, 5))
        && map.visit(2, &mut Change::DenyAll) == Some(false)
        && map.insert(numbered(3, 5)) == Inserted::Done
        && map.insert(numbered(4, 5)) == Inserted::Done
        && (4..104u32).all(|number| {
            let next = numbered(number.wrapping_add(1), 5);
            map.remove(&number).is_some() && map.insert(next) == Inserted::Done
        })
}

// The spare at which a new key was refused; `None` if a hundred were inserted.
fn spare_at_refusal(map: &mut Either<Numbered>) -> Option<usize> {
    (200..300).find_map(|number| {
        let spare = map.room();
        (map.insert(numbered(number, 5)) != Inserted::Done).then_some(spare)
    })
}

// The word for what was seen on a map that was told to make room for three.
fn reservation(alloc: Global, map: &mut Either<Numbered>) -> Word {
    arm(alloc);
    let is_kept = keeps_its_room(map);
    let spare = spare_at_refusal(map);
    let rows = rows! {
        "not_refused": (true, None, false);
        "refused_without_spare": (true, Some(0), true);
    };
    word_of(&rows, &(is_kept, spare, is_met(alloc)))
}

#[test]
fn reservation_holds(rt: HostRuntime) -> Result<(), Fail> {
    let mut map = by_hash(rt.alloc());
    map.reserve(3)?;
    tell(&rt, reservation(rt.alloc(), &mut map))
}

#[test]
fn tried_reservation_holds(rt: HostRuntime) -> Result<(), Fail> {
    let mut map = by_hash(rt.alloc());
    map.try_reserve(3)?;
    tell(&rt, reservation(rt.alloc(), &mut map))
}
