//! Nine items that are left of twenty-five, with vacant slots among them.
use crate::either::Either;
use crate::items::Numbered;
use crate::new_items::numbered;

/// The numbers of the twenty-five.
pub const IDS: [u32; 25] = [
    0, 17, 1, 12, 5, 21, 8, 10, 18, 4, 16, 22, 9, 24, 23, 13, 7, 25, 26, 20, 31, 11, 14, 2, 6,
];

const LEFT: [u32; 9] = [1, 5, 7, 11, 13, 17, 23, 25, 31];

/// Inserts the twenty-five, each with its number for its value, and retains the odd ones that three does not divide.
/// Whether each was inserted.
pub fn retain_nine(map: &mut Either<Numbered>) -> bool {
    let are_put = IDS.iter().all(|id| map.is_put(numbered(*id, *id)));
    map.retain(|item| item.number % 2 == 1 && item.number % 3 != 0);
    are_put
}

/// Whether the nine are there, and no others.
pub fn are_left(map: &Either<Numbered>) -> bool {
    let are_there = LEFT
        .iter()
        .all(|id| map.get(id) == Some(&numbered(*id, *id)));
    are_there && map.len() == 9
}
