//! The root of a tree: it rises a level if it is split, and falls one if it has no slot of its own.
ghost use Rattle.std.specs.Prelude.{◌≡◌, ◌+◌, ◌*◌, ◌^◌, ◌<◌, ◌≤◌, ◌∷◌, ◌++◌, length, take, drop, insert, remove, slice_index};
ghost use Rattle.iddqd_store.specs.Counting.{CountsAtMost};
ghost use Rattle.iddqd_ord_index.specs.Changes.{WantsFor};
ghost use Rattle.iddqd_ord_index.specs.Listed.{AreOccupied};
ghost use Rattle.iddqd_ord_index.specs.NodeRemoval.{LosesEqual, LosesPart};
ghost use Rattle.iddqd_ord_index.specs.Shape.{IsBranch, IsDense, most_levels};
ghost use Rattle.iddqd_ord_index.specs.Standing.{StandsMonotone};

use super::node::Node;
use super::pool::BlockPool;
use iddqd_store::{Comparable, IdOrdItem, ItemStore, Steps};
use std::mem;

// Inserts a slot at the position, and returns how many levels there are then.
pub(crate) fn add(
    root: &mut Node,
    levels: usize,
    len: u32,
    at: u32,
    slot: u32,
    pool: &mut BlockPool,
) -> usize
    requires levels { levels ≡ root.old.height }
    requires low { levels ≤ most_levels }
    requires len { len ≡ length root.old.slots }
    requires place { at ≤ len }
    requires room { len + 1 < 2 ^ 32 }
    requires top { 1 < root.old.height → 1 ≤ root.old.width }
    requires enough { root.old.height ≤ pool.old.count }

    // the tree
    ensures slots { root.new.slots ≡ insert root.old.slots at slot }
    ensures levels { result ≡ root.new.height }
    ensures higher { result ≤ levels + 1 }
    ensures top { 1 < root.new.height → 1 ≤ root.new.width }

    // the blocks
    ensures dense { IsDense root.new }
    ensures pool { (pool.new.wanted ≡ pool.old.wanted) × (pool.new.room ≡ pool.old.room) }
{
    let Some((middle, upper)) = root.add(at, slot, pool) else {
        return levels;
    };
    push_root_level(root, len, middle, upper, pool);
    levels + 1
}

// Makes a root above the halves of the one that was split. `total` is how many slots both have, without `middle`.
pub(crate) fn push_root_level(
    root: &mut Node,
    total: u32,
    middle: u32,
    upper: Node,
    pool: &mut BlockPool,
)
    requires lower { IsBranch (root.old.height + 1) root.old }
    requires upper { IsBranch (root.old.height + 1) upper }
    requires total { total ≡ length root.old.slots + length upper.slots }
    requires enough { 0 < pool.old.count }

    // the tree
    ensures slots { root.new.slots ≡ root.old.slots ++ middle ∷ upper.slots }
    ensures height { root.new.height ≡ root.old.height + 1 }
    ensures width { root.new.width ≡ 1 }

    // the blocks
    ensures dense { IsDense root.new }
    ensures pool { (pool.new.wanted ≡ pool.old.wanted) × (pool.new.room ≡ pool.old.room) }
{
    let above = upper.len();
    let lower = mem::replace(root, Node::new());
    root.make_root(pool.take(), lower, total - above, middle, upper, above);
}

// Removes the slot at the position, and returns it with the number of levels. If the root falls, there are as many
// unused blocks as are wanted.
#[inline]
pub(crate) fn remove(root: &mut Node, levels: usize, at: u32, pool: &mut BlockPool) -> (u32, usize)
    requires levels { levels ≡ root.old.height }
    requires place { at < length root.old.slots }
    requires room { length root.old.slots < 2 ^ 32 }
    requires top { 1 < root.old.height → 1 ≤ root.old.width }
    requires wanted { 1 < levels → WantsFor levels pool.old }

    // the tree
    ensures slot { result.0 ≡ slice_index root.old.slots at }
    ensures slots { root.new.slots ≡ remove root.old.slots at }
    ensures levels { result.1 ≡ root.new.height }
    ensures top { 1 < root.new.height → 1 ≤ root.new.width }

    // the blocks
    ensures dense { IsDense root.new }
    ensures wanted { 1 < result.1 → WantsFor result.1 pool.new }
    ensures kept { pool.old.count ≤ pool.new.count }
    ensures fallen { result.1 < levels → pool.new.wanted ≤ pool.new.count }
{
    let slot = root.remove(at, pool);
    (slot, pop_root_level(root, levels, pool))
}

// Removes `count` slots from the position on, and returns the number of levels. Whole branches go where they may.
pub(crate) fn remove_part(
    root: &mut Node,
    mut levels: usize,
    at: u32,
    count: u32,
    pool: &mut BlockPool,
) -> usize
    requires levels { levels ≡ root.old.height }
    requires in_list { at + count ≤ length root.old.slots }
    requires room { length root.old.slots < 2 ^ 32 }
    requires dense { IsDense root.old }
    requires top { 1 < root.old.height → 1 ≤ root.old.width }
    requires wanted { 1 < levels → WantsFor levels pool.old }

    // the tree
    ensures slots { root.new.slots ≡ take at root.old.slots ++ drop (at + count) root.old.slots }
    ensures levels { result ≡ root.new.height }
    ensures top { 1 < root.new.height → 1 ≤ root.new.width }

    // the blocks
    ensures dense { IsDense root.new }
    ensures wanted { 1 < result → WantsFor result pool.new }
{
    let mut left = count;
    'cut: while left > 0 {
        let (removed, now) = remove_some(root, levels, at, left, pool);
        levels = now;
        left -= removed;
    }
    levels
}

// Removes some of the `most` slots from the position on. Returns how many, and the number of levels.
fn remove_some(
    root: &mut Node,
    levels: usize,
    at: u32,
    most: u32,
    pool: &mut BlockPool,
) -> (u32, usize)
    requires levels { levels ≡ root.old.height }
    requires in_list { at + most ≤ length root.old.slots }
    requires some { 0 < most }
    requires room { length root.old.slots < 2 ^ 32 }
    requires top { 1 < root.old.height → 1 ≤ root.old.width }
    requires wanted { 1 < levels → WantsFor levels pool.old }

    // the tree
    ensures part { LosesPart at most result.0 root.old.slots root.new.slots }
    ensures some { 0 < result.0 }
    ensures levels { result.1 ≡ root.new.height }
    ensures top { 1 < root.new.height → 1 ≤ root.new.width }

    // the blocks
    ensures dense { IsDense root.new }
    ensures wanted { 1 < result.1 → WantsFor result.1 pool.new }
{
    let removed = root.cut(at, most);
    if removed > 0 {
        return (removed, levels);
    }
    let (_, levels) = remove(root, levels, at, pool);
    (1, levels)
}

// Removes the slot whose item has the query's key, and returns it with the number of levels. If there is none, it returns
// `None`, and the root is as it was.
pub(crate) fn remove_by_key<T: IdOrdItem, Q: Comparable<T::Key>>(
    root: &mut Node,
    levels: usize,
    store: &ItemStore<T>,
    query: &Q,
    pool: &mut BlockPool,
    steps: &mut Steps,
) -> (Option<u32>, usize)
    requires occupied { AreOccupied store.now root.old.slots }
    requires monotone { StandsMonotone T.key (Q.compare query.now) store.now root.old.slots }
    requires levels { levels ≡ root.old.height }
    requires room { length root.old.slots < 2 ^ 32 }
    requires top { 1 < root.old.height → 1 ≤ root.old.width }
    requires wanted { 1 < levels → WantsFor levels pool.old }

    // the tree
    ensures slots { LosesEqual T.key (Q.compare query.now) store.now root.old result.0 root.new }
    ensures levels { result.1 ≡ root.new.height }
    ensures top { 1 < root.new.height → 1 ≤ root.new.width }

    // the blocks
    ensures dense { IsDense root.new }
    ensures wanted { 1 < result.1 → WantsFor result.1 pool.new }
    ensures kept { pool.old.count ≤ pool.new.count }
    ensures fallen { result.1 < levels → pool.new.wanted ≤ pool.new.count }

    // what it costs
    ensures steps { CountsAtMost steps.old steps.new (4 * root.old.height) }
{
    let slot = root.remove_by_key(store, query, pool, steps);
    (slot, pop_root_level(root, levels, pool))
}

// Lets the root fall a level if it has lost its last slot of its own, and returns the number of levels.
fn pop_root_level(root: &mut Node, levels: usize, pool: &mut BlockPool) -> usize
    requires levels { levels ≡ root.old.height }
    requires dense { IsDense root.old }
    requires wanted { 1 < levels → WantsFor levels pool.old }
    requires given { 1 < levels → root.old.width ≡ 0 → levels ≤ pool.old.count + 2 }

    // the tree
    ensures slots { root.new.slots ≡ root.old.slots }
    ensures levels { result ≡ root.new.height }
    ensures top { 1 < root.new.height → 1 ≤ root.new.width }

    // the blocks
    ensures dense { IsDense root.new }
    ensures wanted { 1 < result → WantsFor result pool.new }
    ensures kept { pool.old.count ≤ pool.new.count }
    ensures fallen { result < levels → pool.new.wanted ≤ pool.new.count }
{
    if levels == 1 || root.width() > 0 {
        return levels;
    }
    let block = root.collapse();
    pool.want(levels - 1);
    pool.give_back(block);
    levels - 1
}
