//! A fixed array of cells that holds a list: the items stand in front, the cells behind them are empty.
ghost use Rattle.std.specs.Prelude.{◌≡◌, ◌+◌, ◌-◌, ◌<◌, ◌≤◌, List, [], ◌∷◌, ◌++◌, length, take, drop, insert, remove, slice_index_or, nat_le, if◌then◌else◌};
ghost use Rattle.iddqd_ord_index.specs.Cells.{items_present, InsertsLast, IsPacked};

use super::node::MOST_BRANCHES;

// Puts `item` at place `i`, and moves the later items up.
pub(crate) fn insert<T: Drop>(cells: &mut [Option<T>], i: usize, item: T)
    requires packed { IsPacked cells.old }
    requires in_bounds { i ≤ length (items_present cells.old) }
    requires room { length (items_present cells.old) < MOST_BRANCHES }
    ensures packed { IsPacked cells.new }
    ensures items { items_present cells.new ≡ insert (items_present cells.old) i item }
{
    cells[MOST_BRANCHES - 1] = Some(item);
    rotate_in(cells, i);
}

pub(crate) fn rotate_in<T>(cells: &mut [T], i: usize)
    requires { i < length cells.old }
    ensures { InsertsLast i cells.old cells.new }
{
    cells[i..].rotate_right(1);
}

// Takes the item at place `i` out, and moves the later items down.
pub(crate) fn remove<T: Drop>(cells: &mut [Option<T>], i: usize) -> T
    requires packed { IsPacked cells.old }
    requires in_bounds { i < length (items_present cells.old) }
    ensures packed { IsPacked cells.new }
    ensures items { items_present cells.new ≡ remove (items_present cells.old) i }
    ensures value { result ≡ slice_index_or (items_present cells.old) i result }
{
    let item = cells[i].take();
    rotate_out(cells, i);
    match item {
        Some(item) => item,
        None => unreachable!(),
    }
}

pub(crate) fn rotate_out<T>(cells: &mut [T], i: usize)
    requires { i < length cells.old }
    ensures { (d : T) → cells.new ≡ remove cells.old i ++ slice_index_or cells.old i d ∷ [] }
{
    cells[i..].rotate_left(1);
}

// Moves the items from place `at` on into `upper`, which is empty.
pub(crate) fn move_tail<T>(cells: &mut [Option<T>], at: usize, upper: &mut [Option<T>])
    requires packed { IsPacked cells.old }
    requires upper_packed { IsPacked upper.old }
    requires upper_empty { items_present upper.old ≡ [] }
    requires in_bounds { at ≤ length (items_present cells.old) }

    // afterwards
    ensures packed { IsPacked cells.new }
    ensures upper_packed { IsPacked upper.new }
    ensures items { items_present cells.new ≡ take at (items_present cells.old) }
    ensures upper_items { items_present upper.new ≡ drop at (items_present cells.old) }
{
    cells[at..].swap_with_slice(&mut upper[..MOST_BRANCHES - at]);
}

// Moves the `more` items of `upper` behind the `len` items of `cells`.
pub(crate) fn append<T>(cells: &mut [Option<T>], len: usize, upper: &mut [Option<T>], more: usize)
    requires packed { IsPacked cells.old }
    requires upper_packed { IsPacked upper.old }
    requires len { len ≡ length (items_present cells.old) }
    requires more { more ≡ length (items_present upper.old) }
    requires fits { len + more ≤ MOST_BRANCHES }

    // afterwards
    ensures packed { IsPacked cells.new }
    ensures upper_packed { IsPacked upper.new }
    ensures items { items_present cells.new ≡ items_present cells.old ++ items_present upper.old }
    ensures upper_items { items_present upper.new ≡ [] }
{
    cells[len..len + more].swap_with_slice(&mut upper[..more]);
}
