//! Laws of the definitions that contracts cite. They run nothing.
ghost use Rattle.idtable_commands.specs.OrderedSteps.{OrderedSteps};
ghost use Rattle.idtable_commands.specs.SameReplies.{ClonesMatch, SameReplies};

use crate::commands::Command;

/// Two maps that hold the same items, each in an order of its own, give the same replies to the same commands. They
/// hold the same items then. No two items have equal keys. `RetainMut` is not among the commands, and neither map
/// refuses room for an item or memory for a clone. It rests on three facts of the definitions of a step and a run. A
/// search finds at most one item, so their order plays no part. A new item may be anywhere among the others. The limit
/// and the spare only say whether something is refused.
pub fn same_replies<T, K, V>()
    ensures { SameReplies T K V }
{}

/// Clones of commands are the same commands, if clones of the items, the keys and the visitors are equal to their
/// originals.
pub fn clones_are_same<T: Clone, K: Clone, V: Clone>()
    ensures { ClonesMatch T.is_clone K.is_clone V.is_clone ⟦<Command<T, K, V> as Clone>⟧.is_clone }
{}

/// A shrink of an ordered map leaves the list of its items as it was, refused or not. An insertion puts the item at its
/// place. Both follow from the order of the keys, since the items ascend before and after each step.
pub fn ordered_steps<T, K, V>()
    ensures { OrderedSteps T K V }
{}
