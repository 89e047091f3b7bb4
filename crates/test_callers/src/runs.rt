//! The same commands over both maps.
ghost use Rattle.std.specs.Prelude.{All};
ghost use Rattle.std.specs.Ordering.{nat_cmp};
ghost use Rattle.iddqd.specs.Contents.{Ascends};
ghost use Rattle.idtable_commands.specs.SameReplies.{IsOrderless};
ghost use Rattle.test_callers.specs.Runs.{AreSame, HoldSamePairs, IfUnrefused};

use iddqd::{IdHashMap, IdOrdMap, Keyed, Visit};
use idtable_commands::{Command, Reply, laws, run};
use std::alloc::Global;
use test_writers::items::Pair;

/// Writes a value, and keeps the item.
#[derive(Clone, Drop)]
pub(crate) struct Sets {
    /// What each item's value is then.
    pub(crate) value: u32,
}

impl Visit<Pair> for Sets {
    ghost use Rattle.std.specs.Prelude.{true};

    ghost visits = { λ v x. (v, record x { value = v.value }, true) };

    fn visit(&mut self, item: &mut Pair) -> bool {
        item.value = self.value;
        true
    }
}

/// What a map of each kind replied.
#[derive(Drop)]
pub(crate) struct BothReplies {
    pub(crate) hashed: Vec<Reply<Pair>>,
    pub(crate) ordered: Vec<Reply<Pair>>,
}

/// Runs the commands on a hash map, and clones of them on an ordered map that holds the same items.
fn run_both(
    alloc: Global,
    hashed: &mut IdHashMap<Pair>,
    ordered: &mut IdOrdMap<Pair>,
    commands: Vec<Command<Pair, u32, Sets>>,
) -> Option<BothReplies>
    requires keyed_hashed { ⟦<IdHashMap<Pair> as Keyed>⟧.keyed hashed.old }
    requires keyed_ordered { Ascends (λ p. p.key) nat_cmp ordered.old.items }
    requires same { HoldSamePairs hashed.old.items ordered.old.items }
    requires orderless { All IsOrderless commands.items }

    // afterwards
    ensures replies { IfUnrefused result AreSame }
    ensures same { IfUnrefused result (λ _. HoldSamePairs hashed.new.items ordered.new.items) }
{
    laws::same_replies::<Pair, u32, Sets>();
    laws::clones_are_same::<Pair, u32, Sets>();
    let Ok(clones) = commands.clone() else {
        return None;
    };
    let Ok(of_hashed) = run(alloc, hashed, commands) else {
        return None;
    };
    let Ok(of_ordered) = run(alloc, ordered, clones) else {
        return None;
    };
    Some(BothReplies {
        hashed: of_hashed,
        ordered: of_ordered,
    })
}
