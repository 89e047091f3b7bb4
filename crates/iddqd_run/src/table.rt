//! The table that lines ask.
use crate::by_name::ByName;
use crate::entries::Entry;
use std::marker::Model;

/// A map of entries, as lines ask it: keyed by the names, under the limit of a new map. Its value is its entries.
#[derive(Drop)]
pub(crate) struct Table<M: ByName<Item = Entry, Key = String>> {
    pub(crate) map: M,
}

impl<M: ByName<Item = Entry, Key = String>> Model for Table<M> {
    ghost use Rattle.std.specs.Prelude.{List};
    ghost use Rattle.iddqd_run.specs.Table.{IsTable};
    ghost use Rattle.iddqd_run.specs.declared.entries.Entry.{Entry};

    ghost Value = { List Entry };

    ghost view = { λ table. (M.state table.map).items };

    ghost invariant = { λ table. IsTable M.KeyedMap M.ByName table.map };
}
