//! A map of either kind behind a trait whose ghost member says that it is keyed; another name for an item.
ghost use Rattle.std.specs.String.{string_cmp};
ghost use Rattle.iddqd.specs.Contents.{Ascends};
ghost use Rattle.iddqd.specs.IdHashMap.{IsKeyedByText};

use iddqd::errors::InsertError;
use iddqd::{IdHashMap, IdOrdMap, Text};
use test_writers::items::Named;

/// What lists items by name.
pub(crate) trait Registry {
    // The items lie as lookups expect them.
    ghost keyed: { Self → Type 0 };

    /// Whether there is an item of the name.
    fn has(&self, name: &str) -> bool
        requires keyed { keyed self.now };

    /// Removes the item of the name.
    fn take(&mut self, name: &str) -> Option<Named>
        requires keyed { keyed self.old }
        ensures keyed { keyed self.new };

    /// Adds the item, which is returned if its name is there or room is refused.
    fn add(&mut self, item: Named) -> Result<(), Named>
        requires keyed { keyed self.old }
        ensures keyed { keyed self.new };

    /// Gives the item of a name another one. An item that is removed and then refused is returned.
    fn rename(&mut self, name: &str, to: String) -> Result<bool, Named>
        requires keyed { keyed self.old }
        ensures keyed { keyed self.new }
    {
        if self.has(to.as_str()) {
            return Ok(false);
        }
        match self.take(name) {
            Some(mut item) => {
                item.name = to;
                self.add(item)?;
                Ok(true)
            }
            None => Ok(false),
        }
    }
}

// The item of an insertion that failed.
fn returned(error: InsertError<'_, Named>) -> Named {
    match error {
        InsertError::Duplicate(both) => both.into_parts().0,
        InsertError::Refused(refused) => refused.item,
    }
}

impl Registry for IdOrdMap<Named> {
    ghost keyed = { λ all. Ascends (λ x. x.name) string_cmp all.items };

    fn has(&self, name: &str) -> bool {
        self.contains_key(&Text(name))
    }

    fn take(&mut self, name: &str) -> Option<Named> {
        self.remove(&Text(name))
    }

    fn add(&mut self, item: Named) -> Result<(), Named> {
        self.insert_unique(item).map_err(returned)?;
        Ok(())
    }
}

impl Registry for IdHashMap<Named> {
    ghost keyed = { λ all. IsKeyedByText (λ x. x.name) all };

    fn has(&self, name: &str) -> bool {
        self.contains_key(&Text(name))
    }

    fn take(&mut self, name: &str) -> Option<Named> {
        self.remove(&Text(name))
    }

    fn add(&mut self, item: Named) -> Result<(), Named> {
        self.insert_unique(item).map_err(returned)?;
        Ok(())
    }
}
