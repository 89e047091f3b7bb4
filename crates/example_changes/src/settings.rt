//! Settings, read from the text of a file.
ghost use Rattle.std.specs.Prelude.{List};
ghost use Rattle.std.specs.String.{string_cmp};
ghost use Rattle.iddqd.specs.Contents.{Ascends};
ghost use Rattle.example_changes.specs.declared.settings.Setting.{Setting};

use iddqd::{IdOrdItem, IdOrdMap};
use std::alloc::Global;
use std::io;
use std::marker::Model;

/// A name and its value.
#[derive(Drop, PartialEq, Eq)]
pub struct Setting {
    pub name: String,
    pub value: String,
}

impl IdOrdItem for Setting {
    type Key = String;

    ghost key = { λ setting. setting.name };

    fn key(&self) -> &String {
        &self.name
    }
}

/// The settings of a file, seen as a list in which the names ascend.
#[derive(Drop)]
pub struct Settings(pub IdOrdMap<Setting>);

impl Model for Settings {
    ghost Value = { List Setting };

    ghost view = { λ all. all.0.items };

    ghost invariant = { λ all. Ascends (λ setting. setting.name) string_cmp all.0.items };
}

impl Settings {
    /// Reads the lines `name = value` of a text. Other lines are comments, and the last line of a name counts.
    pub(crate) fn parse(alloc: Global, text: &str) -> io::Result<Settings> {
        let mut all = Settings(IdOrdMap::new(alloc));
        for line in text.lines() {
            if let Some((name, value)) = line.split_once('=') {
                let setting = Setting {
                    name: name.trim().to_string(alloc)?,
                    value: value.trim().to_string(alloc)?,
                };
                all.set(setting)?;
            }
        }
        Ok(all)
    }

    // Puts the setting in the place of the one of its name, or inserts it.
    fn set(&mut self, setting: Setting) -> io::Result<()> {
        match self.0.insert_overwrite(setting) {
            Ok(_replaced) => Ok(()),
            Err(refused) => Err(io::Error::from(refused.error)),
        }
    }
}
