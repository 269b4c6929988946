// The index of facts by path.
ghost use Rattle.std.specs.Prelude.{◌≡◌, [], ◌++◌, OnErr, OnOk, None};
ghost use Rattle.dict_source.specs.PathIndex.{noted, place_of};

use indexmap::IndexMap;
use std::alloc::{AllocError, Global};
use std::marker::Model;

/// The number of a fact by the text of its path without the first slash.
#[derive(Drop)]
pub struct PathIndex {
    numbers: IndexMap<String, u32>,
}

impl Model for PathIndex {
    ghost use Rattle.std.specs.Prelude.{List};
    ghost use Rattle.dict_source.specs.PathIndex.{Entry, entries_of};

    ghost Value = { List Entry };

    ghost view = { λ index. entries_of index.numbers.entries };
}

impl PathIndex {
    /// It keeps no number, and takes no memory.
    pub fn new(alloc: Global) -> PathIndex
        ensures { result ≡ [] }
    {
        PathIndex {
            numbers: IndexMap::new(alloc),
        }
    }

    /// The number that is kept under the text.
    pub fn get(&self, text: &str) -> Option<u32>
        ensures { result ≡ place_of text.now self.now }
    {
        self.numbers.get(text).copied()
    }

    /// Keeps the number under the text, unless one is kept there.
    pub fn note(&mut self, text: &str, number: u32) -> Result<(), AllocError>
        ensures noted { OnOk result (self.new ≡ noted self.old text.now number) }
        ensures kept { OnErr result (self.new ≡ self.old) }
    {
        if self.numbers.contains_key(text) {
            return Ok(());
        }
        let key = String::from_str(*self.numbers.allocator(), text)?;
        self.numbers.insert(key, number)?;
        Ok(())
    }
}
