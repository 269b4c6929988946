// A fake shelf in memory, for tests.
ghost use Rattle.std.specs.Prelude.{◌≡◌, ◌⊎◌, [], None, Some, Contains, OnOk, OnErr, MatchOption, string_bytes};
ghost use Rattle.std.specs.FinMap as map;
ghost use Rattle.fg_io.specs.Outside.{Fetches, FetchCause};
ghost use Rattle.fg_io.specs.ShelfState.{files_of, contents_in, files_shown, FetchEnds};

use crate::{FetchFault, Shelf};
use fact_values::NoMemory;
use std::alloc::Global;
use std::collections::BTreeMap;
use std::marker::Model;

/// Files in memory, which fail where they are asked to.
/// A fetch that finds no memory changes nothing, and isn't counted among the calls.
#[derive(Drop)]
pub struct MemShelf {
    alloc: Global,
    files: BTreeMap<String, Vec<u8>>,
    failing: Vec<u64>,
    calls: u64,
    faults: u64,
    failed_name: String,
}

impl Model for MemShelf {
    ghost use Rattle.std.specs.Prelude.{string_bytes};
    ghost use Rattle.fg_io.specs.ShelfState.{ShelfState, shelf_code, files_of};

    ghost Value = { ShelfState };

    ghost coded = { shelf_code };

    ghost view = { λ s. record {
      files = files_of s.files;
      failing = s.failing.items;
      calls = s.calls;
      faults = s.faults;
      failed_name = string_bytes s.failed_name;
    } };
}

// The contents of a name, where the call with this number isn't to fail.
fn found<'a>(
    files: &'a BTreeMap<String, Vec<u8>>,
    failing: &[u64],
    call: u64,
    name: &str,
) -> Option<&'a Vec<u8>>
    ensures { MatchOption result (Contains failing.now call ⊎ (map.get (files_of files.now) name.now ≡ None))
        (λ bytes. (¬ Contains failing.now call) × (map.get (files_of files.now) name.now ≡ Some bytes.now.items)) }
{
    if failing.contains(&call) {
        return None;
    }
    files.get(name)
}

impl MemShelf {
    /// A shelf with no names, and no calls that are to fail.
    pub fn new(alloc: Global) -> Self
        ensures { result ≡ record {
          files = map.empty;
          failing = [];
          calls = 0;
          faults = 0;
          failed_name = [];
        } }
    {
        MemShelf {
            alloc,
            files: BTreeMap::new(alloc),
            failing: Vec::new(alloc),
            calls: 0,
            faults: 0,
            failed_name: String::new(alloc),
        }
    }

    /// Gives the name these contents, in place of those that it had.
    pub fn add(&mut self, name: String, bytes: Vec<u8>) -> Result<(), NoMemory>
        ensures ok { OnOk result (self.new ≡ record self.old {
          files = map.insert self.old.files (string_bytes name) bytes.items;
        }) }
        ensures err { OnErr result (self.new ≡ self.old) }
    {
        self.files.insert(name, bytes)?;
        Ok(())
    }

    /// The fetches with these numbers, from 1, fail. Those before this call count too.
    pub fn fail_at(&mut self, calls: Vec<u64>)
        ensures { self.new ≡ record self.old { failing = calls.items } }
    {
        self.failing = calls;
    }
}

impl<S, K> Shelf<S, K> for MemShelf {
    ghost use Rattle.fg_io.specs.ShelfState.{files_shown, FetchEnds};

    ghost files = { files_shown };

    ghost fetched = { λ old script out name at_most answer new. FetchEnds old new name answer };

    fn fetch(
        &mut self,
        _script: &S,
        _out: &K,
        name: &str,
        at_most: u64,
    ) -> Result<Vec<u8>, FetchFault>
        ensures content { Fetches (contents_in self.old name.now) at_most result }
        ensures kept { contents_in self.new ≡ contents_in self.old }
        ensures cause { FetchCause name.now (files_shown self.old) (files_shown self.new) result }
        ensures ends { FetchEnds self.old self.new name.now result }
    {
        let asked = String::from_str(self.alloc, name)?;
        let call = self.calls.saturating_add(1);
        match found(&self.files, &self.failing, call, name) {
            Some(bytes) => {
                if bytes.len() as u64 > at_most {
                    self.calls = call;
                    return Err(FetchFault::TooLong);
                }
                let contents = bytes.to_vec(self.alloc)?;
                self.calls = call;
                Ok(contents)
            }
            None => {
                self.calls = call;
                self.faults = self.faults.saturating_add(1);
                self.failed_name = asked;
                Err(FetchFault::Failed)
            }
        }
    }
}
