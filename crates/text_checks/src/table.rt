// Adding checks to a table, finding them by name and running them by place.
ghost use Rattle.std.specs.Prelude.{◌≡◌, ◌↔◌, ◌+◌, ◌-◌, ◌<◌, ◌≤◌, ◌^◌, ◌∷◌, [], ◌++◌, Bool, ℕ, List, OnOk, OnErr, IsErrOf, IsSome, IfSome, length, map, slice_get, option_map};
ghost use Rattle.std.specs.Option.{option_copied};
ghost use Rattle.text_checks.specs.Checks.{IsCode, check_says};
ghost use Rattle.text_checks.specs.Places.{place_of};
ghost use Rattle.text_checks.specs.Tables.{check_names, named_checks};

use crate::check::{Check, CheckTable, Test};
use fact_paths::Name;
use std::alloc::Global;

/// Why a check wasn't added.
#[derive(Clone, Copy, Debug, PartialEq, Eq)]
pub enum TableFault {
    /// The table has a check of this name.
    Same,
    NoMemory,
}

impl CheckTable {
    /// No check is there.
    pub fn new(alloc: Global) -> CheckTable
        ensures { result.checks.items ≡ [] }
    {
        CheckTable {
            checks: Vec::new(alloc),
        }
    }

    /// Adds a check under a name that isn't there. The closure has to answer as `check_says` does
    /// for the code, from 1 to 4.
    pub fn add(&mut self, name: Name, code: u32, check: Test) -> Result<(), TableFault>
        requires room { length self.old.checks.items < 2 ^ 32 - 1 }
        requires code { IsCode code }
        requires callable { (text : _) → length text.now ≤ 1000 → Test.pre check text }
        requires says { (text : _) (answer : Bool) → length text.now ≤ 1000
            → Test.post check text answer → answer ≡ check_says code text.now }
        ensures added { OnOk result (named_checks self.new ≡ named_checks self.old ++ (name, code) ∷ []) }
        ensures count { OnOk result (length self.new.checks.items ≡ length self.old.checks.items + 1) }
        ensures same { IsErrOf result TableFault.Same ↔ IsSome (place_of self.old.checks.items (λ c. c.name) name) }
        ensures unchanged { OnErr result (self.new.checks.items ≡ self.old.checks.items) }
    {
        if self.find(name.as_str()).is_some() {
            return Err(TableFault::Same);
        }
        match self.checks.push(Check::new(name, code, check)) {
            Ok(()) => Ok(()),
            Err(_) => Err(TableFault::NoMemory),
        }
    }

    /// The place of the check of this name, from 0.
    pub fn find(&self, name: &str) -> Option<u32>
        ensures { result ≡ place_of self.now.checks.items (λ c. c.name) name.now }
    {
        for (place, check) in self.checks.iter().enumerate() {
            if check.name.as_str() == name {
                return Some(place as u32);
            }
        }
        None
    }

    /// How many checks are there.
    pub fn len(&self) -> u32
        ensures { result ≡ length self.now.checks.items }
    {
        self.checks.len() as u32
    }

    /// The name of the check at the place, from 0, or `None` where there is none.
    pub fn name(&self, place: u32) -> Option<&Name>
        ensures { option_copied result ≡ option_map (λ c. c.name) (slice_get self.now.checks.items place) }
    {
        match self.checks.get(place as usize) {
            Some(check) => Some(&check.name),
            None => None,
        }
    }

    /// The code of the check at the place, from 0, or `None` where there is none.
    pub fn code(&self, place: u32) -> Option<u32>
        ensures { result ≡ option_map (λ c. c.code) (slice_get self.now.checks.items place) }
    {
        match self.checks.get(place as usize) {
            Some(check) => Some(check.code),
            None => None,
        }
    }

    /// What the check at the place says of a text of at most 1,000 bytes.
    pub fn run(&self, place: u32, text: &str) -> bool
        requires there { place < length self.now.checks.items }
        requires short { length text.now ≤ 1000 }
        ensures { IfSome (slice_get self.now.checks.items place) (λ c. result ≡ check_says c.code text.now) }
    {
        self.checks[place as usize].run(text)
    }
}
