// The readers of one fact.
ghost use Rattle.std.specs.Prelude.{◌≡◌, [], ◌∷◌, ◌++◌, OnOk};
ghost use Rattle.dep_index.specs.Noting.{newest, noted};

use fact_values::NoMemory;
use std::alloc::Global;
use std::marker::Model;

/// A fact that mentions another one.
#[derive(Clone, Copy, Debug, PartialEq, Eq)]
pub struct ReaderOf {
    /// Its number.
    pub fact: u32,
    /// Whether each of its mentions of the other is of the same member.
    pub same: bool,
}

/// The facts that mention a fact.
#[derive(Drop)]
pub struct ReadersOf {
    readers: Vec<ReaderOf>,
}

impl Model for ReadersOf {
    ghost use Rattle.std.specs.Prelude.{List};
    ghost use Rattle.dep_index.specs.declared.readers_of.ReaderOf.{ReaderOf};

    ghost Value = { List ReaderOf };

    ghost view = { λ r. r.readers.items };
}

impl ReadersOf {
    pub fn new(alloc: Global) -> ReadersOf
        ensures { result ≡ [] }
    {
        ReadersOf {
            readers: Vec::new(alloc),
        }
    }

    pub fn readers(&self) -> &[ReaderOf]
        ensures { result.now ≡ self.now }
    {
        self.readers.as_slice()
    }

    fn newest(&self) -> Option<ReaderOf>
        ensures { result ≡ newest self.now }
    {
        self.readers.last().copied()
    }

    fn push(&mut self, reader: ReaderOf) -> Result<(), NoMemory>
        ensures { OnOk result (self.new ≡ self.old ++ reader ∷ []) }
    {
        self.readers.push(reader)?;
        Ok(())
    }

    /// Notes one more mention by the fact that is read now.
    pub fn note(&mut self, reader: u32, same: bool) -> Result<(), NoMemory>
        ensures { OnOk result (self.new ≡ noted reader self.old same) }
    {
        match self.newest() {
            None => self.push(ReaderOf { fact: reader, same }),
            Some(newest) => {
                if newest.fact != reader {
                    return self.push(ReaderOf { fact: reader, same });
                }
                let place = self.readers.len() - 1;
                self.readers[place] = ReaderOf {
                    fact: reader,
                    same: newest.same && same,
                };
                Ok(())
            }
        }
    }
}
