// The type of accepted dictionaries, which have no fault.
ghost use Rattle.std.specs.Prelude.{◌≡◌, ◌↔◌, ◌⊎◌, false, length, IfErr, IfOk, IsTrue};
ghost use Rattle.text_checks.specs.Tables.{check_names, named_checks};
ghost use Rattle.dict_source.specs.Dictionary.{dictionary_view};
ghost use Rattle.dict_source.specs.Finding.{IsNumber};
ghost use Rattle.dict_order.specs.Ranks.{rank_of};
ghost use Rattle.dict_meaning.specs.Accepted.{IsAccepted};
ghost use Rattle.dictionary.specs.AcceptedParts.{accepted, names_of};
ghost use Rattle.dictionary.specs.ByRank.{AreByRank};
ghost use Rattle.dictionary.specs.Checks.{has_check};
ghost use Rattle.dict_meaning.specs.Homes.{home};
ghost use Rattle.dictionary.specs.Keeping.{IsKept, node_count};
ghost use Rattle.dictionary.specs.PartsView.{parts_view};
ghost use Rattle.dict_meaning.specs.Steady.{IsSteady, steady};
ghost use Rattle.dictionary.specs.declared.fault.DictFault.TheVariants.{NoMemory as WantsMemory};

use crate::fault::DictFault;
use crate::kept_check::{KeptCheck, are_of_table, keep_checks};
use crate::precomputed::{Precomputed, precompute};
use dict_source::DictSource;
use dict_types::Typed;
use fact_values::NoMemory;
use std::alloc::Global;
use std::marker::Model;
use std::sync::Arc;
use text_checks::CheckTable;

/// What a dictionary says, once for all that share it.
#[derive(Drop)]
struct Contents {
    source: DictSource,
    typed: Typed,
    ranks: Vec<u32>,
    checks: Vec<KeptCheck>,
    precomputed: Precomputed,
}

/// A dictionary that has no fault, with the types and ranks of its facts. Facts are numbered from 1. Sessions share it.
#[derive(Drop)]
pub struct Dictionary {
    contents: Arc<Contents>,
}

impl Model for Dictionary {
    ghost use Rattle.std.specs.Coded.{codes};
    ghost use Rattle.dict_source.specs.contracts.fact_source.FactSource as fact;
    ghost use Rattle.dictionary.specs.AcceptedParts.{AcceptedParts};
    ghost use Rattle.dictionary.specs.PartsView.{parts_view};
    ghost use Rattle.dictionary.specs.Keeping.{IsKept};

    ghost Value = { AcceptedParts };

    ghost coded = { Prim.hlevel (codes, fact.the_row.coded) };

    ghost view = { λ d. parts_view d.contents.value };

    ghost invariant = { λ d. IsKept (parts_view d.contents.value) d.contents.value.precomputed };
}

impl Dictionary {
    // The dictionary of these parts.
    pub(crate) fn keep(
        alloc: Global,
        source: DictSource,
        typed: Typed,
        ranks: Vec<u32>,
        table: &CheckTable,
    ) -> Result<Dictionary, DictFault>
        requires { IsAccepted (check_names table.now)
            (record { tree = dictionary_view source; typed = typed; ranks = ranks.items }) }
        ensures kept { IfOk result (λ d. d ≡ record {
          source = source;
          typed = typed;
          ranks = ranks.items;
          checks
              = named_checks table.now;
        }) }
        ensures memory { IfErr result (λ fault. fault ≡ WantsMemory) }
    {
        match keep_checks(alloc, table) {
            Ok(checks) => match precompute(alloc, &source, ranks.as_slice()) {
                Ok(precomputed) => Dictionary::with(
                    alloc,
                    Contents {
                        source,
                        typed,
                        ranks,
                        checks,
                        precomputed,
                    },
                ),
                Err(_) => {
                    drop(source);
                    drop(typed);
                    drop(ranks);
                    drop(checks);
                    Err(DictFault::NoMemory)
                }
            },
            Err(_) => {
                drop(source);
                drop(typed);
                drop(ranks);
                Err(DictFault::NoMemory)
            }
        }
    }

    // The dictionary that says this.
    fn with(alloc: Global, contents: Contents) -> Result<Dictionary, DictFault>
        requires { IsKept (parts_view contents) contents.precomputed }
        ensures kept { IfOk result (λ d. d ≡ parts_view contents) }
        ensures memory { IfErr result (λ fault. fault ≡ WantsMemory) }
    {
        match Arc::new(alloc, contents) {
            Ok(contents) => Ok(Dictionary { contents }),
            Err(_) => Err(DictFault::NoMemory),
        }
    }

    /// The same dictionary, of which nothing is copied. It fails where too many share it.
    pub fn share(&self) -> Result<Dictionary, NoMemory>
        ensures { IfOk result (λ d. d ≡ self.now) }
    {
        Ok(Dictionary {
            contents: self.contents.clone()?,
        })
    }

    /// The dictionary as it is written.
    pub fn source(&self) -> &DictSource
        ensures value { result.now ≡ self.now.source }
        ensures is_accepted { IsAccepted (names_of self.now.checks) (accepted self.now) }
    {
        &self.contents.source
    }

    /// The types, constants and limits of its facts.
    pub fn typed(&self) -> &Typed
        ensures { result.now ≡ self.now.typed }
    {
        &self.contents.typed
    }

    /// The rank of the fact: 0 where it mentions nothing, and else 1 more than the greatest rank that it mentions.
    pub fn rank(&self, fact: u32) -> u32
        requires { IsNumber (accepted self.now).tree.facts fact }
        ensures { result ≡ rank_of self.now.ranks fact }
    {
        self.contents.ranks[fact as usize - 1]
    }

    /// The number of the collection whose members have the fact, and 0 for a global fact.
    pub fn home(&self, fact: u32) -> u32
        requires { IsNumber (accepted self.now).tree.facts fact }
        ensures { result ≡ home (accepted self.now).tree fact }
    {
        self.contents.precomputed.homes[fact as usize - 1]
    }

    /// Each fact once, by rising rank, and those of one rank by rising number. What a fact mentions comes before it.
    pub fn by_rank(&self) -> &[u32]
        ensures { AreByRank self.now.ranks result.now }
    {
        self.contents.precomputed.by_rank.as_slice()
    }

    /// Whether no IsComplete stands in the body of the fact, nor in that of any fact that is reached from it by mentions of
    /// bodies.
    pub fn steady(&self, fact: u32) -> bool
        requires { IsNumber (accepted self.now).tree.facts fact }
        ensures tells { IsTrue result ↔ IsSteady (accepted self.now).tree fact }
        ensures value { result ≡ steady (accepted self.now) fact }
    {
        self.contents.precomputed.steady[fact as usize - 1]
    }

    /// How many facts there are.
    pub fn fact_count(&self) -> u32
        ensures { result ≡ length (accepted self.now).tree.facts }
    {
        self.contents.ranks.len() as u32
    }

    /// How many nodes all facts have.
    pub fn node_count(&self) -> u32
        ensures { result ≡ node_count (accepted self.now).tree }
    {
        self.contents.precomputed.nodes
    }

    /// Whether the table has the checks with which the dictionary was accepted, by name and code and in their order, or no
    /// fact has a check.
    pub fn same_checks(&self, table: &CheckTable) -> bool
        ensures { IsTrue result ↔ ((self.now.checks ≡ named_checks table.now)
            ⊎ (has_check (accepted self.now).tree ≡ false)) }
    {
        if !self.contents.precomputed.checked {
            return true;
        }
        are_of_table(self.contents.checks.as_slice(), table)
    }
}
