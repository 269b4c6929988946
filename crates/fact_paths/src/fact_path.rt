// The paths by which a dictionary names its facts.
ghost use Rattle.fact_paths.specs.Cuts.{at_slash};
ghost use Rattle.fact_paths.specs.Paths.{Reads, SpellsFactPath};
ghost use Rattle.fact_paths.specs.Parsing.{Gives, fact_path_from};

use crate::cut::{cut_at_slash, strip};
use crate::fault::PathFault;
use crate::name::{Name, read_name};
use std::alloc::Global;
use std::fmt;

/// The path by which a dictionary names a fact.
#[derive(Debug, PartialEq, Eq, Drop)]
pub enum FactPath {
    /// `/N`: a fact that stands once.
    Global(Name),
    /// `/N/*/M`: a fact of each member of the collection `/N`.
    Member(Name, Name),
}

fn read_rooted(alloc: Global, text: &str) -> Result<FactPath, PathFault>
    ensures { Gives (fact_path_from text.now (at_slash text.now)) result }
{
    match cut_at_slash(text) {
        None => Ok(FactPath::Global(read_name(alloc, text)?)),
        Some((collection, rest)) => {
            let Some(member) = strip(rest, "*/") else {
                return Err(PathFault::BadPath);
            };
            let collection = read_name(alloc, collection)?;
            let member = read_name(alloc, member)?;
            Ok(FactPath::Member(collection, member))
        }
    }
}

/// The path that the text spells.
pub fn read_fact_path(alloc: Global, text: &str) -> Result<FactPath, PathFault>
    ensures { Reads SpellsFactPath text.now result }
{
    match strip(text, "/") {
        None => Err(PathFault::BadPath),
        Some(rest) => read_rooted(alloc, rest),
    }
}

impl fmt::Display for FactPath {
    ghost use Rattle.std.specs.Prelude.{Some};
    ghost use Rattle.fact_paths.specs.Paths.{fact_path_text};

    ghost output = { λ path. Some (fact_path_text path) };

    fn fmt<W: fmt::Write>(&self, f: &mut fmt::Formatter<W>) -> fmt::Result {
        match self {
            FactPath::Global(n) => write!(f, "/{n}"),
            FactPath::Member(n, m) => write!(f, "/{n}/*/{m}"),
        }
    }
}
