// The paths by which an expression names the fact that it reads.
ghost use Rattle.fact_paths.specs.Cuts.{at_slash};
ghost use Rattle.fact_paths.specs.Paths.{Reads, SpellsUsePath};
ghost use Rattle.fact_paths.specs.Parsing.{Gives, of_name, rooted_path_from, sibling_path_from};
ghost use Rattle.fact_paths.specs.declared.use_path.UsePath.TheVariants.{Inner};

use crate::cut::{cut_at_slash, strip};
use crate::fault::PathFault;
use crate::name::{Name, read_name};
use std::alloc::Global;
use std::fmt;

/// How an expression names the fact that it reads.
#[derive(Debug, PartialEq, Eq, Drop)]
pub enum UsePath {
    /// `/N`: the global fact.
    Global(Name),
    /// `../N`: the fact of the same member.
    Sibling(Name),
    /// `N`: the fact of the member that a condition is asked of.
    Inner(Name),
    /// `/N/*/M`: the fact of each member of the collection.
    Each(Name, Name),
    /// `/N/M`: the fact of the member that the global item is.
    Through(Name, Name),
    /// `../N/M`: the fact of the member that the item of the same member is.
    SiblingThrough(Name, Name),
}

fn read_sibling(alloc: Global, text: &str) -> Result<UsePath, PathFault>
    ensures { Gives (sibling_path_from text.now (at_slash text.now)) result }
{
    match cut_at_slash(text) {
        None => Ok(UsePath::Sibling(read_name(alloc, text)?)),
        Some((item, member)) => {
            let item = read_name(alloc, item)?;
            let member = read_name(alloc, member)?;
            Ok(UsePath::SiblingThrough(item, member))
        }
    }
}

fn read_rooted(alloc: Global, text: &str) -> Result<UsePath, PathFault>
    ensures { Gives (rooted_path_from text.now (at_slash text.now)) result }
{
    match cut_at_slash(text) {
        None => Ok(UsePath::Global(read_name(alloc, text)?)),
        Some((first, rest)) => match strip(rest, "*/") {
            None => {
                let first = read_name(alloc, first)?;
                let member = read_name(alloc, rest)?;
                Ok(UsePath::Through(first, member))
            }
            Some(member) => {
                let first = read_name(alloc, first)?;
                let member = read_name(alloc, member)?;
                Ok(UsePath::Each(first, member))
            }
        },
    }
}

fn read_inner(alloc: Global, text: &str) -> Result<UsePath, PathFault>
    ensures { Gives (of_name Inner text.now) result }
{
    Ok(UsePath::Inner(read_name(alloc, text)?))
}

/// The path that the text spells.
pub fn read_use_path(alloc: Global, text: &str) -> Result<UsePath, PathFault>
    ensures { Reads SpellsUsePath text.now result }
{
    if let Some(rest) = strip(text, "../") {
        return read_sibling(alloc, rest);
    }
    if let Some(rest) = strip(text, "/") {
        return read_rooted(alloc, rest);
    }
    read_inner(alloc, text)
}

impl fmt::Display for UsePath {
    ghost use Rattle.std.specs.Prelude.{Some};
    ghost use Rattle.fact_paths.specs.Paths.{use_path_text};

    ghost output = { λ path. Some (use_path_text path) };

    fn fmt<W: fmt::Write>(&self, f: &mut fmt::Formatter<W>) -> fmt::Result {
        match self {
            UsePath::Global(n) => write!(f, "/{n}"),
            UsePath::Sibling(n) => write!(f, "../{n}"),
            UsePath::Inner(n) => write!(f, "{n}"),
            UsePath::Each(n, m) => write!(f, "/{n}/*/{m}"),
            UsePath::Through(n, m) => write!(f, "/{n}/{m}"),
            UsePath::SiblingThrough(n, m) => write!(f, "../{n}/{m}"),
        }
    }
}
