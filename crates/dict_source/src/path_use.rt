// Paths in expressions: what each spells, or its text where it spells none.
ghost use Rattle.std.specs.Prelude.{◌≡◌, IfOk, None, string_bytes};
ghost use Rattle.dict_source.specs.View.{use_view, use_of};

use fact_paths::{PathFault, UsePath, read_use_path};
use fact_values::NoMemory;
use std::alloc::Global;

/// A path of a use as it is written. The text of one that is spelled is that of the path, and isn't kept.
#[derive(Drop)]
pub enum PathUse {
    /// The path that the text spells.
    Spelled(UsePath),
    /// A text that spells none.
    Misspelled(String),
}

impl PathUse {
    /// The text, as it is written.
    pub fn text(&self, alloc: Global) -> Result<String, NoMemory>
        ensures { IfOk result (λ text. string_bytes text ≡ (use_view self.now).text) }
    {
        match self {
            PathUse::Spelled(path) => Ok(path.to_string(alloc)?),
            PathUse::Misspelled(text) => Ok(String::from_str(alloc, text.as_str())?),
        }
    }
}

fn misspelled(alloc: Global, text: &str) -> Result<PathUse, NoMemory>
    ensures { IfOk result (λ u. use_view u ≡ record { text = text.now; path = None }) }
{
    let copy = String::from_str(alloc, text)?;
    Ok(PathUse::Misspelled(copy))
}

/// The use that this text is.
pub fn read_use(alloc: Global, text: &str) -> Result<PathUse, NoMemory>
    ensures { IfOk result (λ u. use_view u ≡ use_of text.now) }
{
    match read_use_path(alloc, text) {
        Ok(path) => Ok(PathUse::Spelled(path)),
        Err(PathFault::BadPath) => misspelled(alloc, text),
        Err(PathFault::NoMemory) => Err(NoMemory),
    }
}
