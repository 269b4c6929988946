// Names of facts, members, enums and their options.
ghost use Rattle.std.specs.Prelude.{◌≡◌, IfOk, IsErrOf, string_bytes};
ghost use Rattle.std.specs.List.{list_all};
ghost use Rattle.fact_paths.specs.Names.{is_name, is_name_byte, IsName};
ghost use Rattle.fact_paths.specs.Parsing.{Gives, name_of};

use crate::fault::PathFault;
use std::alloc::{AllocError, Global};
use std::fmt;
use std::marker::Model;

/// A name: an ASCII letter, and then at most 63 letters, digits, `_` or `-`.
#[derive(Debug, Drop)]
pub struct Name {
    text: String,
}

impl Model for Name {
    ghost use Rattle.std.specs.Prelude.{List, ℕ, string_bytes};
    ghost use Rattle.fact_paths.specs.Names.{IsName};

    ghost Value = { List ℕ };

    ghost view = { λ name. string_bytes name.text };

    ghost invariant = { λ name. IsName (string_bytes name.text) };
}

fn are_name_bytes(text: &[u8]) -> bool
    ensures { result ≡ list_all is_name_byte text.now }
{
    text.iter()
        .all(|b| b.is_ascii_alphanumeric() || *b == b'_' || *b == b'-')
}

fn is_name_text(text: &[u8]) -> bool
    ensures { result ≡ is_name text.now }
{
    match text {
        [] => false,
        [first, rest @ ..] => {
            first.is_ascii_alphabetic() && rest.len() <= 63 && are_name_bytes(rest)
        }
    }
}

impl Name {
    /// The name that the text spells. It takes memory for a copy of the text.
    #[inline(always)]
    pub fn read(alloc: Global, text: &str) -> Result<Name, PathFault>
        ensures name { IfOk result (λ n. n ≡ text.now) }
        ensures good { IfOk result (λ _. IsName text.now) }
        ensures bad { IsErrOf result PathFault.BadPath → ¬ IsName text.now }
    {
        if !is_name_text(text.as_bytes()) {
            return Err(PathFault::BadPath);
        }
        let text = String::from_str(alloc, text)?;
        Ok(Name { text })
    }

    /// The text of the name.
    pub fn as_str(&self) -> &str
        ensures text { result.now ≡ self.now }
        ensures good { IsName self.now }
    {
        self.text.as_str()
    }

    /// The text of the name, as it is kept: no memory is taken.
    pub fn into_string(self) -> String
        ensures text { string_bytes result ≡ self }
        ensures good { IsName self }
    {
        let Name { text } = self;
        text
    }

    /// An equal name, on memory of its own.
    pub fn copy(&self, alloc: Global) -> Result<Name, AllocError>
        ensures { IfOk result (λ n. n ≡ self.now) }
    {
        let text = String::from_str(alloc, self.text.as_str())?;
        Ok(Name { text })
    }
}

impl fmt::Display for Name {
    ghost use Rattle.std.specs.Prelude.{Some};

    ghost output = { λ name. Some name };

    fn fmt<W: fmt::Write>(&self, f: &mut fmt::Formatter<W>) -> fmt::Result {
        f.write_str(self.text.as_str())
    }
}

impl PartialEq for Name {
    ghost use Rattle.std.specs.Prelude.{◌==◌};
    ghost use Rattle.std.specs.Cmp.Lexicographic.{pointwise};
    ghost use Rattle.std.specs.Cmp.{partial_equiv_from_equiv};
    ghost use Rattle.std.proofs.lemmas.Cmp.{nat_list_eq_equiv};

    ghost eq = { pointwise ◌==◌ };

    ghost laws = { partial_equiv_from_equiv nat_list_eq_equiv };

    fn eq(&self, other: &Name) -> bool {
        self.text.as_str() == other.text.as_str()
    }
}

impl Eq for Name {
    ghost use Rattle.std.proofs.lemmas.Cmp.{nat_list_eq_equiv};

    ghost laws = { nat_list_eq_equiv };
}

// The name that the text spells, in the form that the readers of paths use.
pub fn read_name(alloc: Global, text: &str) -> Result<Name, PathFault>
    ensures { Gives (name_of text.now) result }
{
    Name::read(alloc, text)
}
