// The texts by which facts are found: those of their paths without the first slash.
ghost use Rattle.std.specs.Prelude.{◌≡◌, codes, option_copied};
ghost use Rattle.fact_paths.specs.Cuts.{after};
ghost use Rattle.fact_paths.specs.Names.{IsName};
ghost use Rattle.fact_paths.specs.declared.fact_path.FactPath.TheVariants.{Member};
ghost use Rattle.dict_source.specs.PathIndex.{key_of, path_key};

use arrayvec::ArrayString;
use fact_paths::Name;

/// The most bytes of a fact's path behind its first slash: two names of 64 and `/*/`.
const LONGEST: usize = 131;

/// What stands behind the first byte, where that is a slash.
pub fn behind_slash(text: &str) -> Option<&str>
    ensures { option_copied result ≡ after (codes "/") text.now }
{
    text.strip_prefix("/")
}

/// The text of a fact's path without its slash.
pub fn key_in(text: &str) -> &str
    ensures { result.now ≡ key_of text.now }
{
    match behind_slash(text) {
        None => text,
        Some(rest) => rest,
    }
}

/// The text `N/*/M`.
#[tactic(auto, using(value_text::proofs::EnumLemmas::name_short))]
pub fn member_key(collection: &Name, member: &Name) -> ArrayString<LONGEST>
    ensures text { result.bytes ≡ path_key (Member collection.now member.now) }
    ensures good_collection { IsName collection.now }
    ensures good_member { IsName member.now }
{
    let mut text = ArrayString::new();
    text.push_str(collection.as_str());
    text.push_str("/*/");
    text.push_str(member.as_str());
    text
}
