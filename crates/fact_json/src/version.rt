// The versions of the form of dictionaries.
ghost use Rattle.std.specs.Prelude.{◌≡◌};
ghost use Rattle.fact_json.specs.Versions.{version_of, version_text};

/// A version of the form of dictionaries.
#[derive(Clone, Copy, PartialEq, Eq)]
pub enum Version {
    First,
    /// A fact may have a conditional.
    Second,
    /// The law profile: all of the second, operators for ages, months and multiples, and tables.
    Law,
}

/// The version of this text.
pub fn version_named(text: &str) -> Option<Version>
    ensures { result ≡ version_of text.now }
{
    match text {
        "1" => Some(Version::First),
        "2" => Some(Version::Second),
        "law-1" => Some(Version::Law),
        _ => None,
    }
}

/// The text of a version.
pub fn version_text(version: Version) -> &'static str
    ensures { result.now ≡ version_text version }
{
    match version {
        Version::First => "1",
        Version::Second => "2",
        Version::Law => "law-1",
    }
}
