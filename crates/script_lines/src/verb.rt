// The words with which commands begin.
ghost use Rattle.std.specs.Prelude.{◌≡◌};
ghost use Rattle.script_lines.specs.Parsing.{verb_of as verb_in};

/// The first word of a command that has more words.
#[derive(Clone, Copy, PartialEq, Eq)]
pub enum Verb {
    Set,
    Clear,
    OpenList,
    Add,
    Remove,
    Override,
    Release,
    Get,
    Final,
    Stamp,
    Missing,
    Watch,
    Unwatch,
}

/// The verb that is this word. Those with which most lines begin are told by their bytes, which takes a fifth of what a test of two
/// texts takes.
pub fn verb_of(word: &str) -> Option<Verb>
    ensures { result ≡ verb_in word.now }
{
    match word.as_bytes() {
        b"set" => Some(Verb::Set),
        b"get" => Some(Verb::Get),
        b"final" => Some(Verb::Final),
        _ => verb_of_text(word),
    }
}

// The verb that is this word, whichever it is.
fn verb_of_text(word: &str) -> Option<Verb>
    ensures { result ≡ verb_in word.now }
{
    match word {
        "set" => Some(Verb::Set),
        "clear" => Some(Verb::Clear),
        "open" => Some(Verb::OpenList),
        "add" => Some(Verb::Add),
        "remove" => Some(Verb::Remove),
        "override" => Some(Verb::Override),
        "release" => Some(Verb::Release),
        "get" => Some(Verb::Get),
        "final" => Some(Verb::Final),
        "stamp" => Some(Verb::Stamp),
        "missing" => Some(Verb::Missing),
        "watch" => Some(Verb::Watch),
        "unwatch" => Some(Verb::Unwatch),
        _ => None,
    }
}
