// Cutting a text at its first slash, and behind a given beginning.
ghost use Rattle.std.specs.Prelude.{◌≡◌, ◌≢◌, All, IfNone, IfSome, MatchOption, option_copied};
ghost use Rattle.fact_paths.specs.Cuts.{IsFirstAt, at_slash, after};

// The place of the first slash.
fn slash_at(text: &[u8]) -> Option<usize>
    ensures found { IfSome result (IsFirstAt 47 text.now) }
    ensures none { IfNone result (All (λ b. b ≢ 47) text.now) }
{
    text.iter().position(|byte| *byte == b'/')
}

// The texts before and behind the first slash. It goes byte by byte, which takes less for a short text than std's search does.
pub fn cut_at_slash(text: &str) -> Option<(&str, &str)>
    ensures { MatchOption result (at_slash text.now ≡ None) (λ found. at_slash text.now
        ≡ Some (found.0.now, found.1.now)) }
{
    let at = slash_at(text.as_bytes())?;
    Some((&text[..at], &text[at + 1..]))
}

// The text behind this front, where it begins with it.
pub fn strip<'a>(text: &'a str, front: &str) -> Option<&'a str>
    ensures { option_copied result ≡ after front.now text.now }
{
    text.strip_prefix(front)
}
