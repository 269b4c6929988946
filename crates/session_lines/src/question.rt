// Questions, by the bytes of their lines.
ghost use Rattle.std.specs.Prelude.{◌≡◌, IfSome};
ghost use Rattle.std.specs.Char.{is_ascii};
ghost use Rattle.std.specs.List.{list_all};
ghost use Rattle.session_lines.specs.Questions.{IsQuestion};

/// What is asked of a slot.
#[derive(Clone, Copy, Debug, PartialEq, Eq)]
pub enum Question {
    /// `get`: its result.
    Get,
    /// `final`: whether its result is final.
    Final,
}

// The question whose word the line begins with, and what stands behind the word.
fn behind_word(line: &[u8]) -> Option<(Question, &[u8])>
    ensures { IfSome result (λ question. IsQuestion line.now question.0 question.1.now) }
{
    match line {
        [b'g', b'e', b't', b' ', rest @ ..] => Some((Question::Get, rest)),
        [b'f', b'i', b'n', b'a', b'l', b' ', rest @ ..] => Some((Question::Final, rest)),
        _ => None,
    }
}

// Whether all bytes are ASCII.
fn are_ascii(bytes: &[u8]) -> bool
    ensures { result ≡ list_all is_ascii bytes.now }
{
    bytes.iter().all(|byte| byte.is_ascii())
}

// The bytes as a text, where they are ASCII.
#[inline(always)]
fn text_of(bytes: &[u8]) -> Option<&str>
    ensures { IfSome result (λ text. text.now ≡ bytes.now) }
{
    if are_ascii(bytes) {
        return Some(unsafe { str::from_utf8_unchecked(bytes) });
    }
    None
}

/// The question whose word the line begins with, and the text behind the word. It tells none where that isn't ASCII: no path is
/// spelled so.
#[inline(always)]
pub fn question_of(line: &[u8]) -> Option<(Question, &str)>
    ensures { IfSome result (λ question. IsQuestion line.now question.0 question.1.now) }
{
    let (question, bytes) = behind_word(line)?;
    let text = text_of(bytes)?;
    Some((question, text))
}
