// Texts that a value may hold.
ghost use Rattle.std.specs.Prelude.{◌≡◌, ◌↔◌, IsSome, IfSome, IfOk, string_bytes};
ghost use Rattle.fact_values.specs.Texts.{IsPlainText, has_control as text_has_control, is_plain_text as text_is_plain};

use crate::memory::NoMemory;
use std::alloc::Global;
use std::marker::Model;

/// The most bytes of a text.
const MOST_BYTES: usize = 1000;

/// A text of at most 1,000 bytes without control characters. It may be empty.
#[derive(Debug, Drop)]
pub struct Text {
    text: String,
}

impl Model for Text {
    ghost use Rattle.std.specs.Prelude.{List, ℕ, string_bytes};
    ghost use Rattle.fact_values.specs.Texts.{IsPlainText};

    ghost Value = { List ℕ };

    ghost view = { λ t. string_bytes t.text };

    ghost invariant = { λ t. IsPlainText (string_bytes t.text) };
}

impl Text {
    /// The text, or `None` where it is too long or has a character from U+0000 to U+001F or from
    /// U+007F to U+009F.
    pub fn new(text: String) -> Option<Text>
        ensures accepted { IsSome result ↔ IsPlainText (string_bytes text) }
        ensures value { IfSome result (λ t. t ≡ string_bytes text) }
    {
        if is_plain_text(text.as_str()) {
            Some(Text { text })
        } else {
            None
        }
    }

    /// The text itself.
    pub fn as_str(&self) -> &str
        ensures value { result.now ≡ self.now }
        ensures plain { IsPlainText result.now }
    {
        self.text.as_str()
    }

    /// An equal text.
    pub(crate) fn copy(&self, alloc: Global) -> Result<Text, NoMemory>
        ensures { IfOk result (λ t. t ≡ self.now) }
    {
        let text = String::from_str(alloc, self.text.as_str())?;
        Ok(Text { text })
    }
}

/// Whether a value may hold the text.
fn is_plain_text(text: &str) -> bool
    ensures { result ≡ text_is_plain text.now }
{
    text.len() <= MOST_BYTES && !has_control(text)
}

/// Whether a control character stands in the text.
fn has_control(text: &str) -> bool
    ensures { result ≡ text_has_control text.now }
{
    text.chars().any(|c| c.is_control())
}
