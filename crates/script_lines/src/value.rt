// The text of a value in a command.
ghost use Rattle.std.specs.Prelude.{◌≡◌, string_bytes};

use std::marker::Model;

/// The text of a value, as it stands in a line: any UTF-8, also none. A contract sees its bytes.
#[derive(Drop)]
pub struct ValueText {
    text: String,
}

impl Model for ValueText {
    ghost use Rattle.std.specs.Prelude.{List, ℕ, string_bytes};

    ghost Value = { List ℕ };

    ghost view = { λ value. string_bytes value.text };
}

impl ValueText {
    /// Keeps the text: no memory is taken.
    pub fn new(text: String) -> ValueText
        ensures { result ≡ string_bytes text }
    {
        ValueText { text }
    }

    /// The text.
    pub fn as_str(&self) -> &str
        ensures { result.now ≡ self.now }
    {
        self.text.as_str()
    }

    /// The text, as it is kept: no memory is taken.
    pub fn into_string(self) -> String
        ensures { string_bytes result ≡ self }
    {
        let ValueText { text } = self;
        text
    }
}
