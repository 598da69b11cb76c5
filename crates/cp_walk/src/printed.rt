//! Printed texts.

ghost use Rattle.std.specs.Prelude.{◌≡◌, string_bytes};

use std::marker::Model;

/// The lines of a report or a trace.
#[derive(Drop)]
pub struct Text {
    lines: String,
}

impl Model for Text {
    ghost use Rattle.std.specs.Prelude.{List, ℕ, string_bytes};

    ghost Value = { List ℕ };

    ghost view = { λ t. string_bytes t.lines };
}

impl Text {
    /// These lines.
    pub fn new(lines: String) -> Text
        ensures { result ≡ string_bytes lines }
    {
        Text { lines }
    }

    /// The lines as a text.
    pub fn as_str(&self) -> &str
        ensures { result.now ≡ self.now }
    {
        self.lines.as_str()
    }
}

/// The text of a table or of a trace.
#[derive(Drop)]
pub struct Report {
    pub text: Text,
}
