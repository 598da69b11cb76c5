//! A text that is written piece by piece.

ghost use Rattle.std.specs.Prelude.{
  ◌≡◌,
  Some,
  None,
  List,
  [],
  string_bytes,
  encode_utf8,
  length,
  MatchResult,
  MatchOption,
  IfSome,
};
ghost use Rattle.cp_prose.specs.Telling as spec;

use std::alloc::{AllocError, Global};
use std::fmt::Display;
use std::marker::Model;

/// A text that is written piece by piece. Whoever writes a piece need not ask whether there was memory for it: where it was refused, the text takes
/// nothing more, and says so at the end.
#[derive(Drop)]
pub struct Prose {
    text: String,
    is_refused: bool,
}

impl Model for Prose {
    ghost use Rattle.std.specs.Prelude.{List, ℕ, Option, Some, None, string_bytes, if◌then◌else◌};

    ghost Value = { Option (List ℕ) };

    ghost view = { λ p. (if p.is_refused then None else Some (string_bytes p.text)) };
}

impl Prose {
    /// An empty text.
    pub fn new(alloc: Global) -> Prose
        ensures { result ≡ Some [] }
    {
        Prose {
            text: String::new(alloc),
            is_refused: false,
        }
    }

    /// Appends a piece.
    pub fn put(&mut self, piece: &str)
        ensures { spec.UnlessRefused self.new (spec.appended self.old piece.now) }
    {
        if !self.is_refused && self.text.push_str(piece).is_err() {
            self.is_refused = true;
        }
    }

    /// Appends a character.
    pub fn put_char(&mut self, character: char)
        ensures { spec.UnlessRefused self.new (spec.appended self.old (encode_utf8 character)) }
    {
        if !self.is_refused && self.text.push(character).is_err() {
            self.is_refused = true;
        }
    }

    /// Appends a value as it is displayed, as the digits of a number.
    pub fn put_display<D: Display + Drop>(&mut self, value: D)
        ensures { IfSome (D.output value) (λ bytes. spec.UnlessRefused self.new (spec.appended self.old bytes)) }
    {
        if !self.is_refused && write!(self.text, "{value}").is_err() {
            self.is_refused = true;
        }
    }

    /// Appends a text that may have failed for want of memory.
    pub fn put_made(&mut self, made: Result<String, AllocError>)
        ensures { MatchResult made
            (λ text. spec.UnlessRefused self.new (spec.appended self.old (string_bytes text)))
            (λ _. self.new ≡ None) }
    {
        match made {
            Ok(text) => self.put(text.as_str()),
            Err(_) => self.refuse(),
        }
    }

    /// Appends another text; where memory was refused for that one, it was for this one too.
    pub fn put_prose(&mut self, other: &Prose)
        ensures { MatchOption other.now
            (self.new ≡ None)
            (λ bytes. spec.UnlessRefused self.new (spec.appended self.old bytes)) }
    {
        if other.is_refused {
            self.refuse();
        } else {
            self.put(other.text.as_str());
        }
    }

    /// Memory was refused for what the text was to tell.
    pub fn refuse(&mut self)
        ensures { self.new ≡ None }
    {
        self.is_refused = true;
    }

    /// How many bytes were written.
    pub fn len(&self) -> usize
        ensures { IfSome self.now (λ bytes. result ≡ length bytes) }
    {
        self.text.len()
    }

    /// What was written. `AllocError` if memory was refused for some part of it, and only then.
    pub fn as_str(&self) -> Result<&str, AllocError>
        ensures { MatchResult result (λ text. self.now ≡ Some text.now) (λ _. self.now ≡ None) }
    {
        if self.is_refused {
            return Err(AllocError);
        }
        Ok(self.text.as_str())
    }

    /// The text. `AllocError` if memory was refused for some part of it, and only then.
    pub fn finish(self) -> Result<String, AllocError>
        ensures { MatchResult result (λ text. self ≡ Some (string_bytes text)) (λ _. self ≡ None) }
    {
        if self.is_refused {
            return Err(AllocError);
        }
        Ok(self.text)
    }
}
