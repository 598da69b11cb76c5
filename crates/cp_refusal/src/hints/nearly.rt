//! Comments that are no annotations, and were meant to be some.

ghost use Rattle.std.specs.Prelude.{◌≤◌, length};

use crate::hints::Gathering;
use crate::place::{comments, text_in};
use crate::spelling::is_nearly;
use std::alloc::AllocError;

const SENTENCE: &str =
    "this is a comment like any other, and nothing is looked at: an annotation is written as in \"(* assert x > 0 *)\"";

/// The longest word that is looked at.
const MOST_LETTERS: usize = 10;

fn is_separator(byte: u8) -> bool {
    matches!(byte, b' ' | b'\t' | b'\r' | b'\n')
}

// What follows the separators at the front.
fn after_separators(text: &[u8]) -> &[u8] {
    for (at, byte) in text.iter().enumerate() {
        if !is_separator(*byte) {
            return &text[at..];
        }
    }
    &[]
}

// What follows one byte at the front and the separators behind it, where that byte stands there.
fn after_byte(text: &[u8], wanted: u8) -> &[u8] {
    match text {
        [byte, rest @ ..] if *byte == wanted => after_separators(rest),
        _ => text,
    }
}

// How many letters stand at the front.
fn letters(text: &[u8]) -> usize
    ensures { result ≤ length text.now }
{
    for (at, byte) in text.iter().enumerate() {
        if !byte.is_ascii_alphabetic() {
            return at;
        }
    }
    text.len()
}

// Whether the text begins with a word that is nearly this one, in letters of any case.
fn begins_nearly(text: &[u8], word: &[u8]) -> bool {
    let count = letters(text);
    if count > MOST_LETTERS {
        return false;
    }
    let mut lower = [0u8; MOST_LETTERS];
    for (at, byte) in text[..count].iter().enumerate() {
        lower[at] = byte.to_ascii_lowercase();
    }
    is_nearly(&lower[..count], word)
}

// Whether a comment, with its quotes, was meant to be an annotation.
fn is_meant(comment: &[u8]) -> bool {
    let text = after_separators(comment.get(1..).unwrap_or(&[]));
    let inner = after_byte(after_byte(text, b'('), b'*');
    begins_nearly(inner, b"assert")
        || begins_nearly(inner, b"invariant")
        || inner.len() < text.len() && begins_nearly(inner, b"assertion")
}

impl<'a, 'b> Gathering<'a, 'b> {
    /// A hint on each comment that was meant to be an annotation, so that none is lost silently.
    pub fn add_nearly_annotations(&mut self) -> Result<(), AllocError> {
        for span in comments(self.alloc, self.source, self.declarations.tokens)? {
            if is_meant(text_in(self.source, span)) {
                self.add_in(span, SENTENCE);
            }
        }
        Ok(())
    }
}
