//! Annotations: comments that are read as tokens.
//!
//! One has an opening, from its quote up to the end of the word `assert` or `invariant`; an inner text; and a closing.

ghost use Rattle.std.specs.Prelude.{◌≡◌, ◌<◌, ◌≤◌, ◌+◌, ◌^◌, length, option_map, IfSome};
ghost use Rattle.cp_text.specs.Annotations as spec;

use crate::piece::{Class, is_separator, run_len};
use crate::token::Mark;

/// An annotation at the front of a text.
#[derive(Clone, Copy)]
pub struct Annotation {
    pub mark: Mark,
    /// The bytes of the opening, with its quote.
    pub opening: usize,
    /// The bytes of the inner text.
    pub inner: usize,
}

/// The annotation that a comment is; `text` is what stands between the quotes.
#[tactic(auto, unfolding(crate::specs::Annotations::annotation_in))]
pub fn annotation_in(text: &[u8]) -> Option<Annotation>
    requires { length text.now < 2 ^ 16 }
    ensures value { result ≡ option_map spec.extents (spec.annotation_in text.now) }
    ensures within { IfSome result (λ a. a.opening + a.inner ≤ length text.now + 1) }
{
    let before = before_word(text)?;
    let (_, rest) = text.split_at(before);
    let len = run_len(Class::Word, rest);
    let (word, behind) = rest.split_at(len);
    let mark = opening_mark(word)?;
    Some(Annotation {
        mark,
        opening: before + len + 1,
        inner: inner_len(behind),
    })
}

// How many bytes stand before the word: separators, `(*` and separators.
fn before_word(text: &[u8]) -> Option<usize>
    requires { length text.now < 2 ^ 16 }
    ensures value { result ≡ spec.before_word text.now }
    ensures within { IfSome result (λ n. n ≤ length text.now) }
{
    let blanks = run_len(Class::Separator, text);
    match &text[blanks..] {
        [b'(', b'*', more @ ..] => Some(blanks + 2 + run_len(Class::Separator, more)),
        _ => None,
    }
}

// The opening that ends in this word.
fn opening_mark(word: &[u8]) -> Option<Mark>
    ensures { result ≡ spec.opening_mark word.now }
{
    match word {
        [b'a', b's', b's', b'e', b'r', b't'] => Some(Mark::Assert),
        [b'i', b'n', b'v', b'a', b'r', b'i', b'a', b'n', b't'] => Some(Mark::Invariant),
        _ => None,
    }
}

// How many bytes of the text behind the word stand before the closing.
fn inner_len(text: &[u8]) -> usize
    ensures value { result ≡ length (spec.inner text.now) }
    ensures within { result ≤ length text.now }
{
    match without_separators(text) {
        [inner @ .., b'*', b')'] => inner.len(),
        _ => text.len(),
    }
}

// The text without the separators at its end.
#[tactic(auto, using(crate::proofs::AnnotationLaws::without_all, crate::proofs::AnnotationLaws::without_last, crate::proofs::AnnotationLaws::without_stops))]
fn without_separators(text: &[u8]) -> &[u8]
    ensures { result.now ≡ spec.without_separators text.now }
{
    let mut left = text.len();
    while 0 < left {
        let before = left - 1;
        if !is_separator(text[before]) {
            return &text[..left];
        }
        left = before;
    }
    &[]
}
