//! What a lexeme means: its value, its word or its code.

ghost use Rattle.std.specs.Prelude.{◌≡◌, ◌<◌, ◌≤◌, ◌+◌, ◌^◌, length, map, IfOk};
ghost use Rattle.std.specs.Char.{is_ascii_digit, to_ascii_lowercase};
ghost use Rattle.std.specs.List.{list_all, All};
ghost use Rattle.std.specs.String.{string_bytes};
ghost use Rattle.cp_text.specs.Bytes.{is_printable};
ghost use Rattle.cp_text.specs.Lexemes as spec;
ghost use Rattle.cp_text.specs.Lexemes.{Reads};

use crate::fault::ScanCause;
use crate::piece::{Piece, Shape, first_piece};
use crate::token::{Kind, Name};
use crate::word::reserved_mark;
use std::alloc::{AllocError, Global};

const MOST_NUMBER: u32 = 32767;

const MOST_NAME_BYTES: usize = 40;

const MOST_TOKENS: usize = 20000;

const MOST_CODE: u16 = 127;

/// The piece at the front of a text after `count` tokens: its token's kind, if it is a lexeme, and its length.
#[tactic(auto, unfolding(crate::specs::Lexemes::next))]
pub fn next(alloc: Global, count: usize, text: &[u8]) -> Result<(Option<Kind>, usize), ScanCause>
    requires some { 0 < length text.now }
    requires short { length text.now < 2 ^ 16 }
    ensures value { Reads (spec.next count text.now) result }
    ensures within { IfOk result (λ p. (1 ≤ p.1) × (p.1 ≤ length text.now)) }
{
    let found = first_piece(text);
    if is_full(count) && begins_token(&found) {
        return Err(ScanCause::TooManyTokens);
    }
    let Piece { shape, len } = found?;
    Ok((kind(alloc, shape, &text[..len])?, len))
}

/// Whether no token may begin after `count` others.
pub fn is_full(count: usize) -> bool
    ensures { result ≡ spec.is_full count }
{
    count >= MOST_TOKENS
}

fn begins_token(found: &Result<Piece, ScanCause>) -> bool
    ensures { result ≡ spec.begins_token found.now }
{
    match found {
        Ok(piece) => !matches!(piece.shape, Shape::Separator | Shape::Comment),
        Err(cause) => matches!(cause, ScanCause::OpenChar),
    }
}

/// The kind of the token that a piece of this shape is, none for a separator and a comment.
fn kind(alloc: Global, shape: Shape, text: &[u8]) -> Result<Option<Kind>, ScanCause>
    requires { shape ≡ Shape.Name → All (λ b. b < 128) text.now }
    ensures { Reads (spec.kind shape text.now) result }
{
    match shape {
        Shape::Separator | Shape::Comment => Ok(None),
        Shape::Number => match number(text) {
            Some(value) => Ok(Some(Kind::Number(value))),
            None => Err(ScanCause::NumberTooLarge),
        },
        Shape::Name => Ok(Some(word(alloc, text)?)),
        Shape::Character => match character(inside_quotes(text)) {
            Some(code) => Ok(Some(Kind::Character(code))),
            None => Err(ScanCause::BadChar),
        },
        Shape::Sign(mark) => Ok(Some(Kind::Mark(mark))),
    }
}

/// The number that the digits spell, if it is not too large.
#[tactic(auto, using(crate::proofs::Numbers::number_over), unfolding(crate::specs::Lexemes::number))]
fn number(digits: &[u8]) -> Option<u16>
    ensures { result ≡ spec.number digits.now }
{
    let mut value: u32 = 0;
    for b in digits {
        value = value * 10 + u32::from(b.saturating_sub(b'0'));
        if value > MOST_NUMBER {
            return None;
        }
    }
    Some(value as u16)
}

/// A name, or a reserved word.
#[tactic(auto, unfolding(crate::specs::Lexemes::word))]
fn word(alloc: Global, text: &[u8]) -> Result<Kind, ScanCause>
    requires { All (λ b. b < 128) text.now }
    ensures { Reads (spec.word text.now) result }
{
    if text.len() > MOST_NAME_BYTES {
        return Err(ScanCause::NameTooLong);
    }
    let spelling = lower_case(alloc, text)?;
    match reserved_mark(spelling.as_str()) {
        Some(mark) => Ok(Kind::Mark(mark)),
        None => Ok(Kind::Name(Name::new(spelling))),
    }
}

fn lower_case(alloc: Global, text: &[u8]) -> Result<String, AllocError>
    requires { All (λ b. b < 128) text.now }
    ensures { IfOk result (λ s. string_bytes s ≡ map to_ascii_lowercase text.now) }
{
    let mut lower = String::new(alloc);
    for b in text {
        lower.push(char::from(b.to_ascii_lowercase()))?;
    }
    Ok(lower)
}

/// The text without its first and its last byte.
fn inside_quotes(text: &[u8]) -> &[u8]
    ensures { result.now ≡ spec.inside text.now }
{
    match text {
        [_, inside @ .., _] => inside,
        _ => &[],
    }
}

/// The code of the character that the text between the quotes spells.
#[tactic(auto, unfolding(crate::specs::Lexemes::character))]
fn character(text: &[u8]) -> Option<u8>
    ensures { result ≡ spec.character text.now }
{
    match text {
        [b] if is_printable(*b) => Some(*b),
        [b'(', b':', digits @ .., b':', b')'] => code(digits),
        _ => None,
    }
}

fn is_printable(b: u8) -> bool
    ensures { result ≡ is_printable b }
{
    32 <= b && b <= 126
}

/// The code that the digits spell.
#[tactic(auto, unfolding(crate::specs::Lexemes::code))]
fn code(digits: &[u8]) -> Option<u8>
    ensures { result ≡ spec.code digits.now }
{
    if digits.is_empty() || !are_digits(digits) {
        return None;
    }
    match number(digits) {
        Some(value) if value <= MOST_CODE => Some(value as u8),
        _ => None,
    }
}

fn are_digits(text: &[u8]) -> bool
    ensures { result ≡ list_all is_ascii_digit text.now }
{
    text.iter().all(|b| b.is_ascii_digit())
}
