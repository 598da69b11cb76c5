//! The piece at the front of a text: its shape and its length.

ghost use Rattle.std.specs.Prelude.{◌≡◌, ◌≢◌, ◌<◌, ◌≤◌, ◌+◌, ◌^◌, length, slice_index, take, IfOk, IfSome, true};
ghost use Rattle.std.specs.List.{prefix_len, All};
ghost use Rattle.cp_text.specs.Bytes.{is_separator};
ghost use Rattle.cp_text.specs.Pieces as spec;

use crate::fault::ScanCause;
use crate::token::Mark;

/// What a piece is by its shape, whatever its value, length or text.
#[derive(Clone, Copy)]
pub enum Shape {
    Separator,
    Comment,
    Number,
    /// A name or a reserved word.
    Name,
    Character,
    Sign(Mark),
}

/// A shape, and a length in bytes.
#[derive(Clone, Copy)]
pub struct Piece {
    pub shape: Shape,
    pub len: usize,
}

/// The bytes that go on with a piece.
#[derive(Clone, Copy)]
pub enum Class {
    Separator,
    Digit,
    Word,
    Comment,
    Character,
}

fn is_in(class: Class, b: u8) -> bool
    ensures { result ≡ spec.is_in class b }
{
    match class {
        Class::Separator => is_separator(b),
        Class::Digit => b.is_ascii_digit(),
        Class::Word => b.is_ascii_alphanumeric() || b == b'_',
        Class::Comment => b != b'"',
        Class::Character => b != b'\'' && b != b'\n',
    }
}

/// How many bytes of the class stand at the front.
pub fn run_len(class: Class, text: &[u8]) -> usize
    ensures value { result ≡ prefix_len (spec.is_in class) text.now }
    ensures within { result ≤ length text.now }
    ensures moves { 0 < length text.now → spec.is_in class (slice_index text.now 0) ≡ true → 0 < result }
{
    for (at, b) in text.iter().enumerate() {
        if !is_in(class, *b) {
            return at;
        }
    }
    text.len()
}

/// The byte at this place, 0 past the end.
fn byte(text: &[u8], at: usize) -> u8
    ensures value { result ≡ slice_index text.now at }
    ensures within { result ≢ 0 → at < length text.now }
{
    if at < text.len() { text[at] } else { 0 }
}

/// The piece at the front, or why none stands there.
#[tactic(auto, using(crate::proofs::Runs::run_begins, crate::proofs::Runs::run_ascii), unfolding(crate::specs::Pieces::first_piece))]
pub fn first_piece(text: &[u8]) -> Result<Piece, ScanCause>
    requires some { 0 < length text.now }
    requires short { length text.now < 2 ^ 16 }
    ensures value { result ≡ spec.first_piece text.now }
    ensures within { IfOk result (λ p. (1 ≤ p.len) × (p.len ≤ length text.now)) }
    ensures ascii { IfOk result (λ p. p.shape ≡ Shape.Name → All (λ b. b < 128) (take p.len text.now)) }
{
    let first = text[0];
    if is_separator(first) {
        Ok(Piece {
            shape: Shape::Separator,
            len: 1,
        })
    } else if first.is_ascii_digit() {
        Ok(Piece {
            shape: Shape::Number,
            len: run_len(Class::Digit, text),
        })
    } else if first.is_ascii_alphabetic() {
        Ok(Piece {
            shape: Shape::Name,
            len: run_len(Class::Word, text),
        })
    } else if first == b'"' {
        comment(&text[1..])
    } else if first == b'\'' {
        character(&text[1..])
    } else {
        sign(first, byte(text, 1))
    }
}

/// A blank, a tab, a carriage return or a line feed.
pub fn is_separator(b: u8) -> bool
    ensures { result ≡ is_separator b }
{
    b == b' ' || b == b'\t' || b == b'\r' || b == b'\n'
}

/// A comment, from the text after its opening quote.
fn comment(text: &[u8]) -> Result<Piece, ScanCause>
    requires { length text.now < 2 ^ 16 }
    ensures value { result ≡ spec.comment text.now }
    ensures within { IfOk result (λ p. (1 ≤ p.len) × (p.len ≤ length text.now + 1)) }
{
    let inside = run_len(Class::Comment, text);
    if byte(text, inside) == b'"' {
        Ok(Piece {
            shape: Shape::Comment,
            len: inside + 2,
        })
    } else {
        Err(ScanCause::OpenComment)
    }
}

/// A character, from the text after its opening quote.
fn character(text: &[u8]) -> Result<Piece, ScanCause>
    requires { length text.now < 2 ^ 16 }
    ensures value { result ≡ spec.character text.now }
    ensures within { IfOk result (λ p. (1 ≤ p.len) × (p.len ≤ length text.now + 1)) }
{
    let inside = run_len(Class::Character, text);
    if byte(text, inside) == b'\'' {
        Ok(Piece {
            shape: Shape::Character,
            len: inside + 2,
        })
    } else {
        Err(ScanCause::OpenChar)
    }
}

/// The longest sign that the two bytes begin with; `next` is 0 at the end of the text.
fn sign(first: u8, next: u8) -> Result<Piece, ScanCause>
    ensures value { result ≡ spec.sign first next }
    ensures within { IfOk result (λ p. (1 ≤ p.len) × (p.len ≤ 2) × (next ≡ 0 → p.len ≡ 1)) }
{
    if let Some(mark) = double_sign(first, next) {
        return Ok(Piece {
            shape: Shape::Sign(mark),
            len: 2,
        });
    }
    match single_sign(first) {
        Some(mark) => Ok(Piece {
            shape: Shape::Sign(mark),
            len: 1,
        }),
        None => Err(ScanCause::BadByte),
    }
}

fn double_sign(first: u8, next: u8) -> Option<Mark>
    ensures value { result ≡ spec.double_sign first next }
    ensures second { IfSome result (λ _. next ≢ 0) }
{
    match (first, next) {
        (b'<', b'>') => Some(Mark::NotEqual),
        (b'<', b'=') => Some(Mark::AtMost),
        (b'>', b'=') => Some(Mark::AtLeast),
        (b':', b'=') => Some(Mark::Becomes),
        (b'.', b'.') => Some(Mark::DoublePeriod),
        (b'(', b'.') => Some(Mark::OpenBracket),
        (b'.', b')') => Some(Mark::CloseBracket),
        _ => None,
    }
}

fn single_sign(b: u8) -> Option<Mark>
    ensures { result ≡ spec.single_sign b }
{
    match b {
        b'+' => Some(Mark::Plus),
        b'-' => Some(Mark::Minus),
        b'*' => Some(Mark::Times),
        b'=' => Some(Mark::Equal),
        b'<' => Some(Mark::Less),
        b'>' => Some(Mark::Greater),
        b'(' => Some(Mark::OpenParenthesis),
        b')' => Some(Mark::CloseParenthesis),
        b'[' => Some(Mark::OpenBracket),
        b']' => Some(Mark::CloseBracket),
        b',' => Some(Mark::Comma),
        b';' => Some(Mark::Semicolon),
        b':' => Some(Mark::Colon),
        b'.' => Some(Mark::Period),
        b'&' => Some(Mark::And),
        _ => None,
    }
}
