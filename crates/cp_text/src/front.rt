//! The piece at the front of a text, outside an annotation or inside one.

ghost use Rattle.std.specs.Prelude.{◌≡◌, ◌<◌, ◌≤◌, ◌+◌, ◌^◌, length, drop, option_map, IfOk, IfSome};
ghost use Rattle.cp_text.specs.Annotations as annotations;
ghost use Rattle.cp_text.specs.Fronts as spec;
ghost use Rattle.cp_text.specs.Fronts.{ClosesWithin};
ghost use Rattle.cp_text.specs.Lexemes.{Reads};

use crate::annotation::{Annotation, annotation_in};
use crate::fault::ScanCause;
use crate::lexeme::{is_full, next};
use crate::piece::{Class, Piece, Shape, first_piece, run_len};
use crate::token::{Kind, Mark};
use std::alloc::Global;

/// What stands at the front: its token's kind, if it is one, and its length.
#[derive(Drop)]
pub struct Front {
    pub kind: Option<Kind>,
    pub len: usize,
    /// How many bytes stand between it and the closing, behind it in an annotation.
    pub left: Option<usize>,
}

/// What stands at the front of a text after `count` tokens, where `left` bytes stand before the closing of an annotation.
pub fn front_piece(
    alloc: Global,
    count: usize,
    left: Option<usize>,
    text: &[u8],
) -> Result<Front, ScanCause>
    requires some { 0 < length text.now }
    requires short { length text.now < 2 ^ 16 }
    requires closes { ClosesWithin left text.now }
    ensures value { Reads (spec.front_piece count left text.now) result }
    ensures within { IfOk result (λ f. (1 ≤ f.len) × (f.len ≤ length text.now)) }
    ensures closes { IfOk result (λ f. ClosesWithin f.left (drop f.len text.now)) }
{
    match left {
        None => outside(alloc, count, text),
        Some(0) => closing(count, text),
        Some(left) => inside(alloc, count, left, text),
    }
}

// An opening, or a piece that stands in no annotation.
fn outside(alloc: Global, count: usize, text: &[u8]) -> Result<Front, ScanCause>
    requires some { 0 < length text.now }
    requires short { length text.now < 2 ^ 16 }
    ensures { Reads (spec.outside count text.now) result }
{
    if let Some(annotation) = annotation_at(text) {
        return one_token(
            count,
            annotation.mark,
            annotation.opening,
            Some(annotation.inner),
        );
    }
    let (kind, len) = next(alloc, count, text)?;
    Ok(Front {
        kind,
        len,
        left: None,
    })
}

/// The annotation at the front of a text.
pub fn annotation_at(text: &[u8]) -> Option<Annotation>
    requires some { 0 < length text.now }
    requires short { length text.now < 2 ^ 16 }
    ensures value { result ≡ option_map annotations.extents (annotations.annotation_at text.now) }
    ensures within { IfSome result (λ a. a.opening + a.inner < length text.now) }
{
    match first_piece(text) {
        Ok(
            Piece {
                shape: Shape::Comment,
                len,
            },
        ) => annotation_in(&text[1..len - 1]),
        _ => None,
    }
}

// A piece before which `left` bytes stand up to the closing; it is cut as if the text ended there.
fn inside(alloc: Global, count: usize, left: usize, text: &[u8]) -> Result<Front, ScanCause>
    requires some { 0 < left }
    requires within { left < length text.now }
    requires short { length text.now < 2 ^ 16 }
    ensures { Reads (spec.inside count left text.now) result }
{
    let (kind, len) = next(alloc, count, &text[..left])?;
    Ok(Front {
        kind,
        len,
        left: Some(left - len),
    })
}

// A closing, which ends in the first quote.
fn closing(count: usize, text: &[u8]) -> Result<Front, ScanCause>
    requires some { 0 < length text.now }
    requires short { length text.now < 2 ^ 16 }
    ensures { Reads (spec.closing count text.now) result }
{
    one_token(count, Mark::Closes, run_len(Class::Comment, text) + 1, None)
}

// An opening or a closing.
fn one_token(count: usize, mark: Mark, len: usize, left: Option<usize>) -> Result<Front, ScanCause>
    ensures { result ≡ spec.one_token count mark len left }
{
    if is_full(count) {
        return Err(ScanCause::TooManyTokens);
    }
    Ok(Front {
        kind: Some(Kind::Mark(mark)),
        len,
        left,
    })
}
