//! Where constructs begin and end among the tokens of a program.

use crate::rules::{is_mark_of, mark_at};
use cp_text::{Mark, Tokens};
use cp_tree::Body;

/// The tokens from one number to before another.
#[derive(Clone, Copy)]
pub struct Extent {
    pub from: usize,
    pub to: usize,
}

impl Extent {
    /// Whether it has more than one token.
    pub fn is_long(self) -> bool {
        self.from.saturating_add(1) < self.to
    }
}

/// The tokens from one number to before another.
pub fn between(from: usize, to: usize) -> Extent {
    Extent { from, to }
}

/// One token.
pub fn single(at: usize) -> Extent {
    between(at, at.saturating_add(1))
}

/// The number of the token that closes what is the first to be opened from this number on; that of all tokens where none does.
pub fn closing(tokens: &Tokens, at: usize, opening: &[Mark], closing: &[Mark]) -> usize {
    let mut depth: usize = 0;
    for place in at..tokens.count() {
        if is_mark_of(tokens, place, opening) {
            depth = depth.saturating_add(1);
        } else if is_mark_of(tokens, place, closing) {
            depth = depth.saturating_sub(1);
            if depth == 0 {
                return place;
            }
        }
    }
    tokens.count()
}

/// The innermost word before a token that is open there, of those that open something.
pub fn open_before(
    tokens: &Tokens,
    at: usize,
    opening: &[Mark],
    closing: &[Mark],
) -> Option<usize> {
    let mut closed: usize = 0;
    for place in (0..at).rev() {
        if is_mark_of(tokens, place, closing) {
            closed = closed.saturating_add(1);
        } else if is_mark_of(tokens, place, opening) {
            if closed == 0 {
                return Some(place);
            }
            closed = closed.saturating_sub(1);
        }
    }
    None
}

/// The parenthesis in which a token stands.
pub fn open_parenthesis(tokens: &Tokens, at: usize) -> Option<usize> {
    open_before(
        tokens,
        at,
        &[Mark::OpenParenthesis],
        &[Mark::CloseParenthesis],
    )
}

/// Whether a sign or word stands between the factors of a term.
pub fn is_multiplying(mark: Option<Mark>) -> bool {
    matches!(mark, Some(Mark::Times | Mark::Div | Mark::Mod | Mark::And))
}

/// Whether a sign or word stands between the terms of a sum.
pub fn is_adding(mark: Option<Mark>) -> bool {
    matches!(mark, Some(Mark::Plus | Mark::Minus | Mark::Or))
}

/// Whether a sign or word stands between two sums that are compared.
pub fn is_relation(mark: Option<Mark>) -> bool {
    matches!(
        mark,
        Some(
            Mark::Equal
                | Mark::NotEqual
                | Mark::Less
                | Mark::Greater
                | Mark::AtMost
                | Mark::AtLeast
                | Mark::In
        )
    )
}

/// A part of an expression, by what may stand in it outside of brackets.
#[derive(Clone, Copy, PartialEq, Eq)]
pub enum Part {
    /// A name with its selectors.
    Name,
    Factor,
    Term,
    Sum,
    Expression,
}

impl Part {
    /// Whether a word or a sign may stand in it outside of brackets.
    fn holds(self, mark: Mark) -> bool {
        let (is_term, is_sum) = match self {
            Part::Name => return mark == Mark::Period,
            Part::Factor => (false, false),
            Part::Term => (true, false),
            Part::Sum | Part::Expression => (true, true),
        };
        matches!(mark, Mark::Period | Mark::Not)
            || is_term && is_multiplying(Some(mark))
            || is_sum && is_adding(Some(mark))
            || self == Part::Expression && is_relation(Some(mark))
    }

    /// Whether what stands in the brackets that open here belongs to it.
    fn goes_on_by(self, mark: Mark) -> bool {
        match mark {
            Mark::OpenBracket => true,
            Mark::OpenParenthesis => self != Part::Name,
            _ => false,
        }
    }
}

/// The tokens of the part of an expression that begins at a number.
pub fn part_extent(tokens: &Tokens, from: usize, part: Part) -> Extent {
    let mut depth: usize = 0;
    for place in from..tokens.count() {
        match mark_at(tokens, place) {
            Some(Mark::CloseParenthesis | Mark::CloseBracket) if depth > 0 => {
                depth = depth.saturating_sub(1);
            }
            Some(Mark::OpenParenthesis | Mark::OpenBracket) if depth > 0 => {
                depth = depth.saturating_add(1);
            }
            Some(mark) if depth == 0 && part.goes_on_by(mark) => depth = 1,
            Some(mark) if depth == 0 && !part.holds(mark) => return between(from, place),
            _ => {}
        }
    }
    between(from, tokens.count())
}

/// The number of the semicolon that ends the definition at this number; that of all tokens where none does.
pub fn definition_end(tokens: &Tokens, at: usize) -> usize {
    let mut depth: usize = 0;
    for place in at..tokens.count() {
        match mark_at(tokens, place) {
            Some(Mark::Record) => depth = depth.saturating_add(1),
            Some(Mark::End) => depth = depth.saturating_sub(1),
            Some(Mark::Semicolon) if depth == 0 => return place,
            _ => {}
        }
    }
    tokens.count()
}

/// The number of the `end` of a body.
pub fn body_end(tokens: &Tokens, body: &Body) -> usize {
    let opening = [Mark::Begin, Mark::Case, Mark::Cycle];
    closing(tokens, body.at, &opening, &[Mark::End])
}

/// The record in whose type a token stands.
pub fn record_around(tokens: &Tokens, at: usize) -> Option<usize> {
    open_before(tokens, at, &[Mark::Record], &[Mark::End])
}

/// Whether the name at a token is declared as a field of the record that is written at another.
pub fn is_field(tokens: &Tokens, record: usize, at: usize) -> bool {
    is_mark_of(tokens, at.saturating_add(1), &[Mark::Comma, Mark::Colon])
        && open_before(
            tokens,
            at,
            &[Mark::OpenParenthesis, Mark::Record],
            &[Mark::CloseParenthesis, Mark::End],
        ) == Some(record)
}
