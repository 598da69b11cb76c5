//! What is missing, or misspelt, further up than where the parser notices it.

use crate::extent::{closing, open_before};
use crate::foreign::foreign_advice;
use crate::layout::open_by_layout;
use crate::page::are_on_one_line;
use crate::place::long_comment_before;
use crate::rules::{is_mark_of, mark_at};
use crate::spelling::misspelt_word;
use crate::teller::Teller;
use crate::unbegun::{Unbegun, end_of_a_body, word_without_begin};
use cp_text::{ByteRange, Kind, Mark, Tokens};
use std::alloc::AllocError;

/// What is missing, or misspelt, and the number of the token that shows it.
#[derive(Clone, Copy)]
pub enum Missing {
    Nothing,
    /// A semicolon after this token, the last of its line.
    Semicolon(usize),
    /// What closes the word or the bracket at this token.
    End(usize),
    /// What closes the word at this token, as the lines are indented.
    EndByLayout(usize),
    /// The beginning for an `end` behind that which closes this token.
    Beginning(usize),
    /// The `begin` behind a word.
    Begin(Unbegun),
    /// The quote of a comment.
    Quote(ByteRange),
    /// A reserved word, for which the name at this token stands.
    Word(usize, &'static str),
}

/// What is missing before the token that the parser refuses.
pub fn what_is_missing(teller: &Teller) -> Result<Missing, AllocError> {
    if let Some((at, word)) = misspelt_word(teller)? {
        return Ok(Missing::Word(at, word));
    }
    if let Some(comment) = comment_of_lines(teller) {
        return Ok(Missing::Quote(comment));
    }
    if let Some(repeat) = repeat_without_until(teller) {
        return Ok(Missing::End(repeat));
    }
    if let Some(end) = end_of_a_body(teller)
        && let Some(found) = word_without_begin(teller, end)?
    {
        return Ok(Missing::Begin(found));
    }
    let by_layout = open_by_layout(teller)?;
    let missing = match by_layout {
        Some(_) if is_real(teller) || !takes_end(teller) => missing_by_words(teller),
        Some(open) if is_never_closed(teller.tokens, open) => Missing::End(open),
        Some(open) => Missing::EndByLayout(open),
        None => missing_by_words(teller),
    };
    Ok(match missing {
        Missing::Beginning(_) => match word_without_begin(teller, teller.at.saturating_sub(1))? {
            Some(found) => Missing::Begin(found),
            None => missing,
        },
        _ => missing,
    })
}

// The comment of several lines that ends in the line of the token, before it or the token in front of it.
fn comment_of_lines(teller: &Teller) -> Option<ByteRange> {
    let (source, tokens) = (teller.source, teller.tokens);
    let found = long_comment_before(source, tokens, teller.at);
    match teller.at.checked_sub(1) {
        Some(before) if found.is_none() && are_on_one_line(tokens, before) => {
            long_comment_before(source, tokens, before)
        }
        _ => found,
    }
}

// The `repeat` that is open where no statement goes on and no `until` follows that ends it.
fn repeat_without_until(teller: &Teller) -> Option<usize> {
    let open = open_before(teller.tokens, teller.at, &OPENING, &CLOSING)?;
    let is_repeat = teller.mark_at(open) == Some(Mark::Repeat);
    let has_branch = (open..teller.at).any(|place| teller.mark_at(place) == Some(Mark::Then));
    let is_ending = teller.mark() == Some(Mark::End)
        || teller.mark() == Some(Mark::Else) && !has_branch
        || is_after_a_block(teller);
    if is_repeat && is_ending && closed_behind(teller) != Some(Mark::Until) {
        Some(open)
    } else {
        None
    }
}

// What closes, behind the token, a word that is open there.
fn closed_behind(teller: &Teller) -> Option<Mark> {
    let mut depth: usize = 0;
    for place in teller.at.saturating_add(1)..teller.tokens.count() {
        if is_mark_of(teller.tokens, place, &OPENING) {
            depth = depth.saturating_add(1);
        } else if is_mark_of(teller.tokens, place, &CLOSING) {
            if depth == 0 {
                return teller.mark_at(place);
            }
            depth = depth.saturating_sub(1);
        }
    }
    None
}

// What is missing, whatever the layout is.
fn missing_by_words(teller: &Teller) -> Missing {
    if let Some(open) = open_block(teller) {
        return Missing::End(open);
    }
    if let Some(before) = line_without_semicolon(teller) {
        return Missing::Semicolon(before);
    }
    if let Some(open) = open_bracket(teller) {
        return Missing::End(open);
    }
    match closed_too_often(teller) {
        Some(closed) => Missing::Beginning(closed),
        None => Missing::Nothing,
    }
}

// The word without an `end` before what follows a whole block.
fn open_block(teller: &Teller) -> Option<usize> {
    let open = open_before(teller.tokens, teller.at, &OPENING, &CLOSING)?;
    // The name before `=` has been read as that of a field.
    let is_behind_fields = teller.mark() == Some(Mark::Equal)
        && teller.mark_at(open) == Some(Mark::Record)
        && teller.takes(",");
    if is_real(teller) || !is_behind_fields && (!is_after_a_block(teller) || !takes_end(teller)) {
        return None;
    }
    if is_never_closed(teller.tokens, open) {
        Some(open)
    } else {
        None
    }
}

/// Whether the token is a period between two numbers.
pub fn is_real(teller: &Teller) -> bool {
    let (before, after) = (teller.at.saturating_sub(1), teller.at.saturating_add(1));
    teller.mark() == Some(Mark::Period)
        && matches!(teller.tokens.get(before), Some(Kind::Number(_)))
        && matches!(teller.tokens.get(after), Some(Kind::Number(_)))
}

/// What an `end` or `until` closes.
pub const OPENING: [Mark; 5] = [
    Mark::Begin,
    Mark::Case,
    Mark::Cycle,
    Mark::Record,
    Mark::Repeat,
];

pub const CLOSING: [Mark; 2] = [Mark::End, Mark::Until];

// Whether more is opened than closed from a word on that opens something.
fn is_never_closed(tokens: &Tokens, open: usize) -> bool {
    closing(tokens, open, &OPENING, &CLOSING) >= tokens.count()
}

/// Whether a statement or an invariant begins with it.
pub fn is_statement(mark: Option<Mark>) -> bool {
    matches!(
        mark,
        Some(
            Mark::If
                | Mark::Case
                | Mark::While
                | Mark::Repeat
                | Mark::For
                | Mark::Cycle
                | Mark::Init
                | Mark::Begin
                | Mark::Assert
                | Mark::Invariant
        )
    )
}

/// Whether a word stands at a token that begins declarations or a routine.
pub fn is_declaration(tokens: &Tokens, at: usize) -> bool {
    matches!(
        mark_at(tokens, at),
        Some(Mark::Const | Mark::Type | Mark::Var | Mark::Procedure | Mark::Function)
    )
}

/// Whether what begins with the token, or with the name before it, follows a whole block.
pub fn is_after_a_block(teller: &Teller) -> bool {
    let ahead = if teller.mark() == Some(Mark::Equal) {
        1
    } else {
        2
    };
    let is_system = matches!(
        teller.ahead(ahead),
        Some(Mark::Class | Mark::Monitor | Mark::Process)
    );
    is_system && (ahead == 1 || teller.ahead(1) == Some(Mark::Equal))
        || teller.at >= teller.tokens.count()
        || teller.mark() == Some(Mark::Period)
        || is_declaration(teller.tokens, teller.at)
}

// Whether an `end` can stand at the token, or before the period that is the last one.
fn takes_end(teller: &Teller) -> bool {
    let is_behind_period = teller.at >= teller.tokens.count()
        && teller.back(1) == Some(Mark::Period);
    is_behind_period || teller.takes("end")
}

// The last token of an earlier line, after which a semicolon can stand and does not.
fn line_without_semicolon(teller: &Teller) -> Option<usize> {
    let (tokens, at) = (teller.tokens, teller.at);
    let before = at.checked_sub(1)?;
    let is_ending = matches!(
        teller.mark_at(before),
        None | Some(Mark::CloseParenthesis | Mark::CloseBracket | Mark::End)
    );
    let is_beginning = !teller.name().is_empty()
        || is_declaration(tokens, at)
        || is_statement(teller.mark());
    let is_torn = is_ending && is_beginning && !are_on_one_line(tokens, before);
    // Words of other languages end no line.
    if is_torn
        && !is_before_else(teller)
        && !is_end_of_repeat(teller)
        && foreign_advice(teller).is_empty()
        && teller.takes(";")
    {
        Some(before)
    } else {
        None
    }
}

// Whether it is a `while` without `do` where a `repeat` can end, or what may be the condition behind `until`.
fn is_end_of_repeat(teller: &Teller) -> bool {
    let next = (teller.at..teller.tokens.count()).find(|place| {
        is_mark_of(
            teller.tokens,
            *place,
            &[Mark::Do, Mark::Semicolon, Mark::End, Mark::Until],
        )
    });
    let is_test = match teller.mark() {
        Some(Mark::While) => {
            !matches!(next, Some(place) if teller.mark_at(place) == Some(Mark::Do))
        }
        None => !matches!(
            teller.ahead(1),
            Some(Mark::Becomes | Mark::OpenParenthesis | Mark::Period | Mark::OpenBracket)
        ),
        _ => false,
    };
    is_test && teller.takes("until")
}

/// Whether `else` follows the annotation that begins at the token.
pub fn is_before_else(teller: &Teller) -> bool {
    if teller.mark() != Some(Mark::Assert) {
        return false;
    }
    for place in teller.at..teller.tokens.count() {
        if teller.mark_at(place) == Some(Mark::Closes) {
            return teller.mark_at(place.saturating_add(1)) == Some(Mark::Else);
        }
    }
    false
}

/// What the last branch of the statement before a token begins with: `then` or `else`; none where it is no `if`.
pub fn last_branch(tokens: &Tokens, at: usize) -> Option<Mark> {
    let mut closed: usize = 0;
    for place in (0..at).rev() {
        if is_mark_of(tokens, place, &CLOSING) {
            closed = closed.saturating_add(1);
        } else if is_mark_of(tokens, place, &OPENING) {
            closed = closed.checked_sub(1)?;
        } else if closed == 0 && is_mark_of(tokens, place, &[Mark::Then, Mark::Else]) {
            return mark_at(tokens, place);
        } else if closed == 0 && is_mark_of(tokens, place, &[Mark::Semicolon]) {
            return None;
        }
    }
    None
}

/// What stands in no brackets, be it in those of parameters or others.
const NEVER_INSIDE: [Mark; 14] = [
    Mark::Begin,
    Mark::Const,
    Mark::Type,
    Mark::Procedure,
    Mark::Function,
    Mark::Becomes,
    Mark::Then,
    Mark::Do,
    Mark::Of,
    Mark::To,
    Mark::Downto,
    Mark::Else,
    Mark::End,
    Mark::Until,
];

const OPENING_BRACKETS: [Mark; 2] = [Mark::OpenParenthesis, Mark::OpenBracket];

const CLOSING_BRACKETS: [Mark; 2] = [Mark::CloseParenthesis, Mark::CloseBracket];

// The bracket that is open before a token that stands in none, and is not closed behind it.
fn open_bracket(teller: &Teller) -> Option<usize> {
    let is_outside = is_mark_of(teller.tokens, teller.at, &NEVER_INSIDE)
        || is_mark_of(teller.tokens, teller.at, &[Mark::Semicolon, Mark::Colon]);
    if !is_outside || is_closed_behind(teller) || !is_closing_wanted(teller) {
        return None;
    }
    open_before(
        teller.tokens,
        teller.at,
        &OPENING_BRACKETS,
        &CLOSING_BRACKETS,
    )
}

// Whether a bracket may be closed at the token, or before the semicolon in front of it.
fn is_closing_wanted(teller: &Teller) -> bool {
    let is_behind_parameters = teller.back(1) == Some(Mark::Semicolon)
        && is_mark_of(teller.tokens, teller.at, &NEVER_INSIDE);
    is_behind_parameters || teller.takes_one_of(&[")", "]"])
}

// Whether a bracket that is open at the token is closed behind it, before what stands in none.
fn is_closed_behind(teller: &Teller) -> bool {
    let (tokens, at) = (teller.tokens, teller.at);
    if at < tokens.count()
        && is_mark_of(tokens, at, &NEVER_INSIDE)
        && teller.mark() != Some(Mark::Becomes)
    {
        return false;
    }
    let mut opened: usize = 0;
    for place in at.saturating_add(1)..tokens.count() {
        if is_mark_of(tokens, place, &NEVER_INSIDE) {
            return false;
        }
        if is_mark_of(tokens, place, &OPENING_BRACKETS) {
            opened = opened.saturating_add(1);
        } else if is_mark_of(tokens, place, &CLOSING_BRACKETS) {
            if opened == 0 {
                return true;
            }
            opened = opened.saturating_sub(1);
        }
    }
    false
}

// What the `end` before the token closes, where the program is whole with it and does not end, or another `end` follows that closes nothing, or an `else`.
fn closed_too_often(teller: &Teller) -> Option<usize> {
    let before = teller.at.checked_sub(1)?;
    if teller.mark_at(before) != Some(Mark::End)
        || teller.at >= teller.tokens.count()
        || teller.mark() == Some(Mark::Semicolon) && is_last(teller.tokens, teller.at)
        || teller.takes("end")
    {
        return None;
    }
    let is_twice = teller.mark() == Some(Mark::End) && teller.takes(";");
    let is_torn = teller.mark() == Some(Mark::Else) && !teller.takes("else");
    if !is_twice && !is_torn && !teller.takes(".") {
        return None;
    }
    open_before(teller.tokens, before, &OPENING, &CLOSING)
}

/// Whether a token is the last one of the source, or none.
pub fn is_last(tokens: &Tokens, at: usize) -> bool {
    at.saturating_add(1) >= tokens.count()
}
