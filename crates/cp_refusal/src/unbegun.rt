//! Which `then`, `else` or `do` has no `begin`, so that an `end` closes what is around it.

use crate::advice::is_behind_lone_end;
use crate::extent::open_before;
use crate::further_up::{CLOSING, OPENING, is_statement};
use crate::layout::Layout;
use crate::page::line_of;
use crate::rules::is_mark_of;
use crate::teller::Teller;
use cp_text::Mark;
use std::alloc::AllocError;

/// A word behind which `begin` is missing, and an `end` that closes another one therefore.
#[derive(Clone, Copy)]
pub struct Unbegun {
    pub word: usize,
    pub end: usize,
    /// The word that is closed.
    pub closed: usize,
}

fn are_on_a_line(teller: &Teller, one: usize, other: usize) -> bool {
    line_of(teller.tokens, one) == line_of(teller.tokens, other)
}

impl Unbegun {
    /// Whether what is closed begins in another line than it ends, or all stands in the line of the token.
    fn is_split(self, teller: &Teller) -> bool {
        !are_on_a_line(teller, self.closed, self.end) || are_on_a_line(teller, self.end, teller.at)
    }
}

/// The word without a `begin`, where the `end` before the token closes a body and the source goes on with what stands in one.
pub fn word_without_begin(teller: &Teller, last: usize) -> Result<Option<Unbegun>, AllocError> {
    let Some(body) = open_before(teller.tokens, last, &OPENING, &CLOSING) else {
        return Ok(None);
    };
    let layout = Layout::of(teller)?;
    let by_layout = (body..last.saturating_add(1))
        .filter_map(|end| layout.word_closed_by(end))
        .find(|one| layout.is_first(one.end)
            && layout.indentation(one.closed) != layout.indentation(one.end));
    let on_its_line = (body..last.saturating_add(1))
        .rev()
        .filter_map(|end| layout.word_closed_by(end))
        .find(|one| {
            one.is_split(teller) && (one.end == last || are_on_a_line(teller, one.word, one.end))
        });
    Ok(by_layout.or(on_its_line))
}

impl<'a> Layout<'a> {
    /// The last word before an `end` that has no `begin`, in the block that it closes, and in a line that is indented as its own; an arm of a `case` is indented
    /// in many ways.
    fn word_closed_by(&self, end: usize) -> Option<Unbegun> {
        if !is_mark_of(self.tokens, end, &[Mark::End]) {
            return None;
        }
        let closed = open_before(self.tokens, end, &OPENING, &CLOSING)?;
        let is_case = is_mark_of(self.tokens, closed, &[Mark::Case]);
        let word = (closed..end).rev().find(|place| {
            self.is_unbegun(*place, end)
                && (is_case || self.indentation(*place) == self.indentation(end))
                && open_before(self.tokens, *place, &OPENING, &CLOSING) == Some(closed)
        })?;
        Some(Unbegun { word, end, closed })
    }

    /// Whether a word stands at a token after which one statement follows that is no block, and the lines up to an `end` may be meant to belong to it.
    fn is_unbegun(&self, at: usize, end: usize) -> bool {
        let next = at.saturating_add(1);
        is_mark_of(self.tokens, at, &[Mark::Then, Mark::Else, Mark::Do])
            && !is_mark_of(self.tokens, next, &[Mark::Begin])
            && (self.is_first(next) || self.is_followed_by_deeper(at, end))
    }

    /// Whether the line behind that of a token is indented deeper, or an `end` stands in its line.
    fn is_followed_by_deeper(&self, at: usize, end: usize) -> bool {
        match (at..end).find(|place| self.is_first(*place) && *place > at) {
            Some(next) => self.indentation(next) > self.indentation(at),
            None => !self.is_first(end),
        }
    }
}

/// What follows the name with which a statement begins.
const BEHIND_NAMES: [Mark; 5] = [
    Mark::Becomes,
    Mark::OpenParenthesis,
    Mark::OpenBracket,
    Mark::Period,
    Mark::Semicolon,
];

/// The `end` that closes a body or a `case` before what can only stand in one: before the token, a semicolon in front of it, or the name in front of it and a semicolon;
/// or the token itself where a `repeat` goes on.
pub fn end_of_a_body(teller: &Teller) -> Option<usize> {
    let (tokens, at) = (teller.tokens, teller.at);
    let before = at.saturating_sub(1);
    let mark = teller.mark();
    let is_word = is_statement(mark) && mark != Some(Mark::Begin);
    let is_name = !teller.name().is_empty()
        && teller.ahead(3) != Some(Mark::Colon)
        && is_mark_of(tokens, at.saturating_add(1), &BEHIND_NAMES);
    if is_word && is_behind_lone_end(teller) && !teller.takes("end") {
        Some(before)
    } else if mark == Some(Mark::End) && teller.takes("until") {
        Some(at)
    } else if teller.takes("procedure") && (is_word || is_name || mark == Some(Mark::End))
        || mark.is_none() && is_behind_case(teller, at)
    {
        end_before(teller, at)
    } else if teller.takes("=") && !teller.takes("*") && is_mark_of(tokens, at, &BEHIND_NAMES)
        || mark == Some(Mark::Colon) && is_behind_case(teller, before)
    {
        end_before(teller, before)
    } else {
        None
    }
}

/// The `end` before a semicolon in front of a token.
fn end_before(teller: &Teller, at: usize) -> Option<usize> {
    let end = at.checked_sub(2)?;
    let is_behind = teller.mark_at(at.saturating_sub(1)) == Some(Mark::Semicolon);
    if is_behind && teller.mark_at(end) == Some(Mark::End) {
        Some(end)
    } else {
        None
    }
}

/// Whether such an `end` closes a `case`.
fn is_behind_case(teller: &Teller, at: usize) -> bool {
    match end_before(teller, at) {
        Some(end) => matches!(
            open_before(teller.tokens, end, &OPENING, &CLOSING),
            Some(open) if teller.mark_at(open) == Some(Mark::Case)
        ),
        None => false,
    }
}
