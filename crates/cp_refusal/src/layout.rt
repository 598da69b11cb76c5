//! Which word has no `end`, as the lines of a source are indented.

use crate::further_up::{CLOSING, OPENING, is_after_a_block, is_declaration};
use crate::page::{are_on_one_line, line_of};
use crate::rules::{is_mark_of, mark_before};
use crate::teller::Teller;
use cp_text::{Mark, Tokens};
use std::alloc::{AllocError, Global};

/// Up to how many columns a tab leads.
const TAB: usize = 8;

/// How far each line of a source is indented.
fn indentations(alloc: Global, source: &[u8]) -> Result<Vec<usize>, AllocError> {
    let mut all = Vec::new(alloc);
    let mut width: usize = 0;
    let mut is_before_text = true;
    for byte in source {
        match byte {
            b'\n' => {
                all.push(width)?;
                width = 0;
                is_before_text = true;
            }
            b' ' if is_before_text => width = width.saturating_add(1),
            b'\t' if is_before_text => width = (width / TAB).saturating_add(1).saturating_mul(TAB),
            _ => is_before_text = false,
        }
    }
    all.push(width)?;
    Ok(all)
}

/// A word that is open.
#[derive(Clone, Copy, Drop)]
struct Open {
    at: usize,
    /// How far its line is indented.
    indentation: usize,
    /// Whether the first line after it is indented further; none before that line.
    is_indented: Option<bool>,
}

impl Open {
    /// Whether a line that is indented so far stands behind it, and not in it.
    fn is_left(self, indentation: usize) -> bool {
        match self.is_indented {
            Some(true) => self.indentation >= indentation,
            _ => self.indentation > indentation,
        }
    }
}

/// What is open before a token, and what the lines before it leave without an `end`.
#[derive(Drop)]
pub struct Layout<'a> {
    pub tokens: &'a Tokens,
    indentations: Vec<usize>,
    open: Vec<Open>,
    /// The first word without an `end`, and the token that shows it.
    first: Option<(usize, usize)>,
}

impl<'a> Layout<'a> {
    /// The lines before the token, of which none has been looked at.
    pub fn of(teller: &Teller<'a>) -> Result<Layout<'a>, AllocError> {
        Ok(Layout {
            tokens: teller.tokens,
            indentations: indentations(teller.alloc, teller.source)?,
            open: Vec::new(teller.alloc),
            first: None,
        })
    }

    /// How far the line of a token is indented.
    pub fn indentation(&self, at: usize) -> usize {
        let before = line_of(self.tokens, at).saturating_sub(1) as usize;
        self.indentations.get(before).copied().unwrap_or(0)
    }

    /// Whether a token is the first of its line.
    pub fn is_first(&self, at: usize) -> bool {
        match at.checked_sub(1) {
            Some(before) => !are_on_one_line(self.tokens, before),
            None => true,
        }
    }

    /// Whether a word around what is open begins in a line that is indented so far.
    fn is_around(&self, indentation: usize) -> bool {
        self.open.iter().any(|one| one.indentation == indentation)
    }

    /// Looks at the first token of a line.
    fn begin_line(&mut self, at: usize, is_refused: bool) {
        let indentation = self.indentation(at);
        if let Some(last) = self.open.last_mut() {
            last.is_indented = last.is_indented.or(Some(indentation > last.indentation));
        }
        if is_mark_of(self.tokens, at, &CLOSING) {
            if self.is_around(indentation) {
                self.leave(at, indentation.saturating_add(1));
            }
        } else if self.is_else_of_case(at) {
            self.leave(at, indentation.saturating_add(1));
        } else if is_refused
            || is_declaration(self.tokens, at)
            || is_mark_of(self.tokens, at, &[Mark::Else, Mark::Period])
            || mark_before(self.tokens, at) == Some(Mark::Semicolon)
        {
            self.leave(at, indentation);
        }
    }

    /// Whether an `else` stands there that may be meant as one of a `case`.
    fn is_else_of_case(&self, at: usize) -> bool {
        let is_case = match self.open.last() {
            Some(last) => is_mark_of(self.tokens, last.at, &[Mark::Case]),
            None => false,
        };
        is_case && is_mark_of(self.tokens, at, &[Mark::Else])
    }

    /// Leaves what is open, where its line is indented further, or as far and the lines in it further.
    fn leave(&mut self, at: usize, indentation: usize) {
        for _ in 0..self.open.len() {
            match self.open.last().copied() {
                Some(last) if last.is_left(indentation) => {
                    self.first = self.first.or(Some((last.at, at)));
                    self.open.pop();
                }
                _ => return,
            }
        }
    }

    /// Looks at a token before the one that is refused.
    fn pass(&mut self, at: usize) -> Result<(), AllocError> {
        if self.is_first(at) {
            self.begin_line(at, false);
        }
        if is_mark_of(self.tokens, at, &CLOSING) {
            self.open.pop();
        } else if is_mark_of(self.tokens, at, &OPENING) {
            let indentation = self.indentation(at);
            self.open.push(Open {
                at,
                indentation,
                is_indented: None,
            })?;
        }
        Ok(())
    }
}

/// The word without an `end`, where the indentation of lines tells which it is.
pub fn open_by_layout(teller: &Teller) -> Result<Option<usize>, AllocError> {
    let mut layout = Layout::of(teller)?;
    for at in 0..teller.at {
        layout.pass(at)?;
    }
    if teller.at < teller.tokens.count() && layout.is_first(teller.at) {
        layout.begin_line(teller.at, true);
    }
    Ok(match layout.first {
        Some((open, shown))
            if shown.saturating_add(1) >= teller.at
                || is_after_a_block(teller) && layout.open.is_empty() => Some(open),
        _ => None,
    })
}
