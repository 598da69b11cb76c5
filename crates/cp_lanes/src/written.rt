//! The expression of an annotation, as it is written.

use crate::pictures::source_line;
use std::alloc::{AllocError, Global};

/// The beginning of an expression in a line, and whether its annotation ends there.
#[derive(Clone, Copy)]
struct Beginning<'a> {
    text: &'a str,
    is_closed: bool,
}

/// The expression of an annotation, of which the first token stands in a line, counted from 1; the whole line where it has more than one annotation or comment.
pub fn expression_at(alloc: Global, source: &[String], line: u32) -> Result<String, AllocError> {
    let whole = source_line(source, line);
    let Some(beginning) = beginning_in(whole) else {
        return String::from_str(alloc, whole);
    };
    let mut text = String::from_str(alloc, beginning.text.trim())?;
    if !beginning.is_closed {
        push_lines(&mut text, source, line)?;
    }
    String::from_str(alloc, without_closing(text.as_str()))
}

fn beginning_in(line: &str) -> Option<Beginning<'_>> {
    let Some((before, rest)) = line.split_once('"') else {
        return Some(Beginning {
            text: line,
            is_closed: false,
        });
    };
    match rest.split_once('"') {
        Some((_, behind)) if behind.contains('"') => None,
        Some((inside, _)) => Some(Beginning {
            text: behind_word(inside)?,
            is_closed: true,
        }),
        None => Some(beginning_at_quote(before, rest)),
    }
}

// Where a line has one quote, an annotation begins there, or one ends that began in an earlier line.
fn beginning_at_quote<'a>(before: &'a str, rest: &'a str) -> Beginning<'a> {
    match behind_word(rest) {
        Some(text) => Beginning {
            text,
            is_closed: false,
        },
        None => Beginning {
            text: before,
            is_closed: true,
        },
    }
}

// What follows the word of an annotation.
fn behind_word(text: &str) -> Option<&str> {
    let text = text.trim().strip_prefix("(*")?.trim();
    match text.strip_prefix("assert") {
        Some(rest) => Some(rest),
        None => text.strip_prefix("invariant"),
    }
}

// Appends the lines behind one, up to the quote with which the annotation ends.
fn push_lines(text: &mut String, source: &[String], line: u32) -> Result<(), AllocError> {
    for next in source.iter().skip(line as usize) {
        let next = next.as_str();
        let (piece, is_last) = match next.split_once('"') {
            Some((piece, _)) => (piece, true),
            None => (next, false),
        };
        text.push(' ')?;
        text.push_str(piece.trim())?;
        if is_last {
            return Ok(());
        }
    }
    Ok(())
}

fn without_closing(text: &str) -> &str {
    let text = text.trim();
    text.strip_suffix("*)").map_or(text, |text| text.trim())
}
