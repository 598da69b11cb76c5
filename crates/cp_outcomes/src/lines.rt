//! The lines of a source as they are shown.

ghost use Rattle.std.specs.Prelude.{◌≡◌, ◌≤◌, ◌<◌, IfOk, MatchOption, Contains, length, map, string_bytes, slice_index, take};
ghost use Rattle.cp_outcomes.specs.Lines.{AreLinesShown, IsFront, IsLineShown, shown_character};

use std::alloc::{AllocError, Global};
use std::str;

/// The lines of a source: a space for a control character, and `?` for a byte that is no part of a character in UTF-8.
pub fn lines_of(alloc: Global, source: &[u8]) -> Result<Vec<String>, AllocError>
    ensures { IfOk result (λ lines. AreLinesShown source.now (map string_bytes lines.items)) }
{
    let mut lines = Vec::new(alloc);
    let mut rest = source;
    while let Some(end) = line_end(rest) {
        let (line, behind) = rest.split_at(end);
        lines.push(line_of(alloc, line)?)?;
        rest = &behind[1..];
    }
    lines.push(line_of(alloc, rest)?)?;
    Ok(lines)
}

// Where the first line feed is.
fn line_end(source: &[u8]) -> Option<usize>
    ensures { MatchOption result (Contains source.now 10 → ⊥) (λ n. (n < length source.now) × (slice_index source.now n ≡ 10) × (Contains (take n source.now) 10 → ⊥)) }
{
    source.iter().position(|byte| *byte == b'\n')
}

fn line_of(alloc: Global, line: &[u8]) -> Result<String, AllocError>
    ensures { IfOk result (λ text. IsLineShown line.now (string_bytes text)) }
{
    let mut text = String::new(alloc);
    let mut rest = line;
    while !rest.is_empty() {
        let (character, length) = front_of(rest);
        text.push(character)?;
        rest = &rest[length..];
    }
    Ok(text)
}

// The character with which bytes begin, as it is shown, and how many of them it has.
fn front_of(bytes: &[u8]) -> (char, usize)
    requires { 1 ≤ length bytes.now }
    ensures front { IsFront bytes.now result.0 result.1 }
    ensures within { (1 ≤ result.1) × (result.1 ≤ length bytes.now) }
{
    let first = bytes[0];
    if first < 128 {
        (shown_char(char::from(first)), 1)
    } else {
        wide_front(bytes)
    }
}

fn wide_front(bytes: &[u8]) -> (char, usize)
    requires first { 128 ≤ slice_index bytes.now 0 }
    requires some { 1 ≤ length bytes.now }
    ensures front { IsFront bytes.now result.0 result.1 }
    ensures within { (1 ≤ result.1) × (result.1 ≤ length bytes.now) }
{
    for length in 2..5usize {
        if let Some(front) = bytes.get(..length) {
            if let Ok(text) = str::from_utf8(front) {
                return (shown_char(text.chars().next().unwrap_or('?')), length);
            }
        }
    }
    ('?', 1)
}

// Marks that turn or hide text are no part of what is shown.
fn shown_char(character: char) -> char
    ensures { result ≡ shown_character character }
{
    match character {
        '\u{0}'..='\u{1f}' => ' ',
        '\u{7f}'..='\u{9f}' => '?',
        '\u{200b}'..='\u{200f}' | '\u{2028}'..='\u{202e}' => '?',
        '\u{2060}'..='\u{206f}' | '\u{feff}' => '?',
        _ => character,
    }
}
