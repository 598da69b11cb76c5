//! Bytes as text that changes nothing but what is shown.

ghost use Rattle.std.specs.Prelude.{◌≡◌, ◌<◌, ◌++◌, ℕ, List, IfOk, MatchOption, length, not};
ghost use Rattle.std.specs.Char.{encode_utf8};
ghost use Rattle.std.specs.String.{string_bytes};
ghost use Rattle.cp_expectation.specs.Readable as spec;

use std::alloc::AllocError;
use std::str;

/// Characters that change how others are shown, or that nobody sees.
fn is_plain(character: char) -> bool
    ensures { result ≡ not (spec.is_hidden character) }
{
    !matches!(character, '\u{0}'..='\u{1f}' | '\u{7f}'..='\u{9f}' | '\u{200b}'..='\u{200f}' | '\u{2028}'..='\u{202e}' | '\u{2060}'..='\u{206f}' | '\u{feff}')
}

/// The character at the front and how many bytes it has; none where they are no UTF-8.
fn front_of(bytes: &[u8]) -> Option<(char, usize)>
    ensures { MatchOption result (spec.BeginsNone bytes.now) (λ x. spec.BeginsWith bytes.now x.0 x.1) }
{
    for len in 1..5usize {
        let Some(front) = bytes.get(..len) else {
            return None;
        };
        if let Ok(text) = str::from_utf8(front) {
            return match text.chars().next() {
                Some(character) => Some((character, len)),
                None => None,
            };
        }
    }
    None
}

// The character that is shown in place of this one.
fn shown(character: char) -> char
    ensures { encode_utf8 result ≡ spec.shown character }
{
    if is_plain(character) { character } else { '?' }
}

// Appends what is shown of the bytes at the front. The answer tells how many these are.
fn push_front(text: &mut String, bytes: &[u8]) -> Result<usize, AllocError>
    requires { 0 < length bytes.now }
    ensures { IfOk result (λ n. spec.ShowsFront bytes.now n (string_bytes text.old) (string_bytes text.new)) }
{
    match front_of(bytes) {
        Some((character, len)) => {
            text.push(shown(character))?;
            Ok(len)
        }
        None => {
            text.push('?')?;
            Ok(1)
        }
    }
}

/// Appends bytes: UTF-8 as it is, and a question mark for each other byte, and for characters that are none to be seen.
pub fn push_readable(text: &mut String, bytes: &[u8]) -> Result<(), AllocError>
    ensures { IfOk result (λ _. (more : List ℕ) × spec.IsReadable bytes.now more × (string_bytes text.new ≡ string_bytes text.old ++ more)) }
{
    let mut left: usize = 0;
    for at in 0..bytes.len() {
        if left == 0 {
            left = push_front(text, &bytes[at..])?;
        }
        left -= 1;
    }
    Ok(())
}
