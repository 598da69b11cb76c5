//! The characters of a source as they are shown.

ghost use Rattle.std.specs.Prelude.{◌≡◌, ◌<◌, true, slice_index, length};
ghost use Rattle.std.specs.List.{AllPass};
ghost use Rattle.cp_refusal.specs.Excerpts as spec;
ghost use Rattle.cp_refusal.specs.Text.{Takes};

use cp_prose::Prose;

/// How characters are shown.
#[derive(Clone, Copy)]
pub enum Look {
    /// Each as it is.
    Whole,
    /// A space for each, but for a tab.
    Blank,
    /// Each as it is, and a space for what ends a line and for a tab.
    OneLine,
}

/// A character at the front of some bytes as it is shown, and how many bytes it has.
#[derive(Clone, Copy)]
struct FirstCharacter {
    shown: char,
    len: usize,
}

const UNKNOWN: FirstCharacter = FirstCharacter { shown: '?', len: 1 };

// Characters that change how others are shown, or that nobody sees.
fn is_plain(character: char) -> bool {
    !matches!(character, '\u{0}'..='\u{9f}' | '\u{200b}'..='\u{200f}' | '\u{2028}'..='\u{202e}' | '\u{2060}'..='\u{206f}' | '\u{feff}')
}

// The character of several bytes at the front.
fn wide_front(bytes: &[u8]) -> FirstCharacter {
    for len in 2..5usize {
        let Some(front) = bytes.get(..len) else {
            return UNKNOWN;
        };
        if let Ok(text) = str::from_utf8(front) {
            return match text.chars().next() {
                Some(shown) if is_plain(shown) => FirstCharacter { shown, len },
                _ => FirstCharacter { shown: '?', len },
            };
        }
    }
    UNKNOWN
}

// The character at the front: printed ASCII, a tab, or valid UTF-8 that is printed; a question mark for anything else.
fn front_of(bytes: &[u8]) -> FirstCharacter
    ensures { 0 < length bytes.now → spec.is_plain (slice_index bytes.now 0) ≡ true → (result.shown ≡ slice_index bytes.now 0) × (result.len ≡ 1) }
{
    match bytes.first() {
        Some(byte @ (b'\t' | 32..=126)) => FirstCharacter {
            shown: char::from(*byte),
            len: 1,
        },
        Some(0x80..=0xFF) => wide_front(bytes),
        _ => UNKNOWN,
    }
}

fn as_seen(shown: char, byte: u8, look: Look) -> char
    ensures { spec.is_plain byte ≡ true → shown ≡ byte → result ≡ spec.seen look byte }
{
    match look {
        Look::Blank if shown != '\t' => ' ',
        Look::OneLine if matches!(byte, b'\t' | b'\r' | b'\n') => ' ',
        _ => shown,
    }
}

/// Appends bytes of a source, character by character.
pub fn push_characters(text: &mut Prose, bytes: &[u8], look: Look)
    ensures { Takes text.old text.new (spec.AreShown look bytes.now) }
{
    let mut left: usize = 0;
    for at in 0..bytes.len() {
        if left > 0 {
            left -= 1;
            continue;
        }
        let front = front_of(&bytes[at..]);
        text.put_char(as_seen(front.shown, bytes[at], look));
        left = front.len.saturating_sub(1);
    }
}

/// How many characters these bytes are.
pub fn length(bytes: &[u8]) -> usize
    ensures { AllPass spec.is_plain bytes.now → result ≡ length bytes.now }
{
    let mut left: usize = 0;
    let mut number: usize = 0;
    for at in 0..bytes.len() {
        if left > 0 {
            left -= 1;
            continue;
        }
        number = number.saturating_add(1);
        left = front_of(&bytes[at..]).len.saturating_sub(1);
    }
    number
}
