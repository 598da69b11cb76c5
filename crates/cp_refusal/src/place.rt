//! Places in a source.

ghost use Rattle.std.specs.Prelude.{◌+◌, ◌≤◌};

use crate::page::line_len;
use cp_text::{ByteRange, ScanCause, Tokens, annotation_at, first_piece};
use std::alloc::{AllocError, Global};

/// The bytes of a source in a range.
pub fn text_in(source: &[u8], range: ByteRange) -> &[u8] {
    let rest = &source[range.from.min(source.len())..];
    &rest[..range.len.min(rest.len())]
}

/// Where a range ends.
pub fn end(range: ByteRange) -> usize
    ensures { result ≤ range.from + range.len }
{
    range.from.saturating_add(range.len)
}

/// The bytes from one place to before another.
pub fn from_to(from: usize, to: usize) -> ByteRange {
    ByteRange {
        from,
        len: to.saturating_sub(from),
    }
}

/// The longest source that has tokens.
const MOST_BYTES: usize = 65535;

/// How many bytes belong to a fault at the front of a text.
pub fn fault_len(text: &[u8]) -> usize {
    if text.is_empty() || text.len() > MOST_BYTES {
        return 1;
    }
    if let Some(found) = annotation_at(text) {
        return found.opening;
    }
    match first_piece(text) {
        Ok(found) => found.len,
        Err(ScanCause::OpenComment) => text.len(),
        Err(ScanCause::OpenChar) => line_len(text),
        Err(_) => 1,
    }
}

/// What has been read of a source up to a place, as far as it is about comments of several lines.
#[derive(Clone, Copy)]
struct LongComments {
    /// Where the comment begins that is open there.
    begun: Option<usize>,
    /// Whether it goes over several lines.
    is_long: bool,
    /// The last such one, where it ends in the line of the place.
    ended: Option<ByteRange>,
}

impl LongComments {
    fn none() -> LongComments {
        LongComments {
            begun: None,
            is_long: false,
            ended: None,
        }
    }

    fn pass(&mut self, byte: u8, place: usize) {
        match (byte, self.begun) {
            (b'\n', Some(_)) => self.is_long = true,
            (b'\n', None) => self.ended = None,
            (b'"', Some(from)) => {
                self.begun = None;
                if self.is_long {
                    self.ended = Some(from_to(from, place.saturating_add(1)));
                }
            }
            (b'"', None) => {
                self.begun = Some(place);
                self.is_long = false;
            }
            _ => {}
        }
    }
}

/// The comment of several lines that stands before a token, and ends in its line.
pub fn long_comment_before(source: &[u8], tokens: &Tokens, at: usize) -> Option<ByteRange> {
    let gap = gap_before(source, tokens, at);
    let mut read = LongComments::none();
    for (place, byte) in text_in(source, gap).iter().enumerate() {
        read.pass(*byte, gap.from.saturating_add(place));
    }
    read.ended
}

/// The first comment before the end of the line of a place that goes over several lines, and behind which another quote stands in its last one: between the two quotes
/// the text of a comment may be.
pub fn torn_comment(source: &[u8], place: usize) -> Option<ByteRange> {
    let rest = source.get(place..).unwrap_or(&[]);
    let to = place.saturating_add(line_len(rest));
    let mut read = LongComments::none();
    for (place, byte) in source.iter().enumerate().take(to) {
        let is_outside = *byte == b'"' && read.begun.is_none();
        if is_outside && is_character_around(source, place) {
            continue;
        }
        if is_outside && read.ended.is_some() {
            return read.ended;
        }
        read.pass(*byte, place);
    }
    None
}

// Whether a character stands at a place, between its quotes.
fn is_character_around(source: &[u8], place: usize) -> bool {
    let quotes = (
        source.get(place.saturating_sub(1)),
        source.get(place.saturating_add(1)),
    );
    matches!(quotes, (Some(b'\''), Some(b'\'')))
}

/// Whether a text between quotes gives a character by its code, be it one or none.
pub fn is_coded(text: &[u8]) -> bool {
    match text {
        [_, b'(', b':', digits @ .., b':', b')', _] => !digits.is_empty()
            && digits.iter().all(|digit| digit.is_ascii_digit()),
        _ => false,
    }
}

/// What stands between a token and the one before it: separators, and comments that are no annotations.
fn gap_before(source: &[u8], tokens: &Tokens, at: usize) -> ByteRange {
    let before = match at.checked_sub(1) {
        Some(before) => tokens.range(before),
        None => None,
    };
    let from = match before {
        Some(range) => end(range),
        None => 0,
    };
    let to = match tokens.range(at) {
        Some(range) => range.from,
        None => source.len(),
    };
    from_to(from, to)
}

/// Adds the comments of such a gap: what stands there from each quote to the next.
fn add_comments(all: &mut Vec<ByteRange>, source: &[u8], gap: ByteRange) -> Result<(), AllocError> {
    let mut begun = None;
    for (place, byte) in text_in(source, gap).iter().enumerate() {
        if *byte == b'"' {
            let here = gap.from.saturating_add(place);
            begun = match begun {
                Some(from) => {
                    all.push(from_to(from, here.saturating_add(1)))?;
                    None
                }
                None => Some(here),
            };
        }
    }
    Ok(())
}

/// The comments of a source that are no annotations.
pub fn comments(
    alloc: Global,
    source: &[u8],
    tokens: &Tokens,
) -> Result<Vec<ByteRange>, AllocError> {
    let mut all = Vec::new(alloc);
    for at in 0..tokens.count() {
        add_comments(&mut all, source, gap_before(source, tokens, at))?;
    }
    add_comments(&mut all, source, gap_before(source, tokens, tokens.count()))?;
    Ok(all)
}

/// Whether a comment stands between the token of this number and the one before it.
pub fn has_comment_before(source: &[u8], tokens: &Tokens, at: usize) -> bool {
    at > 0 && text_in(source, gap_before(source, tokens, at)).contains(&b'"')
}
