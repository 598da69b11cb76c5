//! A line of a source with a mark.

ghost use Rattle.std.specs.Prelude.{◌≡◌, ◌≤◌, ◌==◌, ◌||◌, [], drop, false, length, replicate, take};
ghost use Rattle.std.specs.List.{AllPass, before_first, position_or_len};
ghost use Rattle.std.specs.Str.Lines.{strip_carriage_return};
ghost use Rattle.cp_refusal.specs.Excerpts.{IsColumn, IsExcerpt, IsLineShown, IsPlainLine, is_plain, mark_below};
ghost use Rattle.cp_refusal.specs.Lines as spec;
ghost use Rattle.cp_refusal.specs.Text.{Takes};

use crate::characters::{Look, length, push_characters};
use crate::extent::Extent;
use crate::place::{end, from_to, text_in};
use cp_prose::Prose;
use cp_text::{ByteRange, Tokens};

/// Where the line of this number begins; where there is no such line, the end.
pub fn line_start(source: &[u8], number: usize) -> usize
    ensures { 1 ≤ number → number ≤ spec.last_line source.now → spec.IsLineStart source.now number result }
{
    let mut line: usize = 1;
    for (place, byte) in source.iter().enumerate() {
        if line >= number {
            return place;
        }
        if *byte == b'\n' {
            line += 1;
        }
    }
    source.len()
}

/// The number of the line of a place, counted from 1.
pub fn line_number(source: &[u8], at: usize) -> usize
    ensures { result ≡ spec.line_in source.now at }
{
    let mut number: usize = 1;
    for byte in &source[..at.min(source.len())] {
        if *byte == b'\n' {
            number += 1;
        }
    }
    number
}

fn push_blanks(text: &mut Prose, number: usize)
    ensures { Takes text.old text.new (λ piece. piece ≡ replicate number 32) }
{
    for _at in 0..number {
        text.put_char(' ');
    }
}

/// The line that begins at a place, without what ends it.
fn line_at(source: &[u8], start: usize) -> &[u8]
    ensures { result.now ≡ strip_carriage_return (before_first (λ b. b == 10) (drop start source.now)) }
{
    let rest = &source[start.min(source.len())..];
    without_return(&rest[..line_len(rest).min(rest.len())])
}

/// A line without the carriage return at its end.
fn without_return(line: &[u8]) -> &[u8]
    ensures { result.now ≡ strip_carriage_return line.now }
{
    match line {
        [before @ .., b'\r'] => before,
        _ => line,
    }
}

/// The bytes before the end of a line.
pub fn line_len(text: &[u8]) -> usize
    ensures { result ≡ position_or_len (λ b. b == 10) text.now }
{
    for (at, byte) in text.iter().enumerate() {
        if *byte == b'\n' {
            return at;
        }
    }
    text.len()
}

/// The most bytes of a line that are shown.
const MOST_EXCERPT_BYTES: usize = 160;

/// The part of a line that is shown around a place: all of it where it is short.
fn shown_part(line: &[u8], place: usize) -> Extent
    ensures { length line.now ≤ 160 → (result.from ≡ 0) × (result.to ≡ length line.now) }
{
    if line.len() <= MOST_EXCERPT_BYTES {
        return Extent {
            from: 0,
            to: line.len(),
        };
    }
    let from = whole_from(line, place.saturating_sub(MOST_EXCERPT_BYTES / 2));
    Extent {
        from,
        to: from.saturating_add(MOST_EXCERPT_BYTES).min(line.len()),
    }
}

/// The first place from this one on at which no character goes on.
fn whole_from(line: &[u8], from: usize) -> usize {
    for place in from..from.saturating_add(3) {
        match line.get(place) {
            Some(0x80..=0xBF) => {}
            _ => return place,
        }
    }
    from
}

/// What is shown of a line: the part before a place, and all of it.
#[derive(Clone, Copy)]
struct ShownLine<'a> {
    before: &'a [u8],
    whole: &'a [u8],
    is_begun: bool,
    goes_on: bool,
}

fn shown_line(source: &[u8], number: usize, at: usize) -> ShownLine<'_>
    requires { number ≡ spec.line_in source.now at }
    ensures { let line = spec.line_text source.now number in IsPlainLine line → (result.whole.now ≡ line) × (result.is_begun ≡ false) × (result.goes_on ≡ false) × (at ≤ length source.now → result.before.now ≡ take (length (spec.text_before source.now at)) line) }
{
    let start = line_start(source, number).min(source.len());
    let line = line_at(source, start);
    let place = at.saturating_sub(start).min(line.len());
    let part = shown_part(line, place);
    ShownLine {
        before: line.get(part.from..place).unwrap_or(&[]),
        whole: line.get(part.from..part.to).unwrap_or(&[]),
        is_begun: part.from > 0,
        goes_on: part.to < line.len(),
    }
}

/// Appends the line of a place with its number, and below it a mark under the place. Of a long line what is around the place is shown.
pub fn push_marked_line(text: &mut Prose, source: &[u8], span: ByteRange)
    ensures { Takes text.old text.new (IsExcerpt source.now span.from) }
{
    let number = line_number(source, span.from);
    let line = shown_line(source, number, span.from);
    let before = text.len();
    text.put_display(number);
    let width = text.len().saturating_sub(before);
    push_line(text, &line);
    push_blanks(text, width);
    push_mark(text, &line);
}

fn push_line(text: &mut Prose, line: &ShownLine)
    ensures { Takes text.old text.new (IsLineShown line.now.whole.now (line.now.is_begun || line.now.goes_on)) }
{
    text.put(" | ");
    push_cut(text, line.is_begun);
    push_characters(text, line.whole, Look::Whole);
    push_cut(text, line.goes_on);
    text.put("\n");
}

fn push_cut(text: &mut Prose, is_cut: bool)
    ensures { Takes text.old text.new (λ piece. is_cut ≡ false → piece ≡ []) }
{
    if is_cut {
        text.put(CUT);
    }
}

fn push_mark(text: &mut Prose, line: &ShownLine)
    ensures { Takes text.old text.new (λ piece. line.now.is_begun ≡ false → AllPass is_plain line.now.before.now → piece ≡ mark_below line.now.before.now) }
{
    text.put(" | ");
    push_blanks(text, if line.is_begun { CUT.len() } else { 0 });
    push_characters(text, line.before, Look::Blank);
    text.put("^\n");
}

/// Stands where a line is cut.
const CUT: &str = " .. ";

/// The line of a token, or at the end of the tokens that of the last one.
pub fn line_of(tokens: &Tokens, at: usize) -> u32 {
    tokens.line(at.min(tokens.count()))
}

/// Whether a token ends on the line on which the next one begins.
pub fn are_on_one_line(tokens: &Tokens, at: usize) -> bool {
    line_of(tokens, at) == line_of(tokens, at.saturating_add(1))
}

/// The column of a place, counted in characters from 1.
pub fn column(source: &[u8], at: usize) -> usize
    ensures { IsColumn source.now at result }
{
    let start = line_start(source, line_number(source, at)).min(source.len());
    let before = source.get(start..at).unwrap_or(&[]);
    length(before).saturating_add(1)
}

/// The most bytes of a source that are repeated within a sentence.
const MOST_REPEATED: usize = 40;

/// Appends some tokens as they are written, on one line; of many only the first.
pub fn push_tokens(text: &mut Prose, source: &[u8], tokens: &Tokens, extent: Extent) {
    let (Some(first), Some(last)) = (
        tokens.range(extent.from),
        tokens.range(extent.to.saturating_sub(1)),
    ) else {
        return;
    };
    let said = text_in(source, from_to(first.from, end(last)));
    push_characters(text, &said[..said.len().min(MOST_REPEATED)], Look::OneLine);
    if said.len() > MOST_REPEATED {
        text.put(" ..");
    }
}
