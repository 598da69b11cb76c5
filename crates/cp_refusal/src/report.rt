//! What is said of a source: why it is refused, or what is rarely meant in it.

ghost use Rattle.std.specs.Prelude.{◌≡◌, IfOk, codes, min, option_map, string_bytes};
ghost use Rattle.cp_refusal.specs.Excerpts.{IsColumn};
ghost use Rattle.cp_refusal.specs.Lines.{line_in};
ghost use Rattle.cp_refusal.specs.Text as spec;

use crate::page::{column, line_number, push_marked_line};
use cp_prose::Prose;
use cp_text::ByteRange;
use std::alloc::{AllocError, Global};

/// Why a source is refused.
#[derive(Drop)]
pub struct ExplainedRefusal {
    /// The rule that is broken, as `C5`; for a source that can't be read to its end `scan` or `parse`.
    pub kind: &'static str,
    pub sentence: String,
    /// Where more is said.
    pub more: &'static str,
    /// What is wrong; none where that is no place of the source.
    pub span: Option<ByteRange>,
    /// A place further up that belongs to it, as a `begin` that has no `end`.
    pub earlier: Option<ByteRange>,
}

/// What is legal, but rarely meant.
#[derive(Drop)]
pub struct Hint {
    pub sentence: String,
    pub span: ByteRange,
}

/// The first hints on a source, and how many more there are.
#[derive(Drop)]
pub struct Hints {
    pub all: Vec<Hint>,
    pub more: usize,
}

/// What is said of a source.
#[derive(Drop)]
pub enum Explanation {
    /// It is a program.
    Accepted(Hints),
    Refused(ExplainedRefusal),
}

/// A place of a source, as an editor counts: lines, columns and characters from 1.
#[derive(Clone, Copy)]
pub struct Position {
    pub line: u32,
    pub column: usize,
    pub length: usize,
}

/// Where some bytes of a source stand.
pub fn position_of(source: &[u8], span: ByteRange) -> Position
    ensures line { result.line ≡ min (line_in source.now span.from) u32.MAX }
    ensures column { IsColumn source.now span.from result.column }
    ensures length { result.length ≡ span.len }
{
    Position {
        line: line_number(source, span.from).min(u32::MAX as usize) as u32,
        column: column(source, span.from),
        length: span.len,
    }
}

/// What is said of a source, as lines of text. Where a name of its file is given, places begin with it, as editors read them.
pub fn text(
    alloc: Global,
    source: &[u8],
    answer: &Explanation,
    file: Option<&str>,
) -> Result<String, AllocError>
    ensures { IfOk result (λ t. spec.IsTextOf source.now (option_map (λ s. s.now) file.entry) answer.now (string_bytes t)) }
{
    let mut text = Prose::new(alloc);
    match answer {
        Explanation::Accepted(hints) => push_accepted(alloc, &mut text, source, hints, file),
        Explanation::Refused(refusal) => push_refusal(&mut text, source, refusal, file),
    }
    text.finish()
}

// A place before what is said of it: `line 2: `, or `program.cp:2:15: `.
fn push_position(text: &mut Prose, source: &[u8], span: ByteRange, file: Option<&str>)
    ensures { spec.Takes text.old text.new (spec.IsPosition (option_map (λ s. s.now) file.entry) source.now span.from) }
{
    let line = line_number(source, span.from);
    match file {
        Some(name) => {
            let column = column(source, span.from);
            text.put_display(format_args!("{name}:{line}:{column}: "))
        }
        None => text.put_display(format_args!("line {line}: ")),
    }
}

fn push_refusal(text: &mut Prose, source: &[u8], refusal: &ExplainedRefusal, file: Option<&str>)
    ensures { spec.Takes text.old text.new (spec.IsRefusalText source.now (option_map (λ s. s.now) file.entry) refusal.now) }
{
    push_position_of(text, source, refusal.span, file);
    text.put(refusal.sentence.as_str());
    text.put("\n");
    push_excerpt(text, source, refusal.earlier);
    push_excerpt(text, source, refusal.span);
    push_more(text, refusal);
}

fn push_position_of(text: &mut Prose, source: &[u8], span: Option<ByteRange>, file: Option<&str>)
    ensures { spec.Takes text.old text.new (spec.IsPositionOf source.now (option_map (λ s. s.now) file.entry) span) }
{
    if let Some(span) = span {
        push_position(text, source, span, file);
    }
}

fn push_excerpt(text: &mut Prose, source: &[u8], span: Option<ByteRange>)
    ensures { spec.Takes text.old text.new (spec.IsExcerptOf source.now span) }
{
    if let Some(span) = span {
        push_marked_line(text, source, span);
    }
}

// Where more is said, for what has a place.
fn push_more(text: &mut Prose, refusal: &ExplainedRefusal)
    ensures { spec.Takes text.old text.new (λ piece. piece ≡ spec.more_text refusal.now.span refusal.now.more.now) }
{
    if refusal.span.is_some() {
        text.put(refusal.more);
        text.put("\n");
    }
}

fn push_accepted(alloc: Global, text: &mut Prose, source: &[u8], hints: &Hints, file: Option<&str>)
    ensures { spec.Takes text.old text.new (spec.BeginsWith (codes "accepted\n")) }
{
    text.put("accepted\n");
    let mut told = Prose::new(alloc);
    push_hints(&mut told, source, hints, file);
    text.put_prose(&told);
}

fn push_hints(text: &mut Prose, source: &[u8], hints: &Hints, file: Option<&str>) {
    for hint in &hints.all {
        push_hint(text, source, hint, file);
    }
    match hints.more {
        0 => {}
        1 => text.put("and 1 more hint\n"),
        more => text.put_display(format_args!("and {more} more hints\n")),
    }
}

// As editors read it, where the name of the file is given.
fn push_hint(text: &mut Prose, source: &[u8], hint: &Hint, file: Option<&str>) {
    if file.is_some() {
        push_position(text, source, hint.span, file);
        text.put("hint: ");
    } else {
        text.put("hint: ");
        push_position(text, source, hint.span, file);
    }
    text.put(hint.sentence.as_str());
    text.put("\n");
    push_marked_line(text, source, hint.span);
}
