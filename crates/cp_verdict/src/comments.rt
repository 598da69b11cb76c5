//! Expectations in the comments of a source.

ghost use Rattle.std.specs.Prelude.{◌≡◌, ◌≢◌, ◌++◌, ℕ, List, [], IfOk, MatchBool, MatchOption, codes, map};
ghost use Rattle.std.specs.String.{string_bytes};
ghost use Rattle.cp_text.specs.Reading.{AreCut, Part, joined as joined_parts};
ghost use Rattle.cp_verdict.specs.Comments as spec;
ghost use Rattle.cp_verdict.specs.Gathering as gathering;

use cp_expectation::readable::push_readable;
use std::alloc::{AllocError, Global};

/// How the comment of an expectation begins, after blanks and before one.
const OPENING: &str = "(* expect";

/// What a byte of a source belongs to.
#[derive(Clone, Copy, PartialEq, Eq)]
enum Within {
    Code,
    Character,
    Comment,
}

fn after(within: Within, byte: u8) -> Within
    ensures { result ≡ gathering.after within byte }
{
    match (within, byte) {
        (Within::Code, b'"') => Within::Comment,
        (Within::Code, b'\'') => Within::Character,
        (Within::Character, b'\'') => Within::Code,
        (Within::Character, b'\n') => Within::Code,
        (Within::Comment, b'"') => Within::Code,
        _ => within,
    }
}

/// A byte of a comment, with a blank for what separates words.
fn as_separator(byte: u8) -> u8
    ensures { result ≡ spec.blank_for byte }
{
    match byte {
        b'\t' | b'\r' | b'\n' => b' ',
        _ => byte,
    }
}

/// The comments that are read, each without its quotes, and the one that is being read.
#[derive(Drop)]
struct CommentReader {
    done: Vec<Vec<u8>>,
    begun: Vec<u8>,
    within: Within,
}

impl CommentReader {
    fn new(alloc: Global) -> CommentReader
        ensures { gathering.gathered result ≡ gathering.in_code [] }
    {
        CommentReader {
            done: Vec::new(alloc),
            begun: Vec::new(alloc),
            within: Within::Code,
        }
    }

    fn read(&mut self, alloc: Global, byte: u8) -> Result<(), AllocError>
        ensures { IfOk result (λ _. gathering.gathered self.new ≡ gathering.with_byte (gathering.gathered self.old) self.old.within byte) }
    {
        let next = after(self.within, byte);
        match (self.within, next) {
            (Within::Comment, Within::Comment) => self.begun.push(as_separator(byte))?,
            (Within::Comment, _) => {
                let whole = std::mem::replace(&mut self.begun, Vec::new(alloc));
                self.done.push(whole)?;
            }
            _ => {}
        }
        self.within = next;
        Ok(())
    }
}

/// The comments of a source, each without its quotes, with blanks for what separates words.
fn comments(alloc: Global, source: &[u8]) -> Result<Vec<Vec<u8>>, AllocError>
    ensures { IfOk result (λ v. map (λ c. c.items) v.items ≡ (gathering.with_bytes (gathering.in_code []) source.now).done) }
{
    let mut reader = CommentReader::new(alloc);
    for byte in source {
        reader.read(alloc, *byte)?;
    }
    Ok(reader.done)
}

fn behind_word(text: &str) -> Option<&str>
    ensures { MatchOption result ((v : List ℕ) → text.now ≢ codes "(* expect" ++ v) (λ v. text.now ≡ codes "(* expect" ++ v.now) }
{
    text.strip_prefix(OPENING)
}

fn behind_opening(comment: &str) -> Option<&str>
    ensures { MatchOption result ((v : List ℕ) → spec.trimmed comment.now ≢ codes "(* expect" ++ v) (λ v. spec.trimmed comment.now ≡ codes "(* expect" ++ v.now) }
{
    behind_word(comment.trim_ascii())
}

fn without_closing(text: &str) -> &str
    ensures { spec.IsBare text.now result.now }
{
    match text.strip_suffix("*)") {
        Some(bare) => bare,
        None => text,
    }
}

fn begins_with_blank(text: &str) -> bool
    ensures { MatchBool result ((more : List ℕ) × (text.now ≡ codes " " ++ more)) ((more : List ℕ) → text.now ≢ codes " " ++ more) }
{
    text.starts_with(" ")
}

/// The text of a comment's expectations, if it has some.
fn expectation_of(comment: &str) -> Option<&str>
    ensures { MatchOption result (spec.HoldsNone comment.now) (λ text. spec.Holds comment.now text.now) }
{
    let text = without_closing(behind_opening(comment)?);
    if begins_with_blank(text) {
        Some(text)
    } else {
        None
    }
}

fn separate(joined: &mut String) -> Result<(), AllocError>
    ensures { IfOk result (λ _. string_bytes joined.new ≡ gathering.separated (string_bytes joined.old)) }
{
    if !joined.is_empty() {
        joined.push_str(" and ")?;
    }
    Ok(())
}

// Appends the expectations of a comment, if it has some.
fn gather(alloc: Global, joined: &mut String, comment: &[u8]) -> Result<(), AllocError>
    ensures { IfOk result (λ _. gathering.IsGathered comment.now (string_bytes joined.old) (string_bytes joined.new)) }
{
    let mut text = String::new(alloc);
    push_readable(&mut text, comment)?;
    if let Some(rest) = expectation_of(text.as_str()) {
        separate(joined)?;
        joined.push_str(rest)?;
    }
    Ok(())
}

/// The text of the expectations in a source, joined by `and`; empty where there are none. A comment of theirs begins with `(* expect`,
/// and may end with `*)`.
pub fn expectations_in(alloc: Global, source: &[u8]) -> Result<String, AllocError>
    ensures { IfOk result (λ t. (parts : List Part) → AreCut parts [] → source.now ≡ joined_parts parts [] → (texts : List (List ℕ)) × spec.AreHeld (spec.comments_of parts) texts × (string_bytes t ≡ spec.and_text texts)) }
{
    let mut joined = String::new(alloc);
    let all = comments(alloc, source)?;
    for comment in &all {
        gather(alloc, &mut joined, comment)?;
    }
    Ok(joined)
}
