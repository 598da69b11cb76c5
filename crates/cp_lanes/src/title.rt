//! The heading of a picture.

use cp_prose::Prose;
use std::alloc::{AllocError, Global};

/// The first sentence of the comment with which a source begins, as the heading of its picture; empty where there is none, or where it has expectations.
/// A sentence ends at a dot that a blank follows, if it is none of an abbreviation, at an empty line, or with the comment.
pub fn sentence(alloc: Global, source: &[String]) -> Result<String, AllocError> {
    for (place, line) in source.iter().enumerate() {
        let line = line.as_str().trim();
        if let Some(begun) = line.strip_prefix("\"") {
            let rest = source.get(place.saturating_add(1)..).unwrap_or(&[]);
            return sentence_of(alloc, begun, rest);
        }
        if !line.is_empty() {
            break;
        }
    }
    Ok(String::new(alloc))
}

// The first sentence of a comment that begins with these words and goes on in these lines.
fn sentence_of(alloc: Global, begun: &str, lines: &[String]) -> Result<String, AllocError> {
    let mut title = TitleWords {
        words: Prose::new(alloc),
        is_done: begun.starts_with("(*"),
        has_dot: false,
    };
    title.put_line(begun);
    for line in lines {
        let line = line.as_str().trim();
        if title.is_done || line.is_empty() {
            break;
        }
        title.put_line(line);
    }
    title.finish(alloc)
}

// The words of a sentence so far.
#[derive(Drop)]
struct TitleWords {
    words: Prose,
    is_done: bool,
    /// Whether the last word ends with a dot.
    has_dot: bool,
}

impl TitleWords {
    // Appends the words of a line, up to the end of the comment.
    fn put_line(&mut self, line: &str) {
        match line.split_once('"') {
            Some((before, _)) => {
                self.put_words(before);
                self.is_done = true;
            }
            None => self.put_words(line),
        }
    }

    fn put_words(&mut self, words: &str) {
        for word in words.split_whitespace() {
            if self.has_dot && !goes_on(word) {
                self.is_done = true;
            }
            if self.is_done {
                break;
            }
            self.words.put(if self.words.len() > 0 { " " } else { "" });
            self.words.put(word);
            self.has_dot = word.ends_with('.');
        }
    }

    // The sentence without its dot.
    fn finish(self, alloc: Global) -> Result<String, AllocError> {
        let words = self.words.as_str()?;
        String::from_str(alloc, words.strip_suffix('.').unwrap_or(words))
    }
}

// Whether a sentence goes on with a word after a dot, which is that of an abbreviation then: `e.g. two`, `p. 12`.
fn goes_on(word: &str) -> bool {
    match word.chars().next() {
        Some(first) => first.is_ascii_lowercase() || first.is_ascii_digit(),
        None => true,
    }
}
