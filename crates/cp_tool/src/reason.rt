//! Why words are refused, in a line for people.

use clap::Error;
use std::alloc::{AllocError, Global};

/// What `--version` prints after the program's name.
pub const VERSION: &str = "1.1.0";

/// How a program is given its source, for whoever names a file among the words.
#[derive(Clone, Copy)]
pub struct SourceReading<'a> {
    /// The words that read standard input, as `cpx`.
    pub program: &'a str,
    /// The words that take a file, as `./explore`.
    pub script: &'a str,
}

/// What the error of a command line that does not fit says, in a line.
pub fn word_reason(
    alloc: Global,
    error: &Error,
    reading: SourceReading<'_>,
) -> Result<String, AllocError> {
    let message = format!(in alloc; "{error}")?;
    let message = message.as_str();
    let said = first_line(message);
    let Some((_, rest)) = said.split_once("unexpected argument '") else {
        return String::from_str(alloc, said);
    };
    let word = rest.split_once('\'').map_or(rest, |(word, _)| word);
    if word == "--version" {
        return String::from_str(alloc, "--version: only alone");
    }
    if let Some((_, similar)) = message.split_once("a similar argument exists: '") {
        let similar = similar.split_once('\'').map_or(similar, |(name, _)| name);
        return format!(in alloc; "{word}: did you mean {similar}");
    }
    if word.starts_with('-') {
        return format!(in alloc; "{word}: there is no such option");
    }
    format!(in alloc;
        "{word}: the program is read from standard input: {} < {word}, or {} {word}",
        reading.program, reading.script
    )
}

// The first line of a message, without the word with which it begins.
fn first_line(message: &str) -> &str {
    let line = message.lines().next().unwrap_or("");
    line.strip_prefix("error: ").unwrap_or(line)
}
