//! The words that are given, as one text.

use clap::ArgMatches;
use cp_prose::Prose;
use std::alloc::{AllocError, Global};

/// The words of the expectations that are given, joined by spaces.
pub fn words_given(alloc: Global, matches: &ArgMatches<'_>) -> Result<String, AllocError> {
    let mut text = Prose::new(alloc);
    if let Some(words) = matches.get_strs("expectation") {
        for word in words {
            text.put(if text.len() > 0 { " " } else { "" });
            text.put(word);
        }
    }
    text.finish()
}

/// How many numbers a word has, as it is written.
pub fn numbers_of(word: Option<&str>) -> usize {
    match word {
        None => 0,
        Some("none") => 0,
        Some(word) => word.split('.').count(),
    }
}

/// The schedule that is given, with a round after it if there is one.
pub fn schedule_given(
    alloc: Global,
    matches: &ArgMatches<'_>,
) -> Result<Option<String>, AllocError> {
    let Some(schedule) = matches.get_str("schedule") else {
        return Ok(None);
    };
    let text = match (schedule, matches.get_str("again")) {
        (_, None | Some("none")) => String::from_str(alloc, schedule)?,
        ("none", Some(again)) => String::from_str(alloc, again)?,
        (_, Some(again)) => format!(in alloc; "{schedule}.{again}")?,
    };
    Ok(Some(text))
}
