//! What could stand in the place of a token that the parser refuses.

use crate::teller::Teller;
use cp_text::{Kind, Mark, ScanCause, scan};
use cp_tree::{Wanted, wanted_at};
use std::alloc::{AllocError, Global};

/// What is told where one of the words is wanted and none of the first ones: a name for all of the kind, or else the word itself.
static CHOICES: [(&[&str], &str, &str); 14] = [
    (&[], "while", "a statement"),
    (&[], "not", "an expression"),
    (&["while", "not"], "x", "a name"),
    (&["while", "not"], "1", "a number"),
    (&["while", "not"], "'A'", "a character"),
    (&[], "*", "an operator"),
    (&[], "*)\"", "the end of the annotation"),
    (&[], "const type var procedure function entry", ""),
    (&[], "class monitor process array set record", ""),
    (&["while"], "begin if case while repeat for cycle init", ""),
    (&["not"], "not ( [", ""),
    (&["*", "not"], "+ - * div mod and or = <> < > <= >= in", ""),
    (&[], ":= : , .. of then do to downto ) ]", ""),
    (&[], "until else ; end .", ""),
];

/// The words of the choices that the parser looks for in the place of the token.
pub fn wanted_words(teller: &Teller) -> Result<Vec<&'static str>, AllocError> {
    let wanted = wanted(teller)?;
    let mut found = Vec::new(teller.alloc);
    for (_, words, _) in &CHOICES {
        for word in words.split(' ') {
            if is_wanted(teller.alloc, &wanted, word)? {
                found.push(word)?;
            }
        }
    }
    Ok(found)
}

// What the parser looks for in the place of the token. At the end of the source a word that can stand nowhere is put there: behind the last token the
// parser looks for no further item of a list.
fn wanted(teller: &Teller) -> Result<Wanted, AllocError> {
    if teller.at < teller.tokens.count() {
        return wanted_at(teller.alloc, teller.tokens, teller.at);
    }
    let mut draft = Vec::new(teller.alloc);
    draft.extend_from_slice(teller.source)?;
    draft.extend_from_slice(b" univ")?;
    match scan(teller.alloc, &draft) {
        Ok(tokens) => wanted_at(teller.alloc, &tokens, teller.at),
        Err(fault) if fault.cause == ScanCause::Memory => Err(AllocError),
        Err(_) => wanted_at(teller.alloc, teller.tokens, teller.at),
    }
}

// Whether a token like this word is wanted.
fn is_wanted(alloc: Global, wanted: &Wanted, word: &str) -> Result<bool, AllocError> {
    match scan(alloc, word.as_bytes()) {
        Ok(tokens) => Ok(matches!(tokens.get(0), Some(kind) if wanted.takes(kind))),
        Err(fault) if fault.cause == ScanCause::Memory => Err(AllocError),
        // Only what closes an annotation is no text by itself.
        Err(_) => Ok(wanted.takes(&Kind::Mark(Mark::Closes))),
    }
}

// The words of the choices that are told, each with what stands before and after it.
fn told_words(teller: &Teller) -> Result<Vec<(&'static str, &'static str)>, AllocError> {
    let mut told = Vec::new(teller.alloc);
    for (unless, words, name) in &CHOICES {
        if !teller.takes_one_of(unless) {
            for word in words.split(' ') {
                if teller.takes(word) {
                    told.push(if name.is_empty() {
                        ("\"", word)
                    } else {
                        ("", *name)
                    })?;
                }
            }
        }
    }
    Ok(told)
}

/// Says what could stand in the place of the token: `a`, `a or b`, `a, b or c`.
pub fn put_wanted(teller: &mut Teller) -> Result<(), AllocError> {
    let told = told_words(teller)?;
    for (number, (quote, word)) in told.iter().enumerate() {
        if number > 0 {
            let is_last = number.saturating_add(1) == told.len();
            teller.put(if is_last { " or " } else { ", " });
        }
        for piece in [quote, word, quote] {
            teller.put(piece);
        }
    }
    if told.is_empty() {
        teller.put("the end of the source");
    }
    Ok(())
}
