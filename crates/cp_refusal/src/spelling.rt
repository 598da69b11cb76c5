//! Words that are written nearly alike.

use crate::declared::Declarations;
use crate::extent::{Extent, between, closing, is_field};
use crate::foreign::{instead_of, is_declared};
use crate::place::end;
use crate::rules::{mark_before, name_at};
use crate::teller::Teller;
use cp_drops::drop_tree;
use cp_text::{Mark, ScanCause, Tokens, scan};
use cp_tree::{ParseFault, parse};
use std::alloc::{AllocError, Global};

// What is left of two words where they first differ.
fn after_prefix<'a>(one: &'a [u8], other: &'a [u8]) -> (&'a [u8], &'a [u8]) {
    let count = one.iter().zip(other).take_while(|(a, b)| *a == *b).count();
    (
        one.get(count..).unwrap_or(&[]),
        other.get(count..).unwrap_or(&[]),
    )
}

fn after_first(text: &[u8]) -> &[u8] {
    text.get(1..).unwrap_or(&[])
}

// Whether one letter put in, left out or taken for another one makes them equal, or two neighbours that change places.
fn is_one_apart(one: &[u8], other: &[u8]) -> bool {
    let (a, b) = after_prefix(one, other);
    let is_turned = match (a, b) {
        ([p, q, a @ ..], [r, s, b @ ..]) => p == s && q == r && a == b,
        _ => false,
    };
    is_turned || after_first(a) == after_first(b) || after_first(a) == b || a == after_first(b)
}

// The same of two letters.
fn is_two_apart(one: &[u8], other: &[u8]) -> bool {
    let (a, b) = after_prefix(one, other);
    is_one_apart(after_first(a), after_first(b))
        || is_one_apart(after_first(a), b)
        || is_one_apart(a, after_first(b))
}

/// Whether two words are equal, but for one letter at most.
pub fn is_nearly(one: &[u8], other: &[u8]) -> bool {
    one == other || is_one_apart(one, other)
}

// Short names are alike by chance.
fn is_alike(one: &str, other: &str, letters: usize) -> bool {
    let (one, other) = (one.as_bytes(), other.as_bytes());
    let shorter = one.len().min(other.len());
    match letters {
        1 => shorter >= 3 && is_one_apart(one, other),
        _ => shorter >= 5 && is_two_apart(one, other),
    }
}

/// What the names are that one may have been meant for.
#[derive(Clone, Copy)]
pub enum Known {
    /// What is visible at the token.
    Visible,
    /// The fields of the record that is written at this token.
    FieldOf(usize),
    /// The entries of the system type that is written at this token.
    EntryOf(usize),
}

impl Known {
    /// What is said before so many of them.
    pub fn heading(self, number: usize) -> &'static str {
        match (self, number) {
            (Known::EntryOf(_), 0) => ": it has no entries",
            (Known::EntryOf(_), 1) => ": its only entry is ",
            (Known::EntryOf(_), _) => ": its entries are ",
            (_, 1) => ": its only field is ",
            _ => ": its fields are ",
        }
    }

    /// The tokens among which they are declared.
    pub fn places(self, tokens: &Tokens) -> Extent {
        match self {
            Known::FieldOf(record) => between(
                record,
                closing(tokens, record, &[Mark::Record], &[Mark::End]),
            ),
            _ => between(0, tokens.count()),
        }
    }

    /// Whether the name at a token is declared there, and is one of these fields or entries.
    pub fn is_declared_at(self, declarations: &Declarations, place: usize) -> bool {
        let name = name_at(declarations.tokens, place);
        let is_entry = mark_before(declarations.tokens, place) == Some(Mark::Entry);
        !name.is_empty()
            && (is_entry || matches!(self, Known::FieldOf(_)))
            && self.declared(declarations, name, place, place) == Some(place)
    }

    // The token at which a name is declared that is one of these.
    fn declared(
        self,
        declarations: &Declarations,
        name: &str,
        place: usize,
        at: usize,
    ) -> Option<usize> {
        match self {
            Known::Visible => {
                let found = declarations.find(name, at)?.at;
                if declarations.fits(found, at) {
                    Some(found)
                } else {
                    None
                }
            }
            Known::FieldOf(record) if is_field(declarations.tokens, record, place) => Some(place),
            Known::FieldOf(_) => None,
            Known::EntryOf(system) => declarations.entry(system, name),
        }
    }
}

/// The place where a known name is declared that differs by one or two letters from the name at the token.
pub fn similar_declaration(
    teller: &Teller,
    declarations: &Declarations,
    known: Known,
) -> Option<usize> {
    for letters in [1, 2] {
        for place in (0..teller.at).rev() {
            let other = teller.name_at(place);
            if other != teller.name()
                && is_alike(teller.name(), other, letters)
                && let Some(found) = known.declared(declarations, other, place, teller.at)
            {
                return Some(found);
            }
        }
    }
    None
}

/// The names that the language itself declares.
const STANDARD: &str =
    "integer boolean char queue true false display delay continue empty abs succ pred ord chr";

/// The reserved words that have three letters or more.
const RESERVED: &str =
    "and array begin case class const cycle div downto else end entry for function init mod monitor not procedure process record repeat set then type until var while";

// The word of these that differs from a name by one or two letters.
fn similar_word(words: &'static str, name: &str) -> Option<&'static str> {
    for letters in [1, 2] {
        for word in words.split(' ') {
            if is_alike(name, word, letters) {
                return Some(word);
            }
        }
    }
    None
}

/// The name of the language itself that differs by one or two letters from this one.
pub fn similar_standard_name(name: &str) -> Option<&'static str> {
    similar_word(STANDARD, name)
}

/// How many tokens the parser reads where this word stands in the place of one.
fn read_with(teller: &Teller, at: usize, word: &str) -> Result<usize, AllocError> {
    let Some(range) = teller.tokens.range(at) else {
        return Ok(0);
    };
    let most = teller.source.len();
    let mut draft = Vec::new(teller.alloc);
    draft.extend_from_slice(&teller.source[..range.from.min(most)])?;
    draft.extend_from_slice(word.as_bytes())?;
    draft.extend_from_slice(&teller.source[end(range).min(most)..])?;
    tokens_read(teller.alloc, &draft)
}

/// How many tokens of a source the parser reads before one that it refuses; of a program more than there are.
fn tokens_read(alloc: Global, source: &[u8]) -> Result<usize, AllocError> {
    let tokens = match scan(alloc, source) {
        Ok(tokens) => tokens,
        Err(fault) if fault.cause == ScanCause::Memory => return Err(AllocError),
        Err(_) => return Ok(0),
    };
    match parse(alloc, &tokens) {
        Ok(tree) => {
            drop_tree(tree);
            Ok(usize::MAX)
        }
        Err(ParseFault::Memory) => Err(AllocError),
        Err(
            ParseFault::Unexpected(at) | ParseFault::OutsideProfile(at) | ParseFault::TooDeep(at),
        ) => Ok(at),
    }
}

/// How many tokens more have to be read where a reserved word stands for a name.
const READ_ON: usize = 3;

/// The last name for which a reserved word may have been meant: it differs by few letters, and a program can go on with it beyond what is refused.
pub fn misspelt_word(teller: &Teller) -> Result<Option<(usize, &'static str)>, AllocError> {
    let last = teller.at.saturating_add(1).min(teller.tokens.count());
    for place in (0..last).rev() {
        let name = teller.name_at(place);
        if let Some(word) = similar_word(RESERVED, name)
            && !is_declared(teller, name)
            && instead_of(name).is_empty()
            && read_with(teller, place, word)? >= teller.at.saturating_add(READ_ON)
        {
            return Ok(Some((place, word)));
        }
    }
    Ok(None)
}
