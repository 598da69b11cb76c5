//! Who tells of a source that is refused at a token.

use crate::extent::{Extent, open_before, single};
use crate::operands::{Value, phrase};
use crate::page::{line_of, push_tokens};
use crate::place::text_in;
use crate::rules::{mark_at, name_at};
use cp_prose::Prose;
use cp_text::{Mark, Tokens};
use std::alloc::Global;

/// A source that is refused at a token, and what has been told of it.
#[derive(Drop)]
pub struct Teller<'a> {
    pub alloc: Global,
    pub source: &'a [u8],
    pub tokens: &'a Tokens,
    pub at: usize,
    pub text: Prose,
    /// The words that the parser looks for in the place of the token; none where a rule is broken.
    pub wanted: Vec<&'static str>,
}

/// What stands in a sentence for a `@`.
#[derive(Clone, Copy)]
pub enum Piece<'a> {
    Words(&'a str),
    /// Some tokens as they are written.
    Tokens(Extent),
    /// A value as it is written, and what it is.
    Is(Value),
    /// A token as it is written, and its line.
    Placed(usize),
    /// The line of a token.
    Line(usize),
    Count(usize),
    Number(i64),
}

impl<'a> Teller<'a> {
    pub fn new(alloc: Global, source: &'a [u8], tokens: &'a Tokens, at: usize) -> Teller<'a> {
        Teller {
            alloc,
            source,
            tokens,
            at,
            text: Prose::new(alloc),
            wanted: Vec::new(alloc),
        }
    }

    /// The token where it is a reserved word or a sign.
    pub fn mark(&self) -> Option<Mark> {
        self.mark_at(self.at)
    }

    /// The token where it is a name, else an empty text.
    pub fn name(&self) -> &'a str {
        self.name_at(self.at)
    }

    /// The token of this number as it is written.
    pub fn spelling_at(&self, at: usize) -> &'a [u8] {
        match self.tokens.range(at) {
            Some(range) => text_in(self.source, range),
            None => &[],
        }
    }

    /// The reserved word or sign at this number, where there is one.
    pub fn mark_at(&self, at: usize) -> Option<Mark> {
        mark_at(self.tokens, at)
    }

    /// The name at this number; an empty text where there is none.
    pub fn name_at(&self, at: usize) -> &'a str {
        name_at(self.tokens, at)
    }

    /// The name before the token that is refused; an empty text where there is none.
    pub fn name_before(&self) -> &'a str {
        match self.at.checked_sub(1) {
            Some(before) => self.name_at(before),
            None => "",
        }
    }

    /// The reserved word or sign so many tokens before the one that is refused.
    pub fn back(&self, number: usize) -> Option<Mark> {
        self.mark_at(self.at.checked_sub(number)?)
    }

    /// The reserved word or sign so many tokens behind the one that is refused.
    pub fn ahead(&self, number: usize) -> Option<Mark> {
        self.mark_at(self.at.saturating_add(number))
    }

    /// Whether the token stands in an annotation, behind its opening.
    pub fn is_in_annotation(&self) -> bool {
        let opening = [Mark::Assert, Mark::Invariant];
        open_before(self.tokens, self.at, &opening, &[Mark::Closes]).is_some()
    }

    /// Appends words.
    pub fn put(&mut self, words: &str) {
        self.text.put(words);
    }

    /// Appends a sentence, in which each `@` stands for the next of some pieces, `%` for the token before the one that is refused, `$` and `&` for those before
    /// that, `#` for this one, `~` for the next and `^` for the one behind that.
    pub fn say(&mut self, sentence: &str, pieces: &[Piece]) {
        let mut told: usize = 0;
        for byte in sentence.as_bytes() {
            match byte {
                b'@' => {
                    if let Some(piece) = pieces.get(told) {
                        self.put_piece(*piece);
                    }
                    told = told.saturating_add(1);
                }
                b'%' => self.put_tokens(single(self.at.saturating_sub(1))),
                b'#' => self.put_tokens(single(self.at)),
                b'~' => self.put_tokens(single(self.at.saturating_add(1))),
                b'^' => self.put_tokens(single(self.at.saturating_add(2))),
                b'$' => self.put_tokens(single(self.at.saturating_sub(2))),
                b'&' => self.put_tokens(single(self.at.saturating_sub(3))),
                _ => self.text.put_char(char::from(*byte)),
            }
        }
    }

    fn put_piece(&mut self, piece: Piece) {
        match piece {
            Piece::Words(words) => self.put(words),
            Piece::Tokens(extent) => self.put_tokens(extent),
            Piece::Is(value) => {
                self.put_tokens(value.extent);
                self.put(" is ");
                self.put(phrase(value.value_type));
            }
            Piece::Placed(at) => {
                self.put_tokens(single(at));
                self.put(" of line ");
                self.put_line(at);
            }
            Piece::Line(at) => self.put_line(at),
            Piece::Count(count) => self.text.put_display(count),
            Piece::Number(number) => self.text.put_display(number),
        }
    }

    fn put_line(&mut self, at: usize) {
        self.text.put_display(line_of(self.tokens, at));
    }

    /// Appends some tokens as they are written.
    pub fn put_tokens(&mut self, extent: Extent) {
        push_tokens(&mut self.text, self.source, self.tokens, extent);
    }

    /// Whether a program can go on with this token in the place of the one that is refused.
    pub fn takes(&self, word: &str) -> bool {
        self.wanted.iter().any(|wanted| *wanted == word)
    }

    /// Whether a program can go on with one of these tokens in its place.
    pub fn takes_one_of(&self, words: &[&str]) -> bool {
        words.iter().any(|word| self.takes(word))
    }
}
