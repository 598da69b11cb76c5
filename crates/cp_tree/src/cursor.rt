//! A place among the tokens.

ghost use Rattle.std.specs.Prelude.{◌≡◌, ◌≤◌, length};
ghost use Rattle.std.specs.Option.{option_copied};
ghost use Rattle.cp_tree.specs.Input as spec;
ghost use Rattle.cp_tree.specs.Input.{Reads};

use crate::fault::{ParseFault, Sought, Wanted};
use cp_text::{Kind, Mark, Tokens};
use std::cell::Cell;
use std::marker::Model;

#[derive(Drop)]
pub struct Cursor<'a> {
    tokens: &'a Tokens,
    at: usize,
    /// The token for which it is noted what is looked for there.
    watched: Option<usize>,
    wanted: Cell<Wanted>,
}

impl<'a> Model for Cursor<'a> {
    ghost use Rattle.cp_tree.specs.Input.{Input};

    ghost Value = { Input };

    ghost use Rattle.cp_tree.specs.Place.{input_of, IsWithin};

    ghost view = { input_of };

    ghost invariant = { IsWithin };
}

impl<'a> Cursor<'a> {
    ghost use Rattle.cp_text.specs.Kinds.{kinds};

    pub fn new(tokens: &'a Tokens) -> Cursor<'a>
        ensures { result ≡ spec.start_of (kinds tokens.now) }
    {
        Cursor::watching(tokens, None)
    }

    /// The same, which notes what is looked for at a token.
    pub fn watching(tokens: &'a Tokens, watched: Option<usize>) -> Cursor<'a>
        ensures { result ≡ spec.start_of (kinds tokens.now) }
    {
        Cursor {
            tokens,
            at: 0,
            watched,
            wanted: Cell::new(Wanted::nothing()),
        }
    }

    /// What was looked for at the token that is watched.
    pub fn wanted(&self) -> Wanted {
        self.wanted.get()
    }

    // This is looked for where the next token stands.
    fn note(&self, sought: Sought) {
        if self.watched == Some(self.at) {
            let mut wanted = self.wanted.get();
            wanted.add(sought);
            self.wanted.set(wanted);
        }
    }

    /// The number of tokens before the next.
    pub fn at(&self) -> usize
        ensures value { result ≡ self.now.at }
        ensures few { result ≤ 20000 }
    {
        self.at
    }

    pub fn tokens_left(&self) -> usize
        ensures { result ≡ length self.now.rest }
    {
        self.tokens.count() - self.at
    }

    #[tactic(auto, using(crate::proofs::Places::first_drop), unfolding(crate::specs::Input::next))]
    fn peek(&self) -> Option<&'a Kind>
        ensures { option_copied result ≡ spec.next self.now }
    {
        self.tokens.get(self.at)
    }

    /// The next token, where these are looked for.
    pub fn peek_for(&self, sought: &[Sought]) -> Option<&'a Kind>
        ensures { option_copied result ≡ spec.next self.now }
    {
        for one in sought {
            self.note(*one);
        }
        self.peek()
    }

    // The next token, if it is a word or a sign.
    #[tactic(auto, unfolding(crate::specs::Input::mark, crate::specs::Input::next))]
    fn mark(&self) -> Option<Mark>
        ensures { result ≡ spec.mark self.now }
    {
        match self.peek() {
            Some(Kind::Mark(mark)) => Some(*mark),
            _ => None,
        }
    }

    /// The next token, if it is a word or a sign, where these are looked for.
    pub fn mark_for(&self, marks: &[Mark]) -> Option<Mark>
        ensures { result ≡ spec.mark self.now }
    {
        for mark in marks {
            self.note(Sought::Mark(*mark));
        }
        self.mark()
    }

    #[tactic(auto, using(crate::proofs::Places::moves, crate::proofs::Places::stays, crate::proofs::Places::few_tokens), unfolding(crate::specs::Input::advance))]
    pub fn advance(&mut self)
        ensures { self.new ≡ spec.advance self.old }
    {
        if self.at < self.tokens.count() {
            self.at += 1;
        }
    }

    #[tactic(auto, unfolding(crate::specs::Input::sees))]
    pub fn sees(&self, mark: Mark) -> bool
        ensures { result ≡ spec.sees mark self.now }
    {
        self.note(Sought::Mark(mark));
        match self.mark() {
            Some(next) => same(next, mark),
            None => false,
        }
    }

    /// Whether the next token is a name.
    #[tactic(auto, unfolding(crate::specs::Input::sees_name))]
    pub fn sees_name(&self) -> bool
        ensures { result ≡ spec.sees_name self.now }
    {
        matches!(self.peek_for(&[Sought::Name]), Some(Kind::Name(_)))
    }

    #[tactic(auto, unfolding(crate::specs::Input::after))]
    pub fn eat(&mut self, mark: Mark) -> bool
        ensures found { result ≡ spec.sees mark self.old }
        ensures after { self.new ≡ spec.after mark self.old }
    {
        let found = self.sees(mark);
        if found {
            self.advance();
        }
        found
    }

    #[tactic(auto, unfolding(crate::specs::Input::expect))]
    pub fn expect(&mut self, mark: Mark) -> Result<(), ParseFault>
        ensures { Reads (λ u. u) (spec.expect mark self.old) result self.new }
    {
        if self.sees(mark) {
            self.advance();
            Ok(())
        } else {
            Err(self.unexpected_token())
        }
    }

    pub fn unexpected_token(&self) -> ParseFault
        ensures { result ≡ ParseFault.Unexpected self.now.at }
    {
        ParseFault::Unexpected(self.at)
    }
}

/// What stands for the word or the sign that comes next, which is passed; for another token what stands for `_`, and nothing is passed.
macro_rules! eat_one {
    ($cursor:ident, { $(Mark::$mark:ident => $value:expr,)+ _ => $other:expr, }) => {
        match $cursor.mark_for(&[$(Mark::$mark),+]) {
            $(Some(Mark::$mark) => {
                $cursor.advance();
                $value
            })+
            _ => $other,
        }
    };
}

/// A `match` on the next token, for which the kinds and the marks of the arms are looked for.
macro_rules! match_next {
    ($cursor:ident, { $(Kind::$kind:ident($value:pat) => $read:expr,)+ $(Mark::$mark:ident => $then:expr,)* _ => $other:expr, }) => {
        match $cursor.peek_for(&[$(Sought::$kind,)+ $(Sought::Mark(Mark::$mark),)*]) {
            $(Some(Kind::$kind($value)) => $read,)+
            $(Some(Kind::Mark(Mark::$mark)) => $then,)*
            _ => $other,
        }
    };
}

pub(crate) use eat_one;
pub(crate) use match_next;

#[tactic(auto, unfolding(crate::specs::Input::same))]
fn same(a: Mark, b: Mark) -> bool
    ensures { result ≡ spec.same a b }
{
    a == b
}
