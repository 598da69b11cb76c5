//! Tokens: the lexemes of a text, each with its kind and its place.

ghost use Rattle.std.specs.Prelude.{◌≡◌, ◌<◌, ◌≤◌, List, ℕ, length, IfOk, IfSome, Some, slice_get};
ghost use Rattle.std.specs.String.{string_bytes};
ghost use Rattle.std.specs.Option.{option_copied};

use std::alloc::{AllocError, Global};
use std::marker::Model;

/// The spelling of a name, in lower case.
#[derive(Drop)]
pub struct Name {
    text: String,
}

impl Model for Name {
    ghost Value = { List ℕ };

    ghost view = { λ n. string_bytes n.text };
}

impl Name {
    /// A name of this spelling.
    pub fn new(text: String) -> Name
        ensures { result ≡ string_bytes text }
    {
        Name { text }
    }

    /// The spelling as a text.
    pub fn as_str(&self) -> &str
        ensures { result.now ≡ self.now }
    {
        self.text.as_str()
    }

    /// The same name once more.
    pub fn copy(&self, alloc: Global) -> Result<Name, AllocError>
        ensures { IfOk result (λ n. n ≡ self.now) }
    {
        Ok(Name {
            text: String::from_str(alloc, self.text.as_str())?,
        })
    }
}

/// A reserved word, a sign, or the opening or the closing of an annotation. `(.` and `[` are one sign, and so are `.)` and `]`; `&` is the word `and`.
#[derive(Clone, Copy, PartialEq, Eq)]
pub enum Mark {
    And,
    Array,
    Begin,
    Case,
    Class,
    Const,
    Cycle,
    Div,
    Do,
    Downto,
    Else,
    End,
    Entry,
    For,
    Function,
    If,
    In,
    Init,
    Mod,
    Monitor,
    Not,
    Of,
    Or,
    Procedure,
    Process,
    Record,
    Repeat,
    Set,
    Then,
    To,
    Type,
    Until,
    Var,
    While,
    /// Reserved, and left out of the language.
    Program,
    /// Reserved, and left out of the language.
    Univ,
    /// Reserved, and left out of the language.
    With,
    Plus,
    Minus,
    Times,
    Equal,
    NotEqual,
    Less,
    Greater,
    AtMost,
    AtLeast,
    Becomes,
    OpenParenthesis,
    CloseParenthesis,
    OpenBracket,
    CloseBracket,
    Comma,
    Semicolon,
    Colon,
    Period,
    DoublePeriod,
    /// The opening of an assertion, from the quote of its comment up to and with the word `assert`.
    Assert,
    /// The same of an invariant.
    Invariant,
    /// The closing of an annotation: `*)`, separators and the second quote, or that quote alone.
    Closes,
}

/// A token's kind, with its value.
#[derive(Drop)]
pub enum Kind {
    /// At most 32,767.
    Number(u16),
    /// A character's code, at most 127.
    Character(u8),
    Name(Name),
    Mark(Mark),
}

/// Where a piece of a text begins: the number of its line, counted from 1, and how many bytes stand before it.
#[derive(Clone, Copy)]
pub struct Spot {
    pub line: u32,
    pub from: usize,
}

/// The bytes of a text from one place on.
#[derive(Clone, Copy)]
pub struct ByteRange {
    pub from: usize,
    pub len: usize,
}

/// A lexeme, the number of its line, counted from 1, and its bytes.
#[derive(Drop)]
pub struct Token {
    pub kind: Kind,
    pub line: u32,
    pub range: ByteRange,
}

/// The tokens of a text, in order.
#[derive(Drop)]
pub struct Tokens {
    items: Vec<Token>,
}

impl Model for Tokens {
    ghost use Rattle.std.specs.Prelude.{List};
    ghost use Rattle.cp_text.specs.declared.token.Token.{Token};

    ghost Value = { List Token };

    ghost view = { λ t. t.items.items };

    ghost use Rattle.cp_text.specs.Reading.{AreOfText};

    ghost invariant = { λ t. AreOfText t.items.items };
}

impl Tokens {
    ghost use Rattle.cp_text.specs.Reading.{AreOfText, HasTokens};
    ghost use Rattle.cp_text.specs.Kinds.{kinds};
    ghost use Rattle.cp_text.specs.Lines.{line_of};
    ghost use Rattle.cp_text.specs.Places.{StandsAt, ranges};

    /// These tokens.
    pub fn new(items: Vec<Token>) -> Tokens
        requires { AreOfText items.items }
        ensures { result ≡ items.items }
    {
        Tokens { items }
    }

    /// How many tokens there are.
    pub fn count(&self) -> usize
        ensures value { result ≡ length self.now }
        ensures text { AreOfText self.now }
    {
        self.items.len()
    }

    /// The kind of token `at`, which is below the count.
    pub fn kind(&self, at: usize) -> &Kind
        requires { at < length self.now }
        ensures { slice_get (kinds self.now) at ≡ Some result.now }
    {
        &self.items[at].kind
    }

    /// The line of token `at`; at the count that of the last token, 1 if there is none.
    pub fn line(&self, at: usize) -> u32
        requires { at ≤ length self.now }
        ensures { result ≡ line_of self.now at }
    {
        match self.items.len().checked_sub(1) {
            Some(last) => self.items[at.min(last)].line,
            None => 1,
        }
    }

    /// The bytes of token `at`, where there is one.
    pub fn range(&self, at: usize) -> Option<ByteRange>
        ensures value { result ≡ slice_get (ranges self.now) at }
        ensures stands { (text : List ℕ) → HasTokens text self.now → IfSome result (StandsAt text (line_of self.now at)) }
    {
        self.kept_range(at)
    }

    // The bytes that the token keeps, in whatever text.
    fn kept_range(&self, at: usize) -> Option<ByteRange>
        ensures { result ≡ slice_get (ranges self.now) at }
    {
        self.items.get(at).map(|t| t.range)
    }

    /// The kind of token `at`, where there is one.
    pub fn get(&self, at: usize) -> Option<&Kind>
        ensures { option_copied result ≡ slice_get (kinds self.now) at }
    {
        self.items.get(at).map(|t| &t.kind)
    }
}
