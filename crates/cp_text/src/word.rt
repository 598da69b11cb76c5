//! The reserved words.

ghost use Rattle.std.specs.Prelude.{◌≡◌, map};
ghost use Rattle.cp_text.specs.Words as spec;

use crate::token::Mark;

const RESERVED: [(&str, Mark); 37] = [
    ("and", Mark::And),
    ("array", Mark::Array),
    ("begin", Mark::Begin),
    ("case", Mark::Case),
    ("class", Mark::Class),
    ("const", Mark::Const),
    ("cycle", Mark::Cycle),
    ("div", Mark::Div),
    ("do", Mark::Do),
    ("downto", Mark::Downto),
    ("else", Mark::Else),
    ("end", Mark::End),
    ("entry", Mark::Entry),
    ("for", Mark::For),
    ("function", Mark::Function),
    ("if", Mark::If),
    ("in", Mark::In),
    ("init", Mark::Init),
    ("mod", Mark::Mod),
    ("monitor", Mark::Monitor),
    ("not", Mark::Not),
    ("of", Mark::Of),
    ("or", Mark::Or),
    ("procedure", Mark::Procedure),
    ("process", Mark::Process),
    ("program", Mark::Program),
    ("record", Mark::Record),
    ("repeat", Mark::Repeat),
    ("set", Mark::Set),
    ("then", Mark::Then),
    ("to", Mark::To),
    ("type", Mark::Type),
    ("univ", Mark::Univ),
    ("until", Mark::Until),
    ("var", Mark::Var),
    ("while", Mark::While),
    ("with", Mark::With),
];

/// The mark of a reserved word in lower case.
#[tactic(auto, unfolding(crate::specs::Words::reserved))]
pub fn reserved_mark(word: &str) -> Option<Mark>
    ensures { result ≡ spec.reserved word.now }
{
    lookup(&RESERVED, word)
}

fn lookup(mut table: &[(&str, Mark)], word: &str) -> Option<Mark>
    ensures { result ≡ spec.lookup (map (λ k. (k.0.now, k.1)) table.entry.now) word.now }
{
    while let [entry, rest @ ..] = table {
        if entry.0 == word {
            return Some(entry.1);
        }
        table = rest;
    }
    None
}
