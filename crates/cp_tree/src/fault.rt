//! Why tokens are no program.

ghost use Rattle.std.specs.Prelude.{◌≡◌};
ghost use Rattle.cp_tree.specs.declared.fault.ParseFault.TheVariants.{Memory};

use cp_text::{Kind, Mark};
use std::alloc::{AllocError, AllocFailed};

/// Why tokens are no program. The number of a token is the count of the tokens before it.
#[derive(Drop)]
pub enum ParseFault {
    /// The token of this number, or the end of the tokens, can't stand there.
    Unexpected(usize),
    /// The token of this number is a reserved word that is left out of the language.
    OutsideProfile(usize),
    /// A node that begins at the token of this number is nested too deep.
    TooDeep(usize),
    Memory,
}

impl From<AllocError> for ParseFault {
    ghost from_gives = { λ _ e. e ≡ Memory };

    fn from(_e: AllocError) -> ParseFault {
        ParseFault::Memory
    }
}

impl<T: Drop> From<AllocFailed<T>> for ParseFault {
    ghost from_gives = { λ _ e. e ≡ Memory };

    fn from(_e: AllocFailed<T>) -> ParseFault {
        ParseFault::Memory
    }
}

/// What the parser looks for at a token.
#[derive(Clone, Copy)]
pub enum Sought {
    Name,
    Number,
    Character,
    Mark(Mark),
}

/// How many words and signs there are.
const MARKS: usize = Mark::Closes as usize + 1;

/// All that the parser looks for at a token.
#[derive(Clone, Copy, Drop)]
pub struct Wanted {
    name: bool,
    number: bool,
    character: bool,
    /// By the number of the word or the sign.
    marks: [bool; MARKS],
}

impl Wanted {
    pub fn nothing() -> Wanted {
        Wanted {
            name: false,
            number: false,
            character: false,
            marks: [false; MARKS],
        }
    }

    pub fn add(&mut self, sought: Sought) {
        match sought {
            Sought::Name => self.name = true,
            Sought::Number => self.number = true,
            Sought::Character => self.character = true,
            Sought::Mark(mark) => {
                if let Some(is_wanted) = self.marks.get_mut(mark as usize) {
                    *is_wanted = true;
                }
            }
        }
    }

    /// Whether it is a token like this.
    pub fn takes(&self, kind: &Kind) -> bool {
        match kind {
            Kind::Name(_) => self.name,
            Kind::Number(_) => self.number,
            Kind::Character(_) => self.character,
            Kind::Mark(mark) => self.marks.get(*mark as usize) == Some(&true),
        }
    }
}
