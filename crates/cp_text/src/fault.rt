//! Why a text has no tokens.

ghost use Rattle.std.specs.Prelude.{◌≡◌};
ghost use Rattle.cp_text.specs.declared.fault.ScanCause.TheVariants.{Memory};
ghost use Rattle.cp_text.specs.Faults.{out_of_memory};

use std::alloc::{AllocError, AllocFailed};

/// What is wrong with a text.
#[derive(Clone, Copy, PartialEq, Eq)]
pub enum ScanCause {
    /// The text has more than 65,535 bytes.
    TooLong,
    /// A byte that begins no lexeme, separator or comment.
    BadByte,
    /// A comment without its closing quote.
    OpenComment,
    /// A character without its closing quote on the line.
    OpenChar,
    /// Quotes around what is no character.
    BadChar,
    /// A number over 32,767.
    NumberTooLarge,
    /// A name of more than 40 characters.
    NameTooLong,
    /// A 20,001st token begins.
    TooManyTokens,
    /// Memory was refused.
    Memory,
}

/// The first fault of a text.
#[derive(Clone, Copy, PartialEq, Eq)]
pub struct ScanFault {
    /// The line, counted from 1, in which the faulty piece begins; 0 for `TooLong` and `Memory`.
    pub line: u32,
    /// How many bytes stand before that piece.
    pub from: usize,
    pub cause: ScanCause,
}

impl From<AllocError> for ScanCause {
    ghost from_gives = { λ _ e. e ≡ Memory };

    fn from(_e: AllocError) -> ScanCause {
        ScanCause::Memory
    }
}

impl<T: Drop> From<AllocFailed<T>> for ScanFault {
    ghost from_gives = { λ _ e. e ≡ out_of_memory };

    fn from(_e: AllocFailed<T>) -> ScanFault {
        ScanFault {
            line: 0,
            from: 0,
            cause: ScanCause::Memory,
        }
    }
}
