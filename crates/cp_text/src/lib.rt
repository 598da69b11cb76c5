//! The scanner of Concurrent Pascal: from a text to its tokens.
#![tactic(auto)]

mod annotation;
pub mod fault;
mod front;
mod lexeme;
mod piece;
pub mod scanner;
pub mod token;
mod word;

pub use annotation::Annotation;
pub use fault::{ScanCause, ScanFault};
pub use front::annotation_at;
pub use piece::first_piece;
pub use scanner::scan;
pub use token::{ByteRange, Kind, Mark, Name, Token, Tokens};
