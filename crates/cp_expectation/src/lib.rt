//! What is expected of a program: the language of expectations, its reader and its printer.
#![tactic(auto)]

pub mod expectation;
pub mod laws;
pub mod objection;
pub mod readable;
mod reader;
pub mod reading;
pub mod value;
pub mod vocabulary;
pub mod words;

pub use expectation::{
    Claim, EndPattern, Expectation, OutputItem, OutputPattern, Topic, WhoPattern,
};
pub use laws::law_spelling;
pub use objection::{Objection, Question, objection_to};
pub use reading::{Misread, Reading, WantedWord, expectations};
pub use words::{misread_text, push_doubt, push_expectation};
