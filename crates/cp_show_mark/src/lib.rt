//! The mark of a program: whether what is expected of it holds, in words and as JSON.
#![tactic(auto)]

pub mod answer;
mod asking;
mod ends_objects;
mod ends_words;
pub mod examinee;
mod excess;
mod mark_objects;
mod mark_texts;
mod mark_words;
pub mod marks;
pub mod stories;

pub use answer::{ShowAnswer, ShowVerdict};
pub use examinee::Examinee;
pub use marks::mark_answer;
pub use stories::story_of;
