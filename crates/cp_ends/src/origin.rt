//! Where words come from.

/// The last number of a word and the state in which it was chosen, or the word without numbers.
#[derive(Clone, Copy)]
pub enum Origin {
    Start,
    Choice { state: u32, number: u8 },
}
