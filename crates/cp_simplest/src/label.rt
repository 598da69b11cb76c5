//! Words that are to be expanded.

use cp_merged::Word;

/// A word, in the order in which words are expanded: by switches, then by numbers, then in dictionary order.
#[derive(PartialEq, Eq, PartialOrd, Ord, Drop)]
pub struct Label {
    pub switches: u8,
    pub length: usize,
    pub word: Word,
}

/// Where a word leads to.
#[derive(Clone, Copy)]
pub enum Target {
    /// A state at a due choice, by its number, and the process that made the last step.
    State(usize, u8),
    /// The outcome of this place.
    End(usize),
}

impl Label {
    /// The empty word.
    pub fn empty() -> Label {
        Label {
            switches: 0,
            length: 0,
            word: Word::new(),
        }
    }

    /// The word, one number longer.
    pub fn extended(&self, number: u8, is_switch: bool) -> Label {
        let mut word = Word::new();
        let _ = word.try_extend_from_slice(self.word.as_slice());
        let _ = word.try_push(number);
        Label {
            switches: self.switches.saturating_add(u8::from(is_switch)),
            length: word.len(),
            word,
        }
    }
}
