//! Where words come from.

ghost use Rattle.std.specs.Prelude.{◌≡◌, ◌∷◌, [], None, Some};

use arrayvec::ArrayVec;

/// The most choices in a row that are made at once.
pub const MOST_IN_A_ROW: usize = 8;

/// The last numbers of a word, and the kept state in which the first of them was chosen; without a state they are the whole word.
#[derive(Drop)]
pub struct OriginAtOnce {
    pub state: Option<u32>,
    pub numbers: ArrayVec<u8, 9>,
}

impl OriginAtOnce {
    /// The word without numbers.
    pub fn start() -> OriginAtOnce
        ensures state { result.state ≡ None }
        ensures numbers { result.numbers.items ≡ [] }
    {
        OriginAtOnce {
            state: None,
            numbers: ArrayVec::new(),
        }
    }

    /// The word of a kept state, and this number.
    pub fn choice(state: u32, number: u8) -> OriginAtOnce
        ensures state { result.state ≡ Some state }
        ensures numbers { result.numbers.items ≡ number ∷ [] }
    {
        let mut numbers = ArrayVec::new();
        numbers.push(number);
        OriginAtOnce {
            state: Some(state),
            numbers,
        }
    }

    /// The same word once more.
    pub fn copy(&self) -> OriginAtOnce
        ensures { result ≡ self.now }
    {
        let mut numbers = ArrayVec::new();
        let _ = numbers.try_extend_from_slice(self.numbers.as_slice());
        OriginAtOnce {
            state: self.state,
            numbers,
        }
    }
}
