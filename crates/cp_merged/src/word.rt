//! Words of up to 100 numbers.

ghost use Rattle.std.specs.Prelude.{◌≡◌, ◌≤◌, length};

use arrayvec::ArrayVec;

/// A schedule word.
pub type Word = ArrayVec<u8, 100>;

/// These numbers as a word.
pub fn word_of(numbers: &[u8]) -> Word
    requires { length numbers.now ≤ 100 }
    ensures { result.items ≡ numbers.now }
{
    let mut word = ArrayVec::new();
    let _ = word.try_extend_from_slice(numbers);
    word
}
