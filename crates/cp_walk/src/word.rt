//! Words.

ghost use Rattle.std.specs.Prelude.{◌≡◌, ◌≤◌, length};

use arrayvec::ArrayVec;

/// These numbers as a word.
pub fn word_of(numbers: &[u8]) -> ArrayVec<u8, 20>
    requires { length numbers.now ≤ 20 }
    ensures { result.items ≡ numbers.now }
{
    let mut word = ArrayVec::new();
    let _ = word.try_extend_from_slice(numbers);
    word
}
