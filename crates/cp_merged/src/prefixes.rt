//! The words that lead to one place.

ghost use Rattle.std.specs.Prelude.{◌≡◌, ◌+◌, ◌^◌, ◌<◌, not};
ghost use Rattle.cp_merged.specs.Layers.{lesser, up_to};

use crate::word::{Word, word_of};
use cp_natural::Natural;

/// How many words lead to one place, and the first of them in dictionary order.
#[derive(Drop)]
pub struct Prefixes {
    pub count: Natural,
    pub first: Word,
}

impl Prefixes {
    /// Becomes other words. Mostly the first of them is as long as it was.
    pub fn take_words(&mut self, other: &Prefixes)
        ensures { self.new ≡ other.now }
    {
        self.count = other.count;
        let first = other.first.as_slice();
        if self.first.len() == first.len() {
            self.first.as_mut_slice().copy_from_slice(first);
        } else {
            self.first = word_of(first);
        }
    }

    /// Counts other words that lead to the same place.
    pub fn merge(&mut self, other: &Prefixes)
        requires { self.old.count + other.now.count < 10 ^ 126 }
        ensures count { self.new.count ≡ self.old.count + other.now.count }
        ensures first { self.new.first.items ≡ lesser self.old.first.items other.now.first.items }
    {
        self.count = self.count.plus(&other.count);
        if is_after(self.first.as_slice(), other.first.as_slice()) {
            self.first = word_of(other.first.as_slice());
        }
    }
}

/// The same words once more.
pub fn copy_of(prefixes: &Prefixes) -> Prefixes
    ensures { result ≡ prefixes.now }
{
    Prefixes {
        count: prefixes.count,
        first: word_of(prefixes.first.as_slice()),
    }
}

// Whether a word comes after another one in dictionary order. Words that meet are alike in most of their numbers, so they are compared as slices.
fn is_after(word: &[u8], other: &[u8]) -> bool
    ensures { result ≡ not (up_to word.now other.now) }
{
    other.cmp(&word).is_lt()
}
