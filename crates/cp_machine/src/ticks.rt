//! Counts for contracts.
ghost use Rattle.std.specs.Prelude.{◌≡◌, ◌+◌};

use std::marker::Model;
use std::sync::ledger::{Blank, Book, Ledger, Share};

/// Whoever is told of each thing that is counted: `Ticks` counts it, and `Uncounted` does not.
pub trait Count {
    ghost use Rattle.std.specs.Prelude.{◌≡◌, ◌+◌, ℕ, Bool, if◌then◌else◌};

    /// Whether it counts.
    ghost counts: { Bool };

    ghost count: { Self → ℕ };

    /// Counts one more, if it counts.
    fn tick(&mut self)
        ensures { count self.new ≡ (if counts then count self.old + 1 else count self.old) };
}

/// A count for contracts alone. It takes no bytes, and only `tick` changes it.
#[derive(Drop)]
pub struct Ticks<L: Ledger> {
    book: Book<L>,
    share: Share<L>,
}

impl<L: Ledger> Model for Ticks<L> {
    ghost use Rattle.std.specs.Prelude.{ℕ, ◌<◌};

    ghost Value = { ℕ };

    ghost view = { λ t. t.book.total };

    ghost invariant = { λ t. 0 < t.share.parts };
}

impl<L: Ledger> Ticks<L> {
    /// A count of 0, of the ledger that the blank stands for.
    pub fn new(blank: Blank) -> Ticks<L>
        requires name { blank.name ≡ L.name }
        requires parts { blank.parts ≡ L.parts }
        requires one { L.parts ≡ 1 }
        ensures { result ≡ 0 }
    {
        let (book, share) = blank.open();
        Ticks { book, share }
    }

    /// Counts one more.
    fn raise(&mut self)
        ensures { self.new ≡ self.old + 1 }
    {
        self.book.add(&mut self.share, 1);
    }
}

impl<L: Ledger> Count for Ticks<L> {
    ghost use Rattle.std.specs.Prelude.{true};

    ghost counts = { true };

    ghost count = { λ t. t };

    fn tick(&mut self) {
        self.raise();
    }
}

/// Nothing is counted.
#[derive(Clone, Copy, Drop)]
pub struct Uncounted;

impl Count for Uncounted {
    ghost use Rattle.std.specs.Prelude.{false};

    ghost counts = { false };

    ghost count = { λ _. 0 };

    #[inline(always)]
    fn tick(&mut self) {}
}
