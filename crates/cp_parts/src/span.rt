//! Things that stand side by side.

/// Some that stand side by side: from the first one up to the end.
#[derive(Clone, Copy, Drop)]
pub struct Span {
    pub first: usize,
    pub end: usize,
}

impl Span {
    ghost use Rattle.std.specs.Prelude.{◌≡◌, ◌≤◌, length};
    ghost use Rattle.cp_parts.specs.Runs.{in_span};

    /// Where the span begins once the thing of a number stands at its end.
    pub fn first_with(self, number: usize) -> usize
        ensures empty { self.first ≡ self.end → result ≡ number }
        ensures some { (self.first ≡ self.end → ⊥) → result ≡ self.first }
    {
        if self.first == self.end {
            number
        } else {
            self.first
        }
    }

    /// What of a list stands in the span.
    #[inline(always)]
    pub fn part_of<T>(self, list: &[T]) -> &[T]
        requires rising { self.first ≤ self.end }
        requires within { self.end ≤ length list.now }
        ensures { result.now ≡ in_span self list.now }
    {
        &list[self.first..self.end]
    }
}
