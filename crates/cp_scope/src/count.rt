//! Counts of cells, components and processes, which go no further than just past the greatest limit.

ghost use Rattle.std.specs.Prelude.{◌≡◌};
ghost use Rattle.cp_scope.specs.Counts as spec;

/// The count that is past each limit.
pub const TOO_MANY: u32 = 8193;

/// A sum of counts.
pub fn plus(left: u32, right: u32) -> u32
    ensures { result ≡ spec.plus left right }
{
    left.saturating_add(right).min(TOO_MANY)
}

/// As many times a count.
pub fn times(number: u32, count: u32) -> u32
    ensures { result ≡ spec.times number count }
{
    let product = (number as u64 * count as u64).min(TOO_MANY as u64);
    product as u32
}

/// What a statement or an expression takes: the function calls written in it, the greatest need among the
/// routines and initial statements that it calls, and whether it may delay.
#[derive(Clone, Copy)]
pub struct Use {
    pub calls: u32,
    pub need: u32,
    pub delays: bool,
}

impl Use {
    /// Nothing is called.
    pub fn nothing() -> Use
        ensures { result ≡ spec.no_use }
    {
        Use {
            calls: 0,
            need: 0,
            delays: false,
        }
    }

    /// Both together.
    pub fn and(self, other: Use) -> Use
        ensures { result ≡ spec.both_uses self other }
    {
        Use {
            calls: plus(self.calls, other.calls),
            need: self.need.max(other.need),
            delays: self.delays || other.delays,
        }
    }
}
