//! Whether all of some expectations hold.

ghost use Rattle.std.specs.Prelude.{◌≡◌};
ghost use Rattle.cp_verdict.specs.Marked as spec;

use crate::judging::Judgement;

/// What is said of an expectation, or of some together.
#[derive(Clone, Copy, PartialEq, Eq)]
pub enum Standing {
    /// Each of them holds.
    Holds,
    /// One of them does not.
    Fails,
    /// None of them fails, and one is not settled.
    Open,
}

impl Judgement {
    /// Whether the expectation fails.
    pub fn is_against(&self) -> bool
        ensures { result ≡ spec.is_against self.now }
    {
        matches!(self, Judgement::Against(_) | Judgement::Missing)
    }

    /// Whether the expectation is not settled.
    pub fn is_unsettled(&self) -> bool
        ensures { result ≡ spec.is_unsettled self.now }
    {
        matches!(self, Judgement::Unsettled)
    }
}

fn has_against(judgements: &[Judgement]) -> bool
    ensures { result ≡ spec.has_against judgements.now }
{
    for judgement in judgements {
        if judgement.is_against() {
            return true;
        }
    }
    false
}

fn has_unsettled(judgements: &[Judgement]) -> bool
    ensures { result ≡ spec.has_unsettled judgements.now }
{
    for judgement in judgements {
        if judgement.is_unsettled() {
            return true;
        }
    }
    false
}

/// The mark by the judgement of each expectation.
pub fn mark_of(judgements: &[Judgement]) -> Standing
    ensures { result ≡ spec.mark_of judgements.now }
{
    if has_against(judgements) {
        Standing::Fails
    } else if has_unsettled(judgements) {
        Standing::Open
    } else {
        Standing::Holds
    }
}
