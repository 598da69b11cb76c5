//! What is known of some expectations together.

ghost use Rattle.std.specs.Prelude.{◌≡◌, ℕ};
ghost use Rattle.cp_machine.specs.declared.discipline.Discipline.{Discipline};
ghost use Rattle.cp_slots.specs.Tables.{Tables};
ghost use Rattle.cp_walk.specs.Text.{Spellings};
ghost use Rattle.cp_verdict.specs.endless.Knowledge.{HasTexts, IsKnown};
ghost use Rattle.cp_verdict.specs.endless.Marked as spec;
ghost use Rattle.cp_verdict.specs.endless.Naming.{processes_of};
ghost use Rattle.cp_verdict.specs.waiting.EndsJudged.{IsJudgedAny, IsJudgedByAny};

use crate::endless::judging::{EndsJudgement, judge};
use crate::endless::known::{KnownEnds, Witness};
use cp_expectation::Expectation;
use cp_legend::Legend;

/// What is said of some expectations together.
#[derive(Clone, Copy, PartialEq, Eq)]
pub enum EndsMark {
    Holds,
    /// One of them does not hold.
    Fails,
    /// None of them fails, and one is not settled.
    Open,
    /// The same, since there are too many states.
    TooMany,
}

/// Why the mark is so.
#[derive(Clone, Copy, Drop)]
pub enum EndsVerdict<'a> {
    Holds,
    /// This one does not hold; with the first schedule against it, or none where it asks for one that there is not.
    Fails {
        expectation: &'a Expectation,
        against: Option<Witness<'a>>,
    },
    /// None of them fails, and this is the first that is not settled.
    Open {
        expectation: &'a Expectation,
    },
}

/// The verdict on some expectations and one more.
pub fn join<'a>(
    verdict: EndsVerdict<'a>,
    expectation: &'a Expectation,
    judgement: EndsJudgement<'a>,
) -> EndsVerdict<'a>
    ensures { result ≡ spec.joined verdict.entry expectation.entry judgement.entry }
{
    match (verdict, judgement) {
        (EndsVerdict::Fails { .. }, _) => verdict,
        (_, EndsJudgement::Against(witness)) => EndsVerdict::Fails {
            expectation,
            against: Some(witness),
        },
        (_, EndsJudgement::Missing) => EndsVerdict::Fails {
            expectation,
            against: None,
        },
        (EndsVerdict::Holds, EndsJudgement::Open) => EndsVerdict::Open { expectation },
        _ => verdict,
    }
}

/// What is known of some expectations together.
pub fn verdict_on<'a>(
    legend: &Legend,
    known: &'a KnownEnds,
    list: &'a [Expectation],
) -> EndsVerdict<'a>
    ensures slots { (r : Tables) (discipline : Discipline) (steps most : ℕ) → IsKnown r discipline steps most known.entry.now → spec.AreJudged (IsJudgedAny r (processes_of legend.now) discipline steps known.entry.now) list.entry.now result }
    ensures known { (values : Spellings) → HasTexts values known.entry.now.values.items → spec.AreJudged (IsJudgedByAny (record { values = values; processes = processes_of legend.now }) known.entry.now) list.entry.now result }
{
    let mut verdict = EndsVerdict::Holds;
    for expectation in list {
        verdict = join(verdict, expectation, judge(legend, known, expectation));
    }
    verdict
}

/// The mark of a verdict.
pub fn mark_of(verdict: EndsVerdict<'_>, known: &KnownEnds) -> EndsMark
    ensures { result ≡ spec.mark_of verdict.entry known.now.looked }
{
    match verdict {
        EndsVerdict::Holds => EndsMark::Holds,
        EndsVerdict::Fails { .. } => EndsMark::Fails,
        EndsVerdict::Open { .. } if known.looked.is_some() => EndsMark::TooMany,
        EndsVerdict::Open { .. } => EndsMark::Open,
    }
}
