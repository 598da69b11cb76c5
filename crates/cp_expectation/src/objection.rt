//! Which topics can be asked of which question.

ghost use Rattle.std.specs.Prelude.{◌≡◌};
ghost use Rattle.cp_expectation.specs.Objections as spec;

use crate::expectation::{Claim, EndPattern, Expectation, Topic};

/// By which schedules expectations are judged.
#[derive(Clone, Copy, PartialEq, Eq)]
pub enum Question {
    /// Those within limits.
    Rows,
    /// Those of any length.
    Ends,
    /// Those of any length, where anybody in line may come into a monitor.
    EndsAnyGates,
    /// Those of any length, with calls made at once.
    EndsAtOnce,
}

/// Why a topic can't be asked.
#[derive(Clone, Copy, PartialEq, Eq)]
pub enum Objection {
    WaitingWithoutEnds,
    AloneWithoutEnds,
    SpinsWithoutEnds,
    OutputWithEnds,
    ShownByOnly,
    WaitingByOnly,
    WaitingWithAnyGates,
    WaitingAtOnce,
}

/// Why a topic can't be asked by this claim, if it can't.
pub fn topic_objection(question: Question, claim: Claim, topic: &Topic) -> Option<Objection>
    ensures { result ≡ spec.objection question claim topic.now }
{
    match topic {
        Topic::End { end, output } => match question {
            Question::Rows => row_objection(end),
            _ if output.is_some() => Some(Objection::OutputWithEnds),
            _ => None,
        },
        Topic::Shown(_) => shown_objection(question, claim),
        Topic::Waiting(_) => waiting_objection(question, claim),
    }
}

fn row_objection(end: &EndPattern) -> Option<Objection>
    ensures { result ≡ spec.row_objection end.now }
{
    match end {
        EndPattern::Alone(_) => Some(Objection::AloneWithoutEnds),
        EndPattern::Spins(_) => Some(Objection::SpinsWithoutEnds),
        _ => None,
    }
}

fn shown_objection(question: Question, claim: Claim) -> Option<Objection>
    ensures { result ≡ spec.shown_objection question claim }
{
    match (question, claim) {
        (Question::Rows, _) => None,
        (_, Claim::Only) => Some(Objection::ShownByOnly),
        _ => None,
    }
}

fn waiting_objection(question: Question, claim: Claim) -> Option<Objection>
    ensures { result ≡ spec.waiting_objection question claim }
{
    match (question, claim) {
        (Question::Rows, _) => Some(Objection::WaitingWithoutEnds),
        (Question::EndsAnyGates, _) => Some(Objection::WaitingWithAnyGates),
        (Question::EndsAtOnce, _) => Some(Objection::WaitingAtOnce),
        (_, Claim::Only) => Some(Objection::WaitingByOnly),
        _ => None,
    }
}

/// Why an expectation can't be asked, if it can't: by the first of its topics that can't.
pub fn objection_to(question: Question, expectation: &Expectation) -> Option<Objection>
    ensures { result ≡ spec.objection_to question expectation.now }
{
    for topic in &expectation.topics {
        if let Some(objection) = topic_objection(question, expectation.claim, topic) {
            return Some(objection);
        }
    }
    None
}
