//! Which expectations name who waits at an end.

ghost use Rattle.std.specs.Prelude.{◌≡◌};
ghost use Rattle.cp_verdict.specs.waiting.Asking as spec;

use cp_expectation::{EndPattern, Expectation, Topic};

fn is_of_who(topic: &Topic) -> bool
    ensures { result ≡ spec.is_of_who topic.now }
{
    matches!(
        topic,
        Topic::End {
            end: EndPattern::AllWaiting(Some(_)),
            ..
        }
    )
}

/// Whether an expectation names who waits at an end.
pub fn names_who(expectation: &Expectation) -> bool
    ensures { result ≡ spec.names_who expectation.now }
{
    expectation.topics.iter().any(is_of_who)
}

/// Whether one of some expectations does.
pub fn name_who(list: &[Expectation]) -> bool
    ensures { result ≡ spec.name_who list.now }
{
    list.iter().any(names_who)
}
