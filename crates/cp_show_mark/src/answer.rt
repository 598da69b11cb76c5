//! What is shown: a text, and what it tells.

ghost use Rattle.std.specs.Prelude.{◌≡◌};
ghost use Rattle.cp_show_mark.specs.Showing as spec;

/// What an answer tells.
#[derive(Clone, Copy)]
pub enum ShowVerdict {
    /// What was asked for; of a mark, that all expectations hold.
    Reported,
    /// Why the source is refused.
    Refused,
    /// That there are too many rows, states or outcomes.
    TooMany,
    /// That there is no expectation, or that it is none.
    Misread,
    /// That an expectation fails.
    Fails,
    /// That no expectation fails, and one is not settled.
    Open,
}

impl ShowVerdict {
    /// The exit code.
    pub fn code(self) -> u8
        ensures { result ≡ spec.code_of self }
    {
        match self {
            ShowVerdict::Reported => 0,
            ShowVerdict::Refused => 1,
            ShowVerdict::Misread => 2,
            ShowVerdict::TooMany => 5,
            ShowVerdict::Fails => 6,
            ShowVerdict::Open => 7,
        }
    }
}

/// A text, and what it tells.
#[derive(Drop)]
pub struct ShowAnswer {
    pub verdict: ShowVerdict,
    pub text: String,
}
