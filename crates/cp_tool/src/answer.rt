//! What is answered: a text, what it tells, and the exit code.

ghost use Rattle.std.specs.Prelude.{◌≡◌, Result};
ghost use Rattle.cp_front.specs.Transfer.{code_by};
ghost use Rattle.cp_tool.specs.Answered.{code_of};

use cp_explore::Text;
use cp_front::StreamFault;

/// How a call of the program ended, as its exit code.
#[derive(Clone, Copy, PartialEq, Eq)]
pub struct ExitStatus {
    /// 0 reported, 1 source refused, 3 memory refused, 4 read or write fault, 5 too many rows, states or outcomes, or not settled.
    pub code: u8,
}

/// What an answer tells.
#[derive(Clone, Copy)]
pub enum Verdict {
    Reported,
    Refused,
    TooManyRows,
    TooManyStates,
    TooManyOutcomes,
    /// It is not settled who may wait for ever.
    NotSettled,
}

/// A text, and what it tells.
#[derive(Drop)]
pub struct Answer {
    pub verdict: Verdict,
    pub text: Text,
}

impl Verdict {
    /// The exit code.
    pub fn code(self) -> u8
        ensures { result ≡ code_of self }
    {
        match self {
            Verdict::Reported => 0,
            Verdict::Refused => 1,
            Verdict::TooManyRows => 5,
            Verdict::TooManyStates => 5,
            Verdict::TooManyOutcomes => 5,
            Verdict::NotSettled => 5,
        }
    }
}

/// The exit code of what was told, or of what came in between.
pub fn status_of(ending: Result<Verdict, StreamFault>) -> ExitStatus
    ensures { result.code ≡ code_by code_of ending }
{
    match ending {
        Ok(verdict) => ExitStatus {
            code: verdict.code(),
        },
        Err(fault) => ExitStatus { code: fault.code() },
    }
}
