//! What an expression gives, in a form that is handed over in registers: a `Result` of a value or a name goes through memory.

ghost use Rattle.std.specs.Prelude.{◌≡◌, Err, IsErr};
ghost use Rattle.cp_store.specs.Answers as spec;

use crate::error::ErrorName;

/// The value of an expression, or the run error that it meets.
#[derive(Clone, Copy)]
pub enum Evaluation {
    Value(i16),
    Overflow,
    ZeroDivisor,
    Range,
    NoCase,
    QueueInUse,
    NotInit,
    InitTwice,
    Assertion,
    Invariant,
}

impl Evaluation {
    /// The answer that stands for a result.
    #[inline(always)]
    pub fn of(outcome: Result<i16, ErrorName>) -> Evaluation
        ensures { spec.result_of result ≡ outcome }
    {
        match outcome {
            Ok(value) => Evaluation::Value(value),
            Err(name) => Evaluation::of_error(name),
        }
    }

    /// The answer that stands for a run error.
    pub fn of_error(name: ErrorName) -> Evaluation
        ensures { spec.result_of result ≡ Err name }
    {
        match name {
            ErrorName::Overflow => Evaluation::Overflow,
            ErrorName::ZeroDivisor => Evaluation::ZeroDivisor,
            ErrorName::Range => Evaluation::Range,
            ErrorName::NoCase => Evaluation::NoCase,
            ErrorName::QueueInUse => Evaluation::QueueInUse,
            ErrorName::NotInit => Evaluation::NotInit,
            ErrorName::InitTwice => Evaluation::InitTwice,
            ErrorName::Assertion => Evaluation::Assertion,
            ErrorName::Invariant => Evaluation::Invariant,
        }
    }

    /// The result that an answer stands for.
    #[inline(always)]
    pub fn result(self) -> Result<i16, ErrorName>
        ensures { result ≡ spec.result_of self }
    {
        match self {
            Evaluation::Value(value) => Ok(value),
            Evaluation::Overflow
            | Evaluation::ZeroDivisor
            | Evaluation::Range
            | Evaluation::NoCase
            | Evaluation::QueueInUse
            | Evaluation::NotInit
            | Evaluation::InitTwice
            | Evaluation::Assertion
            | Evaluation::Invariant => Err(self.name()),
        }
    }

    // The run error of an answer that is no value.
    #[inline(never)]
    fn name(self) -> ErrorName
        requires { IsErr (spec.result_of self) }
        ensures { spec.result_of self ≡ Err result }
    {
        match self {
            Evaluation::Value(_) => unreachable!(),
            Evaluation::Overflow => ErrorName::Overflow,
            Evaluation::ZeroDivisor => ErrorName::ZeroDivisor,
            Evaluation::Range => ErrorName::Range,
            Evaluation::NoCase => ErrorName::NoCase,
            Evaluation::QueueInUse => ErrorName::QueueInUse,
            Evaluation::NotInit => ErrorName::NotInit,
            Evaluation::InitTwice => ErrorName::InitTwice,
            Evaluation::Assertion => ErrorName::Assertion,
            Evaluation::Invariant => ErrorName::Invariant,
        }
    }
}
