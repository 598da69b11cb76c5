//! Run errors.

/// The name of a run error.
#[derive(Clone, Copy, Debug, PartialEq, Eq)]
pub enum ErrorName {
    Overflow,
    ZeroDivisor,
    Range,
    NoCase,
    QueueInUse,
    NotInit,
    InitTwice,
    /// An assertion is false.
    Assertion,
    /// An invariant is false.
    Invariant,
}
