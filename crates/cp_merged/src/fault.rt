//! Why there are no tallies.

use thiserror::Error;

/// Why an exploration by states answers no tallies.
#[derive(Debug, Drop, Error)]
pub enum MergeFault {
    #[error("memory was refused")]
    Memory,
    /// A layer has more states than it may have.
    #[error("too many states")]
    TooManyStates,
    /// There are more than 50,000 different outcomes.
    #[error("too many outcomes")]
    TooManyOutcomes,
}
