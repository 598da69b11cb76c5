//! Why there is no table, and why a member is not split.

use thiserror::Error;

/// Why an exploration answers no table.
#[derive(Debug, Drop, Error)]
pub enum ExploreFault {
    #[error("memory was refused")]
    Memory,
    /// The table has more than 50,000 rows.
    #[error("too many rows")]
    TooManyRows,
}

/// Why a member of a cutting is not split.
#[derive(Debug, Drop, Error)]
pub enum SplitFault {
    #[error("memory was refused")]
    Memory,
    /// The run of the member ends.
    #[error("the run of the member ends")]
    Leaf,
    /// There would be more than 4,096 members.
    #[error("too many members")]
    Full,
}

/// Why pieces make no table.
#[derive(Debug, Drop, Error)]
pub enum GatherFault {
    #[error("memory was refused")]
    Memory,
    /// A piece of this task came before.
    #[error("two pieces of task {0}")]
    Double(u32),
    /// There is no such task.
    #[error("there is no task {0}")]
    Stranger(u32),
    /// No piece is of this task.
    #[error("no piece of task {0}")]
    Missing(u32),
    /// The table would have more than 50,000 rows.
    #[error("too many rows")]
    TooManyRows,
}
