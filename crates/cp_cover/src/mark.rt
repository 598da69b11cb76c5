//! What a schedule can come to.

/// What a schedule can come to.
#[derive(Clone, Copy, PartialEq, Eq, Hash, Drop)]
pub enum CoverMark {
    /// A process makes a step of the item of this number: of a statement, or of a call in an expression.
    Statement(usize),
    /// A process waits in the queue that has this permanent cell.
    Queue(usize),
    /// A process waits at the gate of a monitor, to begin a routine of this number.
    Gate { monitor: u8, routine: usize },
}
