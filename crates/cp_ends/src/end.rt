//! How schedules of any length end.

use cp_run::OutcomeKind;

/// An end of a schedule, or a stretch that goes on for ever without a choice.
#[derive(Clone, Copy, PartialEq, Eq)]
pub enum End {
    /// The run is over.
    Over(OutcomeKind),
    /// The stretch repeats for ever and calls the kernel: nobody but this process is ready.
    Alone(u8),
    /// The stretch of this process repeats for ever and never calls the kernel.
    Spins(u8),
}
