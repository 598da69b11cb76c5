//! What a step was.

pub use cp_store::ErrorName;

/// What a step was.
#[derive(Clone, Copy, PartialEq, Eq)]
pub enum Event {
    Local,
    Kernel(Kernel),
    /// The process has ended.
    Ended,
    Fault(RunError),
    /// A value was to be displayed, and the output is full.
    OutputFull,
}

/// A kernel call.
#[derive(Clone, Copy, PartialEq, Eq)]
pub enum Kernel {
    Enter,
    Leave,
    Delay,
    Continue,
    StartProcess,
    Display,
}

/// A run error, with the number of the process and the line of its item.
#[derive(Clone, Copy, PartialEq, Eq)]
pub struct RunError {
    pub name: ErrorName,
    pub process: u8,
    pub line: u32,
}
