//! What is expected of the schedules of a program.

use cp_machine::ErrorName;

/// What an expectation says of the schedules that one of its topics names.
#[derive(Clone, Copy)]
pub enum Claim {
    /// No schedule is so.
    Never,
    /// Some schedule is so.
    Sometimes,
    /// Every schedule that ends is so.
    Only,
}

/// A part of an expected output.
#[derive(Drop)]
pub enum OutputItem {
    /// A value, as a report prints it.
    Value(String),
    /// Any values, or none.
    Rest,
}

/// An expected output, from its first value to its last.
#[derive(Drop)]
pub struct OutputPattern {
    pub items: Vec<OutputItem>,
}

/// Who waits: processes by what they are called.
#[derive(Drop)]
pub struct WhoPattern {
    /// Names of processes, of arrays and of types, and numbers.
    pub processes: Vec<String>,
    /// Whether others may wait as well.
    pub others: bool,
}

/// How a schedule ends.
#[derive(Drop)]
pub enum EndPattern {
    Finished,
    /// A run error, whatever its name is.
    AnyError,
    Error(ErrorName),
    /// All who are left wait; these, where they are named.
    AllWaiting(Option<WhoPattern>),
    /// A process goes on for ever, and nobody else can; this one, where it is named.
    Alone(Option<String>),
    /// A process goes on for ever without a call; this one, where it is named.
    Spins(Option<String>),
}

/// What schedules may be.
#[derive(Drop)]
pub enum Topic {
    /// They end so, with such an output where one is given.
    End {
        end: EndPattern,
        output: Option<OutputPattern>,
    },
    /// This value is displayed, as a report prints it, whatever they end in.
    Shown(String),
    /// Somebody may wait for ever; this process, where one is named.
    Waiting(Option<String>),
}

/// A claim about the schedules that one of the topics names.
#[derive(Drop)]
pub struct Expectation {
    pub claim: Claim,
    pub topics: Vec<Topic>,
}
