//! What a story is made of.

ghost use Rattle.std.specs.Prelude.{◌≡◌};
ghost use Rattle.cp_story.specs.Events.{event_of};

use arrayvec::ArrayVec;
use cp_legend::SourceValue;
use cp_machine::{Shown, Signals, Status};
use cp_run::TraceLine;

/// A choice that was due: who could be chosen, and who was.
#[derive(Drop)]
pub struct Choice {
    /// In rising order.
    pub options: ArrayVec<u8, 16>,
    pub number: u8,
    /// Whether one of a line was to be let in.
    pub at_gate: bool,
}

/// A call of a monitor's entry that a process has not returned from.
#[derive(Clone, Copy)]
pub struct OpenCall {
    pub monitor: u8,
    pub routine: usize,
    /// The line of the source from which it is called.
    pub line: u32,
}

/// A queue, by the monitor that it is in and its name there.
#[derive(Drop)]
pub struct Queue {
    pub monitor: u8,
    pub name: String,
}

/// What an event was.
#[derive(Drop)]
pub enum Happening {
    /// A call of a monitor's entry; where somebody is inside, its caller waits at the gate.
    Enter {
        call: OpenCall,
        arguments: Vec<SourceValue>,
        waits: bool,
    },
    /// A return from a monitor's entry.
    Leave(OpenCall),
    /// With the call that it waits in.
    Delay(Queue, OpenCall),
    /// With the call that it is in, and who goes on after it: under `return` it returns from the call.
    Continue(Queue, OpenCall, Signals),
    /// The start of a process.
    Start(u8),
    Display(Shown),
    End,
    /// A process was let in where more than one waited.
    Admit(OpenCall),
}

/// A variable of a monitor with its new value.
#[derive(Drop)]
pub struct Change {
    pub monitor: u8,
    /// Its name in the monitor.
    pub name: String,
    pub value: SourceValue,
}

/// What a call gave back when it ended.
#[derive(Drop)]
pub struct Returned {
    /// The place that a `var` parameter named; empty for a function's result.
    pub name: String,
    pub value: SourceValue,
}

/// A kernel call, a process end or an admission.
#[derive(Drop)]
pub struct StoryEvent {
    /// As the trace has it.
    pub plain: TraceLine,
    /// The choice that came before it.
    pub choice: Option<Choice>,
    /// The line of the source.
    pub line: Option<u32>,
    pub happening: Happening,
    /// What the call gave back that ended with it.
    pub returned: Vec<Returned>,
    /// Who was delayed in the queue that is continued.
    pub woken: ArrayVec<u8, 16>,
    /// Who was at the gate and goes in.
    pub let_in: ArrayVec<u8, 16>,
    /// What each process does afterwards.
    pub statuses: Vec<Status>,
    /// What changed in the monitors since the event before it.
    pub changes: Vec<Change>,
    /// It tells of what the trace has in its line.
    pub ghost same: { event_of happening ≡ plain.event },
}
