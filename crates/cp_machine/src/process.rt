//! The processes of a run.

use cp_store::{Frame, Room};

#[derive(Clone, Copy, PartialEq, Eq)]
pub enum Status {
    Unstarted,
    Ready,
    /// At the gate of the monitor of this number.
    AtGate(u8),
    /// In the queue that has this permanent cell.
    Delayed(usize),
    Ended,
}

/// An entry of a control stack.
#[derive(Clone, Copy, Drop)]
pub enum Entry {
    /// The rest of a list of statements, from this item on.
    Rest(usize),
    /// The successor of a value, in the `for` of this item, with the last value.
    Successor(usize, i16, i16),
    /// The end of a call: the caller, the cell of its frame that takes a function's result, and the monitor that is left.
    Return(Frame, Option<usize>, Option<u8>),
    /// The end of the initial statement of a component, with the frame that goes on.
    InitEnd(Frame, usize),
}

#[derive(Drop)]
pub struct ProcessState {
    pub status: Status,
    /// The innermost call.
    pub frame: Frame,
    pub stack: Vec<Entry>,
    /// The cells and references of its open calls.
    pub room: Room,
}

impl Status {
    ghost use Rattle.std.specs.Prelude.{◌≡◌};
    ghost use Rattle.cp_machine.specs.Machine.{is_at_gate, is_delayed_at, is_ready_status, is_waiting};

    /// Whether a process of this status is at a gate or delayed.
    pub fn waits(self) -> bool
        ensures { result ≡ is_waiting self }
    {
        matches!(self, Status::AtGate(_) | Status::Delayed(_))
    }

    pub fn is_ready(self) -> bool
        ensures { result ≡ is_ready_status self }
    {
        matches!(self, Status::Ready)
    }

    /// Whether a process of this status is at the gate of a monitor.
    pub fn is_at_gate(self, monitor: u8) -> bool
        ensures { result ≡ is_at_gate monitor self }
    {
        match self {
            Status::AtGate(gate) => gate == monitor,
            _ => false,
        }
    }

    /// Whether a process of this status waits in the queue that has a permanent cell.
    pub fn is_delayed_at(self, cell: usize) -> bool
        ensures { result ≡ is_delayed_at cell self }
    {
        match self {
            Status::Delayed(queue) => queue == cell,
            _ => false,
        }
    }
}
