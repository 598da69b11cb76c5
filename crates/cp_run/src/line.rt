//! The lines of a trace.

ghost use Rattle.std.specs.Prelude.{◌≡◌};

use cp_machine::Kernel;
use std::marker::Model;

/// What a line of a trace tells of.
#[derive(Clone, Copy, PartialEq, Eq)]
pub enum TraceEvent {
    Kernel(Kernel),
    /// The process has ended.
    End,
    /// The process was let in at the gate of the pending monitor.
    Admit,
}

/// For each monitor the process inside it.
#[derive(Drop)]
pub struct Holders {
    holders: Vec<Option<u8>>,
}

impl Model for Holders {
    ghost use Rattle.std.specs.Prelude.{List, Option, ℕ};

    ghost Value = { List (Option ℕ) };

    ghost view = { λ h. h.holders.items };
}

impl Holders {
    /// These holders.
    pub fn new(holders: Vec<Option<u8>>) -> Holders
        ensures { result ≡ holders.items }
    {
        Holders { holders }
    }

    /// The holders as a slice.
    pub fn as_slice(&self) -> &[Option<u8>]
        ensures { result.now ≡ self.now }
    {
        self.holders.as_slice()
    }
}

/// A kernel event, a process end or an admission, with the holder of every monitor after it.
#[derive(Drop)]
pub struct TraceLine {
    pub process: u8,
    pub event: TraceEvent,
    pub holders: Holders,
}
