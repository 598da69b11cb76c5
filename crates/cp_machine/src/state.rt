//! The state of a run.

ghost use Rattle.std.specs.Prelude.{◌≤◌, length};

use crate::admit::admit_process;
use crate::discipline::Discipline;
use crate::process::ProcessState;
use crate::reading::any_waits;
use crate::shown::Shown;
use arrayvec::ArrayVec;
use cp_store::Bound;

/// The most values that a run may display.
pub const MOST_SHOWN: usize = 1000;

/// Who is inside a monitor, and its line.
#[derive(Drop)]
pub struct Gate {
    pub holder: Option<u8>,
    pub line: ArrayVec<u8, 16>,
}

/// How far a class or monitor is initialised.
#[derive(Clone, Copy, PartialEq, Eq)]
pub enum Phase {
    Uninitialised,
    Initialising,
    Initialised,
}

/// Which processes are ready: none, one alone, or several.
#[derive(Clone, Copy)]
pub enum Readiness {
    Nobody,
    One(u8),
    Several,
}

impl Readiness {
    ghost use Rattle.std.specs.Prelude.{◌≡◌};
    ghost use Rattle.cp_machine.specs.Machine.{one_ready_more};

    // One process more is ready.
    #[inline(always)]
    fn more(self, pid: u8) -> Readiness
        ensures { result ≡ one_ready_more self pid }
    {
        match self {
            Readiness::Nobody => Readiness::One(pid),
            Readiness::One(_) | Readiness::Several => Readiness::Several,
        }
    }
}

/// The state of a run of a program.
pub struct State {
    /// The permanent cells of all components.
    pub permanents: Vec<i16>,
    /// The components that parameters are bound to, by the permanent cells of these.
    pub bindings: Vec<usize>,
    pub phases: Vec<Phase>,
    pub processes: Vec<ProcessState>,
    pub guards: Vec<Gate>,
    pub pending: Option<u8>,
    pub discipline: Discipline,
    pub output: Vec<Shown>,
    /// Room for evaluated arguments.
    pub bounds: Vec<Bound>,
    pub ghost few: { length processes.items ≤ 16 },
}

// One call where it is dropped, not one for each list: proofs of functions that may end early are much shorter.
impl Drop for State {
    fn drop(self) {
        let State {
            permanents: _,
            bindings: _,
            phases: _,
            processes: _,
            guards: _,
            pending: _,
            discipline: _,
            output: _,
            bounds: _,
        } = self;
    }
}

impl State {
    ghost use Rattle.std.specs.Prelude.{◌≡◌, ◌<◌, length};
    ghost use Rattle.cp_machine.specs.Machine.{machine_of, output_of, waits as some_waits, readiness_of, ready_of, waiting_of, monitor_at, in_line};
    ghost use Rattle.std.specs.Prelude.{IsTrue};
    ghost use Rattle.cp_slots.specs.Tables.{Tables};
    ghost use Rattle.cp_machine.specs.Fits.{IsStateOf};
    ghost use Rattle.cp_machine.specs.Opening.{admit_waiting};

    /// The processes that are ready, in rising order.
    pub fn ready(&self) -> ArrayVec<u8, 16>
        ensures { result.items ≡ ready_of (machine_of self.now) }
    {
        let mut ready = ArrayVec::new();
        for (pid, process) in self.processes.iter().enumerate() {
            if process.status.is_ready() {
                ready.push(pid as u8);
            }
        }
        ready
    }

    /// Whether no process is ready, one alone, or several.
    pub fn readiness(&self) -> Readiness
        ensures { result ≡ readiness_of (ready_of (machine_of self.now)) }
    {
        let mut readiness = Readiness::Nobody;
        for (pid, process) in self.processes.iter().enumerate() {
            if process.status.is_ready() {
                readiness = readiness.more(pid as u8);
            }
            if let Readiness::Several = readiness {
                return Readiness::Several;
            }
        }
        readiness
    }

    /// Whether some process is at a gate or delayed.
    pub fn waits(&self) -> bool
        ensures { result ≡ some_waits (machine_of self.now) }
    {
        any_waits(&self.processes)
    }

    /// The process inside a monitor.
    pub fn holder(&self, monitor: u8) -> Option<u8>
        requires { monitor < length self.now.guards.items }
        ensures { result ≡ (monitor_at (machine_of self.now) monitor).holder }
    {
        self.guards[monitor as usize].holder
    }

    /// The displayed values.
    pub fn output(&self) -> &[Shown]
        ensures { result.now ≡ output_of (machine_of self.now) }
    {
        &self.output
    }

    /// The monitor whose gate waits for a choice.
    pub fn pending(&self) -> Option<u8>
        ensures { result ≡ (machine_of self.now).pending }
    {
        self.pending
    }

    /// The processes at the gate of a monitor, in rising order.
    pub fn waiting(&self, monitor: u8) -> ArrayVec<u8, 16>
        ensures { result.items ≡ waiting_of (machine_of self.now) monitor }
    {
        let mut waiting = ArrayVec::new();
        for (pid, process) in self.processes.iter().enumerate() {
            if process.status.is_at_gate(monitor) {
                waiting.push(pid as u8);
            }
        }
        waiting
    }

    /// Lets a process of the pending monitor's line go in and become ready; nothing is pending then.
    pub fn admit(&mut self, pid: u8)
        requires own { (r : Tables) × IsStateOf r self.old }
        requires pid { pid < length self.old.processes.items }
        requires line { IsTrue (in_line (machine_of self.old) pid) }
        ensures after { machine_of self.new ≡ admit_waiting (machine_of self.old) pid }
        ensures own { (r : Tables) → IsStateOf r self.old → IsStateOf r self.new }
    {
        admit_process(self, pid);
    }
}
