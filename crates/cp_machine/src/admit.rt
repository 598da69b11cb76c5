//! Admissions.

ghost use Rattle.std.specs.Prelude.{◌≡◌, ◌<◌, ◌==◌, IfSome, length, position};
ghost use Rattle.cp_slots.specs.Tables.{Tables};
ghost use Rattle.cp_machine.specs.Fits.{IsReserved};
ghost use Rattle.cp_machine.specs.Machine.{machine_of, monitor_of};
ghost use Rattle.cp_machine.specs.Opening.{admit_waiting, without};

use crate::memory::set_status;
use crate::process::Status;
use crate::state::{Gate, State};
use arrayvec::ArrayVec;

/// Lets a process of the pending monitor's line go in.
pub fn admit_process(state: &mut State, pid: u8)
    requires pid { pid < length state.old.processes.items }
    requires gate { IfSome state.old.pending (λ monitor. monitor < length state.old.guards.items) }
    ensures after { machine_of state.new ≡ admit_waiting (machine_of state.old) pid }
    ensures reserved { (r : Tables) → IsReserved r state.old → IsReserved r state.new }
{
    if let Some(monitor) = state.pending {
        let guard = &mut state.guards[monitor as usize];
        take_in(guard, pid);
        state.pending = None;
        set_status(state, pid, Status::Ready);
    }
}

// A process goes in from the line.
fn take_in(guard: &mut Gate, pid: u8)
    ensures { monitor_of guard.new ≡ record { holder = Some pid; line = without pid (monitor_of guard.old).line } }
{
    leave_line(&mut guard.line, pid);
    guard.holder = Some(pid);
}

fn leave_line(line: &mut ArrayVec<u8, 16>, pid: u8)
    ensures { line.new.items ≡ without pid line.old.items }
{
    if let Some(place) = place_of(line.as_slice(), pid) {
        line.remove(place);
    }
}

fn place_of(line: &[u8], pid: u8) -> Option<usize>
    ensures place { result ≡ position (λ q. q == pid) line.now }
    ensures within { IfSome result (λ place. place < length line.now) }
{
    line.iter().position(|other| *other == pid)
}
