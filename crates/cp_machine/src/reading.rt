//! What is read off the processes of a state.

ghost use Rattle.std.specs.Prelude.{◌≡◌};
ghost use Rattle.std.specs.List.{list_any};
ghost use Rattle.cp_machine.specs.Machine.{is_waiting};

use crate::process::ProcessState;

/// Whether some process is at a gate or delayed.
pub fn any_waits(processes: &[ProcessState]) -> bool
    ensures { result ≡ list_any (λ p. is_waiting p.status) processes.now }
{
    processes.iter().any(|process| process.status.waits())
}
