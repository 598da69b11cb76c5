//! The ends of calls and of initial statements.

ghost use Rattle.std.specs.Prelude.{◌≡◌, ◌<◌, IfSome, None, length};
ghost use Rattle.cp_slots.specs.Tables.{Tables};
ghost use Rattle.cp_machine.specs.Calls as spec;
ghost use Rattle.cp_machine.specs.Fits.{IsReserved};
ghost use Rattle.cp_machine.specs.Machine.{machine_of, under};
ghost use Rattle.cp_machine.specs.Premises.{CanLeave, IsGate};
ghost use Rattle.cp_machine.specs.Statements as statements;

use crate::call::set_phase;
use crate::event::{Event, Kernel};
use crate::frame::leave;
use crate::kernel::let_in;
use crate::state::{Phase, State};
use cp_slots::Resolved;
use cp_store::Frame;

/// The end of a call, which is the topmost entry; that of a monitor's entry is the kernel's leave.
#[inline(never)]
pub fn return_to(
    program: &Resolved,
    state: &mut State,
    pid: u8,
    caller: Frame,
    slot: Option<usize>,
    monitor: Option<u8>,
) -> Event
    requires leaves { CanLeave program.now state.old pid caller slot }
    requires gate { IfSome monitor (IsGate state.old) }
    ensures after { spec.return_to program.now (machine_of state.old) pid caller slot monitor (under (machine_of state.old) pid) ≡ record { machine = machine_of state.new; event = result } }
    ensures reserved { (r : Tables) → IsReserved r state.old → IsReserved r state.new }
{
    leave(program, state, pid, caller, slot);
    match monitor {
        None => Event::Local,
        Some(monitor) => {
            let_in(state, monitor);
            Event::Kernel(Kernel::Leave)
        }
    }
}

/// The end of an initial statement, which is the topmost entry: the component is initialised.
#[inline(never)]
pub fn end_init(program: &Resolved, state: &mut State, pid: u8, caller: Frame, component: usize)
    requires leaves { CanLeave program.now state.old pid caller None }
    requires known { component < length state.old.phases.items }
    ensures after { spec.end_init program.now (machine_of state.old) pid caller component (under (machine_of state.old) pid) ≡ statements.local (machine_of state.new) }
    ensures reserved { (r : Tables) → IsReserved r state.old → IsReserved r state.new }
{
    leave(program, state, pid, caller, None);
    set_phase(state, component, Phase::Initialised);
}
