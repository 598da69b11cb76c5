//! The kernel: who goes into a monitor, who waits, and who goes on.

ghost use Rattle.std.specs.Prelude.{◌≡◌, ◌<◌, ◌∷◌, [], IfNone, IfSome, Some, length, position, slice_set};
ghost use Rattle.cp_slots.specs.Tables.{Tables};
ghost use Rattle.cp_machine.specs.Fits.{IsReserved};
ghost use Rattle.cp_machine.specs.Kernel as spec;
ghost use Rattle.cp_machine.specs.Machine.{is_delayed_at, machine_of, monitor_at};
ghost use Rattle.cp_machine.specs.Premises.{CanEnter, IsGate};

use crate::discipline::{Gates, Signals};
use crate::memory::set_status;
use crate::process::{ProcessState, Status};
use crate::state::{Gate, State};

/// Lets the line of a monitor in, which nobody is inside any more.
pub fn let_in(state: &mut State, monitor: u8)
    requires { IsGate state.old monitor }
    ensures after { machine_of state.new ≡ spec.let_in (machine_of state.old) monitor }
    ensures reserved { (r : Tables) → IsReserved r state.old → IsReserved r state.new }
{
    match state.discipline.gates {
        Gates::First => let_first_in(state, monitor),
        Gates::Any => let_one_in(state, monitor),
    }
}

// The first of the line goes in.
fn let_first_in(state: &mut State, monitor: u8)
    requires { IsGate state.old monitor }
    ensures after { machine_of state.new ≡ spec.first_in (machine_of state.old) monitor (monitor_at (machine_of state.old) monitor).line }
    ensures reserved { (r : Tables) → IsReserved r state.old → IsReserved r state.new }
{
    let guard = &mut state.guards[monitor as usize];
    if let Some(pid) = take_first(guard) {
        set_status(state, pid, Status::Ready);
    }
}

// One alone goes in; of more, one has to be admitted.
fn let_one_in(state: &mut State, monitor: u8)
    requires { IsGate state.old monitor }
    ensures after { machine_of state.new ≡ spec.one_in (machine_of state.old) monitor (monitor_at (machine_of state.old) monitor).line }
    ensures reserved { (r : Tables) → IsReserved r state.old → IsReserved r state.new }
{
    if state.guards[monitor as usize].line.len() > 1 {
        let guard = &mut state.guards[monitor as usize];
        guard.holder = None;
        state.pending = Some(monitor);
    } else {
        let_first_in(state, monitor);
    }
}

// The first of the line, who goes in.
fn take_first(guard: &mut Gate) -> Option<u8>
    ensures holder { guard.new.holder ≡ result }
    ensures first { IfSome result (λ pid. guard.old.line.items ≡ pid ∷ guard.new.line.items) }
    ensures empty { IfNone result (guard.old.line.items ≡ []) }
    ensures same { IfNone result (guard.new.line.items ≡ guard.old.line.items) }
{
    guard.holder = None;
    if !guard.line.is_empty() {
        guard.holder = Some(guard.line.remove(0));
    }
    guard.holder
}

/// The caller goes in if nobody is inside, and else to the end of the line.
pub fn enter(state: &mut State, pid: u8, monitor: u8)
    requires { CanEnter state.old pid monitor }
    ensures after { machine_of state.new ≡ spec.enter_caller (machine_of state.old) pid monitor }
    ensures reserved { (r : Tables) → IsReserved r state.old → IsReserved r state.new }
{
    let guard = &mut state.guards[monitor as usize];
    match guard.holder {
        None => guard.holder = Some(pid),
        Some(_) => {
            guard.line.push(pid);
            set_status(state, pid, Status::AtGate(monitor));
        }
    }
}

/// The caller waits in the queue of a permanent cell, and the line is let in.
pub fn delay(state: &mut State, pid: u8, monitor: u8, cell: usize)
    requires enters { CanEnter state.old pid monitor }
    requires cell { cell < length state.old.permanents.items }
    ensures after { machine_of state.new ≡ spec.delay_caller (machine_of state.old) pid monitor cell }
    ensures reserved { (r : Tables) → IsReserved r state.old → IsReserved r state.new }
{
    mark_queue(&mut state.permanents, cell, 1);
    set_status(state, pid, Status::Delayed(cell));
    let_in(state, monitor);
}

/// The process in the queue of a permanent cell is ready and inside; where there is none, the line is let in.
pub fn resume(state: &mut State, monitor: u8, cell: usize)
    requires gate { IsGate state.old monitor }
    requires cell { cell < length state.old.permanents.items }
    ensures after { machine_of state.new ≡ spec.resume (machine_of state.old) monitor cell }
    ensures reserved { (r : Tables) → IsReserved r state.old → IsReserved r state.new }
{
    let waiter = waiter_of(state, cell);
    mark_queue(&mut state.permanents, cell, 0);
    match waiter {
        None => let_in(state, monitor),
        Some(pid) => hand_over(state, monitor, pid),
    }
}

// A process is ready and inside, and the line stays.
fn hand_over(state: &mut State, monitor: u8, pid: u8)
    requires { CanEnter state.old pid monitor }
    ensures after { machine_of state.new ≡ spec.goes_in (machine_of state.old) monitor pid (monitor_at (machine_of state.old) monitor).line }
    ensures reserved { (r : Tables) → IsReserved r state.old → IsReserved r state.new }
{
    let guard = &mut state.guards[monitor as usize];
    guard.holder = Some(pid);
    set_status(state, pid, Status::Ready);
}

/// The caller goes on in the monitor, or waits until it is let in again; who waits in the queue of a permanent cell is resumed.
pub fn signal(state: &mut State, pid: u8, monitor: u8, cell: usize)
    requires enters { CanEnter state.old pid monitor }
    requires cell { cell < length state.old.permanents.items }
    ensures after { machine_of state.new ≡ spec.signal (machine_of state.old) pid monitor cell }
    ensures reserved { (r : Tables) → IsReserved r state.old → IsReserved r state.new }
{
    let waiter = waiter_of(state, cell);
    mark_queue(&mut state.permanents, cell, 0);
    if let Some(resumed) = waiter {
        bring_to_gate(state, pid, monitor, resumed);
    }
}

// Who was resumed comes to the gate, or the caller does.
fn bring_to_gate(state: &mut State, pid: u8, monitor: u8, resumed: u8)
    requires enters { CanEnter state.old pid monitor }
    requires resumed { resumed < length state.old.processes.items }
    ensures after { machine_of state.new ≡ spec.signal_by state.old.discipline.signals (Some resumed) (machine_of state.old) pid monitor }
    ensures reserved { (r : Tables) → IsReserved r state.old → IsReserved r state.new }
{
    match state.discipline.signals {
        Signals::Wait => change_places(state, monitor, pid, resumed),
        Signals::Return | Signals::Continue => join_line(state, monitor, resumed),
    }
}

// A process comes to the end of the line.
fn join_line(state: &mut State, monitor: u8, pid: u8)
    requires { CanEnter state.old pid monitor }
    ensures after { machine_of state.new ≡ spec.join_line (machine_of state.old) monitor pid }
    ensures reserved { (r : Tables) → IsReserved r state.old → IsReserved r state.new }
{
    let guard = &mut state.guards[monitor as usize];
    guard.line.push(pid);
    set_status(state, pid, Status::AtGate(monitor));
}

// The caller is the first of the line, and who was resumed is ready and inside.
fn change_places(state: &mut State, monitor: u8, caller: u8, resumed: u8)
    requires enters { CanEnter state.old caller monitor }
    requires resumed { resumed < length state.old.processes.items }
    ensures after { machine_of state.new ≡ spec.change_places (machine_of state.old) monitor caller resumed }
    ensures reserved { (r : Tables) → IsReserved r state.old → IsReserved r state.new }
{
    let guard = &mut state.guards[monitor as usize];
    guard.line.insert(0, caller);
    guard.holder = Some(resumed);
    set_status(state, caller, Status::AtGate(monitor));
    set_status(state, resumed, Status::Ready);
}

// Who waits in the queue of a permanent cell.
fn waiter_of(state: &State, cell: usize) -> Option<u8>
    ensures waiter { result ≡ spec.waits_in (machine_of state.now) cell }
    ensures within { IfSome result (λ pid. pid < length state.now.processes.items) }
{
    match place_in_queue(&state.processes, cell) {
        None => None,
        Some(place) => Some(place as u8),
    }
}

fn place_in_queue(processes: &[ProcessState], cell: usize) -> Option<usize>
    ensures place { result ≡ position (λ p. is_delayed_at cell p.status) processes.now }
    ensures within { IfSome result (λ place. place < length processes.now) }
{
    processes
        .iter()
        .position(|process| process.status.is_delayed_at(cell))
}

// The cell of a queue tells whether somebody waits.
fn mark_queue(permanents: &mut [i16], cell: usize, mark: i16)
    requires { cell < length permanents.old }
    ensures { permanents.new ≡ slice_set permanents.old cell mark }
{
    permanents[cell] = mark;
}
