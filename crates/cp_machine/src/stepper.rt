//! One step of a process.

ghost use Rattle.std.specs.Prelude.{◌≡◌, ◌+◌, ◌<◌, IsTrue, false, if◌then◌else◌, length};
ghost use Rattle.cp_machine.specs.Fits.{IsReserved, IsStateOf};
ghost use Rattle.cp_machine.specs.Machine.{is_pending, is_ready, machine_of, thread_at};
ghost use Rattle.cp_machine.specs.Premises.{CanStep};
ghost use Rattle.cp_machine.specs.Stack.{is_end};
ghost use Rattle.cp_machine.specs.Step.{step_at, succeeds};

use crate::end::{end_init, return_to};
use crate::event::Event;
use crate::memory::set_status;
use crate::process::{Entry, Status};
use crate::stack::top_of;
use crate::state::State;
use crate::take::{take_item, take_successor};
use crate::ticks::Count;
use cp_slots::Resolved;

/// Takes one step of a process that is ready, while nothing is pending. It takes no memory.
pub fn step<C: Count>(program: &Resolved, state: &mut State, pid: u8, ticks: &mut C) -> Event
    requires own { IsStateOf program.now state.old }
    requires pid { pid < length state.old.processes.items }
    requires ready { IsTrue (is_ready (machine_of state.old) pid) }
    requires still { is_pending (machine_of state.old) ≡ false }
    ensures after { step_at program.now (machine_of state.old) pid ≡ record { machine = machine_of state.new; event = result } }
    ensures own { IsStateOf program.now state.new }
    ensures ticks { C.count ticks.new ≡ (if succeeds result then (if C.counts then C.count ticks.old + 1 else C.count ticks.old) else C.count ticks.old) }
{
    let event = take_step(program, state, pid);
    match event {
        Event::Fault(_) | Event::OutputFull => {}
        _ => ticks.tick(),
    }
    event
}

#[inline(always)]
fn take_step(program: &Resolved, state: &mut State, pid: u8) -> Event
    requires { CanStep program.now state.old pid }
    ensures after { step_at program.now (machine_of state.old) pid ≡ record { machine = machine_of state.new; event = result } }
    ensures reserved { IsReserved program.now state.new }
{
    match top_of(state, pid) {
        None => {
            set_status(state, pid, Status::Ended);
            Event::Ended
        }
        Some(&Entry::Rest(at)) => take_item(program, state, pid, at),
        Some(&Entry::Successor(at, value, last)) => {
            take_successor(program, state, pid, at, value, last)
        }
        Some(&Entry::Return(_, _, _)) | Some(&Entry::InitEnd(_, _)) => {
            take_end(program, state, pid)
        }
    }
}

// The end of a call or of an initial statement: apart, since frames go through memory.
#[inline(never)]
fn take_end(program: &Resolved, state: &mut State, pid: u8) -> Event
    requires steps { CanStep program.now state.old pid }
    requires end { IsTrue (is_end (thread_at (machine_of state.old).threads pid).stack) }
    ensures after { step_at program.now (machine_of state.old) pid ≡ record { machine = machine_of state.new; event = result } }
    ensures reserved { IsReserved program.now state.new }
{
    match top_of(state, pid) {
        Some(&Entry::Return(caller, slot, monitor)) => {
            return_to(program, state, pid, caller, slot, monitor)
        }
        Some(&Entry::InitEnd(caller, component)) => {
            end_init(program, state, pid, caller, component);
            Event::Local
        }
        None | Some(&Entry::Rest(_)) | Some(&Entry::Successor(_, _, _)) => unreachable!(),
    }
}
