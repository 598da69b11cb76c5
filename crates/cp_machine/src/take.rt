//! Items that are taken.

ghost use Rattle.std.specs.Prelude.{◌≡◌};
ghost use Rattle.cp_slots.specs.Tables.{Tables, item_at};
ghost use Rattle.cp_machine.specs.Fits.{IsReserved, IsTaken};
ghost use Rattle.cp_machine.specs.Machine.{machine_of, under};
ghost use Rattle.cp_machine.specs.Premises.{IsTurn};
ghost use Rattle.cp_machine.specs.Statements.{outcome, successor_step};
ghost use Rattle.cp_machine.specs.Step.{act};

use crate::event::{ErrorName, Event, RunError};
use crate::loops::{Course, successor};
use crate::perform::perform;
use crate::stack::replace;
use crate::state::State;
use cp_slots::{Action, Item, Resolved};

fn fault_event(pid: u8, item: &Item, name: ErrorName) -> Event
    ensures { result ≡ Event.Fault (record { name = name; process = pid; line = item.now.line }) }
{
    Event::Fault(RunError {
        name,
        process: pid,
        line: item.line,
    })
}

/// Takes an item, which is the topmost entry of a process.
#[inline(always)]
pub fn take_item(program: &Resolved, state: &mut State, pid: u8, at: usize) -> Event
    requires { IsTaken program.now state.old pid at (item_at program.now at) }
    ensures after { act program.now (machine_of state.old) pid at (item_at program.now at) (item_at program.now at).action (under (machine_of state.old) pid) ≡ record { machine = machine_of state.new; event = result } }
    ensures reserved { IsReserved program.now state.new }
{
    let item = program.item(at);
    match perform(program, state, pid, at, item) {
        Ok(event) => event,
        Err(name) => fault_event(pid, item, name),
    }
}

/// Goes on with a `for`; another item is passed over.
#[inline(always)]
pub fn perform_successor(
    state: &mut State,
    pid: u8,
    at: usize,
    item: &Item,
    value: i16,
    last: i16,
) -> Result<Event, ErrorName>
    requires { (r : Tables) × IsTurn r state.old pid at value last item.now }
    ensures after { successor_step (machine_of state.old) pid at item.now item.now.action (under (machine_of state.old) pid) value last ≡ outcome result (machine_of state.new) pid item.now.line }
    ensures reserved { (r : Tables) → IsReserved r state.old → IsReserved r state.new }
{
    match &item.action {
        Action::For {
            variable,
            low,
            high,
            from: _,
            to: _,
            down,
            body,
        } => {
            let course = Course {
                at,
                variable: *variable,
                low: *low,
                high: *high,
                down: *down,
                list: *body,
            };
            successor(state, pid, item, course, value, last)
        }
        _ => {
            replace(state, pid, None, item.next);
            Ok(Event::Local)
        }
    }
}

/// Takes the successor of a value, which is the topmost entry of a process.
pub fn take_successor(
    program: &Resolved,
    state: &mut State,
    pid: u8,
    at: usize,
    value: i16,
    last: i16,
) -> Event
    requires { IsTurn program.now state.old pid at value last (item_at program.now at) }
    ensures after { successor_step (machine_of state.old) pid at (item_at program.now at) (item_at program.now at).action (under (machine_of state.old) pid) value last ≡ record { machine = machine_of state.new; event = result } }
    ensures reserved { IsReserved program.now state.new }
{
    let item = program.item(at);
    match perform_successor(state, pid, at, item, value, last) {
        Ok(event) => event,
        Err(name) => fault_event(pid, item, name),
    }
}
