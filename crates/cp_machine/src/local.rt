//! Local steps: steps that neither call the kernel nor end anything.

ghost use Rattle.std.specs.Prelude.{◌≡◌, ◌+◌, ◌<◌, Ok, IsTrue, true, false, if◌then◌else◌, length};
ghost use Rattle.cp_slots.specs.Tables.{item_at};
ghost use Rattle.cp_machine.specs.Fits.{IsReserved, IsStateOf, IsTaken};
ghost use Rattle.cp_machine.specs.Machine.{is_pending, is_ready, machine_of, under};
ghost use Rattle.cp_machine.specs.Premises.{CanStep, IsTurn};
ghost use Rattle.cp_machine.specs.Statements.{local, successor_step};
ghost use Rattle.cp_machine.specs.Step.{act, step_at};
ghost use Rattle.cp_machine.specs.declared.event.Event.TheVariants.{Local};

use crate::event::{ErrorName, Event};
use crate::loops::{until, while_do};
use crate::process::Entry;
use crate::stack::{repeat, replace, top_of};
use crate::state::State;
use crate::statement::{assign, branch};
use crate::take::perform_successor;
use crate::ticks::Count;
use cp_slots::{Action, Item, Resolved};

/// Takes one step of a process that is ready, if it is local and of a frequent kind, and tells whether it did; otherwise the machine
/// is the same. Where steps are local, this is `step` without its event.
#[inline(always)]
pub fn local_step<C: Count>(program: &Resolved, state: &mut State, pid: u8, ticks: &mut C) -> bool
    requires own { IsStateOf program.now state.old }
    requires pid { pid < length state.old.processes.items }
    requires ready { IsTrue (is_ready (machine_of state.old) pid) }
    requires still { is_pending (machine_of state.old) ≡ false }
    ensures taken { result ≡ true → step_at program.now (machine_of state.old) pid ≡ local (machine_of state.new) }
    ensures same { result ≡ false → machine_of state.new ≡ machine_of state.old }
    ensures own { IsStateOf program.now state.new }
    ensures ready { is_ready (machine_of state.new) pid ≡ true }
    ensures still { is_pending (machine_of state.new) ≡ false }
    ensures ticks { C.count ticks.new ≡ (if result then (if C.counts then C.count ticks.old + 1 else C.count ticks.old) else C.count ticks.old) }
{
    let taken = take_local(program, state, pid);
    if taken {
        ticks.tick();
    }
    taken
}

#[inline(always)]
fn take_local(program: &Resolved, state: &mut State, pid: u8) -> bool
    requires { CanStep program.now state.old pid }
    ensures taken { result ≡ true → step_at program.now (machine_of state.old) pid ≡ local (machine_of state.new) }
    ensures same { result ≡ false → machine_of state.new ≡ machine_of state.old }
    ensures pending { (machine_of state.new).pending ≡ (machine_of state.old).pending }
    ensures reserved { IsReserved program.now state.new }
{
    match top_of(state, pid) {
        Some(&Entry::Rest(at)) => take_local_item(program, state, pid, at),
        Some(&Entry::Successor(at, value, last)) => {
            take_local_successor(program, state, pid, at, value, last)
        }
        None | Some(&Entry::Return(_, _, _)) | Some(&Entry::InitEnd(_, _)) => false,
    }
}

#[inline(always)]
fn take_local_item(program: &Resolved, state: &mut State, pid: u8, at: usize) -> bool
    requires { IsTaken program.now state.old pid at (item_at program.now at) }
    ensures taken { result ≡ true → act program.now (machine_of state.old) pid at (item_at program.now at) (item_at program.now at).action (under (machine_of state.old) pid) ≡ local (machine_of state.new) }
    ensures same { result ≡ false → machine_of state.new ≡ machine_of state.old }
    ensures pending { (machine_of state.new).pending ≡ (machine_of state.old).pending }
    ensures reserved { IsReserved program.now state.new }
{
    let item = program.item(at);
    perform_local(program, state, pid, at, item)
}

// Does what an item says, which is the topmost entry, where it is of a frequent kind.
#[inline(always)]
fn perform_local(program: &Resolved, state: &mut State, pid: u8, at: usize, item: &Item) -> bool
    requires { IsTaken program.now state.old pid at item.now }
    ensures taken { result ≡ true → act program.now (machine_of state.old) pid at item.now item.now.action (under (machine_of state.old) pid) ≡ local (machine_of state.new) }
    ensures same { result ≡ false → machine_of state.new ≡ machine_of state.old }
    ensures pending { (machine_of state.new).pending ≡ (machine_of state.old).pending }
    ensures reserved { IsReserved program.now state.new }
{
    match &item.action {
        Action::Block(list) => {
            replace(state, pid, *list, item.next);
            true
        }
        Action::Cycle(list) => {
            repeat(state, pid, *list);
            true
        }
        Action::Assign {
            target,
            value,
            low,
            high,
        } => is_done(assign(state, pid, item, target, value, low, high)),
        Action::If {
            test,
            then,
            otherwise,
        } => is_done(branch(state, pid, item, test, *then, *otherwise)),
        Action::While { test, body, again } => {
            is_done(while_do(state, pid, item, test, *body, *again))
        }
        Action::Until { test, body, again } => {
            is_done(until(state, pid, item, test, *body, *again))
        }
        _ => false,
    }
}

#[inline(always)]
fn take_local_successor(
    program: &Resolved,
    state: &mut State,
    pid: u8,
    at: usize,
    value: i16,
    last: i16,
) -> bool
    requires { IsTurn program.now state.old pid at value last (item_at program.now at) }
    ensures taken { result ≡ true → successor_step (machine_of state.old) pid at (item_at program.now at) (item_at program.now at).action (under (machine_of state.old) pid) value last ≡ local (machine_of state.new) }
    ensures same { result ≡ false → machine_of state.new ≡ machine_of state.old }
    ensures pending { (machine_of state.new).pending ≡ (machine_of state.old).pending }
    ensures reserved { IsReserved program.now state.new }
{
    let item = program.item(at);
    is_done(perform_successor(state, pid, at, item, value, last))
}

// Whether a statement was done by a local step.
#[inline(always)]
fn is_done(outcome: Result<Event, ErrorName>) -> bool
    ensures yes { result ≡ true → outcome ≡ Ok Local }
    ensures no { result ≡ false → outcome ≡ Ok Local → ⊥ }
{
    matches!(outcome, Ok(Event::Local))
}
