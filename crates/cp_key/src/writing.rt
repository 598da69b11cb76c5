//! The key of a state.

ghost use Rattle.std.specs.Prelude.{◌≡◌, ◌++◌, ℕ, List, IfOk, map, true};
ghost use Rattle.std.specs.List.{flat_map};
ghost use Rattle.cp_machine.specs.Machine.{machine_of, monitor_of, thread_of};
ghost use Rattle.cp_machine.specs.Bodies.{body_of, has_moved, KeepBodies};
ghost use Rattle.cp_key.specs.Key.{body_key, core_key, frames_key, hidden_key, key_of, monitor_key, rest_key, status_key, threads_key};
ghost use Rattle.cp_key.specs.Known.{AreKeyOf, ArePartsOf, Cover, IsRun, KnowUnmoved};
ghost use Rattle.cp_key.specs.Numbers.{integer_key, list_key, number_key};

use crate::bodies::{Bodies, Parts};
use crate::keyed::{Keyed, freeze_list, freeze_numbers};
use cp_machine::{Gate, Moved, ProcessState, State, Watch};
use std::alloc::AllocError;

// The bytes of the longest number.
const MOST_NUMBER_BYTES: usize = 9;

/// Appends the key of a state. What is known of the state before it is copied where it stayed the same: permanent cells, bindings, and
/// the bodies of the processes that did not move.
#[tactic(auto, unfolding(crate::specs::Key::key_of))]
pub fn freeze(
    state: &State,
    before: &State,
    known: &Parts,
    moved: &Moved,
    key: &mut Vec<u8>,
) -> Result<(), AllocError>
    requires known { ArePartsOf known.now (machine_of before.now) }
    requires kept { KeepBodies (has_moved moved.now) (machine_of before.now) (machine_of state.now) }
    requires cover { Cover known.now.bodies moved.now (machine_of state.now) }
    ensures { IfOk result (λ _. key.new.items ≡ key.old.items ++ key_of (machine_of state.now)) }
{
    freeze_list(&state.output, key)?;
    freeze_hidden(state, before, known, moved, key)
}

/// As many bytes as a key of a state of the same program can have, without the values that were displayed.
pub fn most_bytes(state: &State) -> usize {
    let mut bytes = 8 * MOST_NUMBER_BYTES;
    bytes = with_more(bytes, state.permanents.len(), 3);
    bytes = with_more(bytes, state.bindings.len(), MOST_NUMBER_BYTES);
    bytes = with_more(bytes, state.phases.len(), 1);
    bytes = with_more(bytes, state.guards.len(), 3 * MOST_NUMBER_BYTES);
    for process in &state.processes {
        bytes = bytes.saturating_add(10 * MOST_NUMBER_BYTES);
        bytes = with_more(bytes, process.stack.capacity(), 8 * MOST_NUMBER_BYTES);
        bytes = with_more(bytes, process.room.cells.capacity(), 3);
        bytes = with_more(
            bytes,
            process.room.references.capacity(),
            2 * MOST_NUMBER_BYTES,
        );
    }
    bytes
}

fn with_more(bytes: usize, count: usize, each: usize) -> usize {
    bytes.saturating_add(count.saturating_mul(each))
}

/// Appends the key of the core of a state.
#[tactic(auto, unfolding(crate::specs::Key::core_key))]
pub fn freeze_core(state: &State, key: &mut Vec<u8>) -> Result<(), AllocError>
    ensures { IfOk result (λ _. key.new.items ≡ key.old.items ++ core_key (machine_of state.now)) }
{
    state.output.len().freeze(key)?;
    freeze_hidden(state, state, &Parts::none(), &Moved::everybody(), key)
}

// All but the output.
fn freeze_hidden(
    state: &State,
    before: &State,
    known: &Parts,
    moved: &Moved,
    key: &mut Vec<u8>,
) -> Result<(), AllocError>
    requires permanents { AreKeyOf integer_key known.now.permanents.now before.now.permanents.items }
    requires bindings { AreKeyOf number_key known.now.bindings.now before.now.bindings.items }
    requires bodies { KnowUnmoved known.now.bodies moved.now (machine_of state.now).threads }
    ensures { IfOk result (λ _. key.new.items ≡ key.old.items ++ hidden_key (machine_of state.now)) }
{
    freeze_permanents(state, before, known.permanents, key)?;
    freeze_bindings(state, before, known.bindings, key)?;
    freeze_numbers(&state.phases, key)?;
    freeze_running(state, &known.bodies, moved, key)
}

// The permanent cells, whose key is copied where they are those of the state before and that is known.
fn freeze_permanents(
    state: &State,
    before: &State,
    known: &[u8],
    key: &mut Vec<u8>,
) -> Result<(), AllocError>
    requires { AreKeyOf integer_key known.now before.now.permanents.items }
    ensures { IfOk result (λ _. key.new.items ≡ key.old.items ++ list_key integer_key (machine_of state.now).permanents) }
{
    if !known.is_empty() && state.permanents.as_slice() == before.permanents.as_slice() {
        key.extend_from_slice(known)
    } else {
        freeze_numbers(&state.permanents, key)
    }
}

// The same of what components are bound to.
fn freeze_bindings(
    state: &State,
    before: &State,
    known: &[u8],
    key: &mut Vec<u8>,
) -> Result<(), AllocError>
    requires { AreKeyOf number_key known.now before.now.bindings.items }
    ensures { IfOk result (λ _. key.new.items ≡ key.old.items ++ list_key number_key (machine_of state.now).bindings) }
{
    if !known.is_empty() && are_same(&state.bindings, &before.bindings) {
        key.extend_from_slice(known)
    } else {
        freeze_numbers(&state.bindings, key)
    }
}

// Whether two lists of numbers are one. To look at all of them takes less than to stop where they differ, which is rare.
#[inline(always)]
fn are_same(numbers: &[usize], others: &[usize]) -> bool
    ensures { result ≡ true → numbers.now ≡ others.now }
{
    let count = numbers.len();
    if others.len() != count {
        return false;
    }
    let mut is_same = true;
    for at in 0..count {
        is_same = is_same & (numbers[at] == others[at]);
    }
    is_same
}

// The processes and the monitors.
fn freeze_running(
    state: &State,
    known: &Bodies,
    moved: &Moved,
    key: &mut Vec<u8>,
) -> Result<(), AllocError>
    requires { KnowUnmoved known.now moved.now (machine_of state.now).threads }
    ensures { IfOk result (λ _. key.new.items ≡ key.old.items ++ (threads_key (machine_of state.now).threads ++ rest_key (machine_of state.now))) }
{
    freeze_processes(&state.processes, known, moved, key)?;
    freeze_rest(state, key)
}

#[tactic(auto, unfolding(crate::specs::Key::rest_key))]
fn freeze_rest(state: &State, key: &mut Vec<u8>) -> Result<(), AllocError>
    ensures { IfOk result (λ _. key.new.items ≡ key.old.items ++ rest_key (machine_of state.now)) }
{
    freeze_guards(&state.guards, key)?;
    state.pending.freeze(key)?;
    state.discipline.freeze(key)
}

fn freeze_processes(
    processes: &[ProcessState],
    known: &Bodies,
    moved: &Moved,
    key: &mut Vec<u8>,
) -> Result<(), AllocError>
    requires { KnowUnmoved known.now moved.now (map thread_of processes.now) }
    ensures { IfOk result (λ _. key.new.items ≡ key.old.items ++ threads_key (map thread_of processes.now)) }
{
    freeze_statuses(processes, key)?;
    freeze_bodies(processes, known, moved, key)
}

fn freeze_statuses(processes: &[ProcessState], key: &mut Vec<u8>) -> Result<(), AllocError>
    ensures { IfOk result (λ _. key.new.items ≡ key.old.items ++ list_key (λ t. status_key t.status) (map thread_of processes.now)) }
{
    processes.len().freeze(key)?;
    for process in processes {
        process.status.freeze(key)?;
    }
    Ok(())
}

// Those that did not move are copied, as many at a time as stand side by side.
fn freeze_bodies(
    processes: &[ProcessState],
    known: &Bodies,
    moved: &Moved,
    key: &mut Vec<u8>,
) -> Result<(), AllocError>
    requires { KnowUnmoved known.now moved.now (map thread_of processes.now) }
    ensures { IfOk result (λ _. key.new.items ≡ key.old.items ++ flat_map (λ t. body_key (body_of t)) (map thread_of processes.now)) }
{
    // The first process whose body is not written yet.
    let mut first = 0;
    for pid in 0..processes.len() {
        if moved.has(pid) {
            freeze_known(known, first, pid, key)?;
            freeze_body(&processes[pid], key)?;
            first = pid + 1;
        }
    }
    freeze_known(known, first, processes.len(), key)
}

// The known bodies of the processes from one on, up to another.
#[inline(always)]
fn freeze_known(
    known: &Bodies,
    first: usize,
    end: usize,
    key: &mut Vec<u8>,
) -> Result<(), AllocError>
    requires { (bytes : List ℕ) × IsRun known.now first end bytes }
    ensures { IfOk result (λ _. (bytes : List ℕ) → IsRun known.now first end bytes → key.new.items ≡ key.old.items ++ bytes) }
{
    if first < end {
        key.extend_from_slice(known.between(first, end))?;
    }
    Ok(())
}

fn freeze_body(process: &ProcessState, key: &mut Vec<u8>) -> Result<(), AllocError>
    ensures { IfOk result (λ _. key.new.items ≡ key.old.items ++ body_key (body_of (thread_of process.now))) }
{
    process.frame.freeze(key)?;
    freeze_frames(process, key)
}

// What the frames of a process hold.
#[tactic(auto, using(crate::proofs::Lists::turned_twice))]
fn freeze_frames(process: &ProcessState, key: &mut Vec<u8>) -> Result<(), AllocError>
    ensures { IfOk result (λ _. key.new.items ≡ key.old.items ++ frames_key (body_of (thread_of process.now))) }
{
    freeze_list(&process.stack, key)?;
    freeze_numbers(&process.room.cells, key)?;
    freeze_list(&process.room.references, key)
}

fn freeze_guards(guards: &[Gate], key: &mut Vec<u8>) -> Result<(), AllocError>
    ensures { IfOk result (λ _. key.new.items ≡ key.old.items ++ list_key monitor_key (map monitor_of guards.now)) }
{
    guards.len().freeze(key)?;
    for guard in guards {
        freeze_guard(guard, key)?;
    }
    Ok(())
}

fn freeze_guard(guard: &Gate, key: &mut Vec<u8>) -> Result<(), AllocError>
    ensures { IfOk result (λ _. key.new.items ≡ key.old.items ++ monitor_key (monitor_of guard.now)) }
{
    guard.holder.freeze(key)?;
    freeze_list(guard.line.as_slice(), key)
}
