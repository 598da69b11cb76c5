//! Copies of states.

ghost use Rattle.std.specs.Prelude.{◌≡◌, ◌≤◌, false, length, ℕ, IfOk, map, vec_capacity, vec_len};
ghost use Rattle.cp_slots.specs.Tables.{Tables};
ghost use Rattle.cp_machine.specs.Fits.{HasRoomFor, HaveCells, HaveReferences, HaveRoom, HaveStacks, IsReserved, IsStateOf};
ghost use Rattle.cp_machine.specs.Bodies.{body_at, body_of};
ghost use Rattle.cp_machine.specs.Machine.{machine_of, monitor_of, thread_at, thread_of};

use crate::moved::{Unwatched, Watch};
use crate::process::ProcessState;
use crate::shown::Shown;
use crate::state::{Gate, Phase, State};
use arrayvec::ArrayVec;
use cp_store::{Bound, Room};
use std::alloc::{AllocError, Global};

impl State {
    /// The same state once more, with as much memory.
    pub fn copy(&self, alloc: Global) -> Result<State, AllocError>
        ensures same { IfOk result (λ s. machine_of s ≡ machine_of self.now) }
        ensures own { IfOk result (λ s. (r : Tables) → IsStateOf r self.now → IsStateOf r s) }
    {
        let (permanents, bindings, phases) = copies_of_cells(alloc, self)?;
        let (processes, guards) = copies_of_parties(alloc, self)?;
        let (output, bounds) = copies_of_lists(alloc, self)?;
        Ok(State {
            permanents,
            bindings,
            phases,
            processes,
            guards,
            pending: self.pending,
            discipline: self.discipline,
            output,
            bounds,
        })
    }

    /// Becomes the same as another state of the same program. It takes no memory, and copies what is live and not what is reserved.
    pub fn take_from(&mut self, other: &State)
        requires { (r : Tables) × IsStateOf r self.old × IsStateOf r other.now }
        ensures same { machine_of self.new ≡ machine_of other.now }
        ensures own { (r : Tables) → IsStateOf r self.old → IsStateOf r other.now → IsStateOf r self.new }
    {
        take_state(self, other, &Unwatched);
    }
}

#[inline(always)]
fn take_state<W: Watch>(to: &mut State, from: &State, watch: &W)
    requires own { (r : Tables) × IsStateOf r to.old × IsStateOf r from.now }
    requires kept { (pid : ℕ) → W.moved watch.now pid ≡ false → body_at (machine_of to.old) pid ≡ body_at (machine_of from.now) pid }
    ensures same { machine_of to.new ≡ machine_of from.now }
    ensures reserved { (r : Tables) → IsReserved r to.old → IsReserved r from.now → IsReserved r to.new }
{
    to.permanents.copy_from_slice(&from.permanents);
    to.bindings.copy_from_slice(&from.bindings);
    to.phases.copy_from_slice(&from.phases);
    take_processes(&mut to.processes, &from.processes, watch);
    take_guards(&mut to.guards, &from.guards);
    to.pending = from.pending;
    to.discipline = from.discipline;
    take_list(&mut to.output, &from.output);
}

/// Becomes the same as another list, for which there is room.
#[inline(always)]
pub fn take_list<T: Copy>(to: &mut Vec<T>, from: &[T])
    requires { length from.now ≤ vec_capacity to.old }
    ensures items { to.new.items ≡ from.now }
    ensures room { vec_capacity to.old ≤ vec_capacity to.new }
{
    if from.is_empty() {
        to.clear();
    } else if to.len() == from.len() {
        to.copy_from_slice(from);
    } else {
        to.clear();
        let _ = to.extend_from_slice(from);
    }
}

/// A list once more, with room for this many.
pub fn copy_of_list<T: Copy>(alloc: Global, from: &[T], room: usize) -> Result<Vec<T>, AllocError>
    ensures same { IfOk result (λ list. list.items ≡ from.now) }
    ensures len { IfOk result (λ list. vec_len list ≡ length from.now) }
    ensures room { IfOk result (λ list. room ≤ vec_capacity list) }
{
    let mut list = Vec::with_capacity(alloc, room)?;
    list.extend_from_slice(from)?;
    Ok(list)
}

// What the components have: cells, bindings and phases.
fn copies_of_cells(
    alloc: Global,
    from: &State,
) -> Result<(Vec<i16>, Vec<usize>, Vec<Phase>), AllocError>
    ensures permanents { IfOk result (λ t. t.0.items ≡ from.now.permanents.items) }
    ensures bindings { IfOk result (λ t. t.1.items ≡ from.now.bindings.items) }
    ensures phases { IfOk result (λ t. t.2.items ≡ from.now.phases.items) }
{
    let permanents = copy_of_list(alloc, &from.permanents, from.permanents.len())?;
    let bindings = copy_of_list(alloc, &from.bindings, from.bindings.len())?;
    let phases = copy_of_list(alloc, &from.phases, from.phases.len())?;
    Ok((permanents, bindings, phases))
}

// The processes, and the monitors that they go into.
fn copies_of_parties(
    alloc: Global,
    from: &State,
) -> Result<(Vec<ProcessState>, Vec<Gate>), AllocError>
    ensures threads { IfOk result (λ t. map thread_of t.0.items ≡ map thread_of from.now.processes.items) }
    ensures stacks { IfOk result (λ t. (depth : ℕ) → HaveStacks depth from.now.processes.items → HaveStacks depth t.0.items) }
    ensures cells { IfOk result (λ t. (cells : ℕ) → HaveCells cells from.now.processes.items → HaveCells cells t.0.items) }
    ensures references { IfOk result (λ t. (references : ℕ) → HaveReferences references from.now.processes.items → HaveReferences references t.0.items) }
    ensures monitors { IfOk result (λ t. map monitor_of t.1.items ≡ map monitor_of from.now.guards.items) }
{
    let processes = copies_of_processes(alloc, &from.processes)?;
    let guards = copies_of_guards(alloc, &from.guards)?;
    Ok((processes, guards))
}

// What was displayed, and room for evaluated arguments.
fn copies_of_lists(alloc: Global, from: &State) -> Result<(Vec<Shown>, Vec<Bound>), AllocError>
    ensures output { IfOk result (λ t. t.0.items ≡ from.now.output.items) }
    ensures len { IfOk result (λ t. vec_len t.0 ≡ vec_len from.now.output) }
    ensures room { IfOk result (λ t. vec_capacity from.now.output ≤ vec_capacity t.0) }
    ensures bounds { IfOk result (λ t. vec_capacity from.now.bounds ≤ vec_capacity t.1) }
{
    let output = copy_of_list(alloc, &from.output, from.output.capacity())?;
    let bounds = Vec::with_capacity(alloc, from.bounds.capacity())?;
    Ok((output, bounds))
}

fn copies_of_processes(
    alloc: Global,
    from: &[ProcessState],
) -> Result<Vec<ProcessState>, AllocError>
    ensures same { IfOk result (λ ps. map thread_of ps.items ≡ map thread_of from.now) }
    ensures stacks { IfOk result (λ ps. (depth : ℕ) → HaveStacks depth from.now → HaveStacks depth ps.items) }
    ensures cells { IfOk result (λ ps. (cells : ℕ) → HaveCells cells from.now → HaveCells cells ps.items) }
    ensures references { IfOk result (λ ps. (references : ℕ) → HaveReferences references from.now → HaveReferences references ps.items) }
{
    let mut processes = Vec::with_capacity(alloc, from.len())?;
    for process in from {
        processes.push(copy_of_process(alloc, process)?)?;
    }
    Ok(processes)
}

fn copy_of_process(alloc: Global, from: &ProcessState) -> Result<ProcessState, AllocError>
    ensures same { IfOk result (λ p. thread_of p ≡ thread_of from.now) }
    ensures stack { IfOk result (λ p. vec_capacity from.now.stack ≤ vec_capacity p.stack) }
    ensures cells { IfOk result (λ p. vec_capacity from.now.room.cells ≤ vec_capacity p.room.cells) }
    ensures references { IfOk result (λ p. vec_capacity from.now.room.references ≤ vec_capacity p.room.references) }
{
    let stack = copy_of_list(alloc, &from.stack, from.stack.capacity())?;
    let room = copy_of_room(alloc, &from.room)?;
    Ok(ProcessState {
        status: from.status,
        frame: from.frame,
        stack,
        room,
    })
}

fn copy_of_room(alloc: Global, from: &Room) -> Result<Room, AllocError>
    ensures cells { IfOk result (λ room. room.cells.items ≡ from.now.cells.items) }
    ensures references { IfOk result (λ room. room.references.items ≡ from.now.references.items) }
    ensures room { IfOk result (λ room. vec_capacity from.now.cells ≤ vec_capacity room.cells) }
    ensures more { IfOk result (λ room. vec_capacity from.now.references ≤ vec_capacity room.references) }
{
    let cells = copy_of_list(alloc, &from.cells, from.cells.capacity())?;
    let references = copy_of_list(alloc, &from.references, from.references.capacity())?;
    Ok(Room { cells, references })
}

fn copies_of_guards(alloc: Global, from: &[Gate]) -> Result<Vec<Gate>, AllocError>
    ensures { IfOk result (λ gs. map monitor_of gs.items ≡ map monitor_of from.now) }
{
    let mut guards = Vec::with_capacity(alloc, from.len())?;
    for guard in from {
        guards.push(copy_of_guard(guard))?;
    }
    Ok(guards)
}

fn copy_of_guard(from: &Gate) -> Gate
    ensures { monitor_of result ≡ monitor_of from.now }
{
    let mut line = ArrayVec::new();
    if !from.line.is_empty() {
        let _ = line.try_extend_from_slice(from.line.as_slice());
    }
    Gate {
        holder: from.holder,
        line,
    }
}

#[inline(always)]
fn take_processes<W: Watch>(mine: &mut [ProcessState], theirs: &[ProcessState], watch: &W)
    requires room { HaveRoom mine.old theirs.now }
    requires kept { (pid : ℕ) → W.moved watch.now pid ≡ false → body_of (thread_at (map thread_of mine.old) pid) ≡ body_of (thread_at (map thread_of theirs.now) pid) }
    ensures same { map thread_of mine.new ≡ map thread_of theirs.now }
    ensures stacks { (depth : ℕ) → HaveStacks depth mine.old → HaveStacks depth mine.new }
    ensures cells { (cells : ℕ) → HaveCells cells mine.old → HaveCells cells mine.new }
    ensures references { (references : ℕ) → HaveReferences references mine.old → HaveReferences references mine.new }
{
    for at in 0..mine.len() {
        if watch.has(at) {
            take_process(&mut mine[at], &theirs[at]);
        } else {
            mine[at].status = theirs[at].status;
        }
    }
}

#[inline(always)]
fn take_process(to: &mut ProcessState, from: &ProcessState)
    requires { HasRoomFor to.old from.now }
    ensures same { thread_of to.new ≡ thread_of from.now }
    ensures stack { vec_capacity to.old.stack ≤ vec_capacity to.new.stack }
    ensures cells { vec_capacity to.old.room.cells ≤ vec_capacity to.new.room.cells }
    ensures references { vec_capacity to.old.room.references ≤ vec_capacity to.new.room.references }
{
    to.status = from.status;
    to.frame = from.frame;
    take_list(&mut to.stack, &from.stack);
    take_room(&mut to.room, &from.room);
}

fn take_room(to: &mut Room, from: &Room)
    requires cells { vec_len from.now.cells ≤ vec_capacity to.old.cells }
    requires references { vec_len from.now.references ≤ vec_capacity to.old.references }
    ensures cells { to.new.cells.items ≡ from.now.cells.items }
    ensures references { to.new.references.items ≡ from.now.references.items }
    ensures room { vec_capacity to.old.cells ≤ vec_capacity to.new.cells }
    ensures more { vec_capacity to.old.references ≤ vec_capacity to.new.references }
{
    take_list(&mut to.cells, &from.cells);
    take_list(&mut to.references, &from.references);
}

fn take_guards(mine: &mut [Gate], theirs: &[Gate])
    requires { length mine.old ≡ length theirs.now }
    ensures { map monitor_of mine.new ≡ map monitor_of theirs.now }
{
    for at in 0..mine.len() {
        take_guard(&mut mine[at], &theirs[at]);
    }
}

// Becomes the same as another monitor. At most gates nobody waits.
#[inline(always)]
fn take_guard(to: &mut Gate, from: &Gate)
    ensures { monitor_of to.new ≡ monitor_of from.now }
{
    if to.line.is_empty() && from.line.is_empty() {
        to.holder = from.holder;
    } else {
        *to = copy_of_guard(from);
    }
}
