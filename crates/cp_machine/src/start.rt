//! The opening state.

ghost use Rattle.std.specs.Prelude.{◌≡◌, ◌<◌, ◌≤◌, [], length, IfOk, map, replicate, vec_capacity, vec_len};
ghost use Rattle.cp_slots.specs.Fits.{IsSound};
ghost use Rattle.cp_slots.specs.Tables.{process_at};
ghost use Rattle.cp_machine.specs.Fits.{HaveCells, HaveReferences, HaveStacks, IsReserved, IsStateOf};
ghost use Rattle.cp_machine.specs.Machine.{machine_of, monitor_of, no_monitor, thread_of};
ghost use Rattle.cp_machine.specs.Memory.{no_bindings};
ghost use Rattle.cp_machine.specs.Opening.{opening, still, unstarted_thread};
ghost use Rattle.cp_machine.specs.Stack.{rest_of, top_first};
ghost use Rattle.cp_machine.specs.declared.state.Phase.TheVariants.{Uninitialised};

use crate::copy::copy_of_list;
use crate::discipline::Discipline;
use crate::memory::set_status;
use crate::process::{Entry, ProcessState, Status};
use crate::shown::Shown;
use crate::state::{Gate, MOST_SHOWN, Phase, State};
use arrayvec::ArrayVec;
use cp_slots::Resolved;
use cp_store::{Bound, Frame, Room, open_frame};
use std::alloc::{AllocError, Global};

impl State {
    /// The opening state, with all its memory.
    pub fn start(
        alloc: Global,
        program: &Resolved,
        discipline: Discipline,
    ) -> Result<State, AllocError>
        ensures opening { IfOk result (λ s. machine_of s ≡ opening program.now discipline) }
        ensures own { IfOk result (λ s. IsStateOf program.now s) }
    {
        let mut state = still_state(alloc, program, discipline)?;
        set_status(&mut state, 0, Status::Ready);
        Ok(state)
    }
}

// The state in which every process is unstarted.
fn still_state(
    alloc: Global,
    program: &Resolved,
    discipline: Discipline,
) -> Result<State, AllocError>
    ensures still { IfOk result (λ s. machine_of s ≡ still program.now discipline) }
    ensures reserved { IfOk result (λ s. IsReserved program.now s) }
    ensures sound { IfOk result (λ s. IsSound program.now) }
{
    let (permanents, bindings, phases) = still_cells(alloc, program)?;
    let (processes, guards) = still_parties(alloc, program)?;
    let (output, bounds) = empty_lists(alloc, program)?;
    Ok(State {
        permanents,
        bindings,
        phases,
        processes,
        guards,
        pending: None,
        discipline,
        output,
        bounds,
    })
}

// What the components have: cells, bindings and phases.
fn still_cells(
    alloc: Global,
    program: &Resolved,
) -> Result<(Vec<i16>, Vec<usize>, Vec<Phase>), AllocError>
    ensures permanents { IfOk result (λ t. t.0.items ≡ program.now.permanents) }
    ensures bindings { IfOk result (λ t. t.1.items ≡ no_bindings (length program.now.permanents)) }
    ensures phases { IfOk result (λ t. t.2.items ≡ replicate (length program.now.components) Uninitialised) }
{
    let permanents = copy_of_list(alloc, program.permanents(), program.permanents().len())?;
    let bindings = vec![in alloc; 0usize; program.permanents().len()]?;
    let phases = vec![in alloc; Phase::Uninitialised; program.components()]?;
    Ok((permanents, bindings, phases))
}

// The processes, and the monitors that they go into.
fn still_parties(
    alloc: Global,
    program: &Resolved,
) -> Result<(Vec<ProcessState>, Vec<Gate>), AllocError>
    ensures threads { IfOk result (λ t. map thread_of t.0.items ≡ map (unstarted_thread program.now) program.now.processes) }
    ensures stacks { IfOk result (λ t. HaveStacks program.now.depth t.0.items) }
    ensures cells { IfOk result (λ t. HaveCells program.now.cells t.0.items) }
    ensures references { IfOk result (λ t. HaveReferences program.now.references t.0.items) }
    ensures monitors { IfOk result (λ t. map monitor_of t.1.items ≡ replicate program.now.monitors no_monitor) }
    ensures sound { IfOk result (λ t. IsSound program.now) }
{
    let processes = start_processes(alloc, program)?;
    let guards = free_guards(alloc, program.monitors() as usize)?;
    Ok((processes, guards))
}

// Room for what is displayed, and for evaluated arguments.
fn empty_lists(alloc: Global, program: &Resolved) -> Result<(Vec<Shown>, Vec<Bound>), AllocError>
    ensures output { IfOk result (λ t. t.0.items ≡ []) }
    ensures len { IfOk result (λ t. vec_len t.0 ≡ 0) }
    ensures room { IfOk result (λ t. MOST_SHOWN ≤ vec_capacity t.0) }
    ensures bounds { IfOk result (λ t. program.now.arguments ≤ vec_capacity t.1) }
{
    let output = Vec::with_capacity(alloc, MOST_SHOWN)?;
    let bounds = Vec::with_capacity(alloc, program.arguments())?;
    Ok((output, bounds))
}

fn free_guards(alloc: Global, count: usize) -> Result<Vec<Gate>, AllocError>
    ensures { IfOk result (λ gs. map monitor_of gs.items ≡ replicate count no_monitor) }
{
    let mut guards = Vec::with_capacity(alloc, count)?;
    for _number in 0..count {
        guards.push(Gate {
            holder: None,
            line: ArrayVec::new(),
        })?;
    }
    Ok(guards)
}

fn start_processes(alloc: Global, program: &Resolved) -> Result<Vec<ProcessState>, AllocError>
    ensures threads { IfOk result (λ ps. map thread_of ps.items ≡ map (unstarted_thread program.now) program.now.processes) }
    ensures stacks { IfOk result (λ ps. HaveStacks program.now.depth ps.items) }
    ensures cells { IfOk result (λ ps. HaveCells program.now.cells ps.items) }
    ensures references { IfOk result (λ ps. HaveReferences program.now.references ps.items) }
    ensures sound { IfOk result (λ ps. IsSound program.now) }
{
    let count = program.processes();
    let mut processes = Vec::with_capacity(alloc, count as usize)?;
    for number in 0..count {
        processes.push(start_process(alloc, program, number)?)?;
    }
    Ok(processes)
}

fn start_process(alloc: Global, program: &Resolved, number: u8) -> Result<ProcessState, AllocError>
    requires { number < length program.now.processes }
    ensures thread { IfOk result (λ p. thread_of p ≡ unstarted_thread program.now (process_at program.now number)) }
    ensures stack { IfOk result (λ p. program.now.depth ≤ vec_capacity p.stack) }
    ensures cells { IfOk result (λ p. program.now.cells ≤ vec_capacity p.room.cells) }
    ensures references { IfOk result (λ p. program.now.references ≤ vec_capacity p.room.references) }
{
    let process = program.process(number);
    let routine = program.routine(process.routine);
    let stack = start_stack(alloc, program, routine.body)?;
    let mut room = empty_room(alloc, program)?;
    open_frame(&mut room, &routine.image, routine.references);
    Ok(ProcessState {
        status: Status::Unstarted,
        frame: Frame {
            routine: process.routine,
            component: process.component,
            own: program.component(process.component).base,
            base: 0,
            references: 0,
        },
        stack,
        room,
    })
}

// The control stack of a process that has a body to execute, or none.
fn start_stack(
    alloc: Global,
    program: &Resolved,
    body: Option<usize>,
) -> Result<Vec<Entry>, AllocError>
    ensures stack { IfOk result (λ stack. top_first stack ≡ rest_of body []) }
    ensures room { IfOk result (λ stack. program.now.depth ≤ vec_capacity stack) }
{
    let mut stack = Vec::with_capacity(alloc, program.depth())?;
    if let Some(at) = body {
        stack.push(Entry::Rest(at))?;
    }
    Ok(stack)
}

// Room for the frames of a process.
fn empty_room(alloc: Global, program: &Resolved) -> Result<Room, AllocError>
    ensures no_cells { IfOk result (λ room. room.cells.items ≡ []) }
    ensures no_references { IfOk result (λ room. room.references.items ≡ []) }
    ensures len { IfOk result (λ room. (vec_len room.cells ≡ 0) × (vec_len room.references ≡ 0)) }
    ensures cells { IfOk result (λ room. program.now.cells ≤ vec_capacity room.cells) }
    ensures references { IfOk result (λ room. program.now.references ≤ vec_capacity room.references) }
{
    let cells = Vec::with_capacity(alloc, program.cells())?;
    let references = Vec::with_capacity(alloc, program.references())?;
    Ok(Room { cells, references })
}
