//! Stretches, with notes of what they come to.

ghost use Rattle.std.specs.Prelude.{◌≡◌, ◌<◌, drop, IfOk, length, option_copied};
ghost use Rattle.cp_machine.specs.Machine.{thread_at};
ghost use Rattle.cp_machine.specs.Stack.{above};
ghost use Rattle.cp_machine.specs.System.{machine_of};
ghost use Rattle.cp_layers.specs.Adding.{Adds};
ghost use Rattle.cp_cover.specs.Marks.{marks_in};
ghost use Rattle.cp_cover.specs.Reached.{item_marks, wait_marks};

use crate::mark::CoverMark;
use crate::marks::Marks;
use cp_layers::Note;
use cp_machine::{Entry, Event, State, Status, Uncounted};
use cp_run::{Halt, Job, Observe, OutcomeKind, halt_at, observe_choice, observe_opening};
use cp_search::SearchJob;
use indexmap::IndexSet;
use std::alloc::{AllocError, Global};

// The topmost entry of a process.
fn top_of(state: &State, pid: u8) -> Option<&Entry>
    requires { pid < length state.now.processes.items }
    ensures { (thread_at (machine_of state.now).threads pid).stack ≡ above (option_copied result) (drop 1 (thread_at (machine_of state.now).threads pid).stack) }
{
    let process = &state.processes[pid as usize];
    process.stack.last()
}

// The item whose step a process makes next, if it is one.
fn item_of(state: &State, pid: u8) -> Option<CoverMark>
    requires { pid < length state.now.processes.items }
    ensures { marks_in result ≡ item_marks (thread_at (machine_of state.now).threads pid).stack }
{
    match top_of(state, pid) {
        Some(&Entry::Rest(at)) => Some(CoverMark::Statement(at)),
        Some(&Entry::Successor(..)) | Some(&Entry::Return(..)) | Some(&Entry::InitEnd(..)) | None =>
            None,
    }
}

// Where a process waits, if it does.
fn wait_of(state: &State, pid: u8) -> Option<CoverMark>
    requires { pid < length state.now.processes.items }
    ensures { marks_in result ≡ wait_marks (thread_at (machine_of state.now).threads pid) }
{
    let process = &state.processes[pid as usize];
    let routine = process.frame.routine;
    match process.status {
        Status::AtGate(monitor) => Some(CoverMark::Gate { monitor, routine }),
        Status::Delayed(cell) => Some(CoverMark::Queue(cell)),
        Status::Unstarted | Status::Ready | Status::Ended => None,
    }
}

// Notes the item whose step a process makes next, if it is one.
fn note_item(state: &State, pid: u8, marks: &mut Marks) -> Result<(), AllocError>
    requires { pid < length state.now.processes.items }
    ensures { IfOk result (λ _. Adds marks.old.known.keys (item_marks (thread_at (machine_of state.now).threads pid).stack) marks.new.known.keys) }
{
    match item_of(state, pid) {
        Some(mark) => marks.add(mark),
        None => Ok(()),
    }
}

// Notes where a process waits, if it does.
fn note_wait(state: &State, pid: u8, marks: &mut Marks) -> Result<(), AllocError>
    requires { pid < length state.now.processes.items }
    ensures { IfOk result (λ _. Adds marks.old.known.keys (wait_marks (thread_at (machine_of state.now).threads pid)) marks.new.known.keys) }
{
    match wait_of(state, pid) {
        Some(mark) => marks.add(mark),
        None => Ok(()),
    }
}

impl Observe for Marks {
    ghost use Rattle.std.specs.Prelude.{◌≡◌, ◌++◌, List, [], true, false};
    ghost use Rattle.cp_machine.specs.Machine.{is_ready, thread_at};
    ghost use Rattle.cp_layers.specs.Adding.{Adds};
    ghost use Rattle.cp_cover.specs.Passing.{adds_local};
    ghost use Rattle.cp_cover.specs.Reached.{item_marks, marker};
    ghost use Rattle.cp_cover.specs.declared.mark.CoverMark.{CoverMark};

    type Error = AllocError;

    ghost Seen = { List CoverMark };

    ghost IS_SILENT = { false };

    ghost SEES_LOCAL = { false };

    #[inline(always)]
    fn is_silent() -> bool {
        false
    }

    #[inline(always)]
    fn sees_local() -> bool {
        false
    }

    ghost holds = { λ marks r discipline now seen. Adds [] seen marks.known.keys };

    ghost fold = { λ r discipline. marker };

    ghost expects = { λ marks r discipline before process seen. (is_ready before process ≡ true) × Adds [] (seen ++ item_marks (thread_at before.threads process).stack) marks.known.keys };

    #[inline(always)]
    fn expect_step(
        &mut self,
        _job: &Job<'_>,
        state: &State,
        process: u8,
    ) -> Result<(), AllocError> {
        note_item(state, process, self)
    }

    #[inline(always)]
    fn see_step(
        &mut self,
        _job: &Job<'_>,
        state: &State,
        process: u8,
        _event: Event,
    ) -> Result<(), AllocError> {
        note_wait(state, process, self)
    }

    fn see_admission(
        &mut self,
        _job: &Job<'_>,
        _state: &State,
        _process: u8,
    ) -> Result<(), AllocError> {
        Ok(())
    }

    fn see_choice(&mut self, _job: &Job<'_>, _state: &State, _number: u8) {}

    // Whoever made a local step waits nowhere.
    ghost passes = { λ unseen marks r discipline before after process seen step h. adds_local r before after process seen marks.known.keys step h.0 h.1 };
}

impl Note for Marks {
    ghost use Rattle.std.specs.Prelude.{[]};
    ghost use Rattle.cp_cover.specs.Reached.{cover_marking};
    ghost use Rattle.cp_cover.specs.declared.mark.CoverMark.{CoverMark};

    ghost Mark = { CoverMark };

    ghost marking = { cover_marking };

    ghost marks = { λ marks. marks.known.keys };

    // No word is kept.
    ghost words = { λ marks. [] };

    fn new(alloc: Global) -> Marks {
        Marks {
            known: IndexSet::new(alloc),
        }
    }

    fn add_all(&mut self, _alloc: Global, other: &Marks) -> Result<(), AllocError> {
        for mark in other.known.as_slice() {
            self.add(*mark)?;
        }
        Ok(())
    }

    fn note_opening(
        &mut self,
        job: &SearchJob<'_>,
        state: &mut State,
    ) -> Result<Halt<OutcomeKind>, AllocError> {
        let turn = observe_opening(&job.run, state, &mut Uncounted, self)?;
        Ok(halt_at(turn))
    }

    fn note_choice(
        &mut self,
        job: &SearchJob<'_>,
        state: &mut State,
        process: u8,
        _word: &[u8],
    ) -> Result<Halt<OutcomeKind>, AllocError> {
        let turn = observe_choice(&job.run, state, process, &mut Uncounted, self)?;
        Ok(halt_at(turn))
    }
}
