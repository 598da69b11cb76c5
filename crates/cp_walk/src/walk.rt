//! The walk over the tree of words.

ghost use Rattle.std.specs.Prelude.{◌≡◌, true, ◌<◌, ◌≤◌, ◌+◌, ◌++◌, [], ◌∷◌, length, map, All, IfOk, IfErr};
ghost use Rattle.cp_machine.specs.System.{machine_of, output_of, IsStateOf};
ghost use Rattle.cp_run.specs.Run.{chosen, may};
ghost use Rattle.cp_run.specs.Slots.{slots};
ghost use Rattle.cp_run.specs.Code.{node_of};
ghost use Rattle.cp_walk.specs.Beginnings.{beginnings, words_in};
ghost use Rattle.cp_walk.specs.Walk.{IsDue};
ghost use Rattle.cp_walk.specs.Walking.{node_rows, AreFound, HasRoom, HasWalked};
ghost use Rattle.cp_walk.specs.Rows.{line_of, IsTooMany};

use crate::fault::ExploreFault;
use crate::found::Found;
use crate::memo::Span;
use crate::observer::ObserveWalk;
use crate::replay::add_replayed;
use crate::row::Row;
use crate::word::word_of;
use arrayvec::ArrayVec;
use cp_machine::{Count, State, Uncounted, Unwatched};
use cp_run::{Halt, Job, OutcomeKind, candidates, choose, outcome_at};
use std::alloc::Global;

/// The most rows of a table.
pub const MOST_ROWS: usize = 50_000;

/// A walk: the word that it is at, what it has found, and whoever is told of it.
#[derive(Drop)]
pub struct Walk<'a, N: ObserveWalk> {
    pub alloc: Global,
    pub word: ArrayVec<u8, 20>,
    pub found: Found,
    pub observer: &'a mut N,
}

impl<'a, N: ObserveWalk> Walk<'a, N> {
    fn add_row(&mut self, state: &State, kind: OutcomeKind) -> Result<(), ExploreFault>
        ensures row { IfOk result (λ _. map line_of self.new.found.rows.items ≡ map line_of self.old.found.rows.items ++ record { word = self.old.word.items; outcome = record { kind = kind; output = output_of (machine_of state.now) } } ∷ []) }
        ensures few { IfOk result (λ _. length self.new.found.rows.items ≤ 50000) }
        ensures many { IfErr result (λ e. IsTooMany e → 50000 ≤ length self.old.found.rows.items) }
        ensures word { self.new.word.items ≡ self.old.word.items }
        ensures walked { self.new.found.walked.nodes.entries ≡ self.old.found.walked.nodes.entries }
    {
        if self.found.rows.len() >= MOST_ROWS {
            return Err(ExploreFault::TooManyRows);
        }
        if self.found.rows.reserve(1).is_err() {
            return Err(ExploreFault::Memory);
        }
        let Ok(outcome) = outcome_at(self.alloc, kind, state) else {
            return Err(ExploreFault::Memory);
        };
        self.found.rows.push_reserved(Row {
            word: word_of(self.word.as_slice()),
            outcome,
        });
        self.observer.observe_rows(1);
        Ok(())
    }

    /// Walks from a node, at the end of the word; there is a kept state for each choice left. The node's state goes on with the last number
    /// that may be chosen, so that it is copied once less than there are numbers.
    #[cycle(walk_from)]
    pub fn walk_from<C: Count>(
        &mut self,
        job: &Job<'_>,
        state: &mut State,
        halt: Halt<OutcomeKind>,
        kept: &mut [State],
        calls: &mut C,
    ) -> Result<(), ExploreFault>
        requires own { IsStateOf job.now.program.now state.old }
        requires due { IsDue (slots job.now.program.now job.now.limits.discipline) (node_of halt (machine_of state.old)) }
        requires room { HasRoom job.now.program.now job.now.limits.choices self.old.word.items kept.old }
        requires found { AreFound job.now.program.now job.now.limits self.old.found }
        ensures own { IsStateOf job.now.program.now state.new }
        ensures kept { All (IsStateOf job.now.program.now) kept.new }
        ensures walked { IfOk result (λ _. HasWalked job.now.program.now job.now.limits self.old.word.items (length kept.old) (node_of halt (machine_of state.old)) self.old.found self.new.found) }
        ensures word { IfOk result (λ _. self.new.word.items ≡ self.old.word.items) }
        ensures many { IfErr result (λ e. IsTooMany e → 50000 < length self.old.found.rows.items + length (node_rows job.now.program.now job.now.limits (length kept.old) (node_of halt (machine_of state.old)))) }
        ensures calls { IfOk result (λ _. C.count calls.new + 1 ≤ C.count calls.old + beginnings (words_in (node_rows job.now.program.now job.now.limits (length kept.old) (node_of halt (machine_of state.old))))) }
    {
        if let Halt::Ended(kind) = halt {
            return self.add_row(state, kind);
        }
        let Some((next, deeper)) = kept.split_first_mut() else {
            return self.add_row(state, OutcomeKind::ChoiceLimit);
        };
        let numbers = candidates(job, state);
        let Some((last, others)) = numbers.as_slice().split_last() else {
            unreachable!()
        };
        for process in others {
            next.take_from(state);
            self.walk_child(job, next, *process, deeper, calls)?;
        }
        self.walk_child(job, state, *last, deeper, calls)
    }

    /// The same. Where a node like this one was walked, its rows are taken once more, with another beginning.
    #[cycle(walk_from)]
    fn walk_once<C: Count>(
        &mut self,
        job: &Job<'_>,
        state: &mut State,
        halt: Halt<OutcomeKind>,
        kept: &mut [State],
        calls: &mut C,
    ) -> Result<(), ExploreFault>
        requires own { IsStateOf job.now.program.now state.old }
        requires due { IsDue (slots job.now.program.now job.now.limits.discipline) (node_of halt (machine_of state.old)) }
        requires room { HasRoom job.now.program.now job.now.limits.choices self.old.word.items kept.old }
        requires found { AreFound job.now.program.now job.now.limits self.old.found }
        ensures own { IsStateOf job.now.program.now state.new }
        ensures kept { All (IsStateOf job.now.program.now) kept.new }
        ensures walked { IfOk result (λ _. HasWalked job.now.program.now job.now.limits self.old.word.items (length kept.old) (node_of halt (machine_of state.old)) self.old.found self.new.found) }
        ensures word { IfOk result (λ _. self.new.word.items ≡ self.old.word.items) }
        ensures many { IfErr result (λ e. IsTooMany e → 50000 < length self.old.found.rows.items + length (node_rows job.now.program.now job.now.limits (length kept.old) (node_of halt (machine_of state.old)))) }
        ensures calls { IfOk result (λ _. C.count calls.new + 1 ≤ C.count calls.old + beginnings (words_in (node_rows job.now.program.now job.now.limits (length kept.old) (node_of halt (machine_of state.old))))) }
    {
        let Ok(key) = self.found.walked.key_of(state, halt, kept.len() as u8) else {
            return Err(ExploreFault::Memory);
        };
        let Some(key) = key else {
            return self.walk_from(job, state, halt, kept, calls);
        };
        if let Some(span) = self.found.walked.find(&key) {
            self.observer
                .observe_rows(span.end.saturating_sub(span.first));
            return add_replayed(
                self.alloc,
                state,
                span,
                self.word.as_slice(),
                &mut self.found.rows,
            );
        }
        let first = self.found.rows.len();
        self.walk_from(job, state, halt, kept, calls)?;
        let end = self.found.rows.len();
        self.found.walked.add(key, Span { first, end });
        Ok(())
    }

    /// Takes a due choice in a state, and walks from where it leads to.
    #[cycle(walk_from)]
    fn walk_child<C: Count>(
        &mut self,
        job: &Job<'_>,
        state: &mut State,
        process: u8,
        deeper: &mut [State],
        calls: &mut C,
    ) -> Result<(), ExploreFault>
        requires own { IsStateOf job.now.program.now state.old }
        requires may { may (slots job.now.program.now job.now.limits.discipline) (machine_of state.old) process ≡ true }
        requires room { HasRoom job.now.program.now job.now.limits.choices (self.old.word.items ++ process ∷ []) deeper.old }
        requires found { AreFound job.now.program.now job.now.limits self.old.found }
        ensures own { IsStateOf job.now.program.now state.new }
        ensures deeper { All (IsStateOf job.now.program.now) deeper.new }
        ensures walked { IfOk result (λ _. HasWalked job.now.program.now job.now.limits (self.old.word.items ++ process ∷ []) (length deeper.old) (chosen (slots job.now.program.now job.now.limits.discipline) job.now.limits.steps (machine_of state.old) process) self.old.found self.new.found) }
        ensures word { IfOk result (λ _. self.new.word.items ≡ self.old.word.items) }
        ensures many { IfErr result (λ e. IsTooMany e → 50000 < length self.old.found.rows.items + length (node_rows job.now.program.now job.now.limits (length deeper.old) (chosen (slots job.now.program.now job.now.limits.discipline) job.now.limits.steps (machine_of state.old) process))) }
        ensures calls { IfOk result (λ _. C.count calls.new ≤ C.count calls.old + beginnings (words_in (node_rows job.now.program.now job.now.limits (length deeper.old) (chosen (slots job.now.program.now job.now.limits.discipline) job.now.limits.steps (machine_of state.old) process)))) }
    {
        let halt = choose(job, state, process, &mut Unwatched, &mut Uncounted, calls);
        self.word.push(process);
        self.walk_once(job, state, halt, deeper, calls)?;
        let _ = self.word.pop();
        Ok(())
    }
}
