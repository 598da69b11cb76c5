//! Whoever notes what schedules come to.

use cp_machine::State;
use cp_run::{Halt, OutcomeKind};
use cp_search::SearchJob;
use std::alloc::{AllocError, Global};

/// What is noted of the stretches between choices.
pub trait Note: Drop {
    ghost use Rattle.std.specs.Prelude.{◌≡◌, ℕ, List, [], IfOk, true};
    ghost use Rattle.cp_machine.specs.System.{Machine, machine_of, opening, IsStateOf};
    ghost use Rattle.cp_run.specs.Code.{node_of};
    ghost use Rattle.cp_run.specs.Run.{chosen, may, opened};
    ghost use Rattle.cp_run.specs.Slots.{slots};
    ghost use Rattle.cp_run.specs.System.{System};
    ghost use Rattle.cp_layers.specs.Adding.{Adds, HasNoOthers};
    ghost use Rattle.cp_layers.specs.Leading.{with_word};
    ghost use Rattle.cp_layers.specs.Marking.{Marking};

    ghost Mark: { Type 0 };

    /// What is to be noted of each stretch, under such a limit of steps.
    ghost marking: { System Machine → ℕ → Marking Mark };

    /// What is noted.
    ghost marks: { Self → List Mark };

    /// The words that are kept, each with a mark to which it leads.
    ghost words: { Self → List (Mark × List ℕ) };

    /// Nothing is noted.
    fn new(alloc: Global) -> Self
        ensures marks { marks result ≡ [] }
        ensures words { words result ≡ [] };

    /// Notes what another one has.
    fn add_all(&mut self, alloc: Global, other: &Self) -> Result<(), AllocError>
        ensures marks { IfOk result (λ _. Adds (marks self.old) (marks other.now) (marks self.new)) }
        ensures words { IfOk result (λ _. HasNoOthers (words self.old) (words other.now) (words self.new)) };

    /// Begins a run in the opening state, and notes what it comes to before the first choice.
    fn note_opening(
        &mut self,
        job: &SearchJob<'_>,
        state: &mut State,
    ) -> Result<Halt<OutcomeKind>, AllocError>
        requires own { IsStateOf job.now.run.program.now state.old }
        requires start { machine_of state.old ≡ opening job.now.run.program.now job.now.run.limits.discipline }
        ensures node { IfOk result (λ h. opened (slots job.now.run.program.now job.now.run.limits.discipline) job.now.run.limits.steps ≡ node_of h (machine_of state.new)) }
        ensures own { IsStateOf job.now.run.program.now state.new }
        ensures marks { IfOk result (λ _. Adds (marks self.old) (marking (slots job.now.run.program.now job.now.run.limits.discipline) job.now.run.limits.steps).opened (marks self.new)) }
        ensures words { IfOk result (λ _. HasNoOthers (words self.old) (with_word [] (marking (slots job.now.run.program.now job.now.run.limits.discipline) job.now.run.limits.steps).opened) (words self.new)) };

    /// Takes a due choice, and notes what the stretch after it comes to. This word leads there.
    fn note_choice(
        &mut self,
        job: &SearchJob<'_>,
        state: &mut State,
        process: u8,
        word: &[u8],
    ) -> Result<Halt<OutcomeKind>, AllocError>
        requires own { IsStateOf job.now.run.program.now state.old }
        requires may { may (slots job.now.run.program.now job.now.run.limits.discipline) (machine_of state.old) process ≡ true }
        ensures node { IfOk result (λ h. chosen (slots job.now.run.program.now job.now.run.limits.discipline) job.now.run.limits.steps (machine_of state.old) process ≡ node_of h (machine_of state.new)) }
        ensures own { IsStateOf job.now.run.program.now state.new }
        ensures marks { IfOk result (λ _. Adds (marks self.old) ((marking (slots job.now.run.program.now job.now.run.limits.discipline) job.now.run.limits.steps).chosen (machine_of state.old) process) (marks self.new)) }
        ensures words { IfOk result (λ _. HasNoOthers (words self.old) (with_word word.now ((marking (slots job.now.run.program.now job.now.run.limits.discipline) job.now.run.limits.steps).chosen (machine_of state.old) process)) (words self.new)) };
}
