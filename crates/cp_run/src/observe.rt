//! Whoever is told of a run while it is made.

use crate::job::Job;
use cp_machine::{Event, State};

/// Whoever is told of a run while it is made.
pub trait Observe {
    ghost use Rattle.std.specs.Prelude.{◌≡◌, ◌<◌, ℕ, Bool, true, false, IfOk, length};
    ghost use Rattle.cp_machine.specs.System.{Machine, admit_waiting, is_ready, machine_of, step_at, IsStateOf};
    ghost use Rattle.cp_machine.specs.Statements.{local};
    ghost use Rattle.cp_machine.specs.declared.event.Event.TheVariants.{Local};
    ghost use Rattle.cp_machine.specs.declared.discipline.Discipline.{Discipline};
    ghost use Rattle.cp_run.specs.Fold.{Fold};
    ghost use Rattle.cp_run.specs.Silent.{left_by};
    ghost use Rattle.cp_slots.specs.Tables.{Tables};

    /// Why it can't go on.
    type Error;

    ghost Seen: { Type 0 };

    ghost IS_SILENT: { Bool };

    ghost SEES_LOCAL: { Bool };

    /// Whether what a step displayed is taken away when it was seen.
    fn is_silent() -> bool
        ensures { result ≡ IS_SILENT };

    /// Whether local steps are seen as well as expected.
    fn sees_local() -> bool
        ensures { result ≡ SEES_LOCAL };

    /// So much is seen so far, of a run that stands in this state.
    ghost holds: { Self → Tables → Discipline → Machine → Seen → Type 0 };

    /// What is seen of a step, an admission and a choice.
    ghost fold: { Tables → Discipline → Fold Machine Seen };

    /// In this state the process is about to make a step, and so much was seen before.
    ghost expects: { Self → Tables → Discipline → Machine → ℕ → Seen → Type 0 };

    /// Sees a step of a process come.
    fn expect_step(&mut self, job: &Job<'_>, state: &State, process: u8) -> Result<(), Self::Error>
        requires own { IsStateOf job.now.program.now state.now }
        requires ready { is_ready (machine_of state.now) process ≡ true }
        requires within { process < length state.now.processes.items }
        ensures { IfOk result (λ _. (x : Seen) → holds self.old job.now.program.now job.now.limits.discipline (machine_of state.now) x → expects self.new job.now.program.now job.now.limits.discipline (machine_of state.now) process x) };

    /// Sees the step that was expected: it was this event, and led to this state.
    fn see_step(
        &mut self,
        job: &Job<'_>,
        state: &State,
        process: u8,
        event: Event,
    ) -> Result<(), Self::Error>
        requires own { IsStateOf job.now.program.now state.now }
        requires within { process < length state.now.processes.items }
        ensures { IfOk result (λ _. (before : Machine) (x : Seen) → step_at job.now.program.now before process ≡ record { machine = machine_of state.now; event = event } → expects self.old job.now.program.now job.now.limits.discipline before process x → holds self.new job.now.program.now job.now.limits.discipline (left_by IS_SILENT (machine_of state.now)) ((fold job.now.program.now job.now.limits.discipline).on_step before process event (left_by IS_SILENT (machine_of state.now)) x)) };

    /// Sees that a process was let in, which led to this state.
    fn see_admission(
        &mut self,
        job: &Job<'_>,
        state: &State,
        process: u8,
    ) -> Result<(), Self::Error>
        requires own { IsStateOf job.now.program.now state.now }
        ensures { IfOk result (λ _. (before : Machine) (x : Seen) → machine_of state.now ≡ admit_waiting before process → holds self.old job.now.program.now job.now.limits.discipline before x → holds self.new job.now.program.now job.now.limits.discipline (machine_of state.now) ((fold job.now.program.now job.now.limits.discipline).on_admission process (machine_of state.now) x)) };

    /// Sees a due choice, and the number that is to be taken.
    fn see_choice(&mut self, job: &Job<'_>, state: &State, number: u8)
        requires own { IsStateOf job.now.program.now state.now }
        ensures { (x : Seen) → holds self.old job.now.program.now job.now.limits.discipline (machine_of state.now) x → holds self.new job.now.program.now job.now.limits.discipline (machine_of state.now) ((fold job.now.program.now job.now.limits.discipline).on_choice (machine_of state.now) number x) };

    /// Where local steps are not seen, nothing of them is to be.
    ghost passes: { SEES_LOCAL ≡ false → (self : Self) (r : Tables) (discipline : Discipline) (before after : Machine) (process : ℕ) (x : Seen) → step_at r before process ≡ local after → expects self r discipline before process x → holds self r discipline (left_by IS_SILENT after) ((fold r discipline).on_step before process Local (left_by IS_SILENT after) x) };
}
