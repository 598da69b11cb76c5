//! What comes before the next step of a run.

ghost use Rattle.std.specs.Prelude.{◌≡◌, true, false};
ghost use Rattle.cp_machine.specs.System.{machine_of, is_local, is_ready, is_pending, IsStateOf};
ghost use Rattle.cp_run.specs.Run.{settled_turn, turn_at, turn_after};
ghost use Rattle.cp_run.specs.Slots.{slots};
ghost use Rattle.cp_run.specs.Code.{IfGoes};

use crate::job::Job;
use crate::outcome::{OutcomeKind, Turn};
use cp_machine::{Event, Readiness, State};

/// Nobody ready, choice of process, going on: what comes before the next step, where no gate choice is due. The last step was one of
/// `process`, and `kernel` says that it was a kernel call or a process end.
pub fn settled_turn(job: &Job<'_>, state: &State, kernel: bool, process: u8) -> Turn
    requires own { IsStateOf job.now.program.now state.now }
    requires goes_on { kernel ≡ false → is_ready (machine_of state.now) process ≡ true }
    ensures turn { result ≡ settled_turn (slots job.now.program.now job.now.limits.discipline) (machine_of state.now) kernel process }
    ensures ready { IfGoes result (λ q. is_ready (machine_of state.now) q ≡ true) }
{
    // A process that made a local step is still ready, and goes on whoever else is.
    if !kernel {
        return Turn::Goes(process);
    }
    match state.readiness() {
        Readiness::Nobody => {
            if state.waits() {
                Turn::Over(OutcomeKind::AllWaiting)
            } else {
                Turn::Over(OutcomeKind::Finished)
            }
        }
        Readiness::One(one) => Turn::Goes(one),
        Readiness::Several => Turn::Due,
    }
}

/// Gate choice, and then these.
pub fn turn_at(job: &Job<'_>, state: &State, kernel: bool, process: u8) -> Turn
    requires own { IsStateOf job.now.program.now state.now }
    requires goes_on { kernel ≡ false → is_ready (machine_of state.now) process ≡ true }
    ensures turn { result ≡ turn_at (slots job.now.program.now job.now.limits.discipline) (machine_of state.now) kernel process }
    ensures ready { IfGoes result (λ q. is_ready (machine_of state.now) q ≡ true) }
    ensures free { IfGoes result (λ q. is_pending (machine_of state.now) ≡ false) }
{
    if state.pending().is_some() {
        Turn::Due
    } else {
        settled_turn(job, state, kernel, process)
    }
}

/// Error end, and then the rules that follow, after a step of `pid` that came to this state.
pub fn turn_of(job: &Job<'_>, state: &State, pid: u8, event: Event) -> Turn
    requires own { IsStateOf job.now.program.now state.now }
    requires goes_on { is_local event ≡ true → is_ready (machine_of state.now) pid ≡ true }
    ensures turn { result ≡ turn_after (slots job.now.program.now job.now.limits.discipline) (machine_of state.now) pid event }
    ensures ready { IfGoes result (λ q. is_ready (machine_of state.now) q ≡ true) }
    ensures free { IfGoes result (λ q. is_pending (machine_of state.now) ≡ false) }
{
    match event {
        Event::Local => turn_at(job, state, false, pid),
        Event::Kernel(_) => turn_at(job, state, true, pid),
        Event::Ended => turn_at(job, state, true, pid),
        Event::Fault(error) => Turn::Over(OutcomeKind::RunError {
            name: error.name,
            process: error.process,
            line: error.line,
        }),
        Event::OutputFull => Turn::Over(OutcomeKind::OutputLimit),
    }
}
