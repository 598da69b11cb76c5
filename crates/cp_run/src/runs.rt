//! Runs of schedule words.

ghost use Rattle.std.specs.Prelude.{◌≡◌, ◌≤◌, ◌+◌, ◌*◌, ◌-◌, [], IfOk};
ghost use Rattle.cp_machine.specs.System.{machine_of, output_of, IsStateOf};
ghost use Rattle.cp_run.specs.Run.{run, run_from};
ghost use Rattle.cp_run.specs.Slots.{slots};
ghost use Rattle.cp_run.specs.Code.{answer_of, node_of, further, is_over};

use crate::choice::{candidates, choose, may, open};
use crate::job::Job;
use crate::outcome::{Halt, Outcome, OutcomeKind, Output, RunEnd};
use cp_machine::{Count, State, Uncounted, Unwatched};
use std::alloc::{AllocError, Global};

/// An end of this kind, with what the state has displayed.
pub fn outcome_at(alloc: Global, kind: OutcomeKind, state: &State) -> Result<Outcome, AllocError>
    ensures { IfOk result (λ o. o ≡ record { kind = kind; output = output_of (machine_of state.now) }) }
{
    let output = Output::of(alloc, state.output())?;
    Ok(Outcome { kind, output })
}

/// Runs a word from the opening state. `ticks` counts the steps that succeed.
pub fn run<S: Count>(
    alloc: Global,
    job: &Job<'_>,
    word: &[u8],
    ticks: &mut S,
) -> Result<RunEnd, AllocError>
    ensures answer { IfOk result (λ end. answer_of end ≡ run (slots job.now.program.now job.now.limits.discipline) job.now.limits.choices job.now.limits.steps word.now) }
    ensures ticks { S.count ticks.new ≤ S.count ticks.old + (job.now.limits.choices + 1) * job.now.limits.steps }
{
    let mut state = State::start(alloc, job.program, job.limits.discipline)?;
    let mut halt = open(job, &mut state, ticks, &mut Uncounted);
    for (place, process) in word.iter().enumerate() {
        match halt {
            Halt::Ended(kind) => {
                let outcome = outcome_at(alloc, kind, &state)?;
                return Ok(RunEnd::Ended {
                    outcome,
                    used: place,
                });
            }
            Halt::Choice => {
                if place == job.limits.choices as usize {
                    let outcome = outcome_at(alloc, OutcomeKind::ChoiceLimit, &state)?;
                    return Ok(RunEnd::Ended {
                        outcome,
                        used: place,
                    });
                }
                if !may(job, &state, *process) {
                    return Ok(RunEnd::NotReady { place });
                }
                halt = choose(
                    job,
                    &mut state,
                    *process,
                    &mut Unwatched,
                    ticks,
                    &mut Uncounted,
                );
            }
        }
    }
    end_of_word(
        alloc,
        job,
        job.limits.choices as usize,
        halt,
        &state,
        word.len(),
    )
}

/// The end of a run whose word is used up after `used` choices, of at most `choices`.
pub fn end_of_word(
    alloc: Global,
    job: &Job<'_>,
    choices: usize,
    halt: Halt<OutcomeKind>,
    state: &State,
    used: usize,
) -> Result<RunEnd, AllocError>
    requires own { IsStateOf job.now.program.now state.now }
    requires within { used ≤ choices }
    ensures { IfOk result (λ end. answer_of end ≡ further used (run_from (slots job.now.program.now job.now.limits.discipline) job.now.limits.steps (choices - used) [] (node_of halt (machine_of state.now)))) }
{
    match halt {
        Halt::Ended(kind) => Ok(RunEnd::Ended {
            outcome: outcome_at(alloc, kind, state)?,
            used,
        }),
        Halt::Choice => {
            if used == choices {
                Ok(RunEnd::Ended {
                    outcome: outcome_at(alloc, OutcomeKind::ChoiceLimit, state)?,
                    used,
                })
            } else {
                Ok(RunEnd::Wants {
                    ready: candidates(job, state),
                })
            }
        }
    }
}

/// Whether a run is over where its stretch halted, after `used` choices, of at most `choices`.
pub fn is_over(choices: usize, halt: Halt<OutcomeKind>, used: usize) -> bool
    requires { used ≤ choices }
    ensures { result ≡ is_over (choices - used) halt }
{
    match halt {
        Halt::Ended(_) => true,
        Halt::Choice => used == choices,
    }
}
