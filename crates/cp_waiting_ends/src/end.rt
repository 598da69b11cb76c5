//! An end at which all wait.

ghost use Rattle.std.specs.Prelude.{◌≡◌, ◌∷◌, ◌++◌, [], IfOk, if◌then◌else◌};
ghost use Rattle.cp_machine.specs.Machine.{is_waiting};
ghost use Rattle.cp_machine.specs.System.{machine_of, IsStateOf};
ghost use Rattle.cp_run.specs.Slots.{slots};
ghost use Rattle.cp_endless_laws.specs.Silent.{waits_on_slots};
ghost use Rattle.cp_waiting_ends.specs.Hashing.{hash_input, respects_eq};
ghost use Rattle.cp_waiting_ends.specs.Waiting.{end_seen, waits_so, who_waits};

use cp_machine::{State, Status};
use cp_merged::end_key::EndKey;
use cp_run::{Outcome, OutcomeKind, Output, outcome_at};
use cp_search::SearchJob;
use std::alloc::{AllocError, Global};
use std::hash::{Hash, Hasher};

/// Who waits at an end at which all wait, and what was displayed before it.
#[derive(PartialEq, Eq, Drop)]
pub struct WaitingEnd {
    /// The processes that wait, in rising order.
    pub who: Vec<u8>,
    pub key: EndKey,
}

impl Hash for WaitingEnd {
    ghost hash_input = { hash_input };

    ghost respects_eq = { respects_eq };

    fn hash<H: Hasher>(&self, state: &mut H) {
        state.write(self.who.as_slice());
        self.key.hash(state);
    }
}

impl WaitingEnd {
    /// The end in this state.
    pub fn of(job: &SearchJob<'_>, state: &State) -> Result<WaitingEnd, AllocError>
        requires { IsStateOf job.now.run.program.now state.now }
        ensures { IfOk result (λ end. end_seen end ≡ waits_so (slots job.now.run.program.now job.now.run.limits.discipline) waits_on_slots (machine_of state.now)) }
    {
        let who = waiting_in(job, state)?;
        let outcome = outcome_at(job.alloc, OutcomeKind::AllWaiting, state)?;
        Ok(WaitingEnd {
            who,
            key: EndKey { outcome },
        })
    }

    /// The same once more.
    pub fn copy(&self, alloc: Global) -> Result<WaitingEnd, AllocError>
        ensures { IfOk result (λ end. end_seen end ≡ end_seen self.now) }
    {
        let mut who = Vec::new(alloc);
        who.extend_from_slice(&self.who)?;
        let output = Output::of(alloc, self.key.outcome.output.as_slice())?;
        let outcome = Outcome {
            kind: self.key.outcome.kind,
            output,
        };
        Ok(WaitingEnd {
            who,
            key: EndKey { outcome },
        })
    }
}

// The processes that are at a gate or delayed, in rising order.
fn waiting_in(job: &SearchJob<'_>, state: &State) -> Result<Vec<u8>, AllocError>
    requires { IsStateOf job.now.run.program.now state.now }
    ensures { IfOk result (λ who. who.items ≡ who_waits (slots job.now.run.program.now job.now.run.limits.discipline) waits_on_slots (machine_of state.now)) }
{
    let mut who = Vec::new(job.alloc);
    for (pid, process) in state.processes.iter().enumerate() {
        push_if_waits(process.status, pid as u8, &mut who)?;
    }
    Ok(who)
}

fn push_if_waits(status: Status, pid: u8, who: &mut Vec<u8>) -> Result<(), AllocError>
    ensures { IfOk result (λ _. who.new.items ≡ who.old.items ++ (if is_waiting status then pid ∷ [] else [])) }
{
    if status.waits() {
        who.push(pid)?;
    }
    Ok(())
}
