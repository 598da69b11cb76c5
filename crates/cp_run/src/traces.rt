//! Traces of runs.

ghost use Rattle.std.specs.Prelude.{◌≡◌, ◌≤◌, ◌+◌, ◌*◌, ◌++◌, ◌∷◌, [], IfOk, length};
ghost use Rattle.cp_machine.specs.System.{machine_of, IsStateOf};
ghost use Rattle.cp_run.specs.Code.{answer_of};
ghost use Rattle.cp_run.specs.Run.{run};
ghost use Rattle.cp_run.specs.Slots.{slots};
ghost use Rattle.cp_run.specs.Trace.{holders_in, trace};

use crate::job::Job;
use crate::line::{Holders, TraceEvent, TraceLine};
use crate::observe::Observe;
use crate::observing::observe_run;
use crate::outcome::RunEnd;
use cp_machine::{Count, Event, State};
use std::alloc::{AllocError, Global};

/// For each monitor the process inside it.
pub fn holders(alloc: Global, job: &Job<'_>, state: &State) -> Result<Holders, AllocError>
    requires { IsStateOf job.now.program.now state.now }
    ensures { IfOk result (λ h. h ≡ holders_in (slots job.now.program.now job.now.limits.discipline) (machine_of state.now)) }
{
    let _ = job.limits;
    let mut holders = Vec::new(alloc);
    for monitor in 0..job.program.monitors() {
        holders.push(state.holder(monitor))?;
    }
    Ok(Holders::new(holders))
}

/// The lines of a run so far.
#[derive(Drop)]
struct Lines {
    alloc: Global,
    lines: Vec<TraceLine>,
}

impl Lines {
    // Appends a line, with the holders of a state.
    fn push(
        &mut self,
        job: &Job<'_>,
        state: &State,
        process: u8,
        event: TraceEvent,
    ) -> Result<(), AllocError>
        requires { IsStateOf job.now.program.now state.now }
        ensures { IfOk result (λ _. self.new.lines.items ≡ self.old.lines.items ++ record { process = process; event = event; holders = holders_in (slots job.now.program.now job.now.limits.discipline) (machine_of state.now) } ∷ []) }
    {
        let holders = holders(self.alloc, job, state)?;
        self.lines.push(TraceLine {
            process,
            event,
            holders,
        })?;
        Ok(())
    }
}

impl Observe for Lines {
    ghost use Rattle.std.specs.Prelude.{◌≡◌, List, true, false};
    ghost use Rattle.cp_run.specs.Slots.{slots};
    ghost use Rattle.cp_run.specs.Trace.{tracer};
    ghost use Rattle.cp_run.specs.declared.line.TraceLine.{TraceLine};

    type Error = AllocError;

    ghost Seen = { List TraceLine };

    ghost IS_SILENT = { false };

    ghost SEES_LOCAL = { true };

    #[inline(always)]
    fn is_silent() -> bool {
        false
    }

    #[inline(always)]
    fn sees_local() -> bool {
        true
    }

    ghost holds = { λ l r discipline now lines. l.lines.items ≡ lines };

    ghost fold = { λ r discipline. tracer (slots r discipline) };

    ghost expects = { λ l r discipline before process lines. l.lines.items ≡ lines };

    fn expect_step(
        &mut self,
        _job: &Job<'_>,
        _state: &State,
        _process: u8,
    ) -> Result<(), AllocError> {
        Ok(())
    }

    fn see_step(
        &mut self,
        job: &Job<'_>,
        state: &State,
        process: u8,
        event: Event,
    ) -> Result<(), AllocError> {
        let event = match event {
            Event::Kernel(call) => TraceEvent::Kernel(call),
            Event::Ended => TraceEvent::End,
            Event::Local | Event::Fault(_) | Event::OutputFull => return Ok(()),
        };
        self.push(job, state, process, event)
    }

    fn see_admission(
        &mut self,
        job: &Job<'_>,
        state: &State,
        process: u8,
    ) -> Result<(), AllocError> {
        self.push(job, state, process, TraceEvent::Admit)
    }

    fn see_choice(&mut self, _job: &Job<'_>, _state: &State, _number: u8) {}

    ghost passes = { λ unseen self r discipline before after process x step h. absurd (Prim.cc) };
}

/// Runs a word from the opening state, and answers a line for each kernel event, process end and admission, and the run's end.
/// `ticks` counts the steps that succeed.
pub fn trace<S: Count>(
    alloc: Global,
    job: &Job<'_>,
    word: &[u8],
    ticks: &mut S,
) -> Result<(Vec<TraceLine>, RunEnd), AllocError>
    ensures lines { IfOk result (λ t. t.0.items ≡ trace (slots job.now.program.now job.now.limits.discipline) job.now.limits.choices job.now.limits.steps word.now) }
    ensures answer { IfOk result (λ t. answer_of t.1 ≡ run (slots job.now.program.now job.now.limits.discipline) job.now.limits.choices job.now.limits.steps word.now) }
    ensures few { IfOk result (λ t. length t.0.items ≤ (job.now.limits.choices + 1) * job.now.limits.steps + job.now.limits.choices) }
    ensures ticks { S.count ticks.new ≤ S.count ticks.old + (job.now.limits.choices + 1) * job.now.limits.steps }
{
    let mut lines = Lines {
        alloc,
        lines: Vec::new(alloc),
    };
    let mut state = State::start(alloc, job.program, job.limits.discipline)?;
    let choices = job.limits.choices as usize;
    let end = observe_run(alloc, job, choices, word, ticks, &mut state, &mut lines)?;
    Ok((lines.lines, end))
}
