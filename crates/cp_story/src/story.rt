//! A run of one schedule word, told event by event.

ghost use Rattle.std.specs.Prelude.{◌≡◌, ◌<◌, ◌≤◌, ◌+◌, ◌-◌, ◌*◌, ◌++◌, ◌∷◌, [], if◌then◌else◌, IfOk, length, map, option_map};
ghost use Rattle.cp_legend.specs.Names.{legend_seen};
ghost use Rattle.cp_machine.specs.System.{machine_of, IsStateOf};
ghost use Rattle.cp_run.specs.Run.{run, those_below};
ghost use Rattle.cp_run.specs.Slots.{slots};
ghost use Rattle.cp_run.specs.Code.{answer_of};
ghost use Rattle.cp_run.specs.Trace.{holders_in, step_lines, trace};
ghost use Rattle.cp_story.specs.Story.{story_of, decision_in, telling, told_more, told_step};
ghost use Rattle.cp_story.specs.Halted.{changes_at_halt, halted_seen, how_halted};
ghost use Rattle.cp_run.specs.Stop.{numbers_left};
ghost use Rattle.cp_story.specs.Annotations.{violation_of_run, violation_seen};
ghost use Rattle.cp_story.specs.Causes.{cause_of_run};
ghost use Rattle.cp_story.specs.Reasons.{reason_seen, reasons_of_run};
ghost use Rattle.cp_story.specs.Told.{lines_of};
ghost use Rattle.cp_story.specs.Views.{changed_of, past_of, decision_of, telling_of, told_of, wait_of};
ghost use Rattle.cp_story.specs.Waiting as waiting;
ghost use Rattle.cp_story.specs.Waiting.{waiting_at, waits_at, waits_in, who_waits};

use crate::aim::{Aim, NONE, aim_of};
use crate::annotation::{Violation, violation_of_end};
use crate::cause::{Cause, cause_of_end};
use crate::changes::changes;
use crate::event::{Change, Choice, OpenCall, StoryEvent};
use crate::observer::Observer;
use crate::reasons::{WaitReason, reasons_at};
use crate::statuses::status_of;
use crate::stopping::{AbruptEnd, abrupt_end};
use cp_legend::Legend;
use cp_machine::{Count, Event as Step, Signals, State, Status};
use cp_run::{Job, Observe, RunEnd, TraceEvent, TraceLine, candidates, holders, observe_run};
use cp_slots::Resolved;
use std::alloc::{AllocError, Global};

/// A process that waits when the run stops.
#[derive(Drop)]
pub struct Wait {
    pub process: u8,
    pub status: Status,
    /// Its innermost call of a monitor.
    pub call: Option<OpenCall>,
    /// The monitors that it is still inside.
    pub inside: Vec<u8>,
}

/// The events of one schedule, and how it stops.
#[derive(Drop)]
pub struct Story {
    pub events: Vec<StoryEvent>,
    /// The last choice, where no event came after it.
    pub last_choice: Option<Choice>,
    /// What changed in the monitors since the last event.
    pub last_changes: Vec<Change>,
    pub waits: Vec<Wait>,
    pub end: RunEnd,
    /// How it stopped, where no event tells of it.
    pub stop: Option<AbruptEnd>,
    /// What the run error is of, where it stopped with one and that is known.
    pub cause: Option<Cause>,
    /// The annotation that is false, where it stopped with one.
    pub violation: Option<Violation>,
    /// Why those who wait in queues are not woken, where all wait.
    pub reasons: Vec<WaitReason>,
    /// How many numbers of the word were not used, since the run had ended.
    pub left: usize,
    /// Who goes on after a `continue`.
    pub signals: Signals,
}

/// The events of a run, while it is made.
#[derive(Drop)]
struct Storyteller<'a> {
    alloc: Global,
    observer: Observer<'a>,
    events: Vec<StoryEvent>,
    /// What the process is about to do that makes the next step.
    aim: Aim,
}

impl<'a> Storyteller<'a> {
    // Appends the event of a line of the trace.
    fn push_event(
        &mut self,
        job: &Job<'_>,
        state: &State,
        process: u8,
        event: TraceEvent,
        aim: Aim,
    ) -> Result<(), AllocError>
        requires { IsStateOf job.now.program.now state.now }
        ensures lines { IfOk result (λ _. lines_of self.new.events.items ≡ lines_of self.old.events.items ++ record { process = process; event = event; holders = holders_in (slots job.now.program.now job.now.limits.discipline) (machine_of state.now) } ∷ []) }
        ensures told { IfOk result (λ _. telling_of self.new.observer self.new.events.items ≡ told_more job.now.program.now job.now.limits.discipline event process aim (machine_of state.now) (telling_of self.old.observer self.old.events.items)) }
    {
        let holders = holders(self.alloc, job, state)?;
        let plain = TraceLine {
            process,
            event,
            holders,
        };
        let event = self.observer.observe(self.alloc, state, plain, aim)?;
        self.events.push(event)?;
        Ok(())
    }

    // Appends the event of a step, if it is one.
    fn push_step(
        &mut self,
        job: &Job<'_>,
        state: &State,
        process: u8,
        event: Step,
        aim: Aim,
    ) -> Result<(), AllocError>
        requires { IsStateOf job.now.program.now state.now }
        ensures lines { IfOk result (λ _. lines_of self.new.events.items ≡ lines_of self.old.events.items ++ step_lines (slots job.now.program.now job.now.limits.discipline) (machine_of state.now) process event) }
        ensures told { IfOk result (λ _. telling_of self.new.observer self.new.events.items ≡ told_step job.now.program.now job.now.limits.discipline process aim event (machine_of state.now) (telling_of self.old.observer self.old.events.items)) }
    {
        let event = match event {
            Step::Kernel(call) => TraceEvent::Kernel(call),
            Step::Ended => TraceEvent::End,
            Step::Local | Step::Fault(_) | Step::OutputFull => return Ok(()),
        };
        self.push_event(job, state, process, event, aim)
    }
}

impl<'a> Observe for Storyteller<'a> {
    ghost use Rattle.std.specs.Prelude.{◌≡◌, List, true, false};
    ghost use Rattle.cp_run.specs.Fold.{beside};
    ghost use Rattle.cp_run.specs.Slots.{slots};
    ghost use Rattle.cp_run.specs.Trace.{tracer};
    ghost use Rattle.cp_run.specs.declared.line.TraceLine.{TraceLine};
    ghost use Rattle.cp_story.specs.Aimed.{aim_in};
    ghost use Rattle.cp_story.specs.Story.{Telling, expecting, teller};
    ghost use Rattle.cp_story.specs.Told.{lines_of};
    ghost use Rattle.cp_story.specs.Views.{telling_of};

    type Error = AllocError;

    ghost Seen = { Telling × List TraceLine };

    ghost IS_SILENT = { false };

    ghost SEES_LOCAL = { true };

    #[inline(always)]
    fn is_silent() -> bool
        ensures { result ≡ false }
    {
        false
    }

    #[inline(always)]
    fn sees_local() -> bool
        ensures { result ≡ true }
    {
        true
    }

    ghost holds = { λ t r discipline now x. (telling_of t.observer t.events.items, lines_of t.events.items) ≡ x };

    ghost fold = { λ r discipline. beside (teller r discipline) (tracer (slots r discipline)) };

    ghost expects = { λ t r discipline before process x. (t.aim ≡ aim_in r before process) × (telling_of t.observer t.events.items ≡ expecting t.aim before process x.0) × (lines_of t.events.items ≡ x.1) };

    fn expect_step(&mut self, job: &Job<'_>, state: &State, process: u8) -> Result<(), AllocError> {
        let aim = aim_of(job.program, state, process);
        self.observer.expect(self.alloc, state, process, aim)?;
        self.aim = aim;
        Ok(())
    }

    fn see_step(
        &mut self,
        job: &Job<'_>,
        state: &State,
        process: u8,
        event: Step,
    ) -> Result<(), AllocError> {
        let aim = self.aim;
        self.push_step(job, state, process, event, aim)
    }

    fn see_admission(
        &mut self,
        job: &Job<'_>,
        state: &State,
        process: u8,
    ) -> Result<(), AllocError> {
        let event = TraceEvent::Admit;
        self.push_event(job, state, process, event, NONE)
    }

    fn see_choice(&mut self, job: &Job<'_>, state: &State, number: u8) {
        self.observer.choice = Some(choice_of(job, state, number));
    }

    ghost passes = { λ unseen self r discipline before after process x step h. absurd (Prim.cc) };
}

// The choice that is due, and the number that is taken.
fn choice_of(job: &Job<'_>, state: &State, number: u8) -> Choice
    requires { IsStateOf job.now.program.now state.now }
    ensures { decision_of result ≡ decision_in job.now.program.now job.now.limits.discipline (machine_of state.now) number }
{
    Choice {
        options: candidates(job, state),
        number,
        at_gate: state.pending().is_some(),
    }
}

// Who waits in a state, and where.
fn waits_of(
    alloc: Global,
    program: &Resolved,
    state: &State,
    observer: &Observer<'_>,
) -> Result<Vec<Wait>, AllocError>
    requires { IsStateOf program.now state.now }
    ensures { IfOk result (λ v. map wait_of v.items ≡ waits_in program.now (machine_of state.now) (past_of observer.now).calls) }
{
    let mut waits = Vec::new(alloc);
    for process in 0..state.processes.len() {
        push_wait(alloc, program, state, observer, process as u8, &mut waits)?;
    }
    Ok(waits)
}

// Appends how a process waits, if it does.
fn push_wait(
    alloc: Global,
    program: &Resolved,
    state: &State,
    observer: &Observer<'_>,
    process: u8,
    waits: &mut Vec<Wait>,
) -> Result<(), AllocError>
    requires { IsStateOf program.now state.now }
    ensures { IfOk result (λ _. map wait_of waits.new.items ≡ map wait_of waits.old.items ++ map (waiting_at program.now (machine_of state.now) (past_of observer.now).calls) (if waits_at (machine_of state.now) process then process ∷ [] else [])) }
{
    let status = status_of(state, process);
    if status.waits() {
        waits.push(Wait {
            process,
            status,
            call: observer.call_of(process),
            inside: held_by(alloc, program, state, process)?,
        })?;
    }
    Ok(())
}

// The monitors that a process is inside.
fn held_by(
    alloc: Global,
    program: &Resolved,
    state: &State,
    process: u8,
) -> Result<Vec<u8>, AllocError>
    requires { IsStateOf program.now state.now }
    ensures { IfOk result (λ v. v.items ≡ those_below program.now.monitors (waiting.is_inside (machine_of state.now) process)) }
{
    let mut held = Vec::new(alloc);
    for monitor in 0..program.monitors() {
        if is_inside(state, monitor, process) {
            held.push(monitor)?;
        }
    }
    Ok(held)
}

// Whether a process is inside a monitor.
fn is_inside(state: &State, monitor: u8, process: u8) -> bool
    requires { monitor < length state.now.guards.items }
    ensures { result ≡ waiting.is_inside (machine_of state.now) process monitor }
{
    state.holder(monitor) == Some(process)
}

/// Runs a word from the opening state and tells what happens: the events of its trace, and the run's end. More choices than `choices` are not taken.
/// `ticks` counts the steps that succeed.
pub fn tell<S: Count>(
    alloc: Global,
    job: &Job<'_>,
    choices: usize,
    legend: &Legend,
    word: &[u8],
    ticks: &mut S,
) -> Result<Story, AllocError>
    ensures lines { IfOk result (λ s. lines_of s.events.items ≡ trace (slots job.now.program.now job.now.limits.discipline) choices job.now.limits.steps word.now) }
    ensures told { IfOk result (λ s. map told_of s.events.items ≡ story_of (legend_seen legend.now) job.now.program.now job.now.limits.discipline choices job.now.limits.steps word.now) }
    ensures choice { IfOk result (λ s. option_map decision_of s.last_choice ≡ (telling (legend_seen legend.now) job.now.program.now job.now.limits.discipline choices job.now.limits.steps word.now).past.choice) }
    ensures changes { IfOk result (λ s. map changed_of s.last_changes.items ≡ changes_at_halt (legend_seen legend.now) job.now.program.now job.now.limits.discipline choices job.now.limits.steps word.now) }
    ensures waits { IfOk result (λ s. map wait_of s.waits.items ≡ who_waits (legend_seen legend.now) job.now.program.now job.now.limits.discipline choices job.now.limits.steps word.now) }
    ensures answer { IfOk result (λ s. answer_of s.end ≡ run (slots job.now.program.now job.now.limits.discipline) choices job.now.limits.steps word.now) }
    ensures stop { IfOk result (λ s. option_map halted_seen s.stop ≡ how_halted (legend_seen legend.now) job.now.program.now job.now.limits.discipline choices job.now.limits.steps word.now) }
    ensures cause { IfOk result (λ s. s.cause ≡ cause_of_run job.now.program.now job.now.limits.discipline choices job.now.limits.steps word.now) }
    ensures violation { IfOk result (λ s. option_map violation_seen s.violation ≡ violation_of_run (legend_seen legend.now) job.now.program.now job.now.limits.discipline choices job.now.limits.steps word.now) }
    ensures reasons { IfOk result (λ s. map reason_seen s.reasons.items ≡ reasons_of_run (legend_seen legend.now) job.now.program.now job.now.limits.discipline choices job.now.limits.steps word.now) }
    ensures left { IfOk result (λ s. s.left ≡ numbers_left word.now (run (slots job.now.program.now job.now.limits.discipline) choices job.now.limits.steps word.now)) }
    ensures signals { IfOk result (λ s. s.signals ≡ job.now.limits.discipline.signals) }
    ensures ticks { S.count ticks.new ≤ S.count ticks.old + (choices + 1) * job.now.limits.steps }
{
    let mut state = State::start(alloc, job.program, job.limits.discipline)?;
    let observer = Observer::new(alloc, legend, &state)?;
    let events = Vec::new(alloc);
    let mut teller = Storyteller {
        alloc,
        observer,
        events,
        aim: NONE,
    };
    let end = observe_run(alloc, job, choices, word, ticks, &mut state, &mut teller)?;
    let left = count_left(word, &end);
    let Storyteller {
        observer,
        events,
        ..
    } = teller;
    let waits = waits_of(alloc, job.program, &state, &observer)?;
    let stop = abrupt_end(alloc, legend, &end, observer.last, &waits)?;
    let cause = cause_of_end(job.program, &state, &end);
    let violation = violation_of_end(alloc, legend, job.program, &state, &end)?;
    let reasons = reasons_at(alloc, job.program, legend, &state, &end, &events, &waits)?;
    let last_changes = changes(alloc, legend, &observer.permanents, &state.permanents)?;
    Ok(Story {
        events,
        last_choice: observer.choice,
        last_changes,
        waits,
        end,
        stop,
        cause,
        violation,
        reasons,
        left,
        signals: job.limits.discipline.signals,
    })
}

// How many numbers of a word stand after those that a run used until it ended.
fn count_left(word: &[u8], end: &RunEnd) -> usize
    ensures { result ≡ numbers_left word.now (answer_of end.now) }
{
    match end {
        RunEnd::Ended { used, .. } => word.len().saturating_sub(*used),
        _ => 0,
    }
}
