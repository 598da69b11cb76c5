//! What is remembered from one event to the next.

ghost use Rattle.std.specs.Prelude.{◌≡◌, IfOk, OnErr, pos, slice_get, unwrap_or};
ghost use Rattle.cp_legend.specs.Names.{legend_seen};
ghost use Rattle.cp_machine.specs.declared.event.Kernel.TheVariants as kernel;
ghost use Rattle.cp_machine.specs.declared.shown.Shown.TheVariants.{Integer};
ghost use Rattle.cp_machine.specs.Machine.{machine_of, thread_at};
ghost use Rattle.cp_run.specs.declared.line.TraceEvent.TheVariants as event;
ghost use Rattle.cp_story.specs.Events.{event_of};
ghost use Rattle.cp_story.specs.Passed as passed;
ghost use Rattle.cp_story.specs.Story.{Enters, call_begun, calls_after, calls_continued, innermost_call, is_gated, last_or, last_with, line_told, no_call, nothing_told, past_after, past_before, queue_at, queue_told, statuses_in, told_event, what_happened, with_call, with_calls};
ghost use Rattle.cp_story.specs.Views.{happened_of, past_of, queue_seen, told_of};
ghost use Rattle.cp_story.specs.Waiting.{innermost_open};

use crate::aim::Aim;
use crate::changes::changes;
use crate::event::{Choice, Happening, OpenCall, Queue, Returned, StoryEvent};
use crate::happening::arguments;
use crate::open_calls::{NO_CALL, call_begun, close_call, innermost_call, open_call};
use crate::returned::values_returned;
use crate::statuses::{
    is_at_gate, listed, processes_let_in, started_process, status_of, statuses_of,
};
use cp_legend::Legend;
use cp_machine::{Kernel, Shown, Signals, State, Status};
use cp_run::{TraceEvent, TraceLine};
use std::alloc::{AllocError, Global};
use std::mem;

/// The state as the last event left it.
#[derive(Drop)]
pub struct Observer<'a> {
    legend: &'a Legend,
    /// The choice that was taken, where no event has come since.
    pub choice: Option<Choice>,
    /// The open calls of monitors of each process, the innermost last.
    pub calls: Vec<Vec<OpenCall>>,
    statuses: Vec<Status>,
    /// The cells of all components.
    pub permanents: Vec<i16>,
    /// What comes back from the call that ends with the step to come, if one does.
    returned: Vec<Returned>,
    /// The last step that was made, or that is about to be.
    pub last: Last,
}

/// A step.
#[derive(Clone, Copy)]
pub struct Last {
    pub process: u8,
    /// The line that it came to last.
    pub line: Option<u32>,
    /// The cell of the queue that it continues, or is delayed in.
    pub queue: Option<usize>,
}

impl<'a> Observer<'a> {
    /// Begins to observe a state.
    pub fn new(alloc: Global, legend: &'a Legend, state: &State) -> Result<Observer<'a>, AllocError>
        ensures { IfOk result (λ o. past_of o ≡ (nothing_told (legend_seen legend.now) (machine_of state.now)).past) }
    {
        let mut calls = Vec::new(alloc);
        for _ in 0..state.processes.len() {
            calls.push(Vec::new(alloc))?;
        }
        Ok(Observer {
            legend,
            choice: None,
            calls,
            statuses: statuses_of(alloc, state)?,
            permanents: Vec::from_slice(alloc, &state.permanents)?,
            returned: Vec::new(alloc),
            last: Last {
                process: 0,
                line: None,
                queue: None,
            },
        })
    }

    /// Sees a step of a process come, which has this aim.
    pub fn expect(
        &mut self,
        alloc: Global,
        state: &State,
        process: u8,
        aim: Aim,
    ) -> Result<(), AllocError>
        ensures seen { IfOk result (λ _. past_of self.new ≡ past_before aim (machine_of state.now) process (past_of self.old)) }
        ensures failed { OnErr result (past_of self.new ≡ past_of self.old) }
    {
        if aim.ends_call {
            self.returned = values_returned(alloc, self.legend, state, process)?;
        }
        self.last = last_with(aim, process, self.last);
        Ok(())
    }

    /// The innermost open call of a process.
    pub fn call_of(&self, process: u8) -> Option<OpenCall>
        ensures call { unwrap_or result no_call ≡ innermost_call (past_of self.now).calls process }
        ensures open { result ≡ innermost_open (past_of self.now).calls process }
    {
        innermost_call(&self.calls, process)
    }

    /// The event that led to a state, by its line of the trace.
    pub fn observe(
        &mut self,
        alloc: Global,
        state: &State,
        plain: TraceLine,
        aim: Aim,
    ) -> Result<StoryEvent, AllocError>
        ensures plain { IfOk result (λ e. e.plain ≡ plain) }
        ensures told { IfOk result (λ e. told_of e ≡ told_event plain.holders plain.event plain.process aim (machine_of state.now) (past_of self.old)) }
        ensures past { IfOk result (λ _. past_of self.new ≡ past_after plain.event plain.process aim (machine_of state.now) (past_of self.old)) }
    {
        let process = plain.process;
        let changes = changes(alloc, self.legend, &self.permanents, &state.permanents)?;
        let woken = listed(aim.wakes);
        let let_in = processes_let_in(&self.statuses, state, process);
        let happening = self.happening(alloc, state, process, plain.event, aim)?;
        let line = line_of(&happening, aim);
        let choice = self.choice.take();
        let returned = mem::replace(&mut self.returned, Vec::new(alloc));
        self.remember(alloc, state)?;
        Ok(StoryEvent {
            plain,
            choice,
            line,
            happening,
            returned,
            woken,
            let_in,
            statuses: statuses_of(alloc, state)?,
            changes,
        })
    }

    fn remember(&mut self, alloc: Global, state: &State) -> Result<(), AllocError>
        ensures { IfOk result (λ _. past_of self.new ≡ record (past_of self.old) { statuses = statuses_in (machine_of state.now); cells = (machine_of state.now).permanents }) }
    {
        self.statuses = statuses_of(alloc, state)?;
        self.permanents = Vec::from_slice(alloc, &state.permanents)?;
        Ok(())
    }

    fn happening(
        &mut self,
        alloc: Global,
        state: &State,
        process: u8,
        event: TraceEvent,
        aim: Aim,
    ) -> Result<Happening, AllocError>
        ensures kind { IfOk result (λ h. event_of h ≡ event) }
        ensures happened { IfOk result (λ h. happened_of h ≡ what_happened event process aim (machine_of state.now) (past_of self.old)) }
        ensures calls { IfOk result (λ _. past_of self.new ≡ with_calls (past_of self.old) (calls_after event process aim (machine_of state.now) (past_of self.old).calls)) }
    {
        Ok(match event {
            TraceEvent::Kernel(Kernel::Enter) => self.enter(alloc, state, process, aim)?,
            TraceEvent::Kernel(Kernel::Leave) => {
                Happening::Leave(close_call(&mut self.calls, process))
            }
            TraceEvent::Kernel(Kernel::Delay) => {
                let queue = self.queue(alloc, aim.queue)?;
                Happening::Delay(queue, self.call_of(process).unwrap_or(NO_CALL))
            }
            TraceEvent::Kernel(Kernel::Continue) => {
                let queue = self.queue(alloc, aim.queue)?;
                let signals = state.discipline.signals;
                Happening::Continue(queue, self.continue_call(process, signals), signals)
            }
            TraceEvent::Kernel(Kernel::StartProcess) => {
                Happening::Start(started_process(&self.statuses, state))
            }
            TraceEvent::Kernel(Kernel::Display) => Happening::Display(last_shown(state)),
            TraceEvent::End => Happening::End,
            TraceEvent::Admit => Happening::Admit(self.call_of(process).unwrap_or(NO_CALL)),
        })
    }

    // The call in which a process continues a queue: it returns from it, or goes on in it.
    fn continue_call(&mut self, process: u8, signals: Signals) -> OpenCall
        ensures call { result ≡ innermost_call (past_of self.old).calls process }
        ensures calls { past_of self.new ≡ with_calls (past_of self.old) (calls_continued signals (past_of self.old).calls process) }
    {
        match signals {
            Signals::Return => close_call(&mut self.calls, process),
            Signals::Continue | Signals::Wait => self.call_of(process).unwrap_or(NO_CALL),
        }
    }

    fn enter(
        &mut self,
        alloc: Global,
        state: &State,
        process: u8,
        aim: Aim,
    ) -> Result<Happening, AllocError>
        ensures kind { IfOk result (λ h. event_of h ≡ event.Kernel kernel.Enter) }
        ensures happened { IfOk result (λ h. happened_of h ≡ Enters (call_begun (thread_at (machine_of state.now).threads process) aim.line) (passed.arguments (past_of self.old).legend (slice_get (machine_of state.now).threads process)) (is_gated (thread_at (machine_of state.now).threads process).status)) }
        ensures calls { IfOk result (λ _. past_of self.new ≡ with_calls (past_of self.old) (with_call (past_of self.old).calls process (call_begun (thread_at (machine_of state.now).threads process) aim.line))) }
    {
        let call = call_begun(state, process, aim.line);
        open_call(&mut self.calls, process, call)?;
        Ok(Happening::Enter {
            call,
            arguments: arguments(alloc, self.legend, state, process)?,
            waits: is_at_gate(status_of(state, process)),
        })
    }

    // The queue of a cell.
    fn queue(&self, alloc: Global, cell: Option<usize>) -> Result<Queue, AllocError>
        ensures { IfOk result (λ q. queue_seen q ≡ queue_told (past_of self.now).legend cell) }
    {
        match cell {
            Some(cell) => queue_of_cell(alloc, self.legend, cell),
            None => Ok(Queue {
                monitor: 0,
                name: String::new(alloc),
            }),
        }
    }
}

/// The queue of a cell.
pub fn queue_of_cell(alloc: Global, legend: &Legend, cell: usize) -> Result<Queue, AllocError>
    ensures { IfOk result (λ q. queue_seen q ≡ queue_at (legend_seen legend.now) cell) }
{
    Ok(Queue {
        monitor: legend.monitor_of(cell).unwrap_or(0),
        name: legend.permanent_name(alloc, cell, 1)?,
    })
}

// The step of a process that is about to be made, after a last one: where it has no line, it is on the line that its process came to.
fn last_with(aim: Aim, process: u8, last: Last) -> Last
    ensures { result ≡ last_with aim process last }
{
    let before = if last.process == process {
        last.line
    } else {
        None
    };
    Last {
        process,
        line: aim.line.or(before),
        queue: aim.queue,
    }
}

fn last_shown(state: &State) -> Shown
    ensures { result ≡ last_or (Integer (pos 0)) (machine_of state.now).output }
{
    state.output().last().copied().unwrap_or(Shown::Integer(0))
}

// The line of what happened: a return stands where the call does.
fn line_of(happening: &Happening, aim: Aim) -> Option<u32>
    ensures { result ≡ line_told (happened_of happening.now) aim.line }
{
    match happening {
        Happening::Leave(call) => Some(call.line),
        Happening::End | Happening::Admit(_) => None,
        _ => aim.line,
    }
}
