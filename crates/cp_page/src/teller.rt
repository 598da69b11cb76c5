//! Who tells the events of a choice and of the stretch that follows it, from any state.

ghost use Rattle.std.specs.Prelude.{◌≡◌, List, [], IfOk, true, false};
ghost use Rattle.cp_machine.specs.System.{machine_of, is_ready, is_pending, opening, output_of, IsStateOf};
ghost use Rattle.cp_machine.specs.declared.shown.Shown as said;
ghost use Rattle.cp_run.specs.Code.{IfGoes, halt_at, node_of};
ghost use Rattle.cp_run.specs.Run.{chosen, opened, may};
ghost use Rattle.cp_run.specs.Silent.{left_by, silent_slots, without_output};
ghost use Rattle.cp_run.specs.Slots.{slots};
ghost use Rattle.cp_ends.specs.Arrivals.{goal_at, first_arrival, halt_arrival, next_arrival};
ghost use Rattle.cp_ends.specs.Holds.{same_key};
ghost use Rattle.cp_page.specs.Halts.{IsHalt};

use crate::json::Json;
use crate::register::Register;
use crate::schedules::Schedules;
use crate::variables::{KeptVariable, kept_variables};
use cp_ends::End;
use cp_ends::round::end_of_cut;
use cp_ends::sight::Unseen;
use cp_ends::told::Told;
use cp_legend::Legend;
use cp_machine::{Event as Step, Kernel, MOST_SHOWN, State, Uncounted};
use cp_run::{
    Halt, Holders, Job, Observe, OutcomeKind, TraceEvent, TraceLine, Turn, observe_choice,
    observe_opening,
};
use cp_slots::Resolved;
use cp_story::{Aim, NONE, Observer, aim_of};
use std::alloc::{AllocError, Global};
use std::marker::PhantomData;

/// Who tells what happens: the tables, the variables that stay, and the edge of which the events are told.
#[derive(Drop)]
pub struct Teller<'a, K> {
    pub register: Register<'a>,
    pub kept: Vec<KeptVariable<'a>>,
    /// What is remembered from one event of the edge to the next.
    pub observer: Observer<'a>,
    /// The row of the edge.
    edge: Json,
    /// What the process was about to do that made the last step; nothing at first.
    aim: Aim,
    /// How many values the edge displays. Beyond as many as a run may display nothing more is told of it.
    shown: usize,
    /// The process that made the last step that was told.
    pub going: u8,
    schedules: PhantomData<K>,
}

impl<'a, K: Schedules> Teller<'a, K> {
    /// Nothing is told yet, of a schedule that begins in a state.
    pub fn new(
        alloc: Global,
        legend: &'a Legend,
        state: &State,
    ) -> Result<Teller<'a, K>, AllocError> {
        Ok(Teller {
            register: Register::new(alloc, legend),
            kept: kept_variables(alloc, legend)?,
            observer: Observer::new(alloc, legend, state)?,
            edge: Json::new(alloc),
            aim: NONE,
            shown: 0,
            going: 0,
            schedules: PhantomData,
        })
    }

    /// Begins the row of an edge from a state: `[[event, ..], state]`, or -1 less the place of an end.
    pub fn begin_edge(&mut self, state: &State) -> Result<(), AllocError> {
        let alloc = self.register.alloc;
        self.observer = Observer::new(alloc, self.register.legend, state)?;
        self.aim = NONE;
        self.shown = 0;
        self.edge = Json::new(alloc);
        self.edge.open();
        self.edge.open();
        Ok(())
    }

    /// The place of the edge, which leads to a state, or else to the end of this place.
    pub fn place_edge(&mut self, leads_on: bool, place: usize) -> Result<usize, AllocError> {
        self.edge.close();
        if leads_on {
            self.edge.put_plain(place);
        } else {
            self.edge.put_below(place);
        }
        self.edge.close();
        self.register.edges.place(&self.edge)
    }

    fn is_full(&self) -> bool {
        self.shown > MOST_SHOWN
    }

    // Tells an event of a process, which led to this state: the step that was expected, or an admission.
    fn tell(
        &mut self,
        program: &Resolved,
        state: &State,
        process: u8,
        event: TraceEvent,
    ) -> Result<(), AllocError>
        requires { IsStateOf program.now state.now }
    {
        if matches!(event, TraceEvent::Kernel(Kernel::Display)) {
            self.shown = self.shown.saturating_add(1);
        }
        if self.is_full() {
            return Ok(());
        }
        let alloc = self.register.alloc;
        let changes = self
            .register
            .changes(&self.kept, &self.observer.permanents, &state.permanents)?;
        let plain = TraceLine {
            process,
            event,
            holders: Holders::new(Vec::new(alloc)),
        };
        let event = self.observer.observe(alloc, state, plain, self.aim)?;
        let place = self.register.place_event(program, state, &event, &changes)?;
        self.edge.put_plain(place);
        Ok(())
    }

    // Takes away what a state has displayed, in schedules of any length. It has displayed nothing if it comes from one of them.
    fn forget(program: &Resolved, state: &mut State)
        requires { IsStateOf program.now state.old }
        ensures own { IsStateOf program.now state.new }
        ensures state { machine_of state.new ≡ left_by K.IS_SILENT (machine_of state.old) }
    {
        let _ = program;
        if K::IS_SILENT {
            state.output.clear();
        }
    }

    /// Tells a due choice and the stretch that follows it. Answers where it comes to.
    pub fn tell_choice(
        &mut self,
        job: &Job<'_>,
        state: &mut State,
        process: u8,
    ) -> Result<Halt<End>, AllocError>
        requires own { IsStateOf job.now.program.now state.old }
        requires may { may (slots job.now.program.now job.now.limits.discipline) (machine_of state.old) process ≡ true }
        ensures node { IfOk result (λ h. K.IS_SILENT ≡ false → IsHalt h (machine_of state.new) (chosen (slots job.now.program.now job.now.limits.discipline) job.now.limits.steps (machine_of state.old) process)) }
        ensures goal { IfOk result (λ h. K.IS_SILENT ≡ true → goal_at h (machine_of state.new) ≡ (next_arrival (slots job.now.program.now job.now.limits.discipline) without_output same_key job.now.limits.steps (without_output (machine_of state.old)) process).goal) }
        ensures own { IsStateOf job.now.program.now state.new }
    {
        Self::forget(job.program, state);
        let turn = observe_choice(job, state, process, &mut Uncounted, self)?;
        self.arrive(job, state, turn)
    }

    /// Tells the beginning of a run in the opening state.
    pub fn tell_opening(
        &mut self,
        job: &Job<'_>,
        state: &mut State,
    ) -> Result<Halt<End>, AllocError>
        requires own { IsStateOf job.now.program.now state.old }
        requires start { machine_of state.old ≡ opening job.now.program.now job.now.limits.discipline }
        ensures node { IfOk result (λ h. K.IS_SILENT ≡ false → IsHalt h (machine_of state.new) (opened (slots job.now.program.now job.now.limits.discipline) job.now.limits.steps)) }
        ensures goal { IfOk result (λ h. K.IS_SILENT ≡ true → goal_at h (machine_of state.new) ≡ (first_arrival (slots job.now.program.now job.now.limits.discipline) without_output same_key job.now.limits.steps).goal) }
        ensures own { IsStateOf job.now.program.now state.new }
    {
        let turn = observe_opening(job, state, &mut Uncounted, self)?;
        self.arrive(job, state, turn)
    }

    // Where a stretch comes to of which this comes next. One that the limit of steps cuts goes on, in schedules of any length, if it repeats.
    fn arrive(&self, job: &Job<'_>, state: &mut State, turn: Turn) -> Result<Halt<End>, AllocError>
        requires own { IsStateOf job.now.program.now state.old }
        requires ready { IfGoes turn (λ q. is_ready (machine_of state.old) q ≡ true) }
        requires free { IfGoes turn (λ q. is_pending (machine_of state.old) ≡ false) }
        requires quiet { K.IS_SILENT ≡ true → output_of (machine_of state.old) ≡ [] }
        ensures node { IfOk result (λ h. K.IS_SILENT ≡ false → IsHalt h (machine_of state.new) (node_of (halt_at turn) (machine_of state.old))) }
        ensures goal { IfOk result (λ h. K.IS_SILENT ≡ true → (shown : List said.Shown) → goal_at h (machine_of state.new) ≡ (halt_arrival (slots job.now.program.now job.now.limits.discipline) (silent_slots job.now.program.now job.now.limits.discipline) same_key job.now.limits.steps shown (machine_of state.old) turn).goal) }
        ensures own { IsStateOf job.now.program.now state.new }
    {
        match turn {
            Turn::Over(kind) => Ok(Halt::Ended(End::Over(kind))),
            Turn::Due => Ok(Halt::Choice),
            Turn::Goes(pid) if K::IS_SILENT => {
                let alloc = self.register.alloc;
                let mut told = Told::new(alloc, Unseen);
                let end = end_of_cut(alloc, job, state, pid, &mut told)?;
                Ok(Halt::Ended(end))
            }
            Turn::Goes(_) => Ok(Halt::Ended(End::Over(OutcomeKind::StepLimit))),
        }
    }
}

impl<'a, K: Schedules> Observe for Teller<'a, K> {
    ghost use Rattle.std.specs.Prelude.{◌≡◌, [], true, false};
    ghost use Rattle.cp_machine.specs.System.{output_of};
    ghost use Rattle.cp_run.specs.Fold.{blind};
    ghost use Rattle.cp_run.specs.Silent.{left_by};
    ghost use Rattle.std.proofs.Common.{refl};

    type Error = AllocError;

    ghost Seen = { Unit {0} };

    ghost IS_SILENT = { K.IS_SILENT };

    ghost SEES_LOCAL = { false };

    #[inline(always)]
    fn is_silent() -> bool
        ensures { result ≡ K.IS_SILENT }
    {
        K::IS_SILENT
    }

    #[inline(always)]
    fn sees_local() -> bool
        ensures { result ≡ false }
    {
        false
    }

    ghost holds = { λ t r gates now x. K.IS_SILENT ≡ true → output_of now ≡ [] };

    ghost fold = { λ r gates. blind };

    ghost expects = { λ t r gates before process x. Unit {0} };

    fn expect_step(&mut self, job: &Job<'_>, state: &State, process: u8) -> Result<(), AllocError> {
        if self.is_full() {
            return Ok(());
        }
        self.going = process;
        self.aim = aim_of(job.program, state, process);
        self.observer
            .expect(self.register.alloc, state, process, self.aim)
    }

    fn see_step(
        &mut self,
        job: &Job<'_>,
        state: &State,
        process: u8,
        event: Step,
    ) -> Result<(), AllocError> {
        let event = match event {
            Step::Kernel(call) => TraceEvent::Kernel(call),
            Step::Ended => TraceEvent::End,
            Step::Local | Step::Fault(_) | Step::OutputFull => return Ok(()),
        };
        self.tell(job.program, state, process, event)
    }

    fn see_admission(
        &mut self,
        job: &Job<'_>,
        state: &State,
        process: u8,
    ) -> Result<(), AllocError> {
        self.tell(job.program, state, process, TraceEvent::Admit)
    }

    fn see_choice(&mut self, _job: &Job<'_>, _state: &State, _number: u8) {}

    ghost passes = { λ unseen t r gates before after process x step h. elim K.IS_SILENT as (λ b. b ≡ true → output_of (left_by b after) ≡ []) [ true ↦ λ is. refl | false ↦ λ is. absurd (Prim.cc) ] };
}
