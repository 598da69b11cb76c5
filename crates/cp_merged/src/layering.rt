//! From layer to layer.

ghost use Rattle.std.specs.Prelude.{◌≡◌, ◌+◌, ◌*◌, ◌^◌, ◌<◌, ◌≤◌, [], true, length, IfOk, IfErr};
ghost use Rattle.cp_key.specs.Room.{IsMachineOf};
ghost use Rattle.cp_machine.specs.System.{Machine, machine_of, opening};
ghost use Rattle.cp_run.specs.Code.{node_of};
ghost use Rattle.cp_run.specs.Run.{may};
ghost use Rattle.cp_run.specs.Slots.{slots, processes_of};
ghost use Rattle.cp_walk.specs.Report.{same_outcome};
ghost use Rattle.cp_merged.specs.Holds.{same_key, AreLeads, AreEnds, Holds, total, IsStates};
ghost use Rattle.cp_merged.specs.Known.{IsArrival, IsRowFor, KeepKnown};
ghost use Rattle.cp_merged.specs.Layer.{rows_of};
ghost use Rattle.cp_merged.specs.Layers as layers;
ghost use Rattle.cp_merged.specs.Layers.{front_at, by_layers};
ghost use Rattle.cp_merged.specs.Reached.{CanGoOn, Reached};
ghost use Rattle.cp_merged.specs.TooMany.{FitsBefore, HasTooManyStates, IsDueFault};

use crate::fault::MergeFault;
use crate::frontier::{Frontier, MOST_OUTCOMES};
use crate::known::KnownStates;
use crate::layer::StateLayer;
use crate::prefixes::Prefixes;
use crate::word::Word;
use cp_machine::Shown;
use cp_natural::Natural;
use cp_progress::{ObserveProgress, Progress, STATES_BETWEEN};
use cp_run::{Halt, Job, OutcomeKind};
use std::alloc::{AllocError, Global};

/// What is searched: a program under limits, where a layer may have so many states.
#[derive(Clone, Copy)]
pub struct MergeJob<'a> {
    pub alloc: Global,
    pub run: Job<'a>,
    pub most: usize,
}

/// A search by layers: where words have arrived, what is known of the states, and where a choice leads to.
#[derive(Drop)]
pub struct Layering<'a, O: ObserveProgress> {
    pub frontier: Frontier,
    pub known: KnownStates,
    /// The row of the state where a choice leads to, and what was displayed on the way.
    pub row: Vec<u32>,
    pub shown: Vec<Shown>,
    pub observer: &'a mut O,
}

/// How far a search has come with so many choices done.
pub fn progress_of(frontier: &Frontier, choices: u32) -> Progress {
    Progress {
        choices,
        states: frontier.layer.len(),
        outcomes: Some(frontier.ended.len()),
    }
}

// Tells how far a search has come, now and then.
fn tell_layer<O: ObserveProgress>(observer: &mut O, frontier: &Frontier, depth: u8, gone_on: u32) {
    if gone_on % STATES_BETWEEN == 0 {
        observer.observe_progress(progress_of(frontier, u32::from(depth)));
    }
}

impl<'a, O: ObserveProgress> Layering<'a, O> {
    // Nothing has arrived, and the opening state stands in the room for one.
    fn begin(job: &MergeJob<'_>, observer: &'a mut O) -> Result<Layering<'a, O>, AllocError>
        ensures ended { IfOk result (λ found. found.frontier.ended.entries ≡ []) }
        ensures layer { IfOk result (λ found. rows_of found.frontier.layer ≡ []) }
        ensures on { IfOk result (λ found. CanGoOn job.now.run.program.now job.now.run.limits.discipline found.known found.row.items found.frontier.layer.width) }
        ensures start { IfOk result (λ found. machine_of found.known.standing.state ≡ opening job.now.run.program.now job.now.run.limits.discipline) }
    {
        let alloc = job.alloc;
        let known = KnownStates::new(alloc, &job.run)?;
        let width = known.output_position() + 1;
        let row = Vec::from_elem(alloc, 0, width)?;
        Ok(Layering {
            frontier: Frontier::new(alloc, width),
            known,
            row,
            shown: Vec::new(alloc),
            observer,
        })
    }

    // Follows the opening stretch.
    fn open(&mut self, job: &MergeJob<'_>) -> Result<(), AllocError>
        requires ended { self.old.frontier.ended.entries ≡ [] }
        requires layer { rows_of self.old.frontier.layer ≡ [] }
        requires on { CanGoOn job.now.run.program.now job.now.run.limits.discipline self.old.known self.old.row.items self.old.frontier.layer.width }
        requires start { machine_of self.old.known.standing.state ≡ opening job.now.run.program.now job.now.run.limits.discipline }
        ensures on { IfOk result (λ _. CanGoOn job.now.run.program.now job.now.run.limits.discipline self.new.known self.new.row.items self.new.frontier.layer.width) }
        ensures holds { IfOk result (λ _. Holds job.now.run.program.now self.new.known self.new.frontier.ended.entries (rows_of self.new.frontier.layer) (front_at (slots job.now.run.program.now job.now.run.limits.discipline) same_outcome same_key job.now.run.limits.steps 0)) }
    {
        self.shown.clear();
        let halt = self.known.open(job.alloc, &job.run, &mut self.row)?;
        let one = Prefixes {
            count: Natural::one(),
            first: Word::new(),
        };
        self.arrive(job, halt, &one)
    }

    /// The layer of no choice.
    pub fn start(job: &MergeJob<'_>, observer: &'a mut O) -> Result<Layering<'a, O>, MergeFault>
        ensures on { IfOk result (λ found. CanGoOn job.now.run.program.now job.now.run.limits.discipline found.known found.row.items found.frontier.layer.width) }
        ensures reached { IfOk result (λ found. Reached job.now.run.program.now job.now.run.limits.discipline job.now.run.limits.choices job.now.run.limits.steps job.now.most 0 found.known found.frontier.ended.entries (rows_of found.frontier.layer)) }
        ensures fault { IfErr result (λ e. IsDueFault (slots job.now.run.program.now job.now.run.limits.discipline) job.now.run.limits.choices job.now.run.limits.steps job.now.most e) }
    {
        let Ok(mut layering) = Layering::begin(job, observer) else {
            return Err(MergeFault::Memory);
        };
        let Ok(()) = layering.open(job) else {
            return Err(MergeFault::Memory);
        };
        if layering.frontier.layer.len() > job.most {
            return Err(MergeFault::TooManyStates);
        }
        Ok(layering)
    }

    // Words arrive at the state of the row.
    #[inline(always)]
    fn arrive(
        &mut self,
        job: &MergeJob<'_>,
        halt: Halt<OutcomeKind>,
        prefixes: &Prefixes,
    ) -> Result<(), AllocError>
        requires on { CanGoOn job.now.run.program.now job.now.run.limits.discipline self.old.known self.old.row.items self.old.frontier.layer.width }
        requires arrival { (m : Machine) × IsArrival job.now.run.program.now self.old.known self.old.row.items self.old.shown.items m }
        requires small { (f : layers.Front Machine) × Holds job.now.run.program.now self.old.known self.old.frontier.ended.entries (rows_of self.old.frontier.layer) f × (total f + prefixes.now.count < 10 ^ 126) }
        ensures on { IfOk result (λ _. CanGoOn job.now.run.program.now job.now.run.limits.discipline self.new.known self.new.row.items self.new.frontier.layer.width) }
        ensures kept { IfOk result (λ _. KeepKnown self.old.known self.new.known) }
        ensures front { IfOk result (λ _. (m : Machine) (f : layers.Front Machine) → IsArrival job.now.run.program.now self.old.known self.old.row.items self.old.shown.items m → Holds job.now.run.program.now self.old.known self.old.frontier.ended.entries (rows_of self.old.frontier.layer) f → Holds job.now.run.program.now self.new.known self.new.frontier.ended.entries (rows_of self.new.frontier.layer) (layers.arrived (slots job.now.run.program.now job.now.run.limits.discipline) same_outcome same_key prefixes.now.first.items prefixes.now.count (node_of halt m) f)) }
    {
        match halt {
            Halt::Ended(kind) => {
                let before = self.known.output(&self.row);
                self.frontier
                    .end(job.alloc, kind, before, &self.shown, prefixes)
            }
            Halt::Choice => {
                self.known
                    .number_output(job.alloc, &mut self.row, &self.shown)?;
                self.frontier.layer.add(job.alloc, &self.row, prefixes)
            }
        }
    }

    /// The state of a row goes one choice on with a process that may be chosen.
    /// The first word becomes longer and then shorter again, so that it is copied once for all choices.
    fn take_choice(
        &mut self,
        job: &MergeJob<'_>,
        from: &[u32],
        arriving: &mut Prefixes,
        process: u8,
    ) -> Result<(), AllocError>
        requires on { CanGoOn job.now.run.program.now job.now.run.limits.discipline self.old.known self.old.row.items self.old.frontier.layer.width }
        requires here { (m : Machine) × IsRowFor job.now.run.program.now self.old.known from.now m × IsMachineOf job.now.run.program.now m × (may (slots job.now.run.program.now job.now.run.limits.discipline) m process ≡ true) }
        requires room { length arriving.old.first.items < 100 }
        requires small { (f : layers.Front Machine) × Holds job.now.run.program.now self.old.known self.old.frontier.ended.entries (rows_of self.old.frontier.layer) f × (total f + arriving.old.count < 10 ^ 126) }
        ensures on { IfOk result (λ _. CanGoOn job.now.run.program.now job.now.run.limits.discipline self.new.known self.new.row.items self.new.frontier.layer.width) }
        ensures kept { IfOk result (λ _. KeepKnown self.old.known self.new.known) }
        ensures same { IfOk result (λ _. arriving.new ≡ arriving.old) }
        ensures front { IfOk result (λ _. (m : Machine) (f : layers.Front Machine) → IsRowFor job.now.run.program.now self.old.known from.now m → IsMachineOf job.now.run.program.now m → may (slots job.now.run.program.now job.now.run.limits.discipline) m process ≡ true → Holds job.now.run.program.now self.old.known self.old.frontier.ended.entries (rows_of self.old.frontier.layer) f → Holds job.now.run.program.now self.new.known self.new.frontier.ended.entries (rows_of self.new.frontier.layer) (layers.after_choice (slots job.now.run.program.now job.now.run.limits.discipline) same_outcome same_key job.now.run.limits.steps (record { state = m; first = arriving.old.first.items; count = arriving.old.count }) process f)) }
    {
        let halt = self.known.go(
            job.alloc,
            &job.run,
            from,
            process,
            &mut self.row,
            &mut self.shown,
        )?;
        arriving.first.push(process);
        let added = self.arrive(job, halt, arriving);
        let _ = arriving.first.pop();
        added
    }

    /// The state of a row goes one choice on with each process that may be chosen. `arriving` becomes, whatever it was, the words that arrive.
    fn take_choices(
        &mut self,
        job: &MergeJob<'_>,
        from: &[u32],
        prefixes: &Prefixes,
        arriving: &mut Prefixes,
    ) -> Result<(), AllocError>
        requires on { CanGoOn job.now.run.program.now job.now.run.limits.discipline self.old.known self.old.row.items self.old.frontier.layer.width }
        requires here { (m : Machine) × IsRowFor job.now.run.program.now self.old.known from.now m × IsMachineOf job.now.run.program.now m }
        requires room { length prefixes.now.first.items < 100 }
        requires small { (f : layers.Front Machine) × Holds job.now.run.program.now self.old.known self.old.frontier.ended.entries (rows_of self.old.frontier.layer) f × (total f + 16 * prefixes.now.count < 10 ^ 126) }
        ensures on { IfOk result (λ _. CanGoOn job.now.run.program.now job.now.run.limits.discipline self.new.known self.new.row.items self.new.frontier.layer.width) }
        ensures kept { IfOk result (λ _. KeepKnown self.old.known self.new.known) }
        ensures front { IfOk result (λ _. (m : Machine) (f : layers.Front Machine) → IsRowFor job.now.run.program.now self.old.known from.now m → IsMachineOf job.now.run.program.now m → Holds job.now.run.program.now self.old.known self.old.frontier.ended.entries (rows_of self.old.frontier.layer) f → Holds job.now.run.program.now self.new.known self.new.frontier.ended.entries (rows_of self.new.frontier.layer) (layers.after_choices (slots job.now.run.program.now job.now.run.limits.discipline) same_outcome same_key job.now.run.limits.steps (record { state = m; first = prefixes.now.first.items; count = prefixes.now.count }) (processes_of job.now.run.program.now) f)) }
    {
        let numbers = self.known.candidates(from);
        arriving.take_words(prefixes);
        for process in numbers.as_slice() {
            self.take_choice(job, from, arriving, *process)?;
        }
        Ok(())
    }

    /// Each state of the layer after `depth` choices goes one choice on.
    fn next_layer(
        &mut self,
        job: &MergeJob<'_>,
        depth: u8,
        layer: &StateLayer,
    ) -> Result<(), MergeFault>
        requires on { CanGoOn job.now.run.program.now job.now.run.limits.discipline self.old.known self.old.row.items self.old.frontier.layer.width }
        requires due { depth < job.now.run.limits.choices }
        requires layer { AreLeads job.now.run.program.now self.old.known (rows_of layer.now) (front_at (slots job.now.run.program.now job.now.run.limits.discipline) same_outcome same_key job.now.run.limits.steps depth).layer }
        requires front { Holds job.now.run.program.now self.old.known self.old.frontier.ended.entries (rows_of self.old.frontier.layer) (record { ended = (front_at (slots job.now.run.program.now job.now.run.limits.discipline) same_outcome same_key job.now.run.limits.steps depth).ended; layer = [] }) }
        ensures on { IfOk result (λ _. CanGoOn job.now.run.program.now job.now.run.limits.discipline self.new.known self.new.row.items self.new.frontier.layer.width) }
        ensures front { IfOk result (λ _. Holds job.now.run.program.now self.new.known self.new.frontier.ended.entries (rows_of self.new.frontier.layer) (front_at (slots job.now.run.program.now job.now.run.limits.discipline) same_outcome same_key job.now.run.limits.steps (depth + 1))) }
        ensures few { IfOk result (λ _. length (rows_of self.new.frontier.layer) ≤ job.now.most) }
        ensures many { IfErr result (λ e. IsStates e (HasTooManyStates (slots job.now.run.program.now job.now.run.limits.discipline) job.now.run.limits.steps job.now.most (depth + 1))) }
    {
        let mut gone_on: u32 = 0;
        let mut arriving = Prefixes {
            count: Natural::one(),
            first: Word::new(),
        };
        for number in 0..layer.len() {
            gone_on = gone_on.wrapping_add(1);
            tell_layer(self.observer, &self.frontier, depth, gone_on);
            let row = layer.row(number);
            let prefixes = &layer.leads[number];
            let Ok(()) = self.take_choices(job, row, prefixes, &mut arriving) else {
                return Err(MergeFault::Memory);
            };
            if self.frontier.layer.len() > job.most {
                return Err(MergeFault::TooManyStates);
            }
        }
        Ok(())
    }

    /// The layer after that of `depth` choices.
    pub fn one_layer(&mut self, job: &MergeJob<'_>, depth: u8) -> Result<(), MergeFault>
        requires on { CanGoOn job.now.run.program.now job.now.run.limits.discipline self.old.known self.old.row.items self.old.frontier.layer.width }
        requires due { depth < job.now.run.limits.choices }
        requires reached { Reached job.now.run.program.now job.now.run.limits.discipline job.now.run.limits.choices job.now.run.limits.steps job.now.most depth self.old.known self.old.frontier.ended.entries (rows_of self.old.frontier.layer) }
        ensures on { IfOk result (λ _. CanGoOn job.now.run.program.now job.now.run.limits.discipline self.new.known self.new.row.items self.new.frontier.layer.width) }
        ensures reached { IfOk result (λ _. Reached job.now.run.program.now job.now.run.limits.discipline job.now.run.limits.choices job.now.run.limits.steps job.now.most (depth + 1) self.new.known self.new.frontier.ended.entries (rows_of self.new.frontier.layer)) }
        ensures fault { IfErr result (λ e. IsDueFault (slots job.now.run.program.now job.now.run.limits.discipline) job.now.run.limits.choices job.now.run.limits.steps job.now.most e) }
    {
        if self.frontier.ended.len() > MOST_OUTCOMES {
            return Err(MergeFault::TooManyOutcomes);
        }
        let layer = self.frontier.take_layer(job.alloc);
        self.next_layer(job, depth, &layer)
    }

    /// Where no choice is left, each word ends.
    pub fn last_layer(&mut self, job: &MergeJob<'_>) -> Result<(), MergeFault>
        requires on { CanGoOn job.now.run.program.now job.now.run.limits.discipline self.old.known self.old.row.items self.old.frontier.layer.width }
        requires reached { Reached job.now.run.program.now job.now.run.limits.discipline job.now.run.limits.choices job.now.run.limits.steps job.now.most job.now.run.limits.choices self.old.known self.old.frontier.ended.entries (rows_of self.old.frontier.layer) }
        ensures ended { IfOk result (λ _. AreEnds self.new.frontier.ended.entries (by_layers (slots job.now.run.program.now job.now.run.limits.discipline) same_outcome same_key job.now.run.limits.choices job.now.run.limits.steps)) }
        ensures few { IfOk result (λ _. length self.new.frontier.ended.entries ≤ 50000) }
        ensures within { IfOk result (λ _. FitsBefore (slots job.now.run.program.now job.now.run.limits.discipline) job.now.run.limits.choices job.now.run.limits.steps job.now.most (job.now.run.limits.choices + 1)) }
        ensures fault { IfErr result (λ e. IsDueFault (slots job.now.run.program.now job.now.run.limits.discipline) job.now.run.limits.choices job.now.run.limits.steps job.now.most e) }
    {
        let layer = self.frontier.take_layer(job.alloc);
        let Ok(()) = self.end_layer(job, &layer) else {
            return Err(MergeFault::Memory);
        };
        if self.frontier.ended.len() > MOST_OUTCOMES {
            return Err(MergeFault::TooManyOutcomes);
        }
        Ok(())
    }

    /// No choice is left: the words that lead to the states of the last layer end there.
    fn end_layer(&mut self, job: &MergeJob<'_>, layer: &StateLayer) -> Result<(), AllocError>
        requires on { CanGoOn job.now.run.program.now job.now.run.limits.discipline self.old.known self.old.row.items self.old.frontier.layer.width }
        requires layer { AreLeads job.now.run.program.now self.old.known (rows_of layer.now) (front_at (slots job.now.run.program.now job.now.run.limits.discipline) same_outcome same_key job.now.run.limits.steps job.now.run.limits.choices).layer }
        requires ended { AreEnds self.old.frontier.ended.entries (front_at (slots job.now.run.program.now job.now.run.limits.discipline) same_outcome same_key job.now.run.limits.steps job.now.run.limits.choices).ended }
        ensures { IfOk result (λ _. AreEnds self.new.frontier.ended.entries (by_layers (slots job.now.run.program.now job.now.run.limits.discipline) same_outcome same_key job.now.run.limits.choices job.now.run.limits.steps)) }
    {
        for number in 0..layer.len() {
            let prefixes = &layer.leads[number];
            let shown = self.known.output(layer.row(number));
            self.frontier
                .end(job.alloc, OutcomeKind::ChoiceLimit, shown, &[], prefixes)?;
        }
        Ok(())
    }
}
