//! What is noted of all schedules, by layers of states.

ghost use Rattle.std.specs.Prelude.{◌≡◌, ◌≤◌, ◌∷◌, ◌++◌, [], IfOk};
ghost use Rattle.cp_machine.specs.System.{machine_of, opening, IsStateOf};
ghost use Rattle.cp_run.specs.Slots.{slots};
ghost use Rattle.cp_layers.specs.Layers.{AreReached};
ghost use Rattle.cp_layers.specs.Leading.{AreLeading, HasWords, KnowsWords};
ghost use Rattle.cp_layers.specs.Visited.{IsBegun, IsKnown};

use crate::layer::Layer;
use crate::note::Note;
use cp_machine::State;
use cp_progress::{ObserveProgress, Progress};
use cp_run::{Halt, Job, OutcomeKind};
use cp_search::{SearchJob, Visit, visit_all};
use std::alloc::{AllocError, Global};
use std::mem;

/// What is noted of schedules.
#[derive(Drop)]
pub struct Noted<N> {
    pub note: N,
    /// They are all schedules of at most so many choices.
    pub choices: u8,
    /// Whether no schedule was stopped by a limit.
    pub is_whole: bool,
}

// A layer that is expanded, and what is noted so far.
#[derive(Drop)]
struct LayerVisit<N> {
    note: N,
    layer: Layer,
    // How many choices lead to the layer.
    depth: u8,
    // Where the choice after it is due.
    next: Layer,
    is_stopped: bool,
    // The word of the choice that is taken.
    word: Vec<u8>,
}

/// Notes what all schedules of a table come to, by its layers, each of which may have `most` states. A layer of more ends the search; one of a
/// single state never does. An observer is told how far the search has come.
pub fn note_all<N: Note, O: ObserveProgress>(
    alloc: Global,
    job: &Job<'_>,
    most: u32,
    observer: &mut O,
) -> Result<Noted<N>, AllocError>
    ensures reached { IfOk result (λ x. AreReached (N.marking (slots job.now.program.now job.now.limits.discipline) job.now.limits.steps) (slots job.now.program.now job.now.limits.discipline) job.now.limits.steps x.choices (N.marks x.note)) }
    ensures choices { IfOk result (λ x. x.choices ≤ job.now.limits.choices) }
    ensures words { IfOk result (λ x. AreLeading (N.marking (slots job.now.program.now job.now.limits.discipline) job.now.limits.steps) (slots job.now.program.now job.now.limits.discipline) job.now.limits.steps x.choices (N.words x.note)) }
{
    let most = if most == 0 { 1 } else { most };
    let job = SearchJob {
        alloc,
        run: *job,
        most,
    };
    note_with::<N, O>(&job, observer)
}

fn note_with<N: Note, O: ObserveProgress>(
    job: &SearchJob<'_>,
    observer: &mut O,
) -> Result<Noted<N>, AllocError>
    requires most { 1 ≤ job.now.most }
    ensures reached { IfOk result (λ x. AreReached (N.marking (slots job.now.run.program.now job.now.run.limits.discipline) job.now.run.limits.steps) (slots job.now.run.program.now job.now.run.limits.discipline) job.now.run.limits.steps x.choices (N.marks x.note)) }
    ensures choices { IfOk result (λ x. x.choices ≤ job.now.run.limits.choices) }
    ensures words { IfOk result (λ x. AreLeading (N.marking (slots job.now.run.program.now job.now.run.limits.discipline) job.now.run.limits.steps) (slots job.now.run.program.now job.now.run.limits.discipline) job.now.run.limits.steps x.choices (N.words x.note)) }
{
    let mut visit: LayerVisit<N> = LayerVisit::new(job.alloc);
    let mut state = State::start(job.alloc, job.run.program, job.run.limits.discipline)?;
    visit.open(job, &mut state)?;
    let mut next = state.copy(job.alloc)?;
    for depth in 0..job.run.limits.choices {
        let layer_job = SearchJob {
            run: Job {
                limits: job.run.limits.with_choices(depth),
                ..job.run
            },
            ..*job
        };
        let mut before = N::new(job.alloc);
        before.add_all(job.alloc, &visit.note)?;
        visit.begin_layer(&layer_job);
        let stopped = visit_all(&layer_job, &mut visit, &mut state, &mut next, observer)?;
        if stopped.is_some() {
            return Ok(Noted {
                note: before,
                choices: depth,
                is_whole: false,
            });
        }
    }
    let is_whole = !visit.is_stopped && visit.next.len() == 0;
    Ok(Noted {
        note: visit.note,
        choices: job.run.limits.choices,
        is_whole,
    })
}

impl<N: Note> LayerVisit<N> {
    fn new(alloc: Global) -> LayerVisit<N>
        ensures marks { N.marks result.note ≡ [] }
        ensures next { result.next.known.keys ≡ [] }
        ensures words { N.words result.note ≡ [] }
        ensures next_words { result.next.words.items ≡ [] }
    {
        LayerVisit {
            note: N::new(alloc),
            layer: Layer::new(alloc),
            depth: 0,
            next: Layer::new(alloc),
            is_stopped: false,
            word: Vec::new(alloc),
        }
    }

    // Finds the layer of no choice, from the opening state.
    fn open(&mut self, job: &SearchJob<'_>, state: &mut State) -> Result<(), AllocError>
        requires own { IsStateOf job.now.run.program.now state.old }
        requires start { machine_of state.old ≡ opening job.now.run.program.now job.now.run.limits.discipline }
        requires no_marks { N.marks self.old.note ≡ [] }
        requires no_next { self.old.next.known.keys ≡ [] }
        requires no_words { N.words self.old.note ≡ [] }
        requires no_next_words { self.old.next.words.items ≡ [] }
        requires most { 1 ≤ job.now.most }
        ensures own { IsStateOf job.now.run.program.now state.new }
        ensures known { IfOk result (λ _. IsKnown (N.marking (slots job.now.run.program.now job.now.run.limits.discipline) job.now.run.limits.steps) job.now.run.program.now (slots job.now.run.program.now job.now.run.limits.discipline) job.now.run.limits.steps job.now.most 0 (N.marks self.new.note) self.new.next.known.keys) }
        ensures words { IfOk result (λ _. KnowsWords (N.marking (slots job.now.run.program.now job.now.run.limits.discipline) job.now.run.limits.steps) (slots job.now.run.program.now job.now.run.limits.discipline) job.now.run.limits.steps 0 self.new.next.known.keys self.new.next.words.items (N.words self.new.note)) }
    {
        let halt = self.note.note_opening(job, state)?;
        self.is_stopped = is_cut(halt);
        self.next.arrive(job, state, halt, &[])
    }

    // The layer that was found, of as many choices as the job says, is now the one to be expanded.
    fn begin_layer(&mut self, job: &SearchJob<'_>)
        requires known { IsKnown (N.marking (slots job.now.run.program.now job.now.run.limits.discipline) job.now.run.limits.steps) job.now.run.program.now (slots job.now.run.program.now job.now.run.limits.discipline) job.now.run.limits.steps job.now.most job.now.run.limits.choices (N.marks self.old.note) self.old.next.known.keys }
        requires words { KnowsWords (N.marking (slots job.now.run.program.now job.now.run.limits.discipline) job.now.run.limits.steps) (slots job.now.run.program.now job.now.run.limits.discipline) job.now.run.limits.steps job.now.run.limits.choices self.old.next.known.keys self.old.next.words.items (N.words self.old.note) }
        ensures begun { IsBegun (N.marking (slots job.now.run.program.now job.now.run.limits.discipline) job.now.run.limits.steps) job.now.run.program.now (slots job.now.run.program.now job.now.run.limits.discipline) job.now.run.limits.steps job.now.most job.now.run.limits.choices self.new.layer.known.keys 0 (N.marks self.new.note) self.new.next.known.keys }
        ensures words { HasWords (N.marking (slots job.now.run.program.now job.now.run.limits.discipline) job.now.run.limits.steps) (slots job.now.run.program.now job.now.run.limits.discipline) job.now.run.limits.steps job.now.run.limits.choices self.new.layer.known.keys self.new.layer.words.items self.new.next.known.keys self.new.next.words.items (N.words self.new.note) }
    {
        self.layer = mem::replace(&mut self.next, Layer::new(job.alloc));
        self.depth = job.run.limits.choices;
    }
}

impl<N: Note> Visit for LayerVisit<N> {
    ghost use Rattle.cp_run.specs.Slots.{slots};
    ghost use Rattle.cp_layers.specs.Leading.{HasWords};
    ghost use Rattle.cp_layers.specs.Visited.{IsBegun, IsWhole, Within};

    ghost before = { λ v job n. IsBegun (N.marking (slots job.run.program.now job.run.limits.discipline) job.run.limits.steps) job.run.program.now (slots job.run.program.now job.run.limits.discipline) job.run.limits.steps job.most job.run.limits.choices v.layer.known.keys n (N.marks v.note) v.next.known.keys × HasWords (N.marking (slots job.run.program.now job.run.limits.discipline) job.run.limits.steps) (slots job.run.program.now job.run.limits.discipline) job.run.limits.steps job.run.limits.choices v.layer.known.keys v.layer.words.items v.next.known.keys v.next.words.items (N.words v.note) };

    ghost within = { λ v job at m done. Within (N.marking (slots job.run.program.now job.run.limits.discipline) job.run.limits.steps) job.run.program.now (slots job.run.program.now job.run.limits.discipline) job.run.limits.steps job.most job.run.limits.choices v.layer.known.keys at m done (N.marks v.note) v.next.known.keys × HasWords (N.marking (slots job.run.program.now job.run.limits.discipline) job.run.limits.steps) (slots job.run.program.now job.run.limits.discipline) job.run.limits.steps job.run.limits.choices v.layer.known.keys v.layer.words.items v.next.known.keys v.next.words.items (N.words v.note) };

    ghost over = { λ v job. IsWhole (N.marking (slots job.run.program.now job.run.limits.discipline) job.run.limits.steps) job.run.program.now (slots job.run.program.now job.run.limits.discipline) job.run.limits.steps job.most job.run.limits.choices v.layer.known.keys (N.marks v.note) v.next.known.keys × HasWords (N.marking (slots job.run.program.now job.run.limits.discipline) job.run.limits.steps) (slots job.run.program.now job.run.limits.discipline) job.run.limits.steps job.run.limits.choices v.layer.known.keys v.layer.words.items v.next.known.keys v.next.words.items (N.words v.note) };

    ghost stops = { λ v job at. Unit {0} };

    fn len(&self) -> usize {
        self.layer.len()
    }

    fn progress(&self, _choices: u32) -> Progress {
        Progress {
            choices: u32::from(self.depth),
            states: self.next.len(),
            outcomes: None,
        }
    }

    fn thaw_at(&mut self, _job: &SearchJob<'_>, number: u32, state: &mut State) -> bool {
        self.layer.thaw_at(number as usize, state)
    }

    fn take(
        &mut self,
        job: &SearchJob<'_>,
        at: u32,
        state: &State,
        next: &mut State,
        process: u8,
    ) -> Result<bool, AllocError> {
        let before = self.layer.word(at, job.run.limits.choices);
        take_word(&mut self.word, before, process)?;
        let halt = self.note.note_choice(job, next, process, &self.word)?;
        self.is_stopped = self.is_stopped || is_cut(halt);
        self.next.arrive(job, next, halt, &self.word)?;
        next.take_from(state);
        Ok(self.next.len() <= job.most as usize)
    }

    fn end_state(&mut self, _job: &SearchJob<'_>, _at: u32) -> Result<(), AllocError> {
        Ok(())
    }

    ghost fills = { λ v job begun. (record { count = job.most; begun = begun.0; all = begun.0.room }, begun.1) };
}

// A word becomes another one with one number more.
fn take_word(word: &mut Vec<u8>, before: &[u8], number: u8) -> Result<(), AllocError>
    ensures { IfOk result (λ _. word.new.items ≡ before.now ++ number ∷ []) }
{
    word.clear();
    word.extend_from_slice(before)?;
    word.push(number)?;
    Ok(())
}

// Whether a limit ended the run.
fn is_cut(halt: Halt<OutcomeKind>) -> bool {
    match halt {
        Halt::Ended(OutcomeKind::ChoiceLimit | OutcomeKind::StepLimit | OutcomeKind::OutputLimit) =>
            true,
        Halt::Ended(OutcomeKind::Finished | OutcomeKind::AllWaiting | OutcomeKind::RunError { .. })
        | Halt::Choice => false,
    }
}
