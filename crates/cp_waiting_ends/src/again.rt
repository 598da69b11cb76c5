//! Who waits at the ends of schedules of any length: the states that a search of ends kept, expanded once more.

ghost use Rattle.std.specs.Prelude.{◌≡◌, ◌+◌, ◌∷◌, ◌++◌, ℕ, List, [], Option, true, IfOk};
ghost use Rattle.cp_slots.specs.Tables.{Tables};
ghost use Rattle.cp_machine.specs.System.{machine_of, opening, IsStateOf};
ghost use Rattle.cp_run.specs.Code.{node_of};
ghost use Rattle.cp_run.specs.Run.{may};
ghost use Rattle.cp_run.specs.Slots.{slots};
ghost use Rattle.cp_layers.specs.Adding.{Adds, HasNoOthers};
ghost use Rattle.cp_layers.specs.Leading.{with_word};
ghost use Rattle.cp_ends.specs.Holds.{Holds, HasFindings, IsAt, IsWordOf, SlotFindings};
ghost use Rattle.cp_ends.specs.Told.{IsDepth};
ghost use Rattle.cp_ends.specs.Whole.{IsAnswerBy};
ghost use Rattle.cp_waiting_ends.specs.Again.{AreEndsOf, Met, before, is_looked_at, seen_at, within};
ghost use Rattle.cp_waiting_ends.specs.Waiting.{ends_seen, ends_words};

use crate::end::WaitingEnd;
use crate::ends::{WaitingEnds, is_waiting};
use crate::quiet::{choose, open};
use cp_ends::Found;
use cp_ends::origin::Origin;
use cp_machine::State;
use cp_progress::{ObserveProgress, Progress, STATES_BETWEEN};
use cp_run::{Halt, Job, OutcomeKind, candidates};
use cp_search::SearchJob;
use std::alloc::{AllocError, Global};

// What a search of ends found, and how many numbers the words have that it looked at, where it did not look at all.
#[derive(Clone, Copy)]
struct Searched<'a> {
    found: &'a Found,
    looked: Option<usize>,
}

/// Expands once more each state that a search of ends found, with each number that may be chosen there, and notes who waits at each end
/// at which all wait, with the first word that leads there. Words that are longer than those that the search looked at are left out. An
/// observer is told how far this has come.
pub fn find_again<O: ObserveProgress>(
    alloc: Global,
    job: &Job<'_>,
    found: &Found,
    observer: &mut O,
) -> Result<WaitingEnds, AllocError>
    requires { HasFindings job.now.program.now found.now }
    ensures { IfOk result (λ ends. (most : ℕ) (f : SlotFindings) → Holds job.now.program.now found.now f → IsAnswerBy job.now.program.now job.now.limits.discipline job.now.limits.steps most f found.now.stopped → AreEndsOf job.now.program.now job.now.limits.discipline job.now.limits.steps f.states found.now.stopped ends) }
{
    // There is no memory for more states than a number can have.
    let Ok(most) = u32::try_from(found.states.len()) else {
        return Err(AllocError);
    };
    let job = SearchJob {
        alloc,
        run: *job,
        most,
    };
    let looked = numbers_looked_at(alloc, found)?;
    let searched = Searched { found, looked };
    let mut ends = WaitingEnds::none(alloc);
    let mut state = State::start(alloc, job.run.program, job.run.limits.discipline)?;
    begin(&job, &searched, &mut state, &mut ends)?;
    let mut next = state.copy(alloc)?;
    for number in 0..most {
        if number % STATES_BETWEEN == 0 {
            observer.observe_progress(progress_of(found));
        }
        go_on(&job, &searched, number, &mut state, &mut next, &mut ends)?;
    }
    Ok(ends)
}

fn progress_of(found: &Found) -> Progress {
    Progress {
        choices: 0,
        states: found.states.len(),
        outcomes: None,
    }
}

// Of how many numbers the words are that were looked at, where not all were.
fn numbers_looked_at(alloc: Global, found: &Found) -> Result<Option<usize>, AllocError>
    ensures { IfOk result (λ looked. (r : Tables) (f : SlotFindings) (depth : Option ℕ) → Holds r found.now f → IsDepth f found.now.stopped depth → looked ≡ depth) }
{
    let Some(stopped) = found.stopped else {
        return Ok(None);
    };
    let word = found.states.word(alloc, found.states.origin(stopped))?;
    Ok(Some(word.len()))
}

// Whether a word was looked at.
fn is_looked_at(looked: Option<usize>, word: &[u8]) -> bool
    ensures { result ≡ is_looked_at looked word.now }
{
    match looked {
        Some(most) => word.len() <= most,
        None => true,
    }
}

// Notes the end to which the word of an origin led, if all wait there.
fn arrive(
    job: &SearchJob<'_>,
    searched: &Searched<'_>,
    state: &State,
    halt: Halt<OutcomeKind>,
    origin: Origin,
    ends: &mut WaitingEnds,
) -> Result<(), AllocError>
    requires { IsStateOf job.now.run.program.now state.now }
    ensures marks { IfOk result (λ _. (f : SlotFindings) (word : List ℕ) → Holds job.now.run.program.now searched.now.found.now f → IsWordOf f.states origin word → Adds (ends_seen ends.old) (seen_at job.now.run.program.now job.now.run.limits.discipline searched.now.looked word (node_of halt (machine_of state.now))) (ends_seen ends.new)) }
    ensures words { IfOk result (λ _. (f : SlotFindings) (word : List ℕ) → Holds job.now.run.program.now searched.now.found.now f → IsWordOf f.states origin word → HasNoOthers (ends_words ends.old) (with_word word (seen_at job.now.run.program.now job.now.run.limits.discipline searched.now.looked word (node_of halt (machine_of state.now)))) (ends_words ends.new)) }
{
    if !is_waiting(halt) {
        return Ok(());
    }
    let end = WaitingEnd::of(job, state)?;
    if ends.has(&end) {
        return Ok(());
    }
    let word = searched.found.states.word(job.alloc, origin)?;
    if !is_looked_at(searched.looked, &word) {
        return Ok(());
    }
    ends.add(job.alloc, end, &word)
}

// Begins a run in the opening state, and notes its end, if all wait there.
fn begin(
    job: &SearchJob<'_>,
    searched: &Searched<'_>,
    state: &mut State,
    ends: &mut WaitingEnds,
) -> Result<(), AllocError>
    requires own { IsStateOf job.now.run.program.now state.old }
    requires start { machine_of state.old ≡ opening job.now.run.program.now job.now.run.limits.discipline }
    requires no_ends { ends_seen ends.old ≡ [] }
    requires no_words { ends_words ends.old ≡ [] }
    ensures own { IsStateOf job.now.run.program.now state.new }
    ensures met { IfOk result (λ _. Met job.now.run.program.now job.now.run.limits.discipline job.now.run.limits.steps searched.now.found.now searched.now.looked (before 0) ends.new) }
{
    let halt = open(&job.run, state);
    arrive(job, searched, state, halt, Origin::Start, ends)?;
    Ok(())
}

// Expands the state of this number, with each number that may be chosen there.
fn go_on(
    job: &SearchJob<'_>,
    searched: &Searched<'_>,
    number: u32,
    state: &mut State,
    next: &mut State,
    ends: &mut WaitingEnds,
) -> Result<(), AllocError>
    requires own { IsStateOf job.now.run.program.now state.old }
    requires next { IsStateOf job.now.run.program.now next.old }
    requires found { HasFindings job.now.run.program.now searched.now.found.now }
    requires met { Met job.now.run.program.now job.now.run.limits.discipline job.now.run.limits.steps searched.now.found.now searched.now.looked (before number) ends.old }
    ensures own { IsStateOf job.now.run.program.now state.new }
    ensures next { IsStateOf job.now.run.program.now next.new }
    ensures met { IfOk result (λ _. Met job.now.run.program.now job.now.run.limits.discipline job.now.run.limits.steps searched.now.found.now searched.now.looked (before (number + 1)) ends.new) }
{
    if !searched.found.states.thaw_at(number, state) {
        return Ok(());
    }
    let numbers = candidates(&job.run, state);
    next.take_from(state);
    for process in numbers.as_slice() {
        take_choice(job, searched, number, state, next, *process, ends)?;
    }
    Ok(())
}

// Takes a choice in the state of this number, and notes the end, if all wait there. `next` is a copy of the state, and is one again afterwards.
fn take_choice(
    job: &SearchJob<'_>,
    searched: &Searched<'_>,
    at: u32,
    state: &State,
    next: &mut State,
    process: u8,
    ends: &mut WaitingEnds,
) -> Result<(), AllocError>
    requires own { IsStateOf job.now.run.program.now state.now }
    requires next { IsStateOf job.now.run.program.now next.old }
    requires copied { machine_of next.old ≡ machine_of state.now }
    requires may { may (slots job.now.run.program.now job.now.run.limits.discipline) (machine_of state.now) process ≡ true }
    requires here { (f : SlotFindings) → Holds job.now.run.program.now searched.now.found.now f → IsAt f.states at true (machine_of state.now) }
    ensures next { IsStateOf job.now.run.program.now next.new }
    ensures copied { IfOk result (λ _. machine_of next.new ≡ machine_of state.now) }
    ensures met { IfOk result (λ _. (done : List ℕ) → Met job.now.run.program.now job.now.run.limits.discipline job.now.run.limits.steps searched.now.found.now searched.now.looked (within at done) ends.old → Met job.now.run.program.now job.now.run.limits.discipline job.now.run.limits.steps searched.now.found.now searched.now.looked (within at (done ++ process ∷ [])) ends.new) }
{
    let halt = choose(&job.run, next, process);
    let origin = Origin::Choice {
        state: at,
        number: process,
    };
    arrive(job, searched, next, halt, origin, ends)?;
    next.take_from(state);
    Ok(())
}
