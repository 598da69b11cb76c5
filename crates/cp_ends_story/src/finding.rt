//! What is found of a program, with words for all of it.

ghost use Rattle.std.specs.Prelude.{◌≡◌, ◌++◌, ◌∷◌, ℕ, List, Option, [], All, IfOk, None, false, true, if◌then◌else◌, map};
ghost use Rattle.cp_slots.specs.Tables.{Tables};
ghost use Rattle.cp_machine.specs.System.{Machine};
ghost use Rattle.cp_at_once.specs.Holds as at_once;
ghost use Rattle.cp_ends.specs.Holds.{AreFound, AreStates, Holds, SlotFindings, end_origin};
ghost use Rattle.cp_ends.specs.Told.{EndsWithWords, IsDepth, is_told, told};
ghost use Rattle.cp_ends_story.specs.Findings.{AreFindings, AreFoundAtOnce, AreFoundByStates, AreListed, HaveWord, HaveWords, IsCutShort, end_with_word};
ghost use Rattle.cp_ends_story.specs.Findings as spec;

use crate::subject::{EndsSubject, Findings, Reach, ToldEnd, ToldValue};
use cp_at_once::found::{EndAtOnce, ValueAtOnce};
use cp_at_once::kept::Kept;
use cp_at_once::{FoundAtOnce, search_at_once_with};
use cp_ends::found::{FoundEnd, FoundValue};
use cp_ends::states::States;
use cp_ends::{End, Found};
use cp_progress::ObserveProgress;
use cp_run::Job;
use cp_waits::{FoundWaits, find_waits};
use std::alloc::{AllocError, Global};

/// What is found by following each state, or, where that was asked for or there are too many of them, with kernel calls at once.
pub fn findings<O: ObserveProgress>(
    alloc: Global,
    subject: EndsSubject<'_>,
    observer: &mut O,
) -> Result<Findings, AllocError>
    ensures { IfOk result (AreFindings subject.entry) }
{
    if subject.at_once {
        return findings_at_once(alloc, subject, observer);
    }
    let plain = findings_by_states(alloc, subject, observer)?;
    findings_after(alloc, subject, plain, observer)
}

// The same after each state was followed, as far as there may be so many: where they were too many, there may be few enough with kernel calls at once.
fn findings_after<O: ObserveProgress>(
    alloc: Global,
    subject: EndsSubject<'_>,
    plain: Findings,
    observer: &mut O,
) -> Result<Findings, AllocError>
    requires plain { AreFoundByStates subject plain }
    requires not { subject.at_once ≡ false }
    ensures { IfOk result (AreFindings subject.entry) }
{
    if !is_cut_short(plain.reach) || !subject.limits.discipline.is_of_the_book() {
        return Ok(plain);
    }
    let second = findings_at_once(alloc, subject, observer)?;
    match second.reach {
        Reach::StatesAtOnce(_) => Ok(second),
        _ => Ok(plain),
    }
}

// Whether all schedules of at most so many choices were looked at, and no longer ones.
fn is_cut_short(reach: Reach) -> bool
    ensures { result ≡ true → IsCutShort reach }
{
    matches!(reach, Reach::Choices(_))
}

fn findings_by_states<O: ObserveProgress>(
    alloc: Global,
    subject: EndsSubject<'_>,
    observer: &mut O,
) -> Result<Findings, AllocError>
    ensures { IfOk result (AreFoundByStates subject.entry) }
{
    let EndsSubject {
        program,
        limits,
        most,
        ..
    } = subject;
    let search = find_waits(
        alloc,
        &Job { program, limits },
        most,
        subject.waits,
        observer,
    )?;
    list_found(alloc, search)
}

// The ends and values with their words, which are no longer than those that were looked at.
fn list_found(alloc: Global, search: FoundWaits) -> Result<Findings, AllocError>
    ensures { IfOk result (λ x. ((r : Tables) (f : SlotFindings) (depth : Option ℕ) → Holds r search.found f → IsDepth f search.found.stopped depth → AreListed f depth x) × (x.waits ≡ search.waits)) }
{
    let FoundWaits { found, waits } = search;
    let depth = depth_of(alloc, &found)?;
    let states = &found.states;
    Ok(Findings {
        ends: list_ends(alloc, states, &found.ends, depth)?,
        values: list_values(alloc, states, &found.values, depth)?,
        reach: reach_by(states.len(), depth),
        waits,
    })
}

// How many choices each word may have that is told, if they are bounded.
fn depth_of(alloc: Global, found: &Found) -> Result<Option<usize>, AllocError>
    ensures { IfOk result (λ depth. (r : Tables) (f : SlotFindings) (other : Option ℕ) → Holds r found.now f → IsDepth f found.now.stopped other → depth ≡ other) }
{
    let Some(stopped) = found.stopped else {
        return Ok(None);
    };
    let states = &found.states;
    let word = states.word(alloc, states.origin(stopped))?;
    Ok(Some(word.len()))
}

fn reach_by(states: usize, depth: Option<usize>) -> Reach
    ensures { result ≡ spec.reach_by states depth }
{
    match depth {
        None => Reach::States(states),
        Some(choices) => Reach::Choices(choices),
    }
}

fn list_ends(
    alloc: Global,
    states: &States,
    ends: &[FoundEnd],
    depth: Option<usize>,
) -> Result<Vec<ToldEnd>, AllocError>
    ensures { IfOk result (λ list. (r : Tables) (found : List (Machine × List ℕ)) (fs : EndsWithWords) → AreStates r states.now found → AreFound found (map end_origin ends.now) fs → map end_with_word list.items ≡ told depth fs) }
{
    let mut list = Vec::new(alloc);
    for end in ends {
        let word = states.word(alloc, end.origin)?;
        push_end(&mut list, end.end, word, depth)?;
    }
    Ok(list)
}

fn push_end(
    list: &mut Vec<ToldEnd>,
    end: End,
    word: Vec<u8>,
    depth: Option<usize>,
) -> Result<(), AllocError>
    ensures { IfOk result (λ _. map end_with_word list.new.items ≡ map end_with_word list.old.items ++ (if is_told depth word.items then (end, word.items) ∷ [] else [])) }
{
    if is_told(word.as_slice(), depth) {
        list.push(ToldEnd { end, word })?;
    }
    Ok(())
}

fn is_told(word: &[u8], depth: Option<usize>) -> bool
    ensures { result ≡ is_told depth word.now }
{
    match depth {
        None => true,
        Some(choices) => word.len() <= choices,
    }
}

fn list_values(
    alloc: Global,
    states: &States,
    values: &[FoundValue],
    depth: Option<usize>,
) -> Result<Vec<ToldValue>, AllocError> {
    let mut list = Vec::new(alloc);
    for value in values {
        let word = states.word(alloc, value.origin)?;
        if is_told(word.as_slice(), depth) {
            list.push(ToldValue {
                value: value.value,
                word,
            })?;
        }
    }
    Ok(list)
}

// What is found with kernel calls at once.
fn findings_at_once<O: ObserveProgress>(
    alloc: Global,
    subject: EndsSubject<'_>,
    observer: &mut O,
) -> Result<Findings, AllocError>
    ensures { IfOk result (AreFoundAtOnce subject.entry) }
{
    let EndsSubject {
        program,
        limits,
        most,
        ..
    } = subject;
    let found = search_at_once_with(alloc, &Job { program, limits }, most, observer)?;
    list_found_at_once(alloc, &found)
}

fn list_found_at_once(alloc: Global, found: &FoundAtOnce) -> Result<Findings, AllocError>
    ensures { IfOk result (λ x. ((r : Tables) (states : List (Machine × List ℕ)) → at_once.AreStates r found.now.kept.known.entries states → All (HaveWord states) found.now.ends.items → HaveWords states found.now.ends.items (map end_with_word x.ends.items)) × (x.waits ≡ None)) }
{
    Ok(Findings {
        ends: list_ends_at_once(alloc, &found.kept, &found.ends)?,
        values: list_values_at_once(alloc, &found.kept, &found.values)?,
        reach: if found.is_whole {
            Reach::StatesAtOnce(found.kept.len())
        } else {
            Reach::SomeAtOnce
        },
        waits: None,
    })
}

fn list_ends_at_once(
    alloc: Global,
    kept: &Kept,
    ends: &[EndAtOnce],
) -> Result<Vec<ToldEnd>, AllocError>
    ensures { IfOk result (λ list. (r : Tables) (states : List (Machine × List ℕ)) → at_once.AreStates r kept.now.known.entries states → All (HaveWord states) ends.now → HaveWords states ends.now (map end_with_word list.items)) }
{
    let mut list = Vec::new(alloc);
    for end in ends {
        let word = kept.word(alloc, &end.origin)?;
        list.push(ToldEnd { end: end.end, word })?;
    }
    Ok(list)
}

fn list_values_at_once(
    alloc: Global,
    kept: &Kept,
    values: &[ValueAtOnce],
) -> Result<Vec<ToldValue>, AllocError> {
    let mut list = Vec::new(alloc);
    for value in values {
        let word = kept.word(alloc, &value.origin)?;
        list.push(ToldValue {
            value: value.value,
            word,
        })?;
    }
    Ok(list)
}
