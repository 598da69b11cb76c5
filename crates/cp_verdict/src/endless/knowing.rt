//! What a search of the states lets one know.

ghost use Rattle.std.specs.Prelude.{◌≡◌, ◌∷◌, ◌++◌, [], ℕ, List, IfOk, map, string_bytes};
ghost use Rattle.cp_slots.specs.Tables.{Tables};
ghost use Rattle.cp_machine.specs.declared.discipline.Discipline.{Discipline};
ghost use Rattle.cp_walk.specs.Text.{Spellings};
ghost use Rattle.cp_ends.specs.Holds.{Holds, IsWordOf, SlotFindings};
ghost use Rattle.cp_ends.specs.Whole.{IsAnswer};
ghost use Rattle.cp_verdict.specs.Outputs.{value_text};
ghost use Rattle.cp_verdict.specs.endless.Knowledge as spec;

use crate::endless::known::{KnownEnd, KnownEnds, KnownValue};
use crate::matching::text_of;
use cp_ends::Found;
use cp_ends::found::{FoundEnd, FoundValue};
use cp_slots::Resolved;
use cp_waits::Waiting;
use std::alloc::{AllocError, Global};

/// The ends and values that a search found, of the schedules that it looked at, and who may wait for ever.
pub fn knowledge_of(
    alloc: Global,
    program: &Resolved,
    found: &Found,
    waits: Option<Vec<Waiting>>,
) -> Result<KnownEnds, AllocError>
    ensures known { IfOk result (λ k. (discipline : Discipline) (steps most : ℕ) → IsAnswer program.now discipline steps most found.now → spec.KnowsWaits program.now discipline steps waits → spec.IsKnown program.now discipline steps most k) }
    ensures waits { IfOk result (λ k. k.waits ≡ waits) }
    ensures looked { IfOk result (λ k. (r : Tables) (f : SlotFindings) → Holds r found.now f → spec.IsLookedAt f.states found.now.stopped k.looked) }
{
    let looked = numbers_looked_at(alloc, found)?;
    let ends = known_ends(alloc, found, looked)?;
    let values = known_values(alloc, program, found, looked)?;
    Ok(KnownEnds {
        ends,
        values,
        waits,
        waiting: Vec::new(alloc),
        looked,
    })
}

/// Of how many numbers the words are that were looked at, where not all were.
fn numbers_looked_at(alloc: Global, found: &Found) -> Result<Option<usize>, AllocError>
    ensures { IfOk result (λ looked. (r : Tables) (f : SlotFindings) → Holds r found.now f → spec.IsLookedAt f.states found.now.stopped looked) }
{
    let Some(stopped) = found.stopped else {
        return Ok(None);
    };
    let word = found.states.word(alloc, found.states.origin(stopped))?;
    Ok(Some(word.len()))
}

/// Whether a word was looked at.
fn is_within(looked: Option<usize>, word: &[u8]) -> bool
    ensures { result ≡ spec.is_looked_at looked word.now }
{
    match looked {
        Some(most) => word.len() <= most,
        None => true,
    }
}

fn known_ends(
    alloc: Global,
    found: &Found,
    looked: Option<usize>,
) -> Result<Vec<KnownEnd>, AllocError>
    ensures { IfOk result (λ v. (r : Tables) (f : SlotFindings) → Holds r found.now f → map spec.end_pair v.items ≡ spec.those_looked_at looked f.ends) }
{
    let mut ends = Vec::new(alloc);
    for end in &found.ends {
        add_end(alloc, found, looked, end, &mut ends)?;
    }
    Ok(ends)
}

/// An end is known, if its word was looked at.
fn add_end(
    alloc: Global,
    found: &Found,
    looked: Option<usize>,
    end: &FoundEnd,
    ends: &mut Vec<KnownEnd>,
) -> Result<(), AllocError>
    ensures { IfOk result (λ _. (r : Tables) (f : SlotFindings) (word : List ℕ) → Holds r found.now f → IsWordOf f.states end.now.origin word → map spec.end_pair ends.new.items ≡ map spec.end_pair ends.old.items ++ spec.those_looked_at looked ((end.now.end, word) ∷ [])) }
{
    let word = found.states.word(alloc, end.origin)?;
    if is_within(looked, &word) {
        ends.push(KnownEnd { end: end.end, word })?;
    }
    Ok(())
}

fn known_values(
    alloc: Global,
    program: &Resolved,
    found: &Found,
    looked: Option<usize>,
) -> Result<Vec<KnownValue>, AllocError>
    ensures values { IfOk result (λ v. (r : Tables) (f : SlotFindings) → Holds r found.now f → map spec.value_pair v.items ≡ spec.those_looked_at looked f.values) }
    ensures texts { IfOk result (λ v. spec.HasTexts program.now.names v.items) }
{
    let mut values = Vec::new(alloc);
    for value in &found.values {
        let text = text_of(alloc, program, value.value)?;
        add_value(alloc, found, looked, value, text, &mut values)?;
    }
    Ok(values)
}

/// A value is known, if its word was looked at.
fn add_value(
    alloc: Global,
    found: &Found,
    looked: Option<usize>,
    value: &FoundValue,
    text: String,
    values: &mut Vec<KnownValue>,
) -> Result<(), AllocError>
    ensures values { IfOk result (λ _. (r : Tables) (f : SlotFindings) (word : List ℕ) → Holds r found.now f → IsWordOf f.states value.now.origin word → map spec.value_pair values.new.items ≡ map spec.value_pair values.old.items ++ spec.those_looked_at looked ((value.now.value, word) ∷ [])) }
    ensures texts { IfOk result (λ _. (names : Spellings) → spec.HasTexts names values.old.items → string_bytes text ≡ value_text names value.now.value → spec.HasTexts names values.new.items) }
{
    let word = found.states.word(alloc, value.origin)?;
    if is_within(looked, &word) {
        values.push(KnownValue {
            value: value.value,
            text,
            word,
        })?;
    }
    Ok(())
}
