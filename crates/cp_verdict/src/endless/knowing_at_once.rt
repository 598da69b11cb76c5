//! What a search that makes kernel calls at once lets one know.

ghost use Rattle.std.specs.Prelude.{◌≡◌, ℕ, List, All, IfOk, is_none, map};
ghost use Rattle.cp_endless_laws.specs.Silent.{silent_slots, without_output};
ghost use Rattle.cp_ends.specs.Ends.{EndsSo, ShowsSo};
ghost use Rattle.cp_run.specs.Slots.{slots};
ghost use Rattle.cp_slots.specs.Tables.{Tables};
ghost use Rattle.cp_machine.specs.System.{Machine};
ghost use Rattle.cp_at_once.specs.Holds.{AreStates, HasWord};
ghost use Rattle.cp_at_once.specs.Whole.{IsAnswer};
ghost use Rattle.cp_at_once_laws.specs.OnSlots.{by_the_book};
ghost use Rattle.cp_verdict.specs.endless.AtOnce as spec;
ghost use Rattle.cp_verdict.specs.endless.Knowledge.{HasTexts, end_pair, value_pair};

use crate::endless::known::{KnownEnd, KnownEnds, KnownValue};
use crate::matching::text_of;
use cp_at_once::FoundAtOnce;
use cp_slots::Resolved;
use std::alloc::{AllocError, Global};

/// The ends and values that a search found, each with a word; where there were too many states, of schedules of no choice at least.
pub fn knowledge_at_once(
    alloc: Global,
    program: &Resolved,
    found: &FoundAtOnce,
) -> Result<KnownEnds, AllocError>
    ensures { IfOk result (λ k. (steps most : ℕ) → IsAnswer program.now by_the_book steps most found.now → spec.IsKnownAtOnce program.now steps most k) }
{
    let ends = known_ends(alloc, found)?;
    let values = known_values(alloc, program, found)?;
    Ok(KnownEnds {
        ends,
        values,
        waits: None,
        waiting: Vec::new(alloc),
        looked: numbers_looked_at(found),
    })
}

/// None exactly where each state was expanded; else it is said that the schedules without a choice were looked at.
fn numbers_looked_at(found: &FoundAtOnce) -> Option<usize>
    ensures { is_none result ≡ found.now.is_whole }
{
    if found.is_whole { None } else { Some(0) }
}

fn known_ends(alloc: Global, found: &FoundAtOnce) -> Result<Vec<KnownEnd>, AllocError>
    ensures ends { IfOk result (λ v. map (λ e. e.end) v.items ≡ map (λ e. e.end) found.now.ends.items) }
    ensures words { IfOk result (λ v. (r : Tables) (steps : ℕ) (states : List (Machine × List ℕ)) → AreStates r found.now.kept.known.entries states → All (λ e. HasWord states e.origin (EndsSo (silent_slots r by_the_book) steps e.end)) found.now.ends.items → All (λ x. EndsSo (silent_slots r by_the_book) steps x.0 x.1) (map end_pair v.items)) }
{
    let mut ends = Vec::new(alloc);
    for end in &found.ends {
        let word = found.kept.word(alloc, &end.origin)?;
        ends.push(KnownEnd { end: end.end, word })?;
    }
    Ok(ends)
}

fn known_values(
    alloc: Global,
    program: &Resolved,
    found: &FoundAtOnce,
) -> Result<Vec<KnownValue>, AllocError>
    ensures values { IfOk result (λ v. map (λ e. e.value) v.items ≡ map (λ e. e.value) found.now.values.items) }
    ensures texts { IfOk result (λ v. HasTexts program.now.names v.items) }
    ensures words { IfOk result (λ v. (r : Tables) (steps : ℕ) (states : List (Machine × List ℕ)) → AreStates r found.now.kept.known.entries states → All (λ e. HasWord states e.origin (ShowsSo (slots r by_the_book) without_output steps e.value)) found.now.values.items → All (λ x. ShowsSo (slots r by_the_book) without_output steps x.0 x.1) (map value_pair v.items)) }
{
    let mut values = Vec::new(alloc);
    for value in &found.values {
        let word = found.kept.word(alloc, &value.origin)?;
        let text = text_of(alloc, program, value.value)?;
        values.push(KnownValue {
            value: value.value,
            text,
            word,
        })?;
    }
    Ok(values)
}
