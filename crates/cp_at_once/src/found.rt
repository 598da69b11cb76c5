//! What a search finds.

ghost use Rattle.std.specs.Prelude.{◌≡◌, ◌≤◌, ◌∷◌, ℕ, List, [], IfOk, All, length, true};
ghost use Rattle.std.specs.List.{list_any};
ghost use Rattle.cp_slots.specs.Tables.{Tables};
ghost use Rattle.cp_machine.specs.System.{Machine, machine_of, opening};
ghost use Rattle.cp_ends.specs.Answer.{ends_tests};
ghost use Rattle.cp_ends.specs.Graph.{LeadsToEnd, ShowsLast};
ghost use Rattle.cp_ends.specs.declared.end.End.TheVariants.{Over};
ghost use Rattle.cp_run.specs.declared.outcome.OutcomeKind.TheVariants.{StepLimit};
ghost use Rattle.cp_at_once.specs.Following.{NotesEnd, NotesValues, SlotGraph, knows_end};
ghost use Rattle.cp_at_once.specs.Holds.{Holds, IsWordOf};

use crate::kept::Kept;
use crate::order::{place_of_end, place_of_value};
use crate::origin::OriginAtOnce;
use cp_ends::End;
use cp_ends::found::MOST_VALUES;
use cp_machine::Shown;
use cp_run::{Job, OutcomeKind};
use std::alloc::{AllocError, Global};

/// An end, with a word that leads to it.
#[derive(Drop)]
pub struct EndAtOnce {
    pub end: End,
    pub origin: OriginAtOnce,
}

/// A value that can be displayed, with a word that leads to a stretch that displays it.
#[derive(Drop)]
pub struct ValueAtOnce {
    pub value: Shown,
    pub origin: OriginAtOnce,
}

/// The kept states, and the ends and values, each once and in the order in which they are told.
#[derive(Drop)]
pub struct FoundAtOnce {
    pub kept: Kept,
    pub ends: Vec<EndAtOnce>,
    /// The first of all values; one more than is told.
    pub values: Vec<ValueAtOnce>,
    /// Whether each kept state was expanded.
    pub is_whole: bool,
}

impl FoundAtOnce {
    /// Nothing was found. The opening state stands in the room for one.
    pub fn new(alloc: Global, job: &Job<'_>) -> Result<FoundAtOnce, AllocError>
        ensures nothing { IfOk result (λ found. (g : SlotGraph) (most : ℕ) → Holds job.now.program.now g most found []) }
        ensures ruled { IfOk result (λ found. found.kept.store.discipline ≡ job.now.limits.discipline) }
        ensures start { IfOk result (λ found. machine_of found.kept.store.standing.state ≡ opening job.now.program.now job.now.limits.discipline) }
    {
        Ok(FoundAtOnce {
            kept: Kept::new(alloc, job)?,
            ends: Vec::new(alloc),
            values: Vec::new(alloc),
            is_whole: false,
        })
    }

    /// A word leads to an end.
    pub fn add_end(&mut self, end: End, origin: &OriginAtOnce) -> Result<(), AllocError>
        ensures kept { self.new.kept ≡ self.old.kept }
        ensures end { IfOk result (λ _. (r : Tables) (g : SlotGraph) (most : ℕ) (states : List (Machine × List ℕ)) (word : List ℕ) → Holds r g most self.old states → IsWordOf states origin.now word → LeadsToEnd g end word → NotesEnd r g most self.old states self.new end) }
    {
        let ends = self.ends.as_slice();
        let at = place_among_ends(ends, end);
        if has_end_at(ends, at, end) {
            return Ok(());
        }
        let origin = origin.copy();
        self.ends.insert(at, EndAtOnce { end, origin })?;
        Ok(())
    }

    /// A word leads to a stretch that displays these values.
    pub fn add_values(&mut self, values: &[Shown], origin: &OriginAtOnce) -> Result<(), AllocError>
        ensures kept { self.new.kept ≡ self.old.kept }
        ensures values { IfOk result (λ _. (r : Tables) (g : SlotGraph) (most : ℕ) (states : List (Machine × List ℕ)) (word : List ℕ) → Holds r g most self.old states → IsWordOf states origin.now word → All (λ v. ShowsLast g v word) values.now → NotesValues r g most self.old states self.new values.now) }
    {
        for value in values {
            self.add_value(*value, origin)?;
        }
        Ok(())
    }

    fn add_value(&mut self, value: Shown, origin: &OriginAtOnce) -> Result<(), AllocError>
        ensures kept { self.new.kept ≡ self.old.kept }
        ensures value { IfOk result (λ _. (r : Tables) (g : SlotGraph) (most : ℕ) (states : List (Machine × List ℕ)) (word : List ℕ) → Holds r g most self.old states → IsWordOf states origin.now word → ShowsLast g value word → NotesValues r g most self.old states self.new (value ∷ [])) }
    {
        let values = self.values.as_slice();
        let at = place_among_values(values, value);
        if has_value_at(values, at, value) {
            return Ok(());
        }
        let origin = origin.copy();
        self.values.insert(at, ValueAtOnce { value, origin })?;
        self.values.truncate(MOST_VALUES + 1);
        Ok(())
    }

    /// Whether a stretch was cut of which nothing is known that follows.
    pub fn has_cut(&self) -> bool
        ensures { result ≡ knows_end self.now (Over StepLimit) }
    {
        self.ends.iter().any(is_cut)
    }
}

fn is_cut(found: &EndAtOnce) -> bool
    ensures { result ≡ ends_tests.end found.now.end (Over StepLimit) }
{
    found.end == End::Over(OutcomeKind::StepLimit)
}

// Where this end stands among those that were found, or is to stand.
fn place_among_ends(ends: &[EndAtOnce], end: End) -> usize
    ensures { result ≤ length ends.now }
{
    let place = place_of_end(end);
    match ends.binary_search_by_key(&place, |found| place_of_end(found.end)) {
        Ok(at) | Err(at) => at,
    }
}

// Where this value stands among those that were found, or is to stand.
fn place_among_values(values: &[ValueAtOnce], value: Shown) -> usize
    ensures { result ≤ length values.now }
{
    let place = place_of_value(value);
    match values.binary_search_by_key(&place, |found| place_of_value(found.value)) {
        Ok(at) | Err(at) => at,
    }
}

// Whether this end stands at this place.
fn has_end_at(ends: &[EndAtOnce], at: usize, end: End) -> bool
    ensures { result ≡ true → list_any (λ e. ends_tests.end e.end end) ends.now ≡ true }
{
    match ends.get(at) {
        Some(found) => found.end == end,
        None => false,
    }
}

// Whether this value stands at this place.
fn has_value_at(values: &[ValueAtOnce], at: usize, value: Shown) -> bool
    ensures { result ≡ true → list_any (λ v. ends_tests.value v.value value) values.now ≡ true }
{
    match values.get(at) {
        Some(found) => found.value == value,
        None => false,
    }
}
