//! The states that are kept.

ghost use Rattle.std.specs.Prelude.{◌≡◌, ◌++◌, ℕ, length, reverse, IfOk};
ghost use Rattle.cp_machine.specs.System.{machine_of, opening};

use crate::origin::OriginAtOnce;
use cp_ends::row::HalvedRow;
use cp_ends::states::States;
use cp_run::Job;
use indexmap::IndexMap;
use std::alloc::{AllocError, Global};

/// The states that are kept, each once, in the order in which they were found, with words that lead there.
#[derive(Drop)]
pub struct Kept {
    /// The row of each state, by the numbers of its lists.
    pub known: IndexMap<HalvedRow, OriginAtOnce>,
    /// The lists, and the parts and legs that are known. It has no states of its own.
    pub store: States,
}

impl Kept {
    ghost use Rattle.std.specs.Prelude.{◌<◌, ◌^◌, ◌∷◌, List, [], Some, None, false, slice_get, IfNone, IfSome};
    ghost use Rattle.cp_slots.specs.Tables.{Tables};
    ghost use Rattle.cp_machine.specs.System.{Machine};
    ghost use Rattle.cp_ends.specs.Holds.{same_key};
    ghost use Rattle.cp_ends.specs.Rows.{IsStated};
    ghost use Rattle.cp_ends.specs.Searched.{has};
    ghost use Rattle.cp_at_once.specs.Holds.{AreKept, AreStates, IsWordOf, numbers_at, state_at};

    /// No state is kept. The opening state stands in the room for one.
    pub fn new(alloc: Global, job: &Job<'_>) -> Result<Kept, AllocError>
        ensures kept { IfOk result (λ kept. AreKept job.now.program.now kept []) }
        ensures ruled { IfOk result (λ kept. kept.store.discipline ≡ job.now.limits.discipline) }
        ensures start { IfOk result (λ kept. machine_of kept.store.standing.state ≡ opening job.now.program.now job.now.limits.discipline) }
    {
        let store = States::new(alloc, job)?;
        Ok(Kept {
            known: IndexMap::new(alloc),
            store,
        })
    }

    /// How many states are kept.
    pub fn len(&self) -> usize
        ensures count { result ≡ length self.now.known.entries }
        ensures small { result < 2 ^ 63 }
    {
        self.known.len()
    }

    /// Whether the state with this row is kept.
    pub fn contains(&self, row: &HalvedRow) -> bool
        ensures { (r : Tables) (states : List (Machine × List ℕ)) (m : Machine) → AreKept r self.now states → IsStated r self.now.store row.now.numbers m → result ≡ has same_key states m }
    {
        self.known.contains_key(row)
    }

    /// A state that was not kept is.
    pub fn add(&mut self, row: HalvedRow, origin: OriginAtOnce) -> Result<(), AllocError>
        ensures kept { IfOk result (λ _. (r : Tables) (states : List (Machine × List ℕ)) (m : Machine) (word : List ℕ) → AreKept r self.old states → has same_key states m ≡ false → IsStated r self.old.store row.numbers m → IsWordOf states origin word → AreKept r self.new (states ++ (m, word) ∷ [])) }
        ensures store { self.new.store ≡ self.old.store }
    {
        self.known.insert(row, origin)?;
        Ok(())
    }

    /// The row of the state that is kept with this number, by its lists.
    pub fn row_at(&self, number: u32) -> Option<HalvedRow>
        ensures found { IfSome result (λ row. (r : Tables) (states : List (Machine × List ℕ)) → AreKept r self.now states → (x : Machine × List ℕ) × (slice_get states number ≡ Some x) × IsStated r self.now.store row.numbers x.0) }
        ensures none { IfNone result ((r : Tables) (states : List (Machine × List ℕ)) → AreKept r self.now states → slice_get states number ≡ None) }
    {
        let Some((row, _)) = self.known.get_index(number as usize) else {
            return None;
        };
        Some(*row)
    }

    /// The numbers of a word.
    pub fn word(&self, alloc: Global, origin: &OriginAtOnce) -> Result<Vec<u8>, AllocError>
        ensures { IfOk result (λ v. (r : Tables) (states : List (Machine × List ℕ)) (word : List ℕ) → AreStates r self.now.known.entries states → IsWordOf states origin.now word → v.items ≡ word) }
    {
        let mut word = Vec::new(alloc);
        push_backwards(&mut word, origin.numbers.as_slice())?;
        let mut from = origin.state;
        for _ in 0..self.known.len() {
            let Some(state) = from else {
                break;
            };
            from = self.push_origin(&mut word, state)?;
        }
        word.reverse();
        Ok(word)
    }

    // Appends the last numbers of a kept state's word, the last one first. Answers the kept state before.
    fn push_origin(&self, word: &mut Vec<u8>, state: u32) -> Result<Option<u32>, AllocError>
        ensures from { IfOk result (λ from. from ≡ state_at self.now.known.entries state) }
        ensures word { IfOk result (λ _. word.new.items ≡ word.old.items ++ reverse (numbers_at self.now.known.entries state)) }
    {
        let Some((_, origin)) = self.known.get_index(state as usize) else {
            return Ok(None);
        };
        push_backwards(word, origin.numbers.as_slice())?;
        Ok(origin.state)
    }
}

fn push_backwards(word: &mut Vec<u8>, numbers: &[u8]) -> Result<(), AllocError>
    ensures { IfOk result (λ _. word.new.items ≡ word.old.items ++ reverse numbers.now) }
{
    for at in 0..numbers.len() {
        word.push(numbers[numbers.len() - 1 - at])?;
    }
    Ok(())
}
