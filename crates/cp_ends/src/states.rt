//! The states that were found.

ghost use Rattle.std.specs.Prelude.{◌≡◌, ◌<◌, ◌≤◌, ◌^◌, ◌∷◌, ◌++◌, ℕ, List, [], length, false, true, slice_get, None, Some, IfNone, IfOk, IfSome};
ghost use Rattle.cp_slots.specs.Tables.{Tables};
ghost use Rattle.cp_machine.specs.System.{Machine, machine_of, opening, IsStateOf};
ghost use Rattle.cp_run.specs.Run.{may};
ghost use Rattle.cp_run.specs.Slots.{slots};
ghost use Rattle.cp_stretches.specs.Stretching.{LeadsTo};
ghost use Rattle.cp_endless_laws.specs.Moments.{moments};
ghost use Rattle.cp_endless_laws.specs.Silent.{silent_slots};
ghost use Rattle.cp_ends.specs.Holds.{same_key, AreStates, IsAt, IsBefore, IsNumberOf, IsWordOf, origin_at};
ghost use Rattle.cp_ends.specs.Halves.{width_of};
ghost use Rattle.cp_ends.specs.Rows.{IsHalved, IsRowFor, IsStated};
ghost use Rattle.cp_ends.specs.Searched.{has};

use crate::halving::{deal, join};
use crate::look::RowLook;
use crate::moves::MoveTable;
use crate::origin::Origin;
use crate::row::{HalvedRow, StateRow};
use crate::seeing::choose_by_legs;
use crate::sight::Sight;
use crate::told::Told;
use arrayvec::ArrayVec;
use cp_machine::{Discipline, Shown, State};
use cp_run::{Halt, Job, OutcomeKind};
use cp_states::ListStore;
use cp_stretches::{LegCache, Standing};
use indexmap::IndexMap;
use std::alloc::{AllocError, Global};

/// The states that were found, each once, in the order in which they were found, with the words that led there first.
pub struct States {
    /// The row of each state, by the numbers of its lists.
    pub known: IndexMap<HalvedRow, Origin>,
    pub lists: ListStore<u32>,
    /// What processes do within a half.
    pub moves: MoveTable,
    /// The parts of the states, and the legs that are known.
    pub cache: LegCache,
    /// Room for a state with its row, in which legs are made.
    pub standing: Standing,
    pub discipline: Discipline,
}

// One call where it is dropped, not one for each list: proofs of functions that may end early are much shorter.
impl Drop for States {
    fn drop(self) {
        let States {
            known: _,
            lists: _,
            moves: _,
            cache: _,
            standing: _,
            discipline: _,
        } = self;
    }
}

impl States {
    /// No state was found. The opening state stands in the room for one.
    pub fn new(alloc: Global, job: &Job<'_>) -> Result<States, AllocError>
        ensures states { IfOk result (λ states. AreStates job.now.program.now states []) }
        ensures ruled { IfOk result (λ states. states.discipline ≡ job.now.limits.discipline) }
        ensures start { IfOk result (λ states. machine_of states.standing.state ≡ opening job.now.program.now job.now.limits.discipline) }
    {
        let mut cache = LegCache::new(alloc, job.program)?;
        let standing = cache.start(alloc, job)?;
        let known = IndexMap::new(alloc);
        let moves = MoveTable::new(alloc, cache.table.processes);
        Ok(States {
            known,
            lists: ListStore::new(alloc),
            moves,
            cache,
            standing,
            discipline: job.limits.discipline,
        })
    }

    /// How many states were found.
    pub fn len(&self) -> usize
        ensures count { result ≡ length self.now.known.entries }
        ensures small { result < 2 ^ 63 }
    {
        self.known.len()
    }

    /// Where a choice leads in the state of a row, by the legs that are known or are made now, and what it displays; the row becomes the one
    /// there. The state is seen by a look at it, and each leg. `None` where they don't tell.
    pub fn see_choice<P: Sight>(
        &mut self,
        alloc: Global,
        job: &Job<'_>,
        row: &mut [u32],
        look: P,
        process: u8,
        told: &mut Told<P>,
    ) -> Result<Option<Halt<OutcomeKind>>, AllocError>
        requires ruled { self.old.discipline ≡ job.now.limits.discipline }
        requires here { (states : List (Machine × List ℕ)) × (m : Machine) × AreStates job.now.program.now self.old states × IsRowFor job.now.program.now self.old row.old m × (may (slots job.now.program.now job.now.limits.discipline) m process ≡ true) }
        ensures kept { IfOk result (λ _. (states : List (Machine × List ℕ)) → AreStates job.now.program.now self.old states → AreStates job.now.program.now self.new states) }
        ensures rows { (list : List ℕ) (m : Machine) → IsRowFor job.now.program.now self.old list m → IsRowFor job.now.program.now self.new list m }
        ensures lists { (numbers list : List ℕ) → IsHalved self.old numbers list → IsHalved self.new numbers list }
        ensures table { self.new.cache.table ≡ self.old.cache.table }
        ensures ruled { self.new.discipline ≡ self.old.discipline }
        ensures again { IfOk result (λ _. told.new.again ≡ None) }
        ensures leads { IfOk result (λ halts. IfSome halts (λ halt. (m : Machine) → IsRowFor job.now.program.now self.old row.old m → may (slots job.now.program.now job.now.limits.discipline) m process ≡ true → LeadsTo job.now.program.now job.now.limits.discipline self.new.cache.store self.new.cache.table job.now.limits.steps m process told.old.values.items halt row.new told.new.values.items)) }
        ensures sees { IfOk result (λ halts. IfSome halts (λ _. (m : Machine) → IsRowFor job.now.program.now self.old row.old m → may (slots job.now.program.now job.now.limits.discipline) m process ≡ true → P.looks look job.now.program.now m → P.sees told.new.seen job.now.program.now job.now.limits.discipline (m ∷ []) (moments (silent_slots job.now.program.now job.now.limits.discipline) job.now.limits.steps m process))) }
    {
        let standing = &mut self.standing;
        choose_by_legs(
            alloc,
            job,
            &mut self.cache,
            row,
            look,
            process,
            standing,
            told,
        )
    }

    /// Where a choice leads in the state of a row, by the legs that are known or are made now, and what it displays; the row becomes the one
    /// there. `None` where they don't tell.
    pub fn leads(
        &mut self,
        alloc: Global,
        job: &Job<'_>,
        row: &mut [u32],
        process: u8,
        shown: &mut Vec<Shown>,
    ) -> Result<Option<Halt<OutcomeKind>>, AllocError>
        requires ruled { self.old.discipline ≡ job.now.limits.discipline }
        requires here { (states : List (Machine × List ℕ)) × (m : Machine) × AreStates job.now.program.now self.old states × IsRowFor job.now.program.now self.old row.old m × (may (slots job.now.program.now job.now.limits.discipline) m process ≡ true) }
        ensures kept { IfOk result (λ _. (states : List (Machine × List ℕ)) → AreStates job.now.program.now self.old states → AreStates job.now.program.now self.new states) }
        ensures rows { (list : List ℕ) (m : Machine) → IsRowFor job.now.program.now self.old list m → IsRowFor job.now.program.now self.new list m }
        ensures lists { (numbers list : List ℕ) → IsHalved self.old numbers list → IsHalved self.new numbers list }
        ensures table { self.new.cache.table ≡ self.old.cache.table }
        ensures ruled { self.new.discipline ≡ self.old.discipline }
        ensures leads { IfOk result (λ halts. IfSome halts (λ halt. (m : Machine) → IsRowFor job.now.program.now self.old row.old m → may (slots job.now.program.now job.now.limits.discipline) m process ≡ true → LeadsTo job.now.program.now job.now.limits.discipline self.new.cache.store self.new.cache.table job.now.limits.steps m process shown.old.items halt row.new shown.new.items)) }
    {
        let standing = &mut self.standing;
        self.cache.choose(alloc, job, row, process, standing, shown)
    }

    /// The numbers of the lists of a row.
    pub fn halve(&mut self, alloc: Global, row: &[u32]) -> Result<HalvedRow, AllocError>
        requires { length row.now ≡ width_of self.old.cache.table }
        ensures halved { IfOk result (λ halved. IsHalved self.new halved.numbers row.now) }
        ensures kept { (r : Tables) (states : List (Machine × List ℕ)) → AreStates r self.old states → AreStates r self.new states }
        ensures lists { (numbers list : List ℕ) → IsHalved self.old numbers list → IsHalved self.new numbers list }
        ensures cache { self.new.cache ≡ self.old.cache }
        ensures ruled { self.new.discipline ≡ self.old.discipline }
        ensures known { self.new.known ≡ self.old.known }
    {
        let dealt = deal(&self.cache.table, row);
        let statuses = self.lists.number_of(alloc, dealt.statuses)?;
        let first = dealt.first.number(alloc, &mut self.lists)?;
        let second = dealt.second.number(alloc, &mut self.lists)?;
        Ok(HalvedRow {
            numbers: [statuses, first, second],
        })
    }

    /// The number of the state with this row, if it was found.
    pub fn number(&self, row: &HalvedRow) -> Option<usize>
        ensures { (r : Tables) (states : List (Machine × List ℕ)) (m : Machine) → AreStates r self.now states → IsStated r self.now row.now.numbers m → IsNumberOf states m result }
    {
        self.known.get_index_of(row)
    }

    /// A state that was not found is.
    pub fn add(&mut self, row: HalvedRow, origin: Origin) -> Result<(), AllocError>
        ensures states { IfOk result (λ _. (r : Tables) (states : List (Machine × List ℕ)) (m : Machine) (word : List ℕ) → AreStates r self.old states → has same_key states m ≡ false → IsStated r self.old row.numbers m → IsWordOf states origin word → IsBefore (length states) origin → AreStates r self.new (states ++ (m, word) ∷ [])) }
        ensures cache { self.new.cache ≡ self.old.cache }
        ensures lists { self.new.lists ≡ self.old.lists }
        ensures ruled { self.new.discipline ≡ self.old.discipline }
    {
        self.known.insert(row, origin)?;
        Ok(())
    }

    /// The row with these lists.
    #[inline(always)]
    pub fn row_with(&self, halved: HalvedRow) -> ArrayVec<u32, 97>
        requires { (row : List ℕ) × IsHalved self.now halved.numbers row × (length row ≡ width_of self.now.cache.table) × (length row ≤ 97) }
        ensures { (row : List ℕ) → IsHalved self.now halved.numbers row → length row ≡ width_of self.now.cache.table → result.items ≡ row }
    {
        let [statuses, first, second] = halved.numbers;
        join(
            &self.cache.table,
            self.lists.at(statuses as usize),
            self.lists.at(first as usize),
            self.lists.at(second as usize),
        )
    }

    /// The state of this number by its row, with a look at it, if there is one.
    #[inline(always)]
    pub fn state_at<P: Sight>(&self, number: u32) -> Option<StateRow<P>>
        requires { (r : Tables) × (states : List (Machine × List ℕ)) × AreStates r self.now states }
        ensures found { IfSome result (λ from. (r : Tables) (states : List (Machine × List ℕ)) → AreStates r self.now states → (x : Machine × List ℕ) × (slice_get states number ≡ Some x) × IsRowFor r self.now from.row.items x.0 × IsHalved self.now from.numbers.numbers from.row.items × P.looks from.seen r x.0) }
        ensures none { IfNone result ((r : Tables) (states : List (Machine × List ℕ)) → AreStates r self.now states → slice_get states number ≡ None) }
    {
        let Some((halved, _)) = self.known.get_index(number as usize) else {
            return None;
        };
        let row = self.row_with(*halved);
        let look = RowLook {
            cache: &self.cache,
            row: row.as_slice(),
        };
        let seen = P::look(&look);
        Some(StateRow {
            row,
            numbers: *halved,
            seen,
        })
    }

    /// A state becomes the one that was found with this number; `false` where there is none.
    pub fn thaw_at(&self, number: u32, state: &mut State) -> bool
        requires { (r : Tables) × (states : List (Machine × List ℕ)) × IsStateOf r state.old × AreStates r self.now states }
        ensures own { (r : Tables) (states : List (Machine × List ℕ)) → IsStateOf r state.old → AreStates r self.now states → IsStateOf r state.new }
        ensures at { (r : Tables) (states : List (Machine × List ℕ)) → IsStateOf r state.old → AreStates r self.now states → IsAt states number result (machine_of state.new) }
    {
        let Some((halved, _)) = self.known.get_index(number as usize) else {
            return false;
        };
        let row = self.row_with(*halved);
        state.discipline = self.discipline;
        self.cache
            .store
            .take_row_anew(&self.cache.table, row.as_slice(), state);
        true
    }

    /// The word that led to a state first, and so with the others of which it is a number.
    pub fn origin(&self, number: u32) -> Origin
        ensures { result ≡ origin_at self.now.known.entries number }
    {
        match self.known.get_index(number as usize) {
            Some((_, origin)) => *origin,
            None => Origin::Start,
        }
    }

    /// The numbers of a word.
    pub fn word(&self, alloc: Global, origin: Origin) -> Result<Vec<u8>, AllocError>
        ensures { IfOk result (λ v. (r : Tables) (states : List (Machine × List ℕ)) (word : List ℕ) → AreStates r self.now states → IsWordOf states origin word → v.items ≡ word) }
    {
        let mut word = Vec::new(alloc);
        let mut from = origin;
        for _ in 0..self.known.len() {
            let Origin::Choice { state, number } = from else {
                break;
            };
            word.push(number)?;
            from = self.origin(state);
        }
        word.reverse();
        Ok(word)
    }
}
