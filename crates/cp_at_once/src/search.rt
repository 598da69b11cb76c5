//! The search through the states that are kept.

ghost use Rattle.std.specs.Prelude.{◌≡◌, ◌≤◌, ◌+◌, ◌++◌, ◌∷◌, ℕ, List, [], length, false, true, IfOk, IfSome};
ghost use Rattle.cp_slots.specs.Tables.{Tables};
ghost use Rattle.cp_machine.specs.System.{Machine, machine_of, opening, IsStateOf};
ghost use Rattle.cp_run.specs.Run.{may, those_below};
ghost use Rattle.cp_run.specs.Slots.{slots};
ghost use Rattle.cp_run.specs.declared.outcome.Halt.TheVariants.{Choice};
ghost use Rattle.cp_parts.specs.Parts.{IsPartRow};
ghost use Rattle.cp_stretches.specs.Cached.{IsCache};
ghost use Rattle.cp_stretches.specs.declared.cache.Standing.{Standing};
ghost use Rattle.cp_search.specs.Searched.{IsTaken};
ghost use Rattle.cp_ends.specs.Answer.{slot_graph};
ghost use Rattle.cp_ends.specs.Arrivals.{goal_at};
ghost use Rattle.cp_ends.specs.ByRows.{end_of};
ghost use Rattle.cp_ends.specs.Graph.{ArrivesAt, LeadsToPlace};
ghost use Rattle.cp_ends.specs.Holds.{AreStates, SlotArrival};
ghost use Rattle.cp_ends.specs.Rows.{IsRowFor};
ghost use Rattle.cp_ends.specs.ByRows.{Goes};
ghost use Rattle.cp_at_once.specs.ByRows.{HasRoom, IsWithinRow, KeepStore, with_store};
ghost use Rattle.cp_at_once.specs.Following.{Answers, GoesOn, GoesThrough, IsKept, NotesArrival, SlotGraph};
ghost use Rattle.cp_at_once.specs.Holds.{Holds, IsWordOf};
ghost use Rattle.cp_at_once.specs.Legs.{HasLeg};
ghost use Rattle.cp_at_once.specs.Whole.{IsAnswer};

use crate::entering::EnteringParts;
use crate::found::FoundAtOnce;
use crate::leg::process_at_once;
use crate::origin::{MOST_IN_A_ROW, OriginAtOnce};
use cp_ends::End;
use cp_ends::choosing::{choose, open};
use cp_ends::sight::Unseen;
use cp_ends::told::Told;
use cp_progress::{ObserveProgress, Progress, STATES_BETWEEN, Unobserved};
use cp_run::{Halt, Job, OutcomeKind};
use cp_search::SearchJob;
use std::alloc::{AllocError, Global};

/// What is found so far, with room for displayed values and for rows.
#[derive(Drop)]
pub struct SearchAtOnce {
    pub found: FoundAtOnce,
    pub told: Told<Unseen>,
    /// The row that a choice leads to.
    pub row: Vec<u32>,
    /// The row before it, or one after a leg that is tried.
    pub from: Vec<u32>,
    pub entering: EnteringParts,
}

/// Expands the opening state, and each state that is kept, with each number that may be chosen there. Where a choice is due after that, a leg
/// that may be made at once is, up to so many in a row, and the state after them is kept. Stops where more than so many states would be.
pub fn search_at_once(alloc: Global, job: &Job<'_>, most: u32) -> Result<FoundAtOnce, AllocError>
    ensures { IfOk result (λ found. IsAnswer job.now.program.now job.now.limits.discipline job.now.limits.steps most found) }
{
    search_at_once_with(alloc, job, most, &mut Unobserved)
}

/// The same, where an observer is told how far the search has come.
pub fn search_at_once_with<O: ObserveProgress>(
    alloc: Global,
    job: &Job<'_>,
    most: u32,
    observer: &mut O,
) -> Result<FoundAtOnce, AllocError>
    ensures { IfOk result (λ found. IsAnswer job.now.program.now job.now.limits.discipline job.now.limits.steps most found) }
{
    let job = SearchJob {
        alloc,
        run: *job,
        most,
    };
    search_with(&job, observer)
}

fn search_with<O: ObserveProgress>(
    job: &SearchJob<'_>,
    observer: &mut O,
) -> Result<FoundAtOnce, AllocError>
    ensures { IfOk result (λ found. Answers job.now.run.program.now (slot_graph job.now.run.program.now job.now.run.limits.discipline job.now.run.limits.steps) (HasLeg job.now.run.program.now job.now.run.limits.discipline) job.now.most 8 found found.is_whole) }
{
    let mut search = SearchAtOnce::start(job)?;
    let arrival = search.open(job)?;
    let is_room = search.follow(job, arrival, OriginAtOnce::start())?;
    if !is_room {
        search.found.is_whole = false;
        return Ok(search.found);
    }
    let is_whole = search.visit_all(job, observer)?;
    search.found.is_whole = is_whole;
    Ok(search.found)
}

// The end of a stretch that is over.
fn ended(halt: Halt<OutcomeKind>) -> Halt<End>
    ensures { result ≡ end_of halt }
{
    match halt {
        Halt::Choice => Halt::Choice,
        Halt::Ended(kind) => Halt::Ended(End::Over(kind)),
    }
}

impl SearchAtOnce {
    // Nothing is found, and the opening state stands in the room for one.
    fn start(job: &SearchJob<'_>) -> Result<SearchAtOnce, AllocError>
        ensures nothing { IfOk result (λ search. Holds job.now.run.program.now (slot_graph job.now.run.program.now job.now.run.limits.discipline job.now.run.limits.steps) job.now.most search.found []) }
        ensures room { IfOk result (λ search. HasRoom job.now.run.limits.discipline search) }
        ensures start { IfOk result (λ search. machine_of search.found.kept.store.standing.state ≡ opening job.now.run.program.now job.now.run.limits.discipline) }
    {
        let found = FoundAtOnce::new(job.alloc, &job.run)?;
        let row = Vec::from_slice(job.alloc, &found.kept.store.standing.row)?;
        let from = Vec::from_slice(job.alloc, &row)?;
        Ok(SearchAtOnce {
            found,
            told: Told::new(job.alloc, Unseen),
            row,
            from,
            entering: EnteringParts::new(job.alloc),
        })
    }

    // What stands in the room for a state has its row again, whatever stood there before.
    fn find_row(&mut self, job: &SearchJob<'_>) -> Result<(), AllocError>
        requires cache { IsCache job.now.run.program.now job.now.run.limits.discipline self.old.found.kept.store.cache }
        requires own { IsStateOf job.now.run.program.now self.old.found.kept.store.standing.state }
        requires room { HasRoom job.now.run.limits.discipline self.old }
        ensures room { IfOk result (λ _. HasRoom job.now.run.limits.discipline self.new) }
        ensures store { IfOk result (λ _. (standing : Standing) → KeepStore job.now.run.program.now (record self.old.found.kept.store { standing = standing }) self.new.found.kept.store) }
        ensures found { IfOk result (λ _. self.new.found ≡ with_store self.old.found self.new.found.kept.store) }
        ensures told { self.new.told.values.items ≡ self.old.told.values.items }
        ensures row { IfOk result (λ _. IsPartRow self.new.found.kept.store.cache.store self.new.found.kept.store.cache.table (machine_of self.old.found.kept.store.standing.state) self.new.row.items) }
    {
        let store = &mut self.found.kept.store;
        store
            .cache
            .find_row(job.alloc, &job.run, &mut store.standing)?;
        self.row.copy_from_slice(&store.standing.row);
        Ok(())
    }

    // Follows the opening stretch.
    fn open(&mut self, job: &SearchJob<'_>) -> Result<Halt<End>, AllocError>
        requires nothing { Holds job.now.run.program.now (slot_graph job.now.run.program.now job.now.run.limits.discipline job.now.run.limits.steps) job.now.most self.old.found [] }
        requires room { HasRoom job.now.run.limits.discipline self.old }
        requires start { machine_of self.old.found.kept.store.standing.state ≡ opening job.now.run.program.now job.now.run.limits.discipline }
        ensures room { IfOk result (λ _. HasRoom job.now.run.limits.discipline self.new) }
        ensures nothing { IfOk result (λ _. Holds job.now.run.program.now (slot_graph job.now.run.program.now job.now.run.limits.discipline job.now.run.limits.steps) job.now.most self.new.found []) }
        ensures opens { IfOk result (λ halt. (m : Machine) × (halt ≡ Choice → IsRowFor job.now.run.program.now self.new.found.kept.store self.new.row.items m) × (goal_at halt m ≡ (slot_graph job.now.run.program.now job.now.run.limits.discipline job.now.run.limits.steps).start.goal) × (self.new.told.values.items ≡ (slot_graph job.now.run.program.now job.now.run.limits.discipline job.now.run.limits.steps).start.shown)) }
    {
        self.told.values.clear();
        let state = &mut self.found.kept.store.standing.state;
        let halt = open(job.alloc, &job.run, state, &mut self.told)?;
        self.find_row(job)?;
        Ok(halt)
    }

    // Where a choice leads to in the state of the row before it, which is not known from legs: it is taken step by step.
    #[inline(never)]
    fn go_slowly(&mut self, job: &SearchJob<'_>, process: u8) -> Result<Halt<End>, AllocError>
        requires room { HasRoom job.now.run.limits.discipline self.old }
        requires known { AreStates job.now.run.program.now self.old.found.kept.store [] }
        requires from { (m : Machine) × IsRowFor job.now.run.program.now self.old.found.kept.store self.old.from.items m × (may (slots job.now.run.program.now job.now.run.limits.discipline) m process ≡ true) }
        ensures room { IfOk result (λ _. HasRoom job.now.run.limits.discipline self.new) }
        ensures store { IfOk result (λ _. KeepStore job.now.run.program.now self.old.found.kept.store self.new.found.kept.store) }
        ensures found { IfOk result (λ _. self.new.found ≡ with_store self.old.found self.new.found.kept.store) }
        ensures goes { IfOk result (λ halt. (m : Machine) → IsRowFor job.now.run.program.now self.old.found.kept.store self.old.from.items m → may (slots job.now.run.program.now job.now.run.limits.discipline) m process ≡ true → Goes job.now.run.program.now job.now.run.limits.discipline job.now.run.limits.steps m process halt (IsRowFor job.now.run.program.now self.new.found.kept.store self.new.row.items) self.new.told.values.items) }
    {
        self.told.values.clear();
        let store = &mut self.found.kept.store;
        store.cache.stand(&job.run, &self.from, &mut store.standing);
        let state = &mut store.standing.state;
        let halt = choose(job.alloc, &job.run, state, process, &mut self.told)?;
        self.find_row(job)?;
        Ok(halt)
    }

    // Where a choice leads to in the state of the row before it by the legs that are known, and what it displays on the way.
    fn go(&mut self, job: &SearchJob<'_>, process: u8) -> Result<Halt<End>, AllocError>
        requires room { HasRoom job.now.run.limits.discipline self.old }
        requires known { AreStates job.now.run.program.now self.old.found.kept.store [] }
        requires from { (m : Machine) × IsRowFor job.now.run.program.now self.old.found.kept.store self.old.from.items m × (may (slots job.now.run.program.now job.now.run.limits.discipline) m process ≡ true) }
        ensures room { IfOk result (λ _. HasRoom job.now.run.limits.discipline self.new) }
        ensures store { IfOk result (λ _. KeepStore job.now.run.program.now self.old.found.kept.store self.new.found.kept.store) }
        ensures found { IfOk result (λ _. self.new.found ≡ with_store self.old.found self.new.found.kept.store) }
        ensures goes { IfOk result (λ halt. (m : Machine) → IsRowFor job.now.run.program.now self.old.found.kept.store self.old.from.items m → may (slots job.now.run.program.now job.now.run.limits.discipline) m process ≡ true → Goes job.now.run.program.now job.now.run.limits.discipline job.now.run.limits.steps m process halt (IsRowFor job.now.run.program.now self.new.found.kept.store self.new.row.items) self.new.told.values.items) }
    {
        self.told.values.clear();
        self.row.copy_from_slice(&self.from);
        let values = &mut self.told.values;
        let row = self.row.as_mut_slice();
        let store = &mut self.found.kept.store;
        match store.leads(job.alloc, &job.run, row, process, values)? {
            Some(halt) => Ok(ended(halt)),
            None => self.go_slowly(job, process),
        }
    }

    // The least process whose leg may be made at once in the state of the row.
    fn process_at_once(&mut self, job: &SearchJob<'_>) -> Result<Option<u8>, AllocError>
        requires room { HasRoom job.now.run.limits.discipline self.old }
        requires known { AreStates job.now.run.program.now self.old.found.kept.store [] }
        requires row { (m : Machine) × IsRowFor job.now.run.program.now self.old.found.kept.store self.old.row.items m }
        ensures room { IfOk result (λ _. HasRoom job.now.run.limits.discipline self.new) }
        ensures store { IfOk result (λ _. KeepStore job.now.run.program.now self.old.found.kept.store self.new.found.kept.store) }
        ensures found { IfOk result (λ _. self.new.found ≡ with_store self.old.found self.new.found.kept.store) }
        ensures same { self.new.row ≡ self.old.row }
        ensures told { self.new.told ≡ self.old.told }
        ensures leg { IfOk result (λ found. IfSome found (λ p. (m : Machine) → IsRowFor job.now.run.program.now self.old.found.kept.store self.old.row.items m → HasLeg job.now.run.program.now job.now.run.limits.discipline m p × (may (slots job.now.run.program.now job.now.run.limits.discipline) m p ≡ true))) }
    {
        let ahead = self.from.as_mut_slice();
        let store = &mut self.found.kept.store;
        let entering = &mut self.entering;
        process_at_once(job.alloc, &job.run, store, &self.row, ahead, entering)
    }

    // Makes the leg of a process at once in the state of the row.
    fn go_at_once(&mut self, job: &SearchJob<'_>, process: u8) -> Result<Halt<End>, AllocError>
        requires room { HasRoom job.now.run.limits.discipline self.old }
        requires known { AreStates job.now.run.program.now self.old.found.kept.store [] }
        requires row { (m : Machine) × IsRowFor job.now.run.program.now self.old.found.kept.store self.old.row.items m × (may (slots job.now.run.program.now job.now.run.limits.discipline) m process ≡ true) }
        ensures room { IfOk result (λ _. HasRoom job.now.run.limits.discipline self.new) }
        ensures store { IfOk result (λ _. KeepStore job.now.run.program.now self.old.found.kept.store self.new.found.kept.store) }
        ensures found { IfOk result (λ _. self.new.found ≡ with_store self.old.found self.new.found.kept.store) }
        ensures goes { IfOk result (λ halt. (m : Machine) → IsRowFor job.now.run.program.now self.old.found.kept.store self.old.row.items m → may (slots job.now.run.program.now job.now.run.limits.discipline) m process ≡ true → Goes job.now.run.program.now job.now.run.limits.discipline job.now.run.limits.steps m process halt (IsRowFor job.now.run.program.now self.new.found.kept.store self.new.row.items) self.new.told.values.items) }
    {
        self.from.copy_from_slice(&self.row);
        self.go(job, process)
    }

    // Makes legs at once as long as there are such, and not too many in a row. `false` where they lead to a state too many.
    fn follow(
        &mut self,
        job: &SearchJob<'_>,
        arrival: Halt<End>,
        origin: OriginAtOnce,
    ) -> Result<bool, AllocError>
        requires room { HasRoom job.now.run.limits.discipline self.old }
        requires known { AreStates job.now.run.program.now self.old.found.kept.store [] }
        requires row { arrival ≡ Choice → (m : Machine) × IsRowFor job.now.run.program.now self.old.found.kept.store self.old.row.items m }
        requires numbers { length origin.numbers.items ≤ 1 }
        ensures room { IfOk result (λ _. HasRoom job.now.run.limits.discipline self.new) }
        ensures found { IfOk result (λ is_room. (states : List (Machine × List ℕ)) (word : List ℕ) (a : SlotArrival) (m : Machine) → Holds job.now.run.program.now (slot_graph job.now.run.program.now job.now.run.limits.discipline job.now.run.limits.steps) job.now.most self.old.found states → IsWordOf states origin word → ArrivesAt (slot_graph job.now.run.program.now job.now.run.limits.discipline job.now.run.limits.steps) word a → (arrival ≡ Choice → IsRowFor job.now.run.program.now self.old.found.kept.store self.old.row.items m) → goal_at arrival m ≡ a.goal → self.old.told.values.items ≡ a.shown → GoesOn job.now.run.program.now (slot_graph job.now.run.program.now job.now.run.limits.discipline job.now.run.limits.steps) (HasLeg job.now.run.program.now job.now.run.limits.discipline) job.now.most 8 self.old.found states self.new.found a is_room) }
        ensures store { IfOk result (λ _. KeepStore job.now.run.program.now self.old.found.kept.store self.new.found.kept.store) }
    {
        let mut arrival = arrival;
        let mut origin = origin;
        for made in 0..MOST_IN_A_ROW {
            self.note(arrival, &origin)?;
            match arrival {
                Halt::Ended(_) => return Ok(true),
                Halt::Choice => {}
            }
            let Some(pid) = self.process_at_once(job)? else {
                return self.keep(job, origin);
            };
            origin.numbers.push(pid);
            arrival = self.go_at_once(job, pid)?;
        }
        self.note(arrival, &origin)?;
        match arrival {
            Halt::Ended(_) => Ok(true),
            Halt::Choice => self.keep(job, origin),
        }
    }

    // A word leads to where a stretch came to.
    fn note(&mut self, arrival: Halt<End>, origin: &OriginAtOnce) -> Result<(), AllocError>
        ensures rest { (self.new.row ≡ self.old.row) × (self.new.from ≡ self.old.from) × (self.new.told ≡ self.old.told) × (self.new.found.kept ≡ self.old.found.kept) }
        ensures found { IfOk result (λ _. (r : Tables) (g : SlotGraph) (most : ℕ) (states : List (Machine × List ℕ)) (word : List ℕ) (a : SlotArrival) (m : Machine) → Holds r g most self.old.found states → IsWordOf states origin.now word → ArrivesAt g word a → goal_at arrival m ≡ a.goal → self.old.told.values.items ≡ a.shown → NotesArrival r g most self.old.found states self.new.found a) }
    {
        self.found.add_values(self.told.values.as_slice(), origin)?;
        match arrival {
            Halt::Ended(end) => self.found.add_end(end, origin),
            Halt::Choice => Ok(()),
        }
    }

    // A word leads to a state that is to be kept: the one of the row. `false` where it is one too many.
    fn keep(&mut self, job: &SearchJob<'_>, origin: OriginAtOnce) -> Result<bool, AllocError>
        requires room { HasRoom job.now.run.limits.discipline self.old }
        ensures room { IfOk result (λ _. HasRoom job.now.run.limits.discipline self.new) }
        ensures store { IfOk result (λ _. KeepStore job.now.run.program.now self.old.found.kept.store self.new.found.kept.store) }
        ensures found { IfOk result (λ is_room. (g : SlotGraph) (states : List (Machine × List ℕ)) (word : List ℕ) (m : Machine) → Holds job.now.run.program.now g job.now.most self.old.found states → IsWordOf states origin word → LeadsToPlace g m word → IsRowFor job.now.run.program.now self.old.found.kept.store self.old.row.items m → IsKept job.now.run.program.now g job.now.most self.old.found states self.new.found m is_room) }
    {
        let kept = &mut self.found.kept;
        let row = kept.store.halve(job.alloc, &self.row)?;
        if kept.contains(&row) {
            return Ok(true);
        }
        if kept.len() >= job.most as usize {
            return Ok(false);
        }
        kept.add(row, origin)?;
        Ok(true)
    }

    // Takes a choice in the kept state of this number and row. `false` where there is no room for where it leads.
    fn take(
        &mut self,
        job: &SearchJob<'_>,
        at: u32,
        row: &[u32],
        process: u8,
    ) -> Result<bool, AllocError>
        requires room { HasRoom job.now.run.limits.discipline self.old }
        requires within { (m : Machine) × IsWithinRow job.now.run.program.now job.now.run.limits.discipline job.now.run.limits.steps job.now.most self.old row.now at m (those_below process (may (slots job.now.run.program.now job.now.run.limits.discipline) m)) × (may (slots job.now.run.program.now job.now.run.limits.discipline) m process ≡ true) }
        ensures room { IfOk result (λ _. HasRoom job.now.run.limits.discipline self.new) }
        ensures within { IfOk result (λ is_room. is_room ≡ true → (m : Machine) → IsWithinRow job.now.run.program.now job.now.run.limits.discipline job.now.run.limits.steps job.now.most self.old row.now at m (those_below process (may (slots job.now.run.program.now job.now.run.limits.discipline) m)) → may (slots job.now.run.program.now job.now.run.limits.discipline) m process ≡ true → IsWithinRow job.now.run.program.now job.now.run.limits.discipline job.now.run.limits.steps job.now.most self.new row.now at m (those_below process (may (slots job.now.run.program.now job.now.run.limits.discipline) m) ++ process ∷ [])) }
        ensures stops { IfOk result (λ is_room. is_room ≡ false → Answers job.now.run.program.now (slot_graph job.now.run.program.now job.now.run.limits.discipline job.now.run.limits.steps) (HasLeg job.now.run.program.now job.now.run.limits.discipline) job.now.most 8 self.new.found false) }
    {
        self.from.copy_from_slice(row);
        let arrival = self.go(job, process)?;
        self.follow(job, arrival, OriginAtOnce::choice(at, process))
    }

    // Expands the kept state of this number and row with each number that may be chosen there. `false` where there is no room for that.
    fn take_choices(
        &mut self,
        job: &SearchJob<'_>,
        at: u32,
        row: &[u32],
    ) -> Result<bool, AllocError>
        requires room { HasRoom job.now.run.limits.discipline self.old }
        requires within { (m : Machine) × IsWithinRow job.now.run.program.now job.now.run.limits.discipline job.now.run.limits.steps job.now.most self.old row.now at m [] }
        ensures room { IfOk result (λ _. HasRoom job.now.run.limits.discipline self.new) }
        ensures taken { IfOk result (λ is_room. IsTaken (λ n. GoesThrough job.now.run.program.now (slot_graph job.now.run.program.now job.now.run.limits.discipline job.now.run.limits.steps) (HasLeg job.now.run.program.now job.now.run.limits.discipline) job.now.most 8 n self.new.found) (λ n. Answers job.now.run.program.now (slot_graph job.now.run.program.now job.now.run.limits.discipline job.now.run.limits.steps) (HasLeg job.now.run.program.now job.now.run.limits.discipline) job.now.most 8 self.new.found false) at is_room) }
    {
        let candidates = self.found.kept.store.cache.candidates(row);
        for process in candidates.as_slice() {
            if !self.take(job, at, row, *process)? {
                return Ok(false);
            }
        }
        Ok(true)
    }

    // Expands each state that is kept, and those that are kept then. `false` where there was no room for that.
    fn visit_all<O: ObserveProgress>(
        &mut self,
        job: &SearchJob<'_>,
        observer: &mut O,
    ) -> Result<bool, AllocError>
        requires room { HasRoom job.now.run.limits.discipline self.old }
        requires begun { GoesThrough job.now.run.program.now (slot_graph job.now.run.program.now job.now.run.limits.discipline job.now.run.limits.steps) (HasLeg job.now.run.program.now job.now.run.limits.discipline) job.now.most 8 0 self.old.found }
        ensures { IfOk result (λ is_whole. Answers job.now.run.program.now (slot_graph job.now.run.program.now job.now.run.limits.discipline job.now.run.limits.steps) (HasLeg job.now.run.program.now job.now.run.limits.discipline) job.now.most 8 self.new.found is_whole) }
    {
        let mut choices: u32 = 0;
        let mut layer_end = self.found.kept.len();
        for number in 0..job.most {
            if number as usize == layer_end {
                choices = choices.saturating_add(1);
                layer_end = self.found.kept.len();
            }
            if number % STATES_BETWEEN == 0 {
                observer.observe_progress(self.progress(choices));
            }
            let Some(halved) = self.found.kept.row_at(number) else {
                return Ok(true);
            };
            let row = self.found.kept.store.row_with(halved);
            if !self.take_choices(job, number, row.as_slice())? {
                return Ok(false);
            }
        }
        Ok(true)
    }

    // What is found with words of so many choices, or more where some were made at once.
    fn progress(&self, choices: u32) -> Progress {
        Progress {
            choices,
            states: self.found.kept.len(),
            outcomes: Some(self.found.ends.len()),
        }
    }
}
