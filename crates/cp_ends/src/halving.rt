//! A row in three lists: its statuses, and two halves of what its places have.

ghost use Rattle.std.specs.Prelude.{◌≡◌, ◌+◌, ◌++◌, ◌≤◌, ◌<◌, ℕ, List, length, true, false, IfOk, IfSome};
ghost use Rattle.cp_states.specs.Pieces.{IsPiece, KeepPieces};
ghost use Rattle.cp_effects.specs.Noting.{among};
ghost use Rattle.cp_ends.specs.Halves.{half_in, is_in_first as is_first_at, statuses_in, width_of};

use arrayvec::ArrayVec;
use cp_parts::PlaceTable;
use cp_states::ListStore;
use cp_states::hashing::{finish_hash, hash_with};
use std::alloc::{AllocError, Global};

// Numbers that stand after those of a row.
fn append(row: &mut ArrayVec<u32, 97>, list: &[u32])
    requires { length row.old.items + length list.now ≤ 97 }
    ensures { row.new.items ≡ row.old.items ++ list.now }
{
    let _ = row.try_extend_from_slice(list);
}

/// A half of a row, in the two pieces that stand there: what is of processes, and what is of monitors.
#[derive(Clone, Copy, Drop)]
pub struct Half<'a> {
    pub processes: &'a [u32],
    pub monitors: &'a [u32],
}

impl Half<'_> {
    // Its numbers, one after another.
    fn list(&self, alloc: Global) -> Result<Vec<u32>, AllocError>
        ensures { IfOk result (λ list. list.items ≡ self.now.processes.now ++ self.now.monitors.now) }
    {
        let mut list = Vec::with_capacity(alloc, self.processes.len() + self.monitors.len())?;
        list.extend_from_slice(self.processes)?;
        list.extend_from_slice(self.monitors)?;
        Ok(list)
    }

    // Whether these are its numbers.
    #[inline(always)]
    fn is(&self, list: &[u32]) -> bool
        ensures { result ≡ true → list.now ≡ self.now.processes.now ++ self.now.monitors.now }
    {
        if list.len() < self.processes.len() {
            return false;
        }
        let (processes, monitors) = list.split_at(self.processes.len());
        processes == self.processes && monitors == self.monitors
    }

    // Its number, if it is there.
    #[inline(always)]
    fn find(&self, halves: &ListStore<u32>) -> Option<u32>
        ensures { IfSome result (λ n. IsPiece halves.now.items.items halves.now.ends.items n (self.now.processes.now ++ self.now.monitors.now)) }
    {
        let length = self.processes.len() + self.monitors.len();
        let hash = hash_with(length as u64, self.processes);
        halves.index.find(
            finish_hash(hash_with(hash, self.monitors)),
            |at|
                ensures { result ≡ true → IsPiece halves.entry.now.items.items halves.entry.now.ends.items at (self.entry.now.processes.now ++ self.entry.now.monitors.now) }
            { at < halves.len() && self.is(halves.at(at)) },
        )
    }

    /// Its number, which is new where the half is.
    #[inline(always)]
    pub fn number(&self, alloc: Global, halves: &mut ListStore<u32>) -> Result<u32, AllocError>
        ensures number { IfOk result (λ n. IsPiece halves.new.items.items halves.new.ends.items n (self.now.processes.now ++ self.now.monitors.now)) }
        ensures kept { KeepPieces halves.old.items.items halves.old.ends.items halves.new.items.items halves.new.ends.items }
    {
        match self.find(halves) {
            Some(number) => Ok(number),
            None => halves.number_of(alloc, &self.list(alloc)?),
        }
    }
}

/// A row in three lists.
#[derive(Drop)]
pub struct DealtRow<'a> {
    pub statuses: &'a [u32],
    pub first: Half<'a>,
    pub second: Half<'a>,
}

/// The lists of a row. Each half has half of the processes and half of the monitors: what a process does changes mostly what is near it, so a
/// half is often that of another state.
#[inline(always)]
pub fn deal<'a>(table: &PlaceTable, row: &'a [u32]) -> DealtRow<'a>
    requires { length row.now ≡ width_of table.now }
    ensures statuses { result.statuses.now ≡ statuses_in table.now row.now }
    ensures first { result.first.processes.now ++ result.first.monitors.now ≡ half_in table.now true row.now }
    ensures second { result.second.processes.now ++ result.second.monitors.now ≡ half_in table.now false row.now }
{
    let few = table.processes / 2;
    let (statuses, rest) = row.split_at(table.processes + 1);
    let (processes, rest) = rest.split_at(few);
    let (other_processes, rest) = rest.split_at(table.processes - few);
    let (monitors, other_monitors) = rest.split_at(table.monitors / 2);
    DealtRow {
        statuses,
        first: Half {
            processes,
            monitors,
        },
        second: Half {
            processes: other_processes,
            monitors: other_monitors,
        },
    }
}

/// The row with these lists.
#[inline(always)]
pub fn join(
    table: &PlaceTable,
    statuses: &[u32],
    first: &[u32],
    second: &[u32],
) -> ArrayVec<u32, 97>
    requires { (row : List ℕ) × (statuses.now ≡ statuses_in table.now row) × (first.now ≡ half_in table.now true row) × (second.now ≡ half_in table.now false row) × (length row ≡ width_of table.now) × (length row ≤ 97) }
    ensures { (row : List ℕ) → statuses.now ≡ statuses_in table.now row → first.now ≡ half_in table.now true row → second.now ≡ half_in table.now false row → length row ≡ width_of table.now → result.items ≡ row }
{
    let few = table.processes / 2;
    let (processes, monitors) = first.split_at(few);
    let (other_processes, other_monitors) = second.split_at(table.processes - few);
    let mut row = ArrayVec::new();
    append(&mut row, statuses);
    append(&mut row, processes);
    append(&mut row, other_processes);
    append(&mut row, monitors);
    append(&mut row, other_monitors);
    row
}

/// Whether a place is in the first half.
#[inline(always)]
pub fn is_in_first(table: &PlaceTable, place: usize) -> bool
    ensures { result ≡ is_first_at table.now place }
{
    if place < table.processes {
        place < table.processes / 2
    } else {
        place - table.processes < table.monitors / 2
    }
}

/// Whether these places are all in one half: in the first one, or in the second one.
pub fn are_in(table: &PlaceTable, is_first: bool, places: &[u32]) -> bool
    ensures { result ≡ true → (place : ℕ) → among places.now place ≡ true → is_first_at table.now place ≡ is_first }
{
    for place in places {
        if is_in_first(table, *place as usize) != is_first {
            return false;
        }
    }
    true
}
