//! Choices by moves that are known: of the row to which one leads, all but the statuses is known beforehand.

ghost use Rattle.std.specs.Prelude.{◌≡◌, ◌<◌, ◌≤◌, ℕ, All, List, false, length, true, IfOk, IfSome};
ghost use Rattle.cp_slots.specs.Tables.{Tables};
ghost use Rattle.cp_machine.specs.declared.discipline.Discipline.{Discipline};
ghost use Rattle.cp_machine.specs.System.{Machine};
ghost use Rattle.cp_machine.specs.Step.{is_local};
ghost use Rattle.cp_run.specs.Run as run;
ghost use Rattle.cp_run.specs.Run.{may};
ghost use Rattle.cp_run.specs.Slots.{slots};
ghost use Rattle.cp_states.specs.Pieces.{IsPiece, KeepPieces};
ghost use Rattle.cp_parts.specs.declared.store.PartStore.{PartStore};
ghost use Rattle.cp_effects.specs.Changes.{written};
ghost use Rattle.cp_effects.specs.Known.{writes_of};
ghost use Rattle.cp_stretches.specs.Numbers.{CanRead};
ghost use Rattle.cp_ends.specs.Halves.{statuses_in};
ghost use Rattle.cp_ends.specs.Holds.{AreStates};
ghost use Rattle.cp_ends.specs.Moves.{IsOneLeg, Suits};
ghost use Rattle.cp_ends.specs.Rows.{IsHalved, IsRowFor};

use crate::halving::is_in_first;
use crate::moves::Move;
use crate::row::HalvedRow;
use crate::states::States;
use cp_effects::write_row;
use cp_machine::Shown;
use cp_parts::PlaceTable;
use cp_run::{Job, Turn};
use cp_states::ListStore;
use cp_stretches::numbers::is_free;
use cp_stretches::stretch::add_shown;
use std::alloc::{AllocError, Global};

// The number of the statuses of a row: this one, where they are those of which it is.
#[inline(always)]
fn number_statuses(
    alloc: Global,
    table: &PlaceTable,
    row: &[u32],
    before: u32,
    is_still: bool,
    lists: &mut ListStore<u32>,
) -> Result<u32, AllocError>
    requires long { table.now.processes < length row.now }
    requires still { is_still ≡ true → IsPiece lists.old.items.items lists.old.ends.items before (statuses_in table.now row.now) }
    ensures number { IfOk result (λ n. IsPiece lists.new.items.items lists.new.ends.items n (statuses_in table.now row.now)) }
    ensures kept { KeepPieces lists.old.items.items lists.old.ends.items lists.new.items.items lists.new.ends.items }
{
    if is_still {
        return Ok(before);
    }
    let (statuses, _) = row.split_at(table.processes + 1);
    lists.number_of(alloc, statuses)
}

impl States {
    /// The move that is known of a process in the state of a row with these numbers, if no monitor is pending there.
    #[inline(always)]
    pub fn find_move(
        &self,
        job: &Job<'_>,
        row: &[u32],
        numbers: HalvedRow,
        process: u8,
    ) -> Option<Move>
        requires { self.now.cache.table.processes < length row.now }
        ensures { IfSome result (Suits self.now job.now.limits.steps process numbers.numbers row.now) }
    {
        let table = &self.cache.table;
        let half = numbers.half(is_in_first(table, process as usize));
        let Some(known) = self.moves.find(half, process) else {
            return None;
        };
        if known.leg.leg.steps <= job.limits.steps && is_free(table, row) {
            Some(known)
        } else {
            None
        }
    }

    // The row after the leg of a move. Answers what comes next.
    #[inline(always)]
    fn pass(&self, row: &mut [u32], known: &Move) -> Turn
        requires long { self.now.cache.table.processes < length row.old }
        requires rising { known.now.leg.from ≤ known.now.leg.to }
        requires within { known.now.leg.to ≤ length self.now.moves.writes.items }
        requires inside { All (λ w. w.position < length row.old) (writes_of self.now.moves.writes.items known.now.leg) }
        ensures row { row.new ≡ written (writes_of self.now.moves.writes.items known.now.leg) row.old }
        ensures turn { (r : Tables) (s : PartStore) (m : Machine) (discipline : Discipline) → CanRead r s self.now.cache.table self.now.cache.numbers m row.new → is_local known.now.leg.leg.event ≡ false → result ≡ run.turn_after (slots r discipline) m known.now.process known.now.leg.leg.event }
    {
        write_row(row, &self.moves.writes[known.leg.from..known.leg.to]);
        self.cache
            .numbers
            .turn_after(&self.cache.table, row, known.process, known.leg.leg.event)
    }

    /// Makes a move that is known in the state of a row with these numbers. Where a choice is due after it, the row is the one there, and its
    /// numbers are answered. `None` where the stretch goes on or is over; nothing is promised of the row then.
    #[inline(always)]
    pub fn make_move(
        &mut self,
        alloc: Global,
        job: &Job<'_>,
        row: &mut [u32],
        numbers: HalvedRow,
        known: &Move,
        shown: &mut Vec<Shown>,
    ) -> Result<Option<HalvedRow>, AllocError>
        requires ruled { self.old.discipline ≡ job.now.limits.discipline }
        requires here { (states : List (Machine × List ℕ)) × (m : Machine) × AreStates job.now.program.now self.old states × IsRowFor job.now.program.now self.old row.old m × (may (slots job.now.program.now job.now.limits.discipline) m known.now.process ≡ true) }
        requires halved { IsHalved self.old numbers.numbers row.old }
        requires suits { Suits self.old job.now.limits.steps known.now.process numbers.numbers row.old known.now }
        ensures kept { (states : List (Machine × List ℕ)) → AreStates job.now.program.now self.old states → AreStates job.now.program.now self.new states }
        ensures cache { self.new.cache ≡ self.old.cache }
        ensures ruled { self.new.discipline ≡ self.old.discipline }
        ensures lists { (numbers list : List ℕ) → IsHalved self.old numbers list → IsHalved self.new numbers list }
        ensures halved { IfOk result (λ made. IfSome made (λ next. IsHalved self.new next.numbers row.new)) }
        ensures makes { IfOk result (λ made. IfSome made (λ _. (m : Machine) → IsRowFor job.now.program.now self.old row.old m → may (slots job.now.program.now job.now.limits.discipline) m known.now.process ≡ true → IsOneLeg job.now.program.now job.now.limits.discipline self.new.cache.store self.new.cache.table job.now.limits.steps m known.now.process shown.old.items row.new shown.new.items)) }
    {
        let _ = job;
        let Turn::Due = self.pass(row, known) else {
            return Ok(None);
        };
        add_shown(shown, known.leg.shown)?;
        let table = &self.cache.table;
        let before = numbers.numbers[0];
        let statuses = number_statuses(alloc, table, row, before, known.is_still, &mut self.lists)?;
        let is_first = is_in_first(table, known.process as usize);
        Ok(Some(numbers.with(statuses, is_first, known.after)))
    }
}
