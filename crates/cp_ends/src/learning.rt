//! How moves become known.

ghost use Rattle.std.specs.Prelude.{◌≡◌, ◌<◌, ◌≤◌, ℕ, All, List, length, true, IfOk, IfSome};
ghost use Rattle.cp_slots.specs.Tables.{Tables};
ghost use Rattle.cp_machine.specs.declared.discipline.Discipline.{Discipline};
ghost use Rattle.cp_machine.specs.System.{Machine};
ghost use Rattle.cp_states.specs.Pieces.{IsPiece, KeepPieces};
ghost use Rattle.cp_effects.specs.Changes.{written};
ghost use Rattle.cp_effects.specs.Known.{writes_of};
ghost use Rattle.cp_stretches.specs.Cached.{IsCache};
ghost use Rattle.cp_ends.specs.Halves.{half_in, is_in_first as is_first_at, width_of};
ghost use Rattle.cp_ends.specs.Holds.{AreStates};
ghost use Rattle.cp_ends.specs.Moves.{HasHalf, IsLegAt};
ghost use Rattle.cp_ends.specs.Rows.{IsHalved, IsRowFor};

use crate::halving::{are_in, deal, is_in_first};
use crate::moves::Move;
use crate::row::HalvedRow;
use crate::states::States;
use cp_effects::{Known, KnownLeg, Write, write_row};
use cp_states::ListStore;
use cp_stretches::LegCache;
use cp_stretches::numbers::is_free;
use std::alloc::{AllocError, Global};

/// A leg that is known, and the number of the places that it touched.
#[derive(Clone, Copy, Drop)]
pub struct PlacedLeg {
    pub scope: u32,
    pub leg: KnownLeg,
}

// The leg that is known of a process in the state of a row, if one is.
fn look(
    alloc: Global,
    cache: &mut LegCache,
    row: &[u32],
    process: u8,
) -> Result<Option<PlacedLeg>, AllocError>
    requires process { process < cache.old.table.processes }
    requires long { length row.now ≡ width_of cache.old.table }
    ensures there { IfOk result (λ looked. IfSome looked (λ placed. placed.scope < length cache.new.legs.effects.scopes.ends.items)) }
    ensures leg { IfOk result (λ looked. IfSome looked (λ placed. (r : Tables) (discipline : Discipline) → IsCache r discipline cache.old → IsLegAt r discipline cache.new row.now process placed.scope placed.leg)) }
    ensures known { (r : Tables) (discipline : Discipline) → IsCache r discipline cache.old → IsCache r discipline cache.new }
    ensures store { cache.new.store ≡ cache.old.store }
    ensures table { cache.new.table ≡ cache.old.table }
{
    let part = row[cache.table.part_position(process as usize)];
    let Some(Some(scope)) = cache.legs.scopes.get(part as usize) else {
        return Ok(None);
    };
    let scope = *scope;
    if scope as usize >= cache.legs.effects.scopes.len() {
        return Ok(None);
    }
    let key = cache.legs.effects.number_key(
        alloc,
        &mut cache.legs.key,
        &cache.table,
        row,
        process,
        scope,
    )?;
    let Known::Leg(leg) = cache.legs.effects.at(key) else {
        return Ok(None);
    };
    Ok(Some(PlacedLeg { scope, leg }))
}

// What a leg that is known changes of a row.
#[inline(always)]
fn writes_of_leg<'a>(cache: &'a LegCache, leg: &KnownLeg) -> &'a [Write]
    requires rising { leg.now.from ≤ leg.now.to }
    requires within { leg.now.to ≤ length cache.now.legs.effects.writes.items }
    ensures { result.now ≡ writes_of cache.now.legs.effects.writes.items leg.now }
{
    &cache.legs.effects.writes[leg.from..leg.to]
}

// The number of a half of the row after a leg.
fn number_after(
    alloc: Global,
    cache: &LegCache,
    row: &[u32],
    is_first: bool,
    leg: &KnownLeg,
    lists: &mut ListStore<u32>,
) -> Result<u32, AllocError>
    requires long { length row.now ≡ width_of cache.now.table }
    requires rising { leg.now.from ≤ leg.now.to }
    requires within { leg.now.to ≤ length cache.now.legs.effects.writes.items }
    requires inside { All (λ w. w.position < length row.now) (writes_of cache.now.legs.effects.writes.items leg.now) }
    ensures number { IfOk result (λ n. IsPiece lists.new.items.items lists.new.ends.items n (half_in cache.now.table is_first (written (writes_of cache.now.legs.effects.writes.items leg.now) row.now))) }
    ensures kept { KeepPieces lists.old.items.items lists.old.ends.items lists.new.items.items lists.new.ends.items }
{
    let mut after = Vec::from_slice(alloc, row)?;
    write_row(&mut after, writes_of_leg(cache, leg));
    let dealt = deal(&cache.table, &after);
    if is_first {
        dealt.first.number(alloc, lists)
    } else {
        dealt.second.number(alloc, lists)
    }
}

// Whether all is written behind a position.
fn are_behind(position: usize, writes: &[Write]) -> bool
    ensures { result ≡ true → All (λ w. position < w.position) writes.now }
{
    for write in writes {
        if write.position as usize <= position {
            return false;
        }
    }
    true
}

impl States {
    // What a process does in the state of a row is known as a move from now on, if its leg is known and touches nothing outside of this half.
    #[inline(never)]
    fn learn_move(
        &mut self,
        alloc: Global,
        row: &[u32],
        half: u32,
        process: u8,
    ) -> Result<(), AllocError>
        requires process { process < self.old.cache.table.processes }
        requires half { HasHalf self.old (is_first_at self.old.cache.table process) half row.now }
        requires states { (r : Tables) × (states : List (Machine × List ℕ)) × AreStates r self.old states }
        ensures kept { IfOk result (λ _. (r : Tables) (states : List (Machine × List ℕ)) → AreStates r self.old states → AreStates r self.new states) }
        ensures rows { (r : Tables) (list : List ℕ) (m : Machine) → IsRowFor r self.old list m → IsRowFor r self.new list m }
        ensures lists { (numbers list : List ℕ) → IsHalved self.old numbers list → IsHalved self.new numbers list }
        ensures table { self.new.cache.table ≡ self.old.cache.table }
        ensures ruled { self.new.discipline ≡ self.old.discipline }
    {
        let Some(placed) = look(alloc, &mut self.cache, row, process)? else {
            self.moves.give_up(half, process);
            return Ok(());
        };
        let is_first = is_in_first(&self.cache.table, process as usize);
        let places = self.cache.legs.effects.scopes.at(placed.scope as usize);
        if !are_in(&self.cache.table, is_first, places) {
            self.moves.give_up(half, process);
            return Ok(());
        }
        let leg = placed.leg;
        let after = number_after(alloc, &self.cache, row, is_first, &leg, &mut self.lists)?;
        let pending = self.cache.table.pending_position();
        let writes = writes_of_leg(&self.cache, &leg);
        let known = Move {
            process,
            before: half,
            after,
            is_still: are_behind(pending, writes),
            leg,
        };
        self.moves.add(known, writes)
    }

    /// A choice was taken in the state of a row with these numbers. What the process did there is learned as a move, if it is time to.
    #[inline(always)]
    pub fn learn(
        &mut self,
        alloc: Global,
        row: &[u32],
        numbers: HalvedRow,
        process: u8,
    ) -> Result<(), AllocError>
        requires process { process < self.old.cache.table.processes }
        requires long { length row.now ≡ width_of self.old.cache.table }
        requires halved { IsHalved self.old numbers.numbers row.now }
        requires states { (r : Tables) × (states : List (Machine × List ℕ)) × AreStates r self.old states }
        ensures kept { IfOk result (λ _. (r : Tables) (states : List (Machine × List ℕ)) → AreStates r self.old states → AreStates r self.new states) }
        ensures rows { (r : Tables) (list : List ℕ) (m : Machine) → IsRowFor r self.old list m → IsRowFor r self.new list m }
        ensures lists { (numbers list : List ℕ) → IsHalved self.old numbers list → IsHalved self.new numbers list }
        ensures table { self.new.cache.table ≡ self.old.cache.table }
        ensures ruled { self.new.discipline ≡ self.old.discipline }
    {
        if !is_free(&self.cache.table, row) {
            return Ok(());
        }
        let half = numbers.half(is_in_first(&self.cache.table, process as usize));
        if !self.moves.wants(half, process)? {
            return Ok(());
        }
        self.learn_move(alloc, row, half, process)
    }
}
