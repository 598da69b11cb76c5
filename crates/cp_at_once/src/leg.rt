//! Legs: the steps of a ready process up to and with its next kernel call or its end; and which of them are made at once.

ghost use Rattle.std.specs.Prelude.{◌≡◌, ◌<◌, ◌≤◌, ℕ, [], All, length, true, false, IfOk, IfSome};
ghost use Rattle.cp_slots.specs.Tables.{Tables};
ghost use Rattle.cp_machine.specs.System.{Machine, is_pending};
ghost use Rattle.cp_run.specs.Run.{may};
ghost use Rattle.cp_run.specs.Slots.{slots};
ghost use Rattle.cp_effects.specs.Changes.{written};
ghost use Rattle.cp_effects.specs.Known.{writes_of};
ghost use Rattle.cp_effects.specs.declared.table.KnownLeg.{KnownLeg};
ghost use Rattle.cp_states.specs.Numbers.{number_at};
ghost use Rattle.cp_parts.specs.Parts.{IsPartRow, part_at};
ghost use Rattle.cp_parts.specs.Placed.{place_count};
ghost use Rattle.cp_stretches.specs.Telling.{IsTold};
ghost use Rattle.cp_stretches.specs.declared.legs.Looked.TheVariants.{Leg};
ghost use Rattle.cp_ends.specs.Halves.{width_of};
ghost use Rattle.cp_ends.specs.Holds.{AreStates};
ghost use Rattle.cp_ends.specs.Rows.{IsRowFor};
ghost use Rattle.cp_at_once.specs.ByRows.{KeepStore, phases_number};
ghost use Rattle.cp_at_once.specs.Legs.{HasLeg, ends_quietly};

use crate::entering::EnteringParts;
use cp_effects::{KnownLeg, number_in, write_row};
use cp_ends::states::States;
use cp_machine::{Event, Kernel};
use cp_parts::PartStore;
use cp_run::Job;
use cp_stretches::LegCache;
use cp_stretches::legs::Looked;
use cp_stretches::numbers::is_free;
use std::alloc::{AllocError, Global};

// Whether a leg that ends in this event may be made at once: a kernel call that is no `enter`, or the end of the process.
fn is_quiet(event: Event) -> bool
    ensures { result ≡ ends_quietly event }
{
    match event {
        Event::Kernel(Kernel::Enter) => false,
        Event::Kernel(_) | Event::Ended => true,
        Event::Local | Event::Fault(_) | Event::OutputFull => false,
    }
}

// Whether two parts of one place have the components there in the same phases.
fn are_in_phase(store: &PartStore, part: u32, other: u32) -> bool
    requires part { part < length store.now.parts.ends.items }
    requires other { other < length store.now.parts.ends.items }
    ensures { result ≡ true → number_at (part_at store.now part) 2 ≡ number_at (part_at store.now other) 2 }
{
    if part == other {
        return true;
    }
    let phases = number_in(store.parts.at(part as usize), 2);
    phases == number_in(store.parts.at(other as usize), 2)
}

// Whether each component is in the same phase in the states of two rows.
fn has_same_phases(cache: &LegCache, row: &[u32], after: &[u32]) -> bool
    requires { (m n : Machine) × IsPartRow cache.now.store cache.now.table m row.now × IsPartRow cache.now.store cache.now.table n after.now }
    ensures { result ≡ true → (place : ℕ) → place < place_count cache.now.table → phases_number cache.now.store cache.now.table row.now place ≡ phases_number cache.now.store cache.now.table after.now place }
{
    for place in 0..cache.table.places() {
        let at = cache.table.part_position(place);
        if !are_in_phase(&cache.store, row[at], after[at]) {
            return false;
        }
    }
    true
}

// What is known of the leg of a process in the state of a row.
fn look(alloc: Global, rows: &mut States, row: &[u32], pid: u8) -> Result<Looked, AllocError>
    requires pid { pid < rows.old.cache.table.processes }
    requires long { length row.now ≡ width_of rows.old.cache.table }
    ensures kept { (r : Tables) → IfOk result (λ _. KeepStore r rows.old rows.new) }
    ensures told { (r : Tables) → IfOk result (λ looked. (e : KnownLeg) → AreStates r rows.old [] → looked ≡ Leg e → IsTold rows.new.cache.store rows.new.cache.table r rows.new.discipline rows.new.cache.legs.effects row.now pid e) }
{
    let cache = &mut rows.cache;
    cache.legs.look(alloc, &cache.table, row, pid)
}

// The leg of a ready process in the state of a row becomes known, if it can be, with the others of the stretch that it begins.
#[inline(never)]
fn learn(
    alloc: Global,
    job: &Job<'_>,
    rows: &mut States,
    row: &[u32],
    ahead: &mut [u32],
    pid: u8,
) -> Result<(), AllocError>
    requires known { AreStates job.now.program.now rows.old [] }
    requires ruled { rows.old.discipline ≡ job.now.limits.discipline }
    requires row { (m : Machine) × IsRowFor job.now.program.now rows.old row.now m × (may (slots job.now.program.now job.now.limits.discipline) m pid ≡ true) }
    requires ahead { length ahead.old ≡ length row.now }
    ensures kept { IfOk result (λ _. KeepStore job.now.program.now rows.old rows.new) }
    ensures ahead { length ahead.new ≡ length ahead.old }
{
    ahead.copy_from_slice(row);
    let mut shown = Vec::new(alloc);
    rows.leads(alloc, job, ahead, pid, &mut shown)?;
    Ok(())
}

// What is known of the leg of a ready process in the state of a row, or can be.
fn known_leg(
    alloc: Global,
    job: &Job<'_>,
    rows: &mut States,
    row: &[u32],
    ahead: &mut [u32],
    pid: u8,
) -> Result<Looked, AllocError>
    requires known { AreStates job.now.program.now rows.old [] }
    requires ruled { rows.old.discipline ≡ job.now.limits.discipline }
    requires pid { pid < rows.old.cache.table.processes }
    requires row { (m : Machine) × IsRowFor job.now.program.now rows.old row.now m × (may (slots job.now.program.now job.now.limits.discipline) m pid ≡ true) }
    requires ahead { length ahead.old ≡ length row.now }
    ensures kept { IfOk result (λ _. KeepStore job.now.program.now rows.old rows.new) }
    ensures ahead { length ahead.new ≡ length ahead.old }
    ensures told { IfOk result (λ looked. (e : KnownLeg) → looked ≡ Leg e → IsTold rows.new.cache.store rows.new.cache.table job.now.program.now rows.new.discipline rows.new.cache.legs.effects row.now pid e) }
{
    let looked = look(alloc, rows, row, pid)?;
    let Looked::Nothing(_) = looked else {
        return Ok(looked);
    };
    learn(alloc, job, rows, row, ahead, pid)?;
    look(alloc, rows, row, pid)
}

// A row becomes the one after a leg that is known.
#[inline(always)]
fn write_leg(cache: &LegCache, row: &mut [u32], leg: &KnownLeg)
    requires rising { leg.now.from ≤ leg.now.to }
    requires within { leg.now.to ≤ length cache.now.legs.effects.writes.items }
    requires inside { All (λ w. w.position < length row.old) (writes_of cache.now.legs.effects.writes.items leg.now) }
    ensures { row.new ≡ written (writes_of cache.now.legs.effects.writes.items leg.now) row.old }
{
    write_row(row, &cache.legs.effects.writes[leg.from..leg.to]);
}

// Whether the leg of a ready process may be made at once in the state of a row. There is room for a row.
fn has_quiet_leg(
    alloc: Global,
    job: &Job<'_>,
    rows: &mut States,
    row: &[u32],
    ahead: &mut [u32],
    entering: &mut EnteringParts,
    pid: u8,
) -> Result<bool, AllocError>
    requires known { AreStates job.now.program.now rows.old [] }
    requires ruled { rows.old.discipline ≡ job.now.limits.discipline }
    requires pid { pid < rows.old.cache.table.processes }
    requires row { (m : Machine) × IsRowFor job.now.program.now rows.old row.now m × (may (slots job.now.program.now job.now.limits.discipline) m pid ≡ true) × (is_pending m ≡ false) }
    requires ahead { length ahead.old ≡ length row.now }
    ensures kept { IfOk result (λ _. KeepStore job.now.program.now rows.old rows.new) }
    ensures ahead { length ahead.new ≡ length ahead.old }
    ensures leg { IfOk result (λ is_quiet. is_quiet ≡ true → (m : Machine) → IsRowFor job.now.program.now rows.old row.now m → may (slots job.now.program.now job.now.limits.discipline) m pid ≡ true → is_pending m ≡ false → HasLeg job.now.program.now job.now.limits.discipline m pid) }
{
    let part = row[rows.cache.table.part_position(pid as usize)];
    if entering.has(part) {
        return Ok(false);
    }
    let Looked::Leg(known) = known_leg(alloc, job, rows, row, ahead, pid)? else {
        return Ok(false);
    };
    if !is_quiet(known.leg.event) {
        entering.see(&rows.cache, part, &known)?;
        return Ok(false);
    }
    ahead.copy_from_slice(row);
    write_leg(&rows.cache, ahead, &known);
    Ok(has_same_phases(&rows.cache, row, ahead))
}

/// The least ready process whose leg may be made at once in the state of a row: it ends in a call that is no `enter` or in the end of the process, and leaves
/// the status of each component as it was. There is none where it is to be chosen who enters a monitor. There is room for a row.
pub fn process_at_once(
    alloc: Global,
    job: &Job<'_>,
    rows: &mut States,
    row: &[u32],
    ahead: &mut [u32],
    entering: &mut EnteringParts,
) -> Result<Option<u8>, AllocError>
    requires known { AreStates job.now.program.now rows.old [] }
    requires ruled { rows.old.discipline ≡ job.now.limits.discipline }
    requires row { (m : Machine) × IsRowFor job.now.program.now rows.old row.now m }
    requires ahead { length ahead.old ≡ length row.now }
    ensures kept { IfOk result (λ _. KeepStore job.now.program.now rows.old rows.new) }
    ensures ahead { length ahead.new ≡ length ahead.old }
    ensures leg { IfOk result (λ found. IfSome found (λ p. (m : Machine) → IsRowFor job.now.program.now rows.old row.now m → HasLeg job.now.program.now job.now.limits.discipline m p × (may (slots job.now.program.now job.now.limits.discipline) m p ≡ true))) }
{
    if !is_free(&rows.cache.table, row) {
        return Ok(None);
    }
    let candidates = rows.cache.candidates(row);
    for pid in candidates.as_slice() {
        if has_quiet_leg(alloc, job, rows, row, ahead, entering, *pid)? {
            return Ok(Some(*pid));
        }
    }
    Ok(None)
}
