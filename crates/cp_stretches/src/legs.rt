//! The legs that are known, and where they look.

ghost use Rattle.std.specs.Prelude.{◌≡◌, ◌+◌, ◌^◌, ◌<◌, ℕ, length, option_to_list, true, IfOk, IfSome, OnOk};
ghost use Rattle.cp_slots.specs.Tables.{Tables};
ghost use Rattle.cp_machine.specs.declared.discipline.Discipline.{Discipline};
ghost use Rattle.cp_parts.specs.declared.placing.PlaceTable.{PlaceTable};
ghost use Rattle.cp_parts.specs.declared.store.PartStore.{PartStore};
ghost use Rattle.cp_parts.specs.Placed.{IsPlaced};
ghost use Rattle.cp_effects.specs.declared.table.KnownLeg.{KnownLeg};
ghost use Rattle.cp_effects.specs.Changes.{numbers_at};
ghost use Rattle.cp_effects.specs.Known.{AreKnown};
ghost use Rattle.cp_effects.specs.Noting.{among};
ghost use Rattle.cp_effects.specs.Remembered.{IsRemembered};
ghost use Rattle.cp_stretches.specs.Telling.{HasKey, IfSought, IsSought, IsTold};

use cp_effects::{Effect, EffectTable, Known, KnownLeg, Touched};
use cp_parts::PlaceTable;
use std::alloc::{AllocError, Global};

/// By which key a leg was looked for, and the number of the places that it was looked for by.
#[derive(Clone, Copy, Drop)]
pub struct LegKey {
    pub scope: u32,
    pub key: u32,
}

/// What a look came to.
#[derive(Clone, Copy, Drop)]
pub enum Looked {
    /// Nothing is known. Legs of such a process were looked for by this key, if any was made.
    Nothing(Option<LegKey>),
    /// The leg can't be remembered.
    TooMuch,
    Leg(KnownLeg),
}

/// The legs that are known, and which places the legs were seen to touch that a process made whose part has a number.
#[derive(Drop)]
pub struct LegTable {
    pub effects: EffectTable,
    /// By the number of the part, the number of the places.
    pub scopes: Vec<Option<u32>>,
    /// Room for a key, and for places.
    pub key: Vec<u32>,
    pub places: Vec<u32>,
}

// Whether these are the same places, in the same order.
#[inline(always)]
fn are_same(places: &[u32], others: &[usize]) -> bool
    ensures { result ≡ true → places.now ≡ others.now }
{
    if places.len() != others.len() {
        return false;
    }
    for at in 0..places.len() {
        if places[at] as usize != others[at] {
            return false;
        }
    }
    true
}

// There is room for the places of a part.
fn make_room(scopes: &mut Vec<Option<u32>>, part: usize) -> Result<(), AllocError>
    requires { part < 2 ^ 32 }
    ensures { OnOk result (part < length scopes.new.items) }
{
    if part < scopes.len() {
        return Ok(());
    }
    scopes.resize(part + 1, None)
}

impl LegTable {
    /// Nothing is known.
    pub fn new(alloc: Global) -> LegTable
        ensures { (s : PartStore) (t : PlaceTable) (r : Tables) (discipline : Discipline) → AreKnown s t r discipline result.effects }
    {
        LegTable {
            effects: EffectTable::new(alloc),
            scopes: Vec::new(alloc),
            key: Vec::new(alloc),
            places: Vec::new(alloc),
        }
    }

    // The number of the places that legs of a process with this part were seen to touch.
    #[inline(always)]
    fn scope(&self, part: u32) -> Option<u32>
        ensures { IfSome result (λ scope. scope < length self.now.effects.scopes.ends.items) }
    {
        let Some(Some(scope)) = self.scopes.get(part as usize) else {
            return None;
        };
        if (*scope as usize) < self.effects.scopes.len() {
            Some(*scope)
        } else {
            None
        }
    }

    /// What is known of the leg of a process in the state of a row.
    #[inline(always)]
    pub fn look(
        &mut self,
        alloc: Global,
        table: &PlaceTable,
        row: &[u32],
        pid: u8,
    ) -> Result<Looked, AllocError>
        requires pid { pid < table.now.processes }
        requires long { length row.now ≡ table.now.processes + 1 + (table.now.processes + table.now.monitors) }
        ensures told { IfOk result (λ looked. (s : PartStore) (r : Tables) (discipline : Discipline) (e : KnownLeg) → IsPlaced r table.now → AreKnown s table.now r discipline self.old.effects → looked ≡ Looked.Leg e → IsTold s table.now r discipline self.new.effects row.now pid e) }
        ensures sought { IfOk result (λ looked. IfSought looked (λ k. IsSought self.new.effects table.now row.now pid k)) }
        ensures known { (s : PartStore) (t : PlaceTable) (r : Tables) (discipline : Discipline) → AreKnown s t r discipline self.old.effects → AreKnown s t r discipline self.new.effects }
    {
        let part = row[table.part_position(pid as usize)];
        let Some(scope) = self.scope(part) else {
            return Ok(Looked::Nothing(None));
        };
        let key = self
            .effects
            .number_key(alloc, &mut self.key, table, row, pid, scope)?;
        match self.effects.at(key) {
            Known::Nothing => Ok(Looked::Nothing(Some(LegKey { scope, key }))),
            Known::TooMuch => Ok(Looked::TooMuch),
            Known::Leg(leg) => Ok(Looked::Leg(leg)),
        }
    }

    /// The places that legs of a process with the part that it has in a row were seen to touch.
    pub fn touched_from(&self, table: &PlaceTable, row: &[u32], pid: u8) -> Touched
        requires pid { pid < table.now.processes }
        requires long { length row.now ≡ table.now.processes + 1 + (table.now.processes + table.now.monitors) }
    {
        let mut touched = Touched::nothing();
        let Some(scope) = self.scope(row[table.part_position(pid as usize)]) else {
            return touched;
        };
        for place in self.effects.scopes.at(scope as usize) {
            let _ = touched.add(*place as usize);
        }
        touched
    }

    // Legs of a process with this part are looked for by the places of a number.
    fn set_scope(&mut self, part: u32, scope: u32) -> Result<(), AllocError>
        ensures { self.new.effects ≡ self.old.effects }
    {
        let at = part as usize;
        make_room(&mut self.scopes, at)?;
        self.scopes[at] = Some(scope);
        Ok(())
    }

    // The key of the leg of a process that touched these places, in the state of a row.
    fn number_key(
        &mut self,
        alloc: Global,
        table: &PlaceTable,
        row: &[u32],
        pid: u8,
        touched: &Touched,
    ) -> Result<u32, AllocError>
        requires pid { pid < table.now.processes }
        requires long { length row.now ≡ table.now.processes + 1 + (table.now.processes + table.now.monitors) }
        requires inside { (place : ℕ) → among touched.now.places.items place ≡ true → place < 2 ^ 32 }
        ensures key { IfOk result (λ key. HasKey self.new.effects key pid touched.now.places.items (numbers_at table.now touched.now.places.items row.now)) }
        ensures known { IfOk result (λ _. (s : PartStore) (t : PlaceTable) (r : Tables) (discipline : Discipline) → AreKnown s t r discipline self.old.effects → AreKnown s t r discipline self.new.effects) }
    {
        let scope = self.effects.number_scope(alloc, &mut self.places, touched)?;
        self.set_scope(row[table.part_position(pid as usize)], scope)?;
        let key = self
            .effects
            .number_key(alloc, &mut self.key, table, row, pid, scope)?;
        Ok(key)
    }

    // The key of the leg of a process that touched these places: the one that it was looked for by, if these are its places.
    #[inline(always)]
    fn key_after(
        &mut self,
        alloc: Global,
        table: &PlaceTable,
        row: &[u32],
        pid: u8,
        sought: Option<LegKey>,
        touched: &Touched,
    ) -> Result<u32, AllocError>
        requires pid { pid < table.now.processes }
        requires long { length row.now ≡ table.now.processes + 1 + (table.now.processes + table.now.monitors) }
        requires inside { (place : ℕ) → among touched.now.places.items place ≡ true → place < 2 ^ 32 }
        requires sought { IfSome sought (λ k. IsSought self.old.effects table.now row.now pid k) }
        ensures key { IfOk result (λ key. HasKey self.new.effects key pid touched.now.places.items (numbers_at table.now touched.now.places.items row.now)) }
        ensures known { IfOk result (λ _. (s : PartStore) (t : PlaceTable) (r : Tables) (discipline : Discipline) → AreKnown s t r discipline self.old.effects → AreKnown s t r discipline self.new.effects) }
    {
        let Some(known) = sought else {
            return self.number_key(alloc, table, row, pid, touched);
        };
        let places = self.effects.scopes.at(known.scope as usize);
        if are_same(places, touched.places.as_slice()) {
            return Ok(known.key);
        }
        self.number_key(alloc, table, row, pid, touched)
    }

    /// What was made of the leg of a process in the state of a row, where it touched these places, is known from now on. Answers the leg, if it can be
    /// remembered. The key is what it was looked for by.
    pub fn note(
        &mut self,
        alloc: Global,
        table: &PlaceTable,
        row: &[u32],
        pid: u8,
        sought: Option<LegKey>,
        touched: &Touched,
        made: Option<Effect>,
    ) -> Result<Option<KnownLeg>, AllocError>
        requires pid { pid < table.now.processes }
        requires long { length row.now ≡ table.now.processes + 1 + (table.now.processes + table.now.monitors) }
        requires sought { IfSome sought (λ k. IsSought self.old.effects table.now row.now pid k) }
        ensures { IfOk result (λ known. (s : PartStore) (r : Tables) (discipline : Discipline) → IsPlaced r table.now → AreKnown s table.now r discipline self.old.effects → IfSome made (λ e. IsRemembered s table.now r discipline pid touched.now.places.items (numbers_at table.now touched.now.places.items row.now) e.leg (option_to_list e.shown) e.writes.items) → AreKnown s table.now r discipline self.new.effects × IfSome known (λ e. IsTold s table.now r discipline self.new.effects row.now pid e)) }
    {
        if !touched.are_below(table.places()) {
            return Ok(None);
        }
        let key = self.key_after(alloc, table, row, pid, sought, touched)?;
        match made {
            Some(effect) => {
                let leg = self.effects.remember(key, &effect)?;
                Ok(Some(leg))
            }
            None => {
                self.effects.give_up(key)?;
                Ok(None)
            }
        }
    }
}
