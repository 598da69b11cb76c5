//! What is known of legs, by what they found where they touched the machine.

ghost use Rattle.std.specs.Prelude.{◌≡◌, ◌^◌, ◌<◌, ◌∷◌, ℕ, length, true, All, IfOk, OnOk};
ghost use Rattle.cp_effects.specs.Changes.{numbers_at};
ghost use Rattle.cp_effects.specs.Known.{known_at};
ghost use Rattle.cp_effects.specs.Noting.{among};

use crate::changes::{Write, number_in};
use crate::effect::Effect;
use crate::leg::WatchedLeg;
use crate::touched::Touched;
use cp_machine::Shown;
use cp_parts::PlaceTable;
use cp_states::ListStore;
use std::alloc::{AllocError, Global};

/// A leg that is remembered.
#[derive(Clone, Copy, Drop)]
pub struct KnownLeg {
    pub leg: WatchedLeg,
    /// What its last step displayed.
    pub shown: Option<Shown>,
    /// Where what it changed begins and ends.
    pub from: usize,
    pub to: usize,
}

/// What is known of a leg.
#[derive(Clone, Copy, Drop)]
pub enum Known {
    Nothing,
    /// It can't be remembered.
    TooMuch,
    Leg(KnownLeg),
}

/// The legs that are known, each with its key: a process, the places that were touched, and the numbers of the parts there.
#[derive(Drop)]
pub struct EffectTable {
    /// Places that legs touched.
    pub scopes: ListStore<u32>,
    pub keys: ListStore<u32>,
    pub known: Vec<Known>,
    pub writes: Vec<Write>,
}

// The key of a leg: its process, the number of the places, and the numbers that a row has there.
fn put_key(
    key: &mut Vec<u32>,
    table: &PlaceTable,
    places: &[u32],
    row: &[u32],
    pid: u8,
    scope: u32,
) -> Result<(), AllocError>
    ensures { IfOk result (λ _. key.new.items ≡ pid ∷ scope ∷ numbers_at table.now places.now row.now) }
{
    key.clear();
    key.push(u32::from(pid))?;
    key.push(scope)?;
    let first = table.pending_position() + 1;
    for place in places {
        key.push(number_in(row, first + *place as usize))?;
    }
    Ok(())
}

// The places that were touched, as a list.
fn put_scope(scope: &mut Vec<u32>, touched: &Touched) -> Result<(), AllocError>
    requires { All (λ place. place < 2 ^ 32) touched.now.places.items }
    ensures { IfOk result (λ _. scope.new.items ≡ touched.now.places.items) }
{
    scope.clear();
    for place in touched.places.as_slice() {
        scope.push(*place as u32)?;
    }
    Ok(())
}

// There is room for what is known of a key.
fn make_room(known: &mut Vec<Known>, key: usize) -> Result<(), AllocError>
    requires { key < 2 ^ 32 }
    ensures long { OnOk result (key < length known.new.items) }
    ensures same { (k : ℕ) → known_at known.new.items k ≡ known_at known.old.items k }
{
    if key < known.len() {
        return Ok(());
    }
    known.resize(key + 1, Known::Nothing)
}

impl EffectTable {
    ghost use Rattle.std.specs.Prelude.{List, option_to_list};
    ghost use Rattle.cp_slots.specs.Tables.{Tables};
    ghost use Rattle.cp_machine.specs.declared.discipline.Discipline.{Discipline};
    ghost use Rattle.cp_states.specs.Pieces.{IsPiece, KeepPieces, piece_at};
    ghost use Rattle.cp_parts.specs.declared.store.PartStore.{PartStore};
    ghost use Rattle.cp_effects.specs.Known.{AreKnown, IsKeyOf};
    ghost use Rattle.cp_effects.specs.Remembered.{IsRemembered};

    /// Nothing is known.
    pub fn new(alloc: Global) -> EffectTable
        ensures { (s : PartStore) (t : PlaceTable) (r : Tables) (discipline : Discipline) → AreKnown s t r discipline result }
    {
        EffectTable {
            scopes: ListStore::new(alloc),
            keys: ListStore::new(alloc),
            known: Vec::new(alloc),
            writes: Vec::new(alloc),
        }
    }

    /// The number of the places that a leg touched.
    pub fn number_scope(
        &mut self,
        alloc: Global,
        scope: &mut Vec<u32>,
        touched: &Touched,
    ) -> Result<u32, AllocError>
        requires { (place : ℕ) → among touched.now.places.items place ≡ true → place < 2 ^ 32 }
        ensures scope { IfOk result (λ n. IsPiece self.new.scopes.items.items self.new.scopes.ends.items n touched.now.places.items) }
        ensures known { (s : PartStore) (t : PlaceTable) (r : Tables) (discipline : Discipline) → AreKnown s t r discipline self.old → AreKnown s t r discipline self.new }
        ensures kept { KeepPieces self.old.scopes.items.items self.old.scopes.ends.items self.new.scopes.items.items self.new.scopes.ends.items }
    {
        put_scope(scope, touched)?;
        self.scopes.number_of(alloc, scope)
    }

    /// The number of the key of a leg that touches the places of a number in the state of a row.
    pub fn number_key(
        &mut self,
        alloc: Global,
        key: &mut Vec<u32>,
        table: &PlaceTable,
        row: &[u32],
        pid: u8,
        scope: u32,
    ) -> Result<u32, AllocError>
        requires { scope < length self.old.scopes.ends.items }
        ensures key { IfOk result (λ k. IsKeyOf self.new k pid scope (numbers_at table.now (piece_at self.new.scopes.items.items self.new.scopes.ends.items scope) row.now)) }
        ensures known { (s : PartStore) (t : PlaceTable) (r : Tables) (discipline : Discipline) → AreKnown s t r discipline self.old → AreKnown s t r discipline self.new }
        ensures scopes { self.new.scopes ≡ self.old.scopes }
    {
        put_key(key, table, self.scopes.at(scope as usize), row, pid, scope)?;
        self.keys.number_of(alloc, key)
    }

    /// What is known of a key.
    #[inline(always)]
    pub fn at(&self, key: u32) -> Known
        ensures { result ≡ known_at self.now.known.items key }
    {
        match self.known.get(key as usize) {
            Some(known) => *known,
            None => Known::Nothing,
        }
    }

    // This is known of a key.
    fn set(&mut self, key: u32, known: Known) -> Result<(), AllocError>
        ensures here { OnOk result (known_at self.new.known.items key ≡ known) }
        ensures others { (k : ℕ) → (k ≡ key → ⊥) → known_at self.new.known.items k ≡ known_at self.old.known.items k }
        ensures rest { (self.new.scopes ≡ self.old.scopes) × (self.new.keys ≡ self.old.keys) × (self.new.writes ≡ self.old.writes) }
    {
        let at = key as usize;
        make_room(&mut self.known, at)?;
        self.known[at] = known;
        Ok(())
    }

    /// That no leg can be remembered is known of a key from now on.
    pub fn give_up(&mut self, key: u32) -> Result<(), AllocError>
        ensures here { IfOk result (λ _. known_at self.new.known.items key ≡ Known.TooMuch) }
        ensures known { IfOk result (λ _. (s : PartStore) (t : PlaceTable) (r : Tables) (discipline : Discipline) → AreKnown s t r discipline self.old → AreKnown s t r discipline self.new) }
        ensures scopes { self.new.scopes ≡ self.old.scopes }
    {
        self.set(key, Known::TooMuch)?;
        Ok(())
    }

    /// A leg that was made is known of a key from now on.
    pub fn remember(&mut self, key: u32, effect: &Effect) -> Result<KnownLeg, AllocError>
        ensures here { IfOk result (λ leg. known_at self.new.known.items key ≡ Known.Leg leg) }
        ensures known { IfOk result (λ _. (s : PartStore) (t : PlaceTable) (r : Tables) (discipline : Discipline) (pid scope : ℕ) (numbers : List ℕ) → AreKnown s t r discipline self.old → IsKeyOf self.old key pid scope numbers → IsRemembered s t r discipline pid (piece_at self.old.scopes.items.items self.old.scopes.ends.items scope) numbers effect.now.leg (option_to_list effect.now.shown) effect.now.writes.items → AreKnown s t r discipline self.new) }
        ensures scopes { self.new.scopes ≡ self.old.scopes }
        ensures keys { self.new.keys ≡ self.old.keys }
    {
        let from = self.writes.len();
        self.writes.extend_from_slice(&effect.writes)?;
        let leg = KnownLeg {
            leg: effect.leg,
            shown: effect.shown,
            from,
            to: self.writes.len(),
        };
        self.set(key, Known::Leg(leg))?;
        Ok(leg)
    }
}
