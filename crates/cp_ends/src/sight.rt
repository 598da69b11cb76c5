//! What is seen of stretches besides what they display.

use crate::look::Look;
use cp_slots::Resolved;

/// What is seen of due choices and of the moments after them.
pub trait Sight: Copy + Drop {
    ghost use Rattle.std.specs.Prelude.{◌∷◌, ◌++◌, List, [], ℕ};
    ghost use Rattle.cp_slots.specs.Tables.{Tables};
    ghost use Rattle.cp_machine.specs.System.{Machine};
    ghost use Rattle.cp_machine.specs.declared.discipline.Discipline.{Discipline};
    ghost use Rattle.cp_endless_laws.specs.Moments.{Moment};
    ghost use Rattle.cp_ends.specs.Legs.{IsAlike};

    /// This is what a look at a machine sees.
    ghost looks: { Self → Tables → Machine → Type 0 };

    /// This is what is seen of these due choices and of the moments after them.
    ghost sees: { Self → Tables → Discipline → List Machine → List (Moment Machine) → Type 0 };

    /// What a look sees.
    fn look<L: Look>(look: &L) -> Self
        requires { (r : Tables) × (m : Machine) × L.looks look.now r m }
        ensures { (r : Tables) (m : Machine) → L.looks look.now r m → looks result r m };

    /// What was seen there, at a due choice.
    fn due(self) -> Self
        ensures { (r : Tables) (discipline : Discipline) (m : Machine) → looks self r m → sees result r discipline (m ∷ []) [] };

    /// What was seen there, at the moment before a step of a process.
    fn moved(self, mover: u8) -> Self
        ensures { (r : Tables) (discipline : Discipline) (m : Machine) → looks self r m → sees result r discipline [] (record { state = m; mover = mover } ∷ []) };

    /// Nothing was seen yet.
    fn begin(program: &Resolved) -> Self
        ensures { (discipline : Discipline) → sees result program.now discipline [] [] };

    /// The moments of another one come after these.
    fn then(&mut self, other: &Self)
        ensures { (r : Tables) (discipline : Discipline) (due : List Machine) (ms ns : List (Moment Machine)) → sees self.old r discipline due ms → sees other.now r discipline [] ns → sees self.new r discipline due (ms ++ ns) };

    /// A moment that is like the one before it is seen with that one.
    ghost alike: { (w : Self) (r : Tables) (discipline : Discipline) (due : List Machine) (ms : List (Moment Machine)) (m n : Machine) (p : ℕ) → IsAlike m n → sees w r discipline due (ms ++ record { state = m; mover = p } ∷ []) → sees w r discipline due ((ms ++ record { state = m; mover = p } ∷ []) ++ record { state = n; mover = p } ∷ []) };
}

/// Nothing is seen.
#[derive(Clone, Copy)]
pub struct Unseen;

impl Sight for Unseen {
    ghost looks = { λ unseen r m. Unit {0} };

    ghost sees = { λ unseen r discipline due ms. Unit {0} };

    #[inline(always)]
    fn look<L: Look>(_look: &L) -> Unseen {
        Unseen
    }

    #[inline(always)]
    fn due(self) -> Unseen {
        Unseen
    }

    #[inline(always)]
    fn moved(self, _mover: u8) -> Unseen {
        Unseen
    }

    #[inline(always)]
    fn begin(_program: &Resolved) -> Unseen {
        Unseen
    }

    #[inline(always)]
    fn then(&mut self, _other: &Unseen) {}

    ghost alike = { λ unseen r discipline due ms m n p like seen. seen };
}
