//! Laws over the definitions alone.

ghost use Rattle.std.specs.Prelude.{◌≡◌, ℕ};
ghost use Rattle.cp_slots.specs.Tables.{Tables};
ghost use Rattle.cp_machine.specs.System.{Machine};
ghost use Rattle.cp_machine.specs.declared.discipline.Discipline.{Discipline};
ghost use Rattle.cp_key.specs.Key.{core_key};
ghost use Rattle.cp_run.specs.Slots.{slots};
ghost use Rattle.cp_run.specs.declared.outcome.Outcome.{Outcome};
ghost use Rattle.cp_ways.specs.Ways.{ways_to};

/// States that differ in what was displayed before, and in nothing else, have the same ways on.
pub fn law_alike()
    ensures { (r : Tables) (discipline : Discipline) (steps left : ℕ) (m n : Machine) → core_key m ≡ core_key n → (o : Outcome) → ways_to (slots r discipline) steps left m o ≡ ways_to (slots r discipline) steps left n o }
{}
