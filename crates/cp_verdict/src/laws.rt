//! Laws over the definitions alone.

ghost use Rattle.cp_machine.specs.System.{Machine};
ghost use Rattle.cp_machine.specs.declared.discipline.Discipline.{Discipline};
ghost use Rattle.cp_meaning.specs.State.{State};
ghost use Rattle.cp_run.specs.Slots.{slots};
ghost use Rattle.cp_run.specs.System.{System};
ghost use Rattle.cp_slots.specs.Tables.{Tables};
ghost use Rattle.cp_verdict.specs.Lasting.{HoldsLaw, KeepsOutput, StaysLaw};

/// An expectation that holds is true of every table of more choices.
pub fn law_holds()
    ensures machine { (sys : System Machine) → HoldsLaw sys }
    ensures meaning { (sys : System State) → HoldsLaw sys }
{}

/// What a schedule shows is shown with every greater number of choices, unless it ended for want of choices.
pub fn law_stays()
    ensures machine { (sys : System Machine) → StaysLaw sys }
    ensures meaning { (sys : System State) → StaysLaw sys }
{}

/// What the slot machine displayed is never taken back.
pub fn law_output()
    ensures { (r : Tables) (discipline : Discipline) → KeepsOutput (slots r discipline) }
{}
