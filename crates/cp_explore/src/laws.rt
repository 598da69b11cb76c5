//! Laws over the definitions alone, of any machine that steps: of the slot machine, and of the meaning on names.

ghost use Rattle.cp_machine.specs.System.{Machine};
ghost use Rattle.cp_meaning.specs.State.{State};
ghost use Rattle.cp_run.specs.System.{System};
ghost use Rattle.cp_explore.specs.Statements.{LayersLaw, ReportLaw, CompleteLaw, ClosedLaw, PrefixFreeLaw, MoreStepsLaw, GreaterLimitsLaw};

/// No word of a table begins another word of it.
pub fn law_prefix_free()
    ensures machine { (sys : System Machine) → PrefixFreeLaw sys }
    ensures meaning { (sys : System State) → PrefixFreeLaw sys }
{}

/// The tallies that the layers find, in the order of first words, are the tallies of the table.
pub fn law_layers()
    ensures machine { (sys : System Machine) → LayersLaw sys }
    ensures meaning { (sys : System State) → LayersLaw sys }
{}

/// Their text is the report of the table without its rows.
pub fn law_report()
    ensures machine { (sys : System Machine) → ReportLaw sys }
    ensures meaning { (sys : System State) → ReportLaw sys }
{}

/// A table in which no schedule ends for want of choices is the same with more choices.
pub fn law_complete()
    ensures machine { (sys : System Machine) → CompleteLaw sys }
    ensures meaning { (sys : System State) → CompleteLaw sys }
{}

/// Where no choice leads out of some states but to some kinds of ends, no schedule of any length ends otherwise.
pub fn law_closed()
    ensures machine { (sys : System Machine) → ClosedLaw sys }
    ensures meaning { (sys : System State) → ClosedLaw sys }
{}

/// The report of a table in which no schedule ends for want of steps is the same with more steps.
pub fn law_more_steps()
    ensures machine { (sys : System Machine) → MoreStepsLaw sys }
    ensures meaning { (sys : System State) → MoreStepsLaw sys }
{}

/// A table in which no schedule ends for want of choices or of steps is the same with more of both.
pub fn law_greater_limits()
    ensures machine { (sys : System Machine) → GreaterLimitsLaw sys }
    ensures meaning { (sys : System State) → GreaterLimitsLaw sys }
{}
