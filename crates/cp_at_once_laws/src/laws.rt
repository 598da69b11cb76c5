//! Laws over the definitions alone, of calls that are made at once.

ghost use Rattle.cp_machine.specs.System.{Machine};
ghost use Rattle.cp_meaning.specs.State.{State};
ghost use Rattle.cp_run.specs.System.{System};
ghost use Rattle.cp_at_once_laws.specs.Found.{AtOnceNames};
ghost use Rattle.cp_at_once_laws.specs.Limited.{SearchesTrue};
ghost use Rattle.cp_at_once_laws.specs.OnSlots.{LeavesNothingOut, RepeatsByOneLaw};
ghost use Rattle.cp_at_once_laws.specs.Quiet.{CommutesLaw};
ghost use Rattle.cp_at_once_laws.specs.Whole.{GreaterLimits};

/// A quiet step and a step of another ready process make the same state in either order, and each tells the same.
pub fn law_commute()
    ensures { CommutesLaw }
{}

/// The search that makes quiet legs at once finds what schedules of any length come to, and nothing else: whoever is taken, and however many in a row.
pub fn law_at_once()
    ensures { AtOnceNames }
{}

/// With a limit of steps: what the search comes to, some word leads to.
pub fn law_words()
    ensures machine { (sys : System Machine) → SearchesTrue sys }
    ensures meaning { (sys : System State) → SearchesTrue sys }
{}

/// A search on the slot machine that makes quiet legs at once, with a limit of steps and of legs in a row, leaves no end and no value out: whatever a schedule of the
/// program comes to on its own names, with any limit of steps, is told, but for the limit itself.
pub fn law_nothing_left_out()
    ensures { LeavesNothingOut }
{}

/// An end that is told, and is no limit of steps, is one with each greater limit too, after the same word. So from some limit on, what is told and what schedules
/// come to are the same ends, but for the limit itself.
pub fn law_greater_limits()
    ensures machine { (sys : System Machine) → GreaterLimits sys }
    ensures meaning { (sys : System State) → GreaterLimits sys }
{}

/// A stretch that is seen to repeat on the slot machine goes on for ever on the program's own names, and from some step on one process makes each of its steps: so
/// who is told to be alone, or to spin, by a search of each choice is told by a search that leaves nothing out.
pub fn law_repeats()
    ensures { RepeatsByOneLaw }
{}
