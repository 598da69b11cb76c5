//! Laws over the definitions alone, of what is remembered of legs.

ghost use Rattle.cp_effects.specs.Admitting.{AdmissionRowLaw};
ghost use Rattle.cp_effects.specs.Remembered.{LookLaw};

/// A machine that has the numbers that are remembered of a leg, where the leg touched the machine, makes this leg: its row changes as it is remembered.
pub fn law_look()
    ensures { LookLaw }
{}

/// A machine that has the number that is remembered of an admission has the row afterwards that is remembered.
pub fn law_admission_row()
    ensures { AdmissionRowLaw }
{}
