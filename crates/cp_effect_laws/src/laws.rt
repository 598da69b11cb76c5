//! Laws over the definitions alone, of what steps touch on the slot machine.

ghost use Rattle.cp_effect_laws.specs.Effects.{AdmissionLaw, LegLaw, StaysLaw, StepLaw, WalkedLaw};
ghost use Rattle.cp_effect_laws.specs.Parts.{EffectLaw};

/// A step does to a machine that agrees on what it touches what it does to the first one.
pub fn law_step()
    ensures { StepLaw }
{}

/// A leg from a machine that agrees on what it touches is as long and ends in the same event; it agrees there afterwards, and the rest is as it was.
pub fn law_leg()
    ensures { LegLaw }
{}

/// What a leg does not touch stays.
pub fn law_stays()
    ensures { StaysLaw }
{}

/// A leg is what a stretch begins with.
pub fn law_walked()
    ensures { WalkedLaw }
{}

/// Who is let in at a monitor is let in where others differ elsewhere.
pub fn law_admission()
    ensures { AdmissionLaw }
{}

/// A leg does the same in each machine that has the same in the places that it touches, and the other places are as they were.
pub fn law_effect()
    ensures { EffectLaw }
{}
