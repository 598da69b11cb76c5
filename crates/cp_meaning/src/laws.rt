//! Laws over the definitions alone.

ghost use Rattle.cp_meaning.specs.Exclusive.{ExclusiveLaw};
ghost use Rattle.cp_meaning.specs.OwnershipLaw.{OwnershipLaw};
ghost use Rattle.cp_meaning.specs.Readings.{HolderLaw};

/// In no reached state are two processes inside one monitor, or one inside that another one initialises.
pub fn law_exclusive()
    ensures { ExclusiveLaw }
{}

/// Whoever is inside a monitor is its holder.
pub fn law_holder()
    ensures { HolderLaw }
{}

/// In every step each changed variable is one that the process holds before it.
pub fn law_ownership()
    ensures { OwnershipLaw }
{}
