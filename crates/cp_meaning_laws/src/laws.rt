//! Laws over the definitions alone, of every program that the checker accepts.

ghost use Rattle.cp_meaning_laws.specs.Accepted.{ExclusiveLaw, HolderLaw, OwnershipLaw, WellFormedLaw};

/// An accepted program has what the laws of exclusion and ownership need.
pub fn law_accepted_well_formed()
    ensures { WellFormedLaw }
{}

/// In no reached state of an accepted program are two processes inside one monitor, or one inside that another one initialises.
pub fn law_exclusive()
    ensures { ExclusiveLaw }
{}

/// Whoever is inside a monitor of an accepted program is its holder.
pub fn law_holder()
    ensures { HolderLaw }
{}

/// In every step of an accepted program each changed variable is one that the process holds before it.
pub fn law_ownership()
    ensures { OwnershipLaw }
{}
