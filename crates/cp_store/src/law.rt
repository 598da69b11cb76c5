//! Laws of the definitions: sets by their members.

ghost use Rattle.cp_store.specs.SetLaws.{CombinationsJoinMembers, ElementsBecomeMembers, RangedMembersAreWithin, SetsAreReadBack};

/// The members of a union, a difference and an intersection.
pub fn law_combinations()
    ensures { CombinationsJoinMembers }
{}

/// The members of a set with one element more.
pub fn law_elements()
    ensures { ElementsBecomeMembers }
{}

/// The members of a set that lies within bounds.
pub fn law_ranged()
    ensures { RangedMembersAreWithin }
{}

/// A set that is written is read back.
pub fn law_stored()
    ensures { SetsAreReadBack }
{}
