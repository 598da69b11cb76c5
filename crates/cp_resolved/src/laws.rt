//! Laws over the definitions alone.

ghost use Rattle.cp_resolved.specs.Resolving.{ResolvingLaw};

/// The tables of each program that was read and breaks no rule stand for it, and are sound.
pub fn law_resolved()
    ensures { ResolvingLaw }
{}
