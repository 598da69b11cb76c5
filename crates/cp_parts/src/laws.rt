//! What numbers of parts and rows tell of machines.

ghost use Rattle.cp_parts.specs.Laws.{OneRowLaw, PartLaw, RowLaw, SamePartLaw};

/// Machines whose parts of a place have one number have the same there.
pub fn law_part()
    ensures { PartLaw }
{}

/// A machine that has the same in a place has its number there.
pub fn law_parts()
    ensures { SamePartLaw }
{}

/// Machines of one row are one.
pub fn law_row()
    ensures { RowLaw }
{}

/// A machine has one row.
pub fn law_rows()
    ensures { OneRowLaw }
{}
