//! Laws over the definitions alone.

ghost use Rattle.std.specs.Prelude.{◌≡◌, List};
ghost use Rattle.cp_expectation.specs.Plain.{Expected};
ghost use Rattle.cp_expectation.specs.Spelling.{Spells, Words};

/// Words spell at most one list of expectations.
pub fn law_spelling()
    ensures { (ws : Words) (es fs : List Expected) → Spells ws es → Spells ws fs → es ≡ fs }
{}
