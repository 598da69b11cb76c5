//! Laws over the definitions alone.

ghost use Rattle.std.specs.Prelude.{ℕ};
ghost use Rattle.cp_machine.specs.System.{Machine};
ghost use Rattle.cp_run.specs.System.{System};
ghost use Rattle.cp_run.specs.Table.{table, IsPrefixFree};

/// No word of a table begins another word of it.
pub fn law_prefix_free()
    ensures { (sys : System Machine) (choices steps : ℕ) → IsPrefixFree (table sys choices steps) }
{}
