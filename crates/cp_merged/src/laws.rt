//! Laws over the definitions alone.

ghost use Rattle.std.specs.Prelude.{◌≡◌, ◌+◌, ℕ, Bool, true, false, All};
ghost use Rattle.cp_machine.specs.System.{Machine};
ghost use Rattle.cp_run.specs.System.{System};
ghost use Rattle.cp_run.specs.Table.{table};
ghost use Rattle.cp_run.specs.declared.outcome.OutcomeKind.{OutcomeKind};
ghost use Rattle.cp_walk.specs.Report.{same_outcome, report_text};
ghost use Rattle.cp_walk.specs.Text.{Spellings};
ghost use Rattle.cp_merged.specs.Complete.{IsComplete, IsClosed, IsKnown};
ghost use Rattle.cp_merged.specs.Told.{told_text};
ghost use Rattle.cp_merged.specs.Tallies.{Sameness, IsExact, tally};
ghost use Rattle.cp_merged.specs.Layers.{IsSound, by_layers, by_first};

/// The tallies that the layers find, in the order of first words, are the tallies of the table.
pub fn law_layers()
    ensures { (sys : System Machine) (same : Sameness) → IsExact same → (eq : Machine → Machine → Bool) → IsSound eq → (choices steps : ℕ) → by_first (by_layers sys same eq choices steps) ≡ tally same (table sys choices steps) }
{}

/// Their text is the report of the table without its rows.
pub fn law_report()
    ensures { (names : Spellings) (sys : System Machine) (eq : Machine → Machine → Bool) → IsSound eq → (choices steps : ℕ) → told_text names (by_first (by_layers sys same_outcome eq choices steps)) ≡ report_text names (table sys choices steps) false }
{}

/// A table in which no schedule ends for want of choices is the same with more choices.
pub fn law_complete()
    ensures { (sys : System Machine) (choices steps more : ℕ) → IsComplete (table sys choices steps) → table sys (choices + more) steps ≡ table sys choices steps }
{}

/// Where no choice leads out of some states but to some kinds of ends, no schedule of any length ends otherwise.
pub fn law_closed()
    ensures { (sys : System Machine) (steps : ℕ) (among : Machine → Bool) (known : OutcomeKind → Bool) → IsClosed sys steps (λ s. among s ≡ true) (λ k. known k ≡ true) → (choices : ℕ) → All (λ l. IsKnown (λ k. known k ≡ true) l.outcome.kind) (table sys choices steps) }
{}
