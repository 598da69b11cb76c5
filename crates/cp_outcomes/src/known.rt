//! The outcomes of schedules of fewer choices.

ghost use Rattle.std.specs.Prelude.{◌≤◌};

use cp_merged::Tallies;

/// The outcomes of all schedules of at most so many choices.
#[derive(Drop)]
pub struct Known {
    pub choices: u8,
    pub tallies: Tallies,
    ghost few_choices: { choices ≤ 100 },
}
