//! The limits of a run.

ghost use Rattle.std.specs.Prelude.{◌≡◌, ◌≤◌, ◌⊎◌, ◌<◌, IfSome, IfNone};
ghost use Rattle.cp_machine.specs.Discipline.{IsDiscipline};

use cp_machine::Discipline;

/// The most choices of a run.
pub const MOST_CHOICES: u8 = 100;

/// The most steps of a stretch.
pub const MOST_STEPS: u32 = 100_000;

/// The limits of a run: its choices, the steps of each stretch, and who goes into a monitor.
#[derive(Clone, Copy)]
pub struct Limits {
    pub choices: u8,
    pub steps: u32,
    pub discipline: Discipline,
    pub ghost few_choices: { choices ≤ 100 },
    pub ghost some_steps: { 1 ≤ steps },
    pub ghost few_steps: { steps ≤ 100000 },
}

impl Limits {
    /// These limits, or None where `choices` is over 100, `steps` not from 1 to 100,000, or any process of a line goes in where a caller is to be the first
    /// of the line.
    pub fn new(choices: u8, steps: u32, discipline: Discipline) -> Option<Limits>
        ensures these { IfSome result (λ l. (l.choices ≡ choices) × (l.steps ≡ steps) × (l.discipline ≡ discipline)) }
        ensures known { IfSome result (λ l. IsDiscipline l.discipline) }
        ensures outside { IfNone result ((100 < choices) ⊎ ((steps ≡ 0) ⊎ ((100000 < steps) ⊎ (IsDiscipline discipline → ⊥)))) }
    {
        if choices > MOST_CHOICES || steps == 0 || steps > MOST_STEPS || !discipline.is_kept() {
            return None;
        }
        Some(Limits {
            choices,
            steps,
            discipline,
        })
    }

    /// The same, with another number of choices.
    pub fn with_choices(self, choices: u8) -> Limits
        requires few { choices ≤ 100 }
        ensures { (result.choices ≡ choices) × (result.steps ≡ self.steps) × (result.discipline ≡ self.discipline) }
    {
        Limits {
            choices,
            steps: self.steps,
            discipline: self.discipline,
        }
    }
}
