//! The limits at which schedules ended, in words.

ghost use Rattle.std.specs.Prelude.{◌≡◌, ◌++◌, [], ◌||◌, IfOk, not, codes, if◌then◌else◌, string_bytes};
ghost use Rattle.cp_verdict.specs.Written as spec;

use crate::program::Stops;
use std::alloc::AllocError;

impl Stops {
    /// Whether no schedule ended at a limit.
    pub fn is_empty(&self) -> bool
        ensures { result ≡ not (spec.is_stopped self.now) }
    {
        !self.choices && !self.steps && !self.output
    }

    /// Appends the limits by the names of a report, joined by commas.
    pub fn push_to(&self, text: &mut String) -> Result<(), AllocError>
        ensures { IfOk result (λ _. string_bytes text.new ≡ string_bytes text.old ++ spec.stops_text self.now) }
    {
        let begun = push_limit(text, false, self.choices, "choice-limit")?;
        let begun = push_limit(text, begun, self.steps, "step-limit")?;
        push_limit(text, begun, self.output, "output-limit")?;
        Ok(())
    }
}

/// Appends a limit's name, if it was met. The answer tells whether one was met, now or before.
fn push_limit(text: &mut String, begun: bool, is_met: bool, name: &str) -> Result<bool, AllocError>
    ensures begun { IfOk result (λ now. now ≡ (begun || is_met)) }
    ensures text { IfOk result (λ _. string_bytes text.new ≡ string_bytes text.old ++ (if is_met then (if begun then codes ", " ++ name.now else name.now) else [])) }
{
    if !is_met {
        return Ok(begun);
    }
    if begun {
        text.push_str(", ")?;
    }
    text.push_str(name)?;
    Ok(true)
}
