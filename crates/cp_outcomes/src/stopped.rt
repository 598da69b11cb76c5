//! Schedules that ended at a limit.

ghost use Rattle.std.specs.Prelude.{◌≡◌, ◌<◌, ◌^◌, List, count_by, map};
ghost use Rattle.cp_run.specs.Table.{Line};
ghost use Rattle.cp_walk.specs.Report.{same_outcome};
ghost use Rattle.cp_merged.specs.Code.{tally_of};
ghost use Rattle.cp_merged.specs.Tallies.{tally};
ghost use Rattle.cp_merged.specs.Told.{rows_in};
ghost use Rattle.cp_walk.specs.Text.{kind_text};
ghost use Rattle.cp_outcomes.specs.Stops.{count_at, is_at, kind_at, rows_at};
ghost use Rattle.cp_outcomes.specs.Told.{is_cut};

use cp_merged::Tally;
use cp_natural::Natural;
use cp_run::OutcomeKind;

/// What stops a run before its end.
#[derive(Clone, Copy, PartialEq, Eq)]
pub enum Limit {
    /// The choices of a schedule.
    Choices,
    /// The steps between two choices.
    Steps,
    /// The values that a run displays.
    Output,
}

impl Limit {
    /// Whether a kind of end is that of this limit.
    pub fn stops(self, kind: OutcomeKind) -> bool
        ensures { result ≡ is_at self kind }
    {
        match self {
            Limit::Choices => matches!(kind, OutcomeKind::ChoiceLimit),
            Limit::Steps => matches!(kind, OutcomeKind::StepLimit),
            Limit::Output => matches!(kind, OutcomeKind::OutputLimit),
        }
    }

    /// The kind of an end at this limit, as the report names it.
    pub fn name(self) -> &'static str
        ensures { result.now ≡ kind_text (kind_at self) }
    {
        match self {
            Limit::Choices => "choice-limit",
            Limit::Steps => "step-limit",
            Limit::Output => "output-limit",
        }
    }
}

/// Whether a kind of end is that of some limit.
pub fn is_stopped(kind: OutcomeKind) -> bool
    ensures { result ≡ is_cut kind }
{
    Limit::Choices.stops(kind) || Limit::Steps.stops(kind) || Limit::Output.stops(kind)
}

/// How many schedules there are.
pub fn schedules_in(tallies: &[Tally]) -> Natural
    requires { rows_in (map tally_of tallies.now) < 10 ^ 126 }
    ensures { result ≡ rows_in (map tally_of tallies.now) }
{
    let mut sum = Natural::zero();
    for tally in tallies {
        sum = sum.plus(&tally.count);
    }
    sum
}

/// How many schedules ended at a limit.
pub fn schedules_stopped_at(limit: Limit, tallies: &[Tally]) -> Natural
    requires { rows_in (map tally_of tallies.now) < 10 ^ 126 }
    ensures rows { result ≡ rows_at limit (map tally_of tallies.now) }
    ensures table { (lines : List Line) → map tally_of tallies.now ≡ tally same_outcome lines → result ≡ count_by (λ l. is_at limit l.outcome.kind) lines }
{
    let mut sum = Natural::zero();
    for tally in tallies {
        sum = sum.plus(&count_stopped_at(limit, tally));
    }
    sum
}

// How many schedules of an outcome did.
fn count_stopped_at(limit: Limit, tally: &Tally) -> Natural
    ensures { result ≡ count_at limit (tally_of tally.now) }
{
    if limit.stops(tally.outcome.kind) {
        tally.count
    } else {
        Natural::zero()
    }
}
