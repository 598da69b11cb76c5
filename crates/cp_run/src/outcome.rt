//! How a run ends.

ghost use Rattle.std.specs.Prelude.{◌≡◌};

use arrayvec::ArrayVec;
use cp_machine::{ErrorName, Shown};
use std::alloc::{AllocError, Global};
use std::marker::Model;

/// The kind of a run's end.
#[derive(Clone, Copy, PartialEq, Eq)]
pub enum OutcomeKind {
    /// All processes have ended or were never started.
    Finished,
    /// Nobody is ready, and some process waits.
    AllWaiting,
    RunError {
        name: ErrorName,
        process: u8,
        line: u32,
    },
    /// A choice was due after the last that the limits allow.
    ChoiceLimit,
    /// A stretch made as many steps as the limits allow.
    StepLimit,
    /// A value more than a run may display.
    OutputLimit,
}

/// What comes before the next step of a run: it is over, a choice is due, or a process goes on.
#[derive(Clone, Copy)]
pub enum Turn {
    Over(OutcomeKind),
    Due,
    Goes(u8),
}

/// Where a stretch came to: a choice is due, or the run is over for a cause other than the number of choices.
#[derive(Clone, Copy)]
pub enum Halt<E> {
    Choice,
    Ended(E),
}

// How many values an output holds without memory of its own.
const MOST_DIGITS: usize = 6;

// Displayed values: few of them in place, or any number in memory.
#[derive(Drop)]
enum Values {
    Few(ArrayVec<Shown, MOST_DIGITS>),
    Many(Vec<Shown>),
}

/// The values that a run displayed, in order.
#[derive(Drop)]
pub struct Output {
    values: Values,
}

impl Model for Output {
    ghost use Rattle.std.specs.Prelude.{List};
    ghost use Rattle.cp_machine.specs.declared.shown.Shown.{Shown};
    ghost use Rattle.cp_run.specs.Outputs.{items_of};

    ghost Value = { List Shown };

    ghost view = { λ o. items_of o.values };
}

impl Output {
    ghost use Rattle.std.specs.Prelude.{◌++◌, IfOk};

    /// These values.
    pub fn new(values: Vec<Shown>) -> Output
        ensures { result ≡ values.items }
    {
        Output {
            values: Values::Many(values),
        }
    }

    /// A copy of these values.
    pub fn of(alloc: Global, values: &[Shown]) -> Result<Output, AllocError>
        ensures { IfOk result (λ o. o ≡ values.now) }
    {
        if values.len() > MOST_DIGITS {
            let many = Vec::from_slice(alloc, values)?;
            return Ok(Output {
                values: Values::Many(many),
            });
        }
        let mut few = ArrayVec::new();
        let _ = few.try_extend_from_slice(values);
        Ok(Output {
            values: Values::Few(few),
        })
    }

    /// Copies of these values and then of more.
    pub fn join(alloc: Global, values: &[Shown], more: &[Shown]) -> Result<Output, AllocError>
        ensures { IfOk result (λ o. o ≡ values.now ++ more.now) }
    {
        if more.len() > MOST_DIGITS || values.len() > MOST_DIGITS - more.len() {
            let count = values.len().saturating_add(more.len());
            let mut many = Vec::with_capacity(alloc, count)?;
            many.extend_from_slice(values)?;
            many.extend_from_slice(more)?;
            return Ok(Output {
                values: Values::Many(many),
            });
        }
        let mut few = ArrayVec::new();
        let _ = few.try_extend_from_slice(values);
        let _ = few.try_extend_from_slice(more);
        Ok(Output {
            values: Values::Few(few),
        })
    }

    /// The values as a slice.
    pub fn as_slice(&self) -> &[Shown]
        ensures { result.now ≡ self.now }
    {
        match &self.values {
            Values::Few(few) => few.as_slice(),
            Values::Many(many) => many.as_slice(),
        }
    }
}

/// The kind of a run's end and what it displayed.
#[derive(Drop)]
pub struct Outcome {
    pub kind: OutcomeKind,
    pub output: Output,
}

/// How a run stands after its word.
#[derive(Drop)]
pub enum RunEnd {
    /// It is over, and used this many numbers of the word.
    Ended { outcome: Outcome, used: usize },
    /// A choice is due, and the word is used up: the numbers that it may take, in rising order.
    Wants { ready: ArrayVec<u8, 16> },
    /// The number at this place of the word, counted from 0, may not be chosen.
    NotReady { place: usize },
}
