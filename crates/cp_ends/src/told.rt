//! What is told of stretches of which nothing stays displayed.

ghost use Rattle.std.specs.Prelude.{◌≡◌, []};

use crate::sight::Sight;
use cp_machine::{Event, Shown, State, Watch};
use cp_run::{Job, Observe};
use std::alloc::{AllocError, Global};

/// The values that were displayed, whether the kernel was called, and what is seen besides.
#[derive(Drop)]
pub struct Told<P> {
    pub values: Vec<Shown>,
    pub is_called: bool,
    /// Of all of the stretch, once round if it repeats.
    pub seen: P,
    /// Of the part that repeats, if it does.
    pub again: Option<P>,
}

impl<P: Sight> Told<P> {
    /// Nothing was told.
    pub fn new(alloc: Global, seen: P) -> Told<P>
        ensures { result.values.items ≡ [] }
    {
        Told {
            values: Vec::new(alloc),
            is_called: false,
            seen,
            again: None,
        }
    }
}

impl<P: Sight> Observe for Told<P> {
    ghost use Rattle.std.specs.Prelude.{◌≡◌, ◌++◌, ◌∷◌, [], List, Bool, true, false};
    ghost use Rattle.std.proofs.Common.{◌∙◌, ap, refl, sym};
    ghost use Rattle.std.proofs.lemmas.List.{append-nil};
    ghost use Rattle.cp_machine.specs.Statements.{Stepped};
    ghost use Rattle.cp_machine.specs.System.{Machine, output_of};
    ghost use Rattle.cp_machine.specs.declared.shown.Shown.{Shown};
    ghost use Rattle.cp_run.specs.Fold.{beside};
    ghost use Rattle.cp_run.specs.Slots.{slots};
    ghost use Rattle.cp_run.proofs.LocalOutput.{local_output};
    ghost use Rattle.cp_endless_laws.specs.Moments.{Moment};
    ghost use Rattle.cp_ends.specs.Arrivals.{teller};
    ghost use Rattle.cp_ends.specs.Legs.{seer};

    type Error = AllocError;

    // What is displayed and whether the kernel was called; due choices, and the moments after them.
    ghost Seen = { (List Shown × Bool) × (List Machine × List (Moment Machine)) };

    ghost IS_SILENT = { true };

    ghost SEES_LOCAL = { false };

    #[inline(always)]
    fn is_silent() -> bool {
        true
    }

    #[inline(always)]
    fn sees_local() -> bool {
        false
    }

    ghost holds = { λ told r discipline now x. (told.values.items ≡ x.0.0) × (told.is_called ≡ x.0.1) × (output_of now ≡ []) × P.sees told.seen r discipline x.1.0 x.1.1 };

    ghost fold = { λ r discipline. beside (teller (slots r discipline)) seer };

    ghost expects = { λ told r discipline before process x. (told.values.items ≡ x.0.0) × (told.is_called ≡ x.0.1) × (output_of before ≡ []) × P.sees told.seen r discipline x.1.0 (x.1.1 ++ record { state = before; mover = process } ∷ []) };

    #[inline(always)]
    fn expect_step(
        &mut self,
        _job: &Job<'_>,
        state: &State,
        process: u8,
    ) -> Result<(), AllocError> {
        self.seen.then(&P::look(state).moved(process));
        Ok(())
    }

    fn see_step(
        &mut self,
        _job: &Job<'_>,
        state: &State,
        _process: u8,
        event: Event,
    ) -> Result<(), AllocError> {
        self.values.extend_from_slice(state.output())?;
        if matches!(event, Event::Kernel(_)) {
            self.is_called = true;
        }
        Ok(())
    }

    fn see_admission(
        &mut self,
        _job: &Job<'_>,
        _state: &State,
        _process: u8,
    ) -> Result<(), AllocError> {
        Ok(())
    }

    fn see_choice(&mut self, _job: &Job<'_>, _state: &State, _number: u8) {}

    ghost passes = { λ unseen told r discipline before after process x step h. (h.0 ∙ sym (append-nil x.0.0) ∙ ap (λ l. x.0.0 ++ l) (sym (ap (λ (y : Stepped). y.machine.output) step ∙ local_output r before after process [] h.2 step)), h.1, refl, h.3) };
}
