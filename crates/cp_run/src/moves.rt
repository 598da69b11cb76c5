//! Who moves in a stretch.

use crate::job::Job;
use crate::observe::Observe;
use cp_machine::{Event, State, Watch};
use std::convert::Infallible;

/// Tells whoever watches of the processes that move.
#[derive(Drop)]
pub struct Moves<W> {
    pub watch: W,
}

impl<W: Watch> Observe for Moves<W> {
    ghost use Rattle.std.specs.Prelude.{◌≡◌, true, false};
    ghost use Rattle.cp_machine.specs.Bodies.{KeepBodies};
    ghost use Rattle.cp_machine.specs.System.{Machine};
    ghost use Rattle.cp_run.specs.Fold.{blind};
    ghost use Rattle.std.proofs.Common.{ap, subst};
    ghost use Rattle.cp_machine.specs.Statements.{Stepped};
    ghost use Rattle.cp_machine.proofs.Unmoved.{keep_step};

    type Error = Infallible;

    ghost Seen = { Machine };

    ghost IS_SILENT = { false };

    ghost SEES_LOCAL = { false };

    #[inline(always)]
    fn is_silent() -> bool {
        false
    }

    #[inline(always)]
    fn sees_local() -> bool {
        false
    }

    ghost holds = { λ m r discipline now before. KeepBodies (W.moved m.watch) before now };

    ghost fold = { λ r discipline. blind };

    ghost expects = { λ m r discipline now process before. KeepBodies (W.moved m.watch) before now × (W.moved m.watch process ≡ true) };

    #[inline(always)]
    fn expect_step(
        &mut self,
        _job: &Job<'_>,
        _state: &State,
        process: u8,
    ) -> Result<(), Infallible> {
        self.watch.add(process);
        Ok(())
    }

    #[inline(always)]
    fn see_step(
        &mut self,
        _job: &Job<'_>,
        _state: &State,
        _process: u8,
        _event: Event,
    ) -> Result<(), Infallible> {
        Ok(())
    }

    fn see_admission(
        &mut self,
        _job: &Job<'_>,
        _state: &State,
        _process: u8,
    ) -> Result<(), Infallible> {
        Ok(())
    }

    fn see_choice(&mut self, _job: &Job<'_>, _state: &State, _number: u8) {}

    ghost passes = { λ unseen m r discipline before after process x step h. subst (KeepBodies (W.moved m.watch) x) (ap (λ (s : Stepped). s.machine) step) (keep_step r (W.moved m.watch) x before process h.0 h.1) };
}
