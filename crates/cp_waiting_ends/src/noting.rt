//! Who waits at the ends of the schedules of a table.

use crate::ends::WaitingEnds;
use cp_layers::Note;
use cp_machine::{State, Uncounted, Unwatched};
use cp_run::{Halt, OutcomeKind, choose, open};
use cp_search::SearchJob;
use std::alloc::{AllocError, Global};

impl Note for WaitingEnds {
    ghost use Rattle.cp_waiting_ends.specs.Waiting.{WaitsSo, ends_seen, ends_words, waiting_marking};

    ghost Mark = { WaitsSo };

    ghost marking = { waiting_marking };

    ghost marks = { ends_seen };

    ghost words = { ends_words };

    fn new(alloc: Global) -> WaitingEnds {
        WaitingEnds::none(alloc)
    }

    fn add_all(&mut self, alloc: Global, other: &WaitingEnds) -> Result<(), AllocError> {
        for number in 0..other.len() {
            self.add_number(alloc, other, number)?;
        }
        Ok(())
    }

    fn note_opening(
        &mut self,
        job: &SearchJob<'_>,
        state: &mut State,
    ) -> Result<Halt<OutcomeKind>, AllocError> {
        let halt = open(&job.run, state, &mut Uncounted, &mut Uncounted);
        self.arrive(job, state, halt, &[])?;
        Ok(halt)
    }

    fn note_choice(
        &mut self,
        job: &SearchJob<'_>,
        state: &mut State,
        process: u8,
        word: &[u8],
    ) -> Result<Halt<OutcomeKind>, AllocError> {
        let halt = choose(
            &job.run,
            state,
            process,
            &mut Unwatched,
            &mut Uncounted,
            &mut Uncounted,
        );
        self.arrive(job, state, halt, word)?;
        Ok(halt)
    }
}
