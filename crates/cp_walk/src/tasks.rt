//! The members of a cutting as tasks.

ghost use Rattle.cp_walk.specs.Members.{member_rows};

use crate::cutting::Cutting;
use crate::fault::ExploreFault;
use crate::member::member_rows;
use crate::observer::ObserveWalk;
use crate::row::Row;
use crate::worker::Work;
use std::alloc::Global;

impl Work for Cutting<'_> {
    ghost rows = { λ c i. member_rows c.job.program.now c.job.limits c.words.items i };

    fn rows_of<N: ObserveWalk>(
        &self,
        alloc: Global,
        task: u32,
        observer: &mut N,
    ) -> Result<Vec<Row>, ExploreFault> {
        let Some(word) = self.words.get(task as usize) else {
            return Ok(Vec::new(alloc));
        };
        member_rows(alloc, &self.job, word.as_slice(), observer)
    }
}
