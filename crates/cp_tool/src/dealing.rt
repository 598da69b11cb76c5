//! How the schedules are dealt out to the workers.

ghost use Rattle.std.specs.Prelude.{◌≡◌, None};

use crate::options::Options;
use cp_explore::Cutting;
use cp_progress::ObserveProgress;
use std::alloc::{AllocError, Global};

/// This many members for each worker are enough: who is done with a small one finds another to draw.
const MEMBERS_EACH: usize = 4;

/// Cuts to the depth that the words ask for; where they ask for none, for the workers. A single worker draws the whole, so that nothing
/// is run twice.
pub fn deal<O: ObserveProgress>(
    alloc: Global,
    cutting: &mut Cutting<'_>,
    options: &Options,
    observer: &mut O,
) -> Result<(), AllocError>
    ensures job { cutting.new.job ≡ cutting.old.job }
    ensures alone { options.now.cut ≡ None → options.now.workers ≡ 1 → cutting.new.words ≡ cutting.old.words }
{
    if let Some(depth) = options.cut {
        return cutting.to_depth_observed(alloc, depth, observer);
    }
    if options.workers == 1 {
        return Ok(());
    }
    spread(
        alloc,
        cutting,
        MEMBERS_EACH * usize::from(options.workers),
        observer,
    )
}

// Cuts level by level until there are enough members, or none is left to be split.
fn spread<O: ObserveProgress>(
    alloc: Global,
    cutting: &mut Cutting<'_>,
    enough: usize,
    observer: &mut O,
) -> Result<(), AllocError>
    ensures job { cutting.new.job ≡ cutting.old.job }
{
    for depth in 1..=cutting.job.limits.choices {
        let before = cutting.members().len();
        if before >= enough {
            return Ok(());
        }
        cutting.to_depth_observed(alloc, depth, observer)?;
        if cutting.members().len() == before {
            return Ok(());
        }
    }
    Ok(())
}
