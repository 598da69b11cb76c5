//! A text as an answer.

ghost use Rattle.std.specs.Prelude.{◌≡◌, IfOk};

use cp_show_mark::{ShowAnswer, ShowVerdict};
use std::alloc::AllocError;

/// A text that tells this.
pub fn answer_with(
    verdict: ShowVerdict,
    text: Result<String, AllocError>,
) -> Result<ShowAnswer, AllocError>
    ensures { IfOk result (λ a. a.verdict ≡ verdict) }
{
    Ok(ShowAnswer {
        verdict,
        text: text?,
    })
}
