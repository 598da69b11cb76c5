//! What no schedule comes to, after the outcomes.

ghost use Rattle.std.specs.Prelude.{true, IfOk, string_bytes};
ghost use Rattle.cpx_show.specs.Summaries.{HasCover, IsCovered};

use crate::inquiry::Inquiry;
use cp_cover::{Gaps, cover_json, cover_text, entries_of, find_coverage, gaps_of};
use cp_progress::ObserveProgress;
use std::alloc::{AllocError, Global};

/// The outcomes as they are told, with what no schedule comes to after them.
pub fn with_coverage<O: ObserveProgress>(
    inquiry: Inquiry<'_>,
    observer: &mut O,
    told: &str,
    as_json: bool,
) -> Result<String, AllocError>
    ensures { IfOk result (λ text. IsCovered as_json true told.now (string_bytes text)) }
{
    let alloc = inquiry.alloc;
    let gaps = gaps_within(inquiry, observer)?;
    if as_json {
        let cover = cover_json(alloc, &gaps)?.to_string(alloc)?;
        with_member(alloc, told, cover.as_str())
    } else {
        let cover = cover_text(alloc, &gaps)?;
        format!(in alloc; "{told}\n{cover}")
    }
}

// What no schedule within the limits of the options comes to.
fn gaps_within<O: ObserveProgress>(
    inquiry: Inquiry<'_>,
    observer: &mut O,
) -> Result<Gaps, AllocError> {
    let Inquiry { alloc, loaded, .. } = inquiry;
    let states = inquiry.asked.options.states;
    let coverage = find_coverage(alloc, &inquiry.job(), states, observer)?;
    let entries = entries_of(alloc, loaded.checked.tree())?;
    gaps_of(alloc, &loaded.program, inquiry.legend, &entries, &coverage)
}

// An object on a line of its own, with one member more, behind those that stand in the order of their names.
fn with_member(alloc: Global, object: &str, cover: &str) -> Result<String, AllocError>
    ensures { IfOk result (λ text. HasCover true object.now cover.now (string_bytes text)) }
{
    let front = object.strip_suffix("}\n").unwrap_or(object);
    format!(in alloc; "{front},\"cover\":{cover}}}\n")
}
