//! The ends at which all wait, by who waits there.

ghost use Rattle.std.specs.Prelude.{◌≡◌, IfOk, map};
ghost use Rattle.cp_verdict.specs.waiting.Ends as spec;
ghost use Rattle.cp_verdict.specs.waiting.Known.{entry_pair, waiting_pair};

use crate::endless::known::{KnownEnd, KnownWaitingEnd};
use cp_ends::End;
use cp_run::OutcomeKind;
use cp_waiting_ends::{WaitingEnd, WaitingEnds};
use std::alloc::{AllocError, Global};

/// The ends at which all wait, as they are known.
pub fn waiting_ends(alloc: Global, ends: &WaitingEnds) -> Result<Vec<KnownWaitingEnd>, AllocError>
    ensures { IfOk result (λ v. map waiting_pair v.items ≡ map entry_pair ends.now.known.entries) }
{
    let mut waiting = Vec::new(alloc);
    for number in 0..ends.len() {
        if let Some((end, word)) = ends.get(number) {
            let one = waiting_end(alloc, end, word)?;
            waiting.push(one)?;
        }
    }
    Ok(waiting)
}

fn waiting_end(alloc: Global, end: &WaitingEnd, word: &[u8]) -> Result<KnownWaitingEnd, AllocError>
    ensures { IfOk result (λ x. waiting_pair x ≡ spec.waiting_at end.now.who.items word.now) }
{
    let mut who = Vec::new(alloc);
    who.extend_from_slice(&end.who)?;
    let mut copy = Vec::new(alloc);
    copy.extend_from_slice(word)?;
    Ok(KnownWaitingEnd {
        who,
        end: KnownEnd {
            end: End::Over(OutcomeKind::AllWaiting),
            word: copy,
        },
    })
}
