//! Laws over the definitions alone.

ghost use Rattle.cp_story.specs.Woken.{DelayedLaw, WokenLaw};

/// Who waits in the queue that a step continues is ready after it or at the gate, by the discipline, and nobody else who is delayed leaves its queue.
pub fn law_woken()
    ensures served { WokenLaw }
    ensures only { DelayedLaw }
{}
