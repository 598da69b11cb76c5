//! Who enters a monitor next, as far as parts tell.

ghost use Rattle.std.specs.Prelude.{◌^◌, ◌<◌, length, OnOk};

use cp_effects::KnownLeg;
use cp_machine::{Event, Kernel};
use cp_stretches::LegCache;
use std::alloc::{AllocError, Global};

/// By the number of a part, whether a process with this part was seen to enter a monitor before it touched any place but its own. So each such process does.
/// Nothing is promised of it: a process that is passed over only makes no leg at once.
#[derive(Drop)]
pub struct EnteringParts {
    pub parts: Vec<bool>,
}

// Whether a leg of a process with a part enters a monitor, and its own place and that of the monitor are all that legs of such were seen to touch.
fn is_to_enter(cache: &LegCache, part: u32, known: &KnownLeg) -> bool {
    let Event::Kernel(Kernel::Enter) = known.leg.event else {
        return false;
    };
    let Some(Some(scope)) = cache.legs.scopes.get(part as usize) else {
        return false;
    };
    let scopes = &cache.legs.effects.scopes;
    let scope = *scope as usize;
    scope < scopes.len() && scopes.at(scope).len() <= 2
}

// There is room for a part.
fn make_room(parts: &mut Vec<bool>, part: usize) -> Result<(), AllocError>
    requires { part < 2 ^ 32 }
    ensures { OnOk result (part < length parts.new.items) }
{
    if part < parts.len() {
        return Ok(());
    }
    parts.resize(part + 1, false)
}

impl EnteringParts {
    /// None was seen.
    pub fn new(alloc: Global) -> EnteringParts {
        EnteringParts {
            parts: Vec::new(alloc),
        }
    }

    /// Whether a process with this part enters a monitor next.
    #[inline(always)]
    pub fn has(&self, part: u32) -> bool {
        matches!(self.parts.get(part as usize), Some(true))
    }

    /// A process with this part was seen to make a leg.
    pub fn see(&mut self, cache: &LegCache, part: u32, known: &KnownLeg) -> Result<(), AllocError> {
        if !is_to_enter(cache, part, known) {
            return Ok(());
        }
        let at = part as usize;
        make_room(&mut self.parts, at)?;
        self.parts[at] = true;
        Ok(())
    }
}
