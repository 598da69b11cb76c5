//! Looks at states: who is ready, who waits, and who is inside a monitor.

ghost use Rattle.std.specs.Prelude.{◌≡◌, ◌∷◌, []};
ghost use Rattle.std.specs.List.{list_any};
ghost use Rattle.cp_endless_laws.specs.Silent.{has_monitor_return};

use cp_machine::{Entry, State};
use cp_parts::taking::body_numbers_of;
use cp_stretches::LegCache;

/// A look at a state.
pub trait Look {
    ghost use Rattle.std.specs.Prelude.{◌≡◌, ◌<◌, ◌≤◌, length};
    ghost use Rattle.cp_slots.specs.Tables.{Tables};
    ghost use Rattle.cp_machine.specs.System.{Machine, is_ready};
    ghost use Rattle.cp_endless_laws.specs.Silent.{in_call_on_slots, waits_on_slots};

    /// It is a look at this machine.
    ghost looks: { Self → Tables → Machine → Type 0 };

    /// How many processes there are.
    fn processes(&self) -> u8
        requires { (r : Tables) × (m : Machine) × looks self.now r m }
        ensures few { result ≤ 16 }
        ensures count { (r : Tables) (m : Machine) → looks self.now r m → result ≡ length r.processes };

    fn is_ready(&self, pid: u8) -> bool
        requires { (r : Tables) × (m : Machine) × looks self.now r m × (pid < length r.processes) }
        ensures { (r : Tables) (m : Machine) → looks self.now r m → result ≡ is_ready m pid };

    /// Whether a process is at a gate or delayed.
    fn waits(&self, pid: u8) -> bool
        requires { (r : Tables) × (m : Machine) × looks self.now r m × (pid < length r.processes) }
        ensures { (r : Tables) (m : Machine) → looks self.now r m → result ≡ waits_on_slots m pid };

    /// Whether it has an open call of an entry of a monitor.
    fn is_inside(&self, pid: u8) -> bool
        requires { (r : Tables) × (m : Machine) × looks self.now r m × (pid < length r.processes) }
        ensures { (r : Tables) (m : Machine) → looks self.now r m → result ≡ in_call_on_slots m pid };
}

// Whether a call on a control stack leaves a monitor.
fn is_inside(stack: &[Entry]) -> bool
    ensures { result ≡ list_any (λ e. has_monitor_return (e ∷ [])) stack.now }
{
    for entry in stack {
        if let Entry::Return(_, _, Some(_)) = entry {
            return true;
        }
    }
    false
}

impl Look for State {
    ghost use Rattle.std.specs.Prelude.{◌≡◌};
    ghost use Rattle.cp_machine.specs.System.{machine_of, IsStateOf};

    ghost looks = { λ state r m. IsStateOf r state × (m ≡ machine_of state) };

    fn processes(&self) -> u8 {
        self.processes.len() as u8
    }

    fn is_ready(&self, pid: u8) -> bool {
        self.processes[pid as usize].status.is_ready()
    }

    fn waits(&self, pid: u8) -> bool {
        self.processes[pid as usize].status.waits()
    }

    fn is_inside(&self, pid: u8) -> bool {
        is_inside(&self.processes[pid as usize].stack)
    }
}

/// A look at the state of a row.
#[derive(Clone, Copy)]
pub struct RowLook<'a> {
    pub cache: &'a LegCache,
    pub row: &'a [u32],
}

impl Look for RowLook<'_> {
    ghost use Rattle.cp_stretches.specs.Numbers.{CanRead};

    ghost looks = { λ look r m. CanRead r look.cache.now.store look.cache.now.table look.cache.now.numbers m look.row.now };

    #[inline(always)]
    fn processes(&self) -> u8 {
        self.cache.table.processes as u8
    }

    #[inline(always)]
    fn is_ready(&self, pid: u8) -> bool {
        self.row[pid as usize] == self.cache.numbers.ready
    }

    #[inline(always)]
    fn waits(&self, pid: u8) -> bool {
        !self.cache.numbers.rests(self.row[pid as usize])
    }

    #[inline(always)]
    fn is_inside(&self, pid: u8) -> bool {
        let store = &self.cache.store;
        let position = self.cache.table.part_position(pid as usize);
        let part = store.parts.at(self.row[position] as usize);
        is_inside(store.bodies.stacks.at(body_numbers_of(part).stack as usize))
    }
}
