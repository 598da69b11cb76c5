//! What processes do from one due choice to the next.

ghost use Rattle.std.specs.Prelude.{◌≡◌, ◌<◌, ◌+◌, ℕ, false, length};
ghost use Rattle.cp_slots.specs.Tables.{Tables};
ghost use Rattle.cp_machine.specs.System.{Machine};
ghost use Rattle.cp_waits.specs.Passings.{IsLook};
ghost use Rattle.cp_waits.specs.Keeps.{keeps, lacks};
ghost use Rattle.cp_waits.specs.Sets.{has};

use crate::set::Set;
use cp_ends::look::Look;
use cp_ends::sight::Sight;
use cp_slots::Resolved;

/// What processes do at the moments of a stretch: at the choice before it, and before each of its steps.
#[derive(Clone, Copy)]
pub struct PassingSets {
    /// Those that are at a gate or delayed at each moment.
    pub wait: Set,
    /// Those that are so at some moment.
    pub wait_once: Set,
    /// Those that have an open call of an entry of a monitor at each moment.
    pub stay: Set,
    /// Those that make a step.
    pub step: Set,
    /// Those that make a step, or are not ready before some step.
    pub served: Set,
}

impl Sight for PassingSets {
    ghost use Rattle.std.specs.Prelude.{◌≡◌, ◌⊎◌, false, length, true};
    ghost use Rattle.std.proofs.Common.{◌∙◌, sym};
    ghost use Rattle.cp_machine.specs.System.{is_ready};
    ghost use Rattle.cp_endless_laws.specs.Silent.{in_call_on_slots, waits_on_slots};
    ghost use Rattle.cp_waits.specs.Passings.{HasSeen, IsLook};
    ghost use Rattle.cp_ends.proofs.Again.{any_again, beside_all, beside_any, each_again, through};
    ghost use Rattle.cp_ends.proofs.Again.{served_again};

    ghost looks = { λ p r m. IsLook (length r.processes) m p };

    ghost sees = { λ p r discipline due ms. HasSeen r discipline due ms p };

    fn look<L: Look>(look: &L) -> PassingSets {
        let mut seen = PassingSets::of_nobody();
        for pid in 0..look.processes() {
            seen = seen.with_process(look, pid);
        }
        seen
    }

    #[inline(always)]
    fn due(self) -> PassingSets {
        PassingSets {
            served: Set::nobody(),
            ..self
        }
    }

    #[inline(always)]
    fn moved(self, mover: u8) -> PassingSets {
        PassingSets {
            step: self.step.with(mover),
            served: self.served.with(mover),
            ..self
        }
    }

    fn begin(program: &Resolved) -> PassingSets {
        let everybody = Set::below(program.processes());
        PassingSets {
            wait: everybody,
            stay: everybody,
            ..PassingSets::of_nobody()
        }
    }

    #[inline(always)]
    fn then(&mut self, other: &PassingSets) {
        self.wait = self.wait.and(other.wait);
        self.wait_once = self.wait_once.or(other.wait_once);
        self.stay = self.stay.and(other.stay);
        self.step = self.step.or(other.step);
        self.served = self.served.or(other.served);
    }

    ghost alike = { λ p r discipline due ms m n pid like h. record { wait = λ q lt. through (h.wait q lt) (beside_all (each_again (λ x. waits_on_slots x.state q ≡ true) ms (record { state = m; mover = pid }) (record { state = n; mover = pid }) (λ e. like.waits q ∙ e))); wait_once = λ q lt. through (h.wait_once q lt) (beside_any (any_again (λ x. waits_on_slots x.state q ≡ true) ms (record { state = m; mover = pid }) (record { state = n; mover = pid }) (λ e. sym (like.waits q) ∙ e))); stay = λ q lt. through (h.stay q lt) (beside_all (each_again (λ x. in_call_on_slots x.state q ≡ true) ms (record { state = m; mover = pid }) (record { state = n; mover = pid }) (λ e. like.inside q ∙ e))); step = λ q lt. through (h.step q lt) (any_again (λ x. x.mover ≡ q) ms (record { state = m; mover = pid }) (record { state = n; mover = pid }) (λ e. e)); served = λ q lt. through (h.served q lt) (any_again (λ x. (x.mover ≡ q) ⊎ (is_ready x.state q ≡ false)) ms (record { state = m; mover = pid }) (record { state = n; mover = pid }) (served_again pid q (is_ready m q) (is_ready n q) (like.ready q))) } };
}

impl PassingSets {
    // Nobody does anything.
    fn of_nobody() -> PassingSets
        ensures wait { (q : ℕ) → has result.wait q ≡ false }
        ensures wait_once { (q : ℕ) → has result.wait_once q ≡ false }
        ensures stay { (q : ℕ) → has result.stay q ≡ false }
        ensures step { (q : ℕ) → has result.step q ≡ false }
        ensures served { (q : ℕ) → has result.served q ≡ false }
    {
        let nobody = Set::nobody();
        PassingSets {
            wait: nobody,
            wait_once: nobody,
            stay: nobody,
            step: nobody,
            served: nobody,
        }
    }

    // One process more is looked at.
    #[inline(always)]
    fn with_process<L: Look>(self, look: &L, pid: u8) -> PassingSets
        requires few { pid < 16 }
        requires at { (r : Tables) × (m : Machine) × L.looks look.now r m × (pid < length r.processes) }
        ensures { (r : Tables) (m : Machine) → L.looks look.now r m → pid < length r.processes → IsLook pid m self → IsLook (pid + 1) m result }
    {
        let waits = look.waits(pid);
        PassingSets {
            wait: self.wait.with_if(pid, waits),
            wait_once: self.wait_once.with_if(pid, waits),
            stay: self.stay.with_if(pid, look.is_inside(pid)),
            step: self.step,
            served: self.served.with_if(pid, !look.is_ready(pid)),
        }
    }
}

/// What a process keeps doing.
#[derive(Clone, Copy)]
pub enum Keeping {
    /// It is at a gate or delayed.
    Waiting(u8),
    /// It has an open call of an entry of a monitor.
    Inside(u8),
}

impl Keeping {
    /// Whether it does so at each moment.
    pub fn holds(self, passing: &PassingSets) -> bool
        ensures { result ≡ keeps self passing.now }
    {
        match self {
            Keeping::Waiting(pid) => passing.wait.has(pid),
            Keeping::Inside(pid) => passing.stay.has(pid),
        }
    }

    /// Whether some moment is asked for at which it waits, which is no moment of these.
    pub fn lacks(self, waits: Set) -> bool
        ensures { result ≡ lacks self waits }
    {
        match self {
            Keeping::Waiting(_) => false,
            Keeping::Inside(pid) => !waits.has(pid),
        }
    }
}
