//! Sets of processes.

ghost use Rattle.std.specs.Prelude.{◌≡◌, ◌<◌, ◌^◌, ◌&&◌, ◌||◌, ◌↔◌, ℕ, IsTrue, false, not, nat_eq, nat_lt, if◌then◌else◌};
ghost use Rattle.cp_waits.specs.Sets.{has};

/// Some of the processes 0 to 15.
#[derive(Clone, Copy)]
pub struct Set {
    bits: u16,
}

impl Set {
    /// No process.
    pub fn nobody() -> Set
        ensures { (q : ℕ) → has result q ≡ false }
    {
        Set { bits: 0 }
    }

    /// The processes below a number.
    pub fn below(count: u8) -> Set
        ensures { (q : ℕ) → has result q ≡ (nat_lt q 16 && nat_lt q count) }
    {
        let mut set = Set::nobody();
        for pid in 0..count {
            set = set.with(pid);
        }
        set
    }

    pub fn has(self, pid: u8) -> bool
        ensures { result ≡ has self pid }
    {
        self.number() & bit(pid) != 0
    }

    pub fn with(self, pid: u8) -> Set
        ensures { (q : ℕ) → has result q ≡ (has self q || (nat_lt q 16 && nat_eq q pid)) }
    {
        Set {
            bits: self.bits | bit(pid),
        }
    }

    /// With a process, if it is to be in it.
    #[inline(always)]
    pub fn with_if(self, pid: u8, is_in: bool) -> Set
        ensures { (q : ℕ) → q < 16 → has result q ≡ (has self q || (nat_eq q pid && is_in)) }
    {
        if is_in { self.with(pid) } else { self }
    }

    pub fn without(self, pid: u8) -> Set
        ensures { (q : ℕ) → has result q ≡ (has self q && not (nat_lt q 16 && nat_eq q pid)) }
    {
        self.but(Set { bits: bit(pid) })
    }

    /// The processes that are in both.
    pub fn and(self, other: Set) -> Set
        ensures { (q : ℕ) → has result q ≡ (has self q && has other q) }
    {
        Set {
            bits: self.bits & other.bits,
        }
    }

    /// The processes that are in one of them.
    pub fn or(self, other: Set) -> Set
        ensures { (q : ℕ) → has result q ≡ (has self q || has other q) }
    {
        Set {
            bits: self.bits | other.bits,
        }
    }

    /// The processes that are in this one alone.
    pub fn but(self, other: Set) -> Set
        ensures { (q : ℕ) → has result q ≡ (has self q && not (has other q)) }
    {
        Set {
            bits: self.bits ^ (self.bits & other.bits),
        }
    }

    pub fn is_empty(self) -> bool
        ensures { IsTrue result ↔ ((q : ℕ) → has self q ≡ false) }
    {
        self.bits == 0
    }

    // The bits as a number of 16 bits.
    fn number(self) -> u16
        ensures { result ≡ self.bits }
    {
        self.bits
    }
}

// The number whose only bit is that of the process; there are 16 bits.
fn bit(pid: u8) -> u16
    ensures { result ≡ (if nat_lt pid 16 then 2 ^ pid else 0) }
{
    if pid < 16 { 1 << pid } else { 0 }
}
