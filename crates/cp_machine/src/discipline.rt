//! The discipline of monitors: who goes in, and who goes on after a `continue`.

ghost use Rattle.std.specs.Prelude.{◌≡◌, true, false};
ghost use Rattle.cp_machine.specs.Discipline as spec;
ghost use Rattle.cp_machine.specs.Discipline.{IsDiscipline};
ghost use Rattle.cp_machine.specs.declared.discipline.Signals.TheVariants.{Return};

/// Who goes in where several processes wait at a gate.
#[derive(Clone, Copy, PartialEq, Eq)]
pub enum Gates {
    /// The first of the line.
    First,
    /// Any process of the line, by a choice.
    Any,
}

/// Who goes on after a `continue`.
#[derive(Clone, Copy, PartialEq, Eq)]
pub enum Signals {
    /// Who was resumed. The caller returns from its entry procedure at once (the book, chapter 4).
    Return,
    /// The caller. Who was resumed comes to the end of the line at the gate.
    Continue,
    /// Who was resumed. The caller waits at the gate as the first of the line.
    Wait,
}

/// The rules by which processes go into monitors and on in them.
#[derive(Clone, Copy, PartialEq, Eq)]
pub struct Discipline {
    pub gates: Gates,
    pub signals: Signals,
}

impl Discipline {
    /// The book's `continue`, and gates of this kind.
    pub fn by_gates(gates: Gates) -> Discipline
        ensures { (result.gates ≡ gates) × (result.signals ≡ Return) }
    {
        Discipline {
            gates,
            signals: Signals::Return,
        }
    }

    /// Whether it can be kept: a caller that waits as the first of the line does so where the first goes in.
    pub fn is_kept(&self) -> bool
        ensures kept { result ≡ true → IsDiscipline self.now }
        ensures not_kept { result ≡ false → IsDiscipline self.now → ⊥ }
    {
        match self.gates {
            Gates::First => true,
            Gates::Any => !matches!(self.signals, Signals::Wait),
        }
    }

    /// Whether it is that of the book: the first of a line goes in, and the caller of a `continue` returns.
    pub fn is_of_the_book(&self) -> bool
        ensures { result ≡ spec.is_of_the_book self.now }
    {
        match self.gates {
            Gates::First => matches!(self.signals, Signals::Return),
            Gates::Any => false,
        }
    }
}
