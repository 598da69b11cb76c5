//! Which rule a program breaks, and where.

ghost use Rattle.std.specs.Prelude.{◌≡◌, Err};
ghost use Rattle.cp_scope.specs.declared.fault.CheckFault.TheVariants as check_fault;
ghost use Rattle.cp_scope.specs.declared.fault.CheckFault.TheVariants.{Memory};

use std::alloc::{AllocError, AllocFailed};

/// The rules of the language, by their printed codes.
#[derive(Clone, Copy, Debug, PartialEq, Eq)]
pub enum Rule {
    /// A name is not visible, or a record has no such field.
    C1,
    /// A name is declared twice in one scope.
    C2,
    /// A name in a constant's place is not a constant.
    C3,
    /// A name in a type's place is not a type.
    C4,
    /// Types or kinds do not agree.
    C5,
    /// A target is not assignable.
    C6,
    /// The number of arguments is wrong.
    C7,
    /// A component's type has no routine of that name.
    C8,
    /// An entry routine is called inside its type, a local one from outside, or `entry` stands in a process or in the program.
    C9,
    /// A routine calls itself.
    C10,
    /// A queue stands where it may not.
    C11,
    /// `delay` or `continue` stands where it may not.
    C12,
    /// A component stands where it may not.
    C13,
    /// A parameter of a monitor or process has a class type.
    C14,
    /// A parameter has a process type or is a queue.
    C15,
    /// `init` outside an initial statement.
    C16,
    /// `init` of what is no component variable.
    C17,
    /// A subrange's upper bound is below its lower.
    C18,
    /// A case label stands twice in one case.
    C19,
    /// A type or the program passes a limit.
    C20,
    /// `display` of what is not ordinal.
    C21,
    /// An annotation calls a routine.
    C22,
}

/// Why a program is not accepted. A place is the number of tokens before it.
#[derive(Clone, Copy, Debug, PartialEq, Eq)]
pub enum CheckFault {
    /// A rule is broken at this token.
    Rule { at: usize, rule: Rule },
    /// Memory was refused.
    Memory,
}

impl From<AllocError> for CheckFault {
    ghost from_gives = { λ _ e. e ≡ Memory };

    fn from(_e: AllocError) -> CheckFault {
        CheckFault::Memory
    }
}

impl<T: Drop> From<AllocFailed<T>> for CheckFault {
    ghost from_gives = { λ _ e. e ≡ Memory };

    fn from(_e: AllocFailed<T>) -> CheckFault {
        CheckFault::Memory
    }
}

/// A rule is broken at a token.
pub fn broken_rule<T>(at: usize, rule: Rule) -> Result<T, CheckFault>
    ensures { result ≡ Err (check_fault.Rule at rule) }
{
    Err(CheckFault::Rule { at, rule })
}
