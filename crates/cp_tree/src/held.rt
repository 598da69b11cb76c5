//! Values that are held while more is read.
//!
//! A tree that is let go where more can't be read costs its reader a long proof: here it is let go in one place, whatever it is.

ghost use Rattle.std.specs.Prelude.{◌≡◌, IfOk, IfErr};
ghost use Rattle.cp_tree.specs.Input as spec;
ghost use Rattle.cp_tree.specs.Input.{Reads};
ghost use Rattle.cp_tree.specs.declared.fault.ParseFault.TheVariants as fault;

use crate::cursor::Cursor;
use crate::fault::ParseFault;
use cp_text::Mark;
use std::alloc::Global;

/// The value, where this mark comes next.
pub fn value_before<T: Drop>(cursor: &mut Cursor<'_>, value: T, mark: Mark) -> Result<T, ParseFault>
    ensures mark { Reads (λ _. tt) (spec.expect mark cursor.old) result cursor.new }
    ensures value { IfOk result (λ t. t ≡ value) }
{
    cursor.expect(mark)?;
    Ok(value)
}

/// The value, with what was read after it.
pub fn value_with<T: Drop, U>(value: T, more: Result<U, ParseFault>) -> Result<(T, U), ParseFault>
    ensures value { IfOk result (λ p. p.0 ≡ value) }
    ensures more { more ≡ spec.second_of result }
{
    match more {
        Ok(more) => Ok((value, more)),
        Err(fault) => Err(fault),
    }
}

/// The value, in a box.
pub fn in_box<T: Drop>(alloc: Global, value: T) -> Result<Box<T>, ParseFault>
    ensures value { IfOk result (λ b. b.value ≡ value) }
    ensures memory { IfErr result (λ e. e ≡ fault.Memory) }
{
    Ok(Box::new(alloc, value)?)
}
