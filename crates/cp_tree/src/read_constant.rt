//! Reading names and constants.

ghost use Rattle.std.specs.Prelude.{◌≡◌, Ok};
ghost use Rattle.cp_tree.specs.Input.{Reads};
ghost use Rattle.cp_tree.specs.Reading as spec;

use crate::constant::{Constant, ConstantKind, Identifier, Sign};
use crate::cursor::{Cursor, eat_one, match_next};
use crate::fault::{ParseFault, Sought};
use cp_text::{Kind, Mark};
use std::alloc::Global;

#[tactic(auto, unfolding(crate::specs::Reading::identifier))]
pub fn identifier(alloc: Global, cursor: &mut Cursor<'_>) -> Result<Identifier, ParseFault>
    ensures { Reads (λ i. i) (spec.identifier cursor.old) result cursor.new }
{
    let at = cursor.at();
    match_next!(cursor, {
        Kind::Name(name) => {
            let name = name.copy(alloc)?;
            cursor.advance();
            Ok(Identifier { at, name })
        },
        _ => Err(cursor.unexpected_token()),
    })
}

/// Names with commas between them.
#[tactic(auto, using(crate::proofs::Turns::turns), unfolding(crate::specs::Reading::identifiers, crate::specs::Reading::separated))]
pub fn identifiers(alloc: Global, cursor: &mut Cursor<'_>) -> Result<Vec<Identifier>, ParseFault>
    ensures { Reads (λ v. v.items) (spec.identifiers cursor.old) result cursor.new }
{
    let mut found = Vec::new(alloc);
    found.push(identifier(alloc, cursor)?)?;
    for _turn in 0..cursor.tokens_left() {
        if !cursor.eat(Mark::Comma) {
            return Ok(found);
        }
        found.push(identifier(alloc, cursor)?)?;
    }
    Ok(found)
}

/// The sign that comes next, if one does.
#[tactic(auto, unfolding(crate::specs::Reading::sign))]
pub fn sign(cursor: &mut Cursor<'_>) -> Option<Sign>
    ensures { spec.sign cursor.old ≡ Ok (result, cursor.new) }
{
    eat_one!(cursor, {
        Mark::Plus => Some(Sign::Plus),
        Mark::Minus => Some(Sign::Minus),
        _ => None,
    })
}

#[tactic(auto, unfolding(crate::specs::Reading::constant))]
pub fn constant(alloc: Global, cursor: &mut Cursor<'_>) -> Result<Constant, ParseFault>
    ensures { Reads (λ c. c) (spec.constant cursor.old) result cursor.new }
{
    let at = cursor.at();
    let sign = sign(cursor);
    let sought: &[Sought] = match sign {
        Some(_) => &[Sought::Number, Sought::Name],
        None => &[Sought::Number, Sought::Name, Sought::Character],
    };
    match cursor.peek_for(sought) {
        Some(Kind::Number(value)) => {
            cursor.advance();
            Ok(Constant {
                at,
                kind: ConstantKind::Number(sign, *value),
            })
        }
        Some(Kind::Name(_)) => {
            let name = identifier(alloc, cursor)?;
            Ok(Constant {
                at,
                kind: ConstantKind::Name(sign, name),
            })
        }
        Some(Kind::Character(code)) if sign.is_none() => {
            cursor.advance();
            Ok(Constant {
                at,
                kind: ConstantKind::Character(*code),
            })
        }
        _ => Err(cursor.unexpected_token()),
    }
}
