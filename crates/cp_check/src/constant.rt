//! Constants.

ghost use Rattle.std.specs.Prelude.{◌≡◌};
ghost use Rattle.cp_scope.specs.Judged.{Judges};
ghost use Rattle.cp_scope.specs.View.{scopes_of};
ghost use Rattle.cp_check.specs.Constants as spec;

use crate::name::meaning_of;
use cp_scope::{Base, CheckFault, Meaning, Rule, ScopeTable, broken_rule};
use cp_tree::{Constant, ConstantKind, Identifier, Sign};

/// A constant's base and number.
#[derive(Clone, Copy)]
pub struct ConstantNumber {
    pub base: Base,
    pub value: i64,
}

impl ConstantNumber {
    /// Whether two constants are one value.
    pub fn is_same(self, other: ConstantNumber) -> bool
        ensures { result ≡ spec.same_number self other }
    {
        self.base.is_same(other.base) && self.value == other.value
    }
}

/// A number with its sign.
fn number_with_sign(
    at: usize,
    sign: Option<Sign>,
    number: ConstantNumber,
) -> Result<ConstantNumber, CheckFault>
    ensures { Judges (λ n. n) (spec.number_with_sign at sign number) result }
{
    match sign {
        None => Ok(number),
        Some(sign) => {
            if number.base.is_same(Base::Integer) {
                Ok(ConstantNumber {
                    base: number.base,
                    value: match sign {
                        Sign::Plus => number.value,
                        Sign::Minus => number.value.wrapping_neg(),
                    },
                })
            } else {
                broken_rule(at, Rule::C5)
            }
        }
    }
}

/// A name in a constant's place.
#[tactic(auto, unfolding(crate::specs::Constants::constant_named))]
fn constant_named(table: &ScopeTable, name: &Identifier) -> Result<ConstantNumber, CheckFault>
    ensures { Judges (λ n. n) (spec.constant_named (scopes_of table.now) name.now) result }
{
    match meaning_of(table, name.at, &name.name)? {
        Meaning::Constant(base, value) => Ok(ConstantNumber { base, value }),
        _ => broken_rule(name.at, Rule::C3),
    }
}

/// A constant.
#[tactic(auto, unfolding(crate::specs::Constants::constant))]
pub fn constant(table: &ScopeTable, node: &Constant) -> Result<ConstantNumber, CheckFault>
    ensures { Judges (λ n. n) (spec.constant (scopes_of table.now) node.now) result }
{
    let at = node.at;
    match &node.kind {
        ConstantKind::Number(sign, value) => number_with_sign(
            at,
            *sign,
            ConstantNumber {
                base: Base::Integer,
                value: *value as i64,
            },
        ),
        ConstantKind::Name(sign, name) => number_with_sign(at, *sign, constant_named(table, name)?),
        ConstantKind::Character(code) => Ok(ConstantNumber {
            base: Base::Char,
            value: *code as i64,
        }),
    }
}
