//! The values of expressions that are made of constants.

use crate::declared::{Declarations, Declared};
use cp_tree::{
    Addition, Constant, ConstantKind, Expression, Factor, FactorKind, Identifier, Multiplication,
    Sign, Sum, Term,
};

/// Through how many definitions a name is followed.
const MOST_DEFINITIONS: usize = 20;

/// A value, where it is an integer of the language.
fn as_integer(value: i64) -> Option<i64> {
    if -32768 <= value && value <= 32767 {
        Some(value)
    } else {
        None
    }
}

/// A value with its sign.
fn signed(sign: Option<Sign>, value: i64) -> Option<i64> {
    match sign {
        Some(Sign::Minus) => as_integer(0i64.saturating_sub(value)),
        _ => Some(value),
    }
}

impl<'a> Declarations<'a> {
    /// The number of a constant with a name, through at most so many definitions.
    fn number_named(&self, name: &'a Identifier) -> Option<i64> {
        let mut name = name;
        let mut is_negative = false;
        for _ in 0..MOST_DEFINITIONS {
            let Some(one) = self.named(name) else {
                return match name.name.as_str() {
                    "false" => Some(0),
                    "true" => Some(1),
                    _ => None,
                };
            };
            let (sign, value) = match one.what {
                Declared::Member(number) => (None, i64::try_from(number).ok()?),
                Declared::Constant(Constant { kind, .. }) => match kind {
                    ConstantKind::Number(sign, value) => (*sign, i64::from(*value)),
                    ConstantKind::Character(code) => (None, i64::from(*code)),
                    ConstantKind::Name(sign, other) => {
                        is_negative = is_negative != (*sign == Some(Sign::Minus));
                        name = other;
                        continue;
                    }
                },
                _ => return None,
            };
            let value = signed(sign, value)?;
            return if is_negative {
                signed(Some(Sign::Minus), value)
            } else {
                Some(value)
            };
        }
        None
    }

    /// The value of an expression that is made of constants.
    #[cycle(numbers)]
    pub fn value(&self, node: &'a Expression) -> Option<i64> {
        match &node.right {
            Some(_) => None,
            None => self.value_of_sum(&node.left),
        }
    }

    #[cycle(numbers)]
    fn value_of_sum(&self, node: &'a Sum) -> Option<i64> {
        let mut value = signed(node.sign, self.value_of_term(&node.first)?)?;
        for (operator, term) in &node.more {
            let other = self.value_of_term(term)?;
            value = match operator {
                Addition::Plus => as_integer(value.saturating_add(other))?,
                Addition::Minus => as_integer(value.saturating_sub(other))?,
                Addition::Or => return None,
            };
        }
        Some(value)
    }

    #[cycle(numbers)]
    fn value_of_term(&self, node: &'a Term) -> Option<i64> {
        let mut value = self.value_of_factor(&node.first)?;
        for (operator, factor) in &node.more {
            let Multiplication::Times = operator else {
                return None;
            };
            value = as_integer(value.saturating_mul(self.value_of_factor(factor)?))?;
        }
        Some(value)
    }

    #[cycle(numbers)]
    fn value_of_factor(&self, node: &'a Factor) -> Option<i64> {
        match &node.kind {
            FactorKind::Number(value) => Some(i64::from(*value)),
            FactorKind::Character(code) => Some(i64::from(*code)),
            FactorKind::Group(inner) => self.value(inner),
            FactorKind::Named(named, arguments)
                if arguments.is_empty() && named.selectors.is_empty() => self.number_named(
                &named.name,
            ),
            _ => None,
        }
    }
}
