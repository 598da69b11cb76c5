//! The rules of operations.

ghost use Rattle.std.specs.Prelude.{◌≡◌, Some, Err};
ghost use Rattle.cp_scope.specs.Judged.{Judges};
ghost use Rattle.cp_scope.specs.declared.fault.CheckFault.TheVariants as check_fault;
ghost use Rattle.cp_scope.specs.declared.fault.Rule.TheVariants.{C5};
ghost use Rattle.cp_check.specs.Operations as spec;

use crate::operand::{Operand, base_value, value};
use cp_scope::{
    Base, CheckFault, Detail, Predeclared, Range, Role, Rule, ScopeTable, Use, ValueType,
    broken_rule,
};
use cp_tree::{Addition, Multiplication, Relation, Sign};

/// A number where both are numbers.
fn number(at: usize, left: Operand, right: Operand) -> Option<Operand>
    ensures { result ≡ spec.number at left right }
{
    if left.value_type.is_of(Base::Integer) && right.value_type.is_of(Base::Integer) {
        Some(base_value(at, Base::Integer, left.uses.and(right.uses)))
    } else {
        None
    }
}

/// The type of an operation on two sets, which agree.
fn set_type(left: Option<Range>, right: Option<Range>) -> ValueType
    ensures { result ≡ spec.set_type left right }
{
    match left {
        Some(_) => ValueType::Set(left),
        None => ValueType::Set(right),
    }
}

/// A set where both are sets that agree.
fn set(at: usize, left: Operand, right: Operand) -> Option<Operand>
    ensures { result ≡ spec.set at left right }
{
    match (left.value_type, right.value_type) {
        (ValueType::Set(a), ValueType::Set(b)) => {
            if left.value_type.agrees(right.value_type) {
                Some(value(at, set_type(a, b), left.uses.and(right.uses)))
            } else {
                None
            }
        }
        _ => None,
    }
}

/// A truth value or a set where both are such.
fn truth_or_set(at: usize, left: Operand, right: Operand) -> Option<Operand>
    ensures { result ≡ spec.truth_or_set at left right }
{
    if left.value_type.is_of(Base::Boolean) && right.value_type.is_of(Base::Boolean) {
        Some(base_value(at, Base::Boolean, left.uses.and(right.uses)))
    } else {
        set(at, left, right)
    }
}

/// What an operation answers; notes its operands where they do not agree.
fn answer_noting(
    table: &ScopeTable,
    left: Operand,
    right: Operand,
    answer: Option<Operand>,
) -> Option<Operand>
    ensures { result ≡ answer }
{
    if answer.is_none() {
        table.note(Detail::Operands(left.as_found(), right.as_found()));
    }
    answer
}

/// The sum of two terms; nothing where they do not agree.
fn sum_of_two(at: usize, operation: Addition, left: Operand, right: Operand) -> Option<Operand>
    ensures { result ≡ spec.sum_of at operation (Some left) right }
{
    match operation {
        Addition::Plus => number(at, left, right),
        Addition::Minus => number(at, left, right).or(set(at, left, right)),
        Addition::Or => truth_or_set(at, left, right),
    }
}

/// A term more in a sum; nothing where the operands do not agree.
pub fn sum_of(
    table: &ScopeTable,
    at: usize,
    operation: Addition,
    left: Option<Operand>,
    right: Operand,
) -> Option<Operand>
    ensures { result ≡ spec.sum_of at operation left right }
{
    let left = left?;
    answer_noting(table, left, right, sum_of_two(at, operation, left, right))
}

/// The product of two factors; nothing where they do not agree.
fn product_of_two(
    at: usize,
    operation: Multiplication,
    left: Operand,
    right: Operand,
) -> Option<Operand>
    ensures { result ≡ spec.product_of at operation (Some left) right }
{
    match operation {
        Multiplication::And => truth_or_set(at, left, right),
        _ => number(at, left, right),
    }
}

/// A factor more in a term; nothing where the operands do not agree.
pub fn product_of(
    table: &ScopeTable,
    at: usize,
    operation: Multiplication,
    left: Option<Operand>,
    right: Operand,
) -> Option<Operand>
    ensures { result ≡ spec.product_of at operation left right }
{
    let left = left?;
    answer_noting(
        table,
        left,
        right,
        product_of_two(at, operation, left, right),
    )
}

/// The first term of a sum with its sign; nothing where it takes none.
pub fn with_sign(
    table: &ScopeTable,
    at: usize,
    sign: Option<Sign>,
    operand: Operand,
) -> Option<Operand>
    ensures { result ≡ spec.with_sign at sign operand }
{
    match sign {
        None => Some(operand),
        Some(_) => {
            if operand.value_type.is_of(Base::Integer) {
                Some(base_value(at, Base::Integer, operand.uses))
            } else {
                table.note(Detail::Operand(operand.as_found()));
                None
            }
        }
    }
}

/// The operands of a node agree.
pub fn check_agreement(at: usize, operand: Option<Operand>) -> Result<Operand, CheckFault>
    ensures { Judges (λ o. o) (spec.check_agreement at operand) result }
{
    match operand {
        Some(operand) => Ok(operand),
        None => broken_rule(at, Rule::C5),
    }
}

/// Whether a relation stands between two operands.
fn relates(relation: Relation, left: ValueType, right: ValueType) -> bool
    ensures { result ≡ spec.relates relation left right }
{
    match relation {
        Relation::In => match (left, right) {
            (ValueType::Ordinal(a), ValueType::Set(Some(b))) => a.base.is_same(b.base),
            (ValueType::Ordinal(_), ValueType::Set(None)) => true,
            _ => false,
        },
        Relation::Equal | Relation::NotEqual => match (left, right) {
            (ValueType::Ordinal(_), ValueType::Ordinal(_)) => left.agrees(right),
            (ValueType::Set(_), ValueType::Set(_)) => left.agrees(right),
            _ => false,
        },
        _ => match (left, right) {
            (ValueType::Ordinal(_), ValueType::Ordinal(_)) => left.agrees(right),
            _ => false,
        },
    }
}

/// The truth of a relation.
pub fn relation_value(
    table: &ScopeTable,
    at: usize,
    relation: Relation,
    left: Operand,
    right: Operand,
) -> Result<Operand, CheckFault>
    ensures { Judges (λ o. o) (spec.relation_value at relation (left, right)) result }
{
    if relates(relation, left.value_type, right.value_type) {
        Ok(base_value(at, Base::Boolean, left.uses.and(right.uses)))
    } else {
        let detail = Detail::Operands(left.as_found(), right.as_found());
        table.broken_rule(at, Rule::C5, detail)
    }
}

/// The contrary of a truth value.
pub fn negation_of(table: &ScopeTable, at: usize, operand: Operand) -> Result<Operand, CheckFault>
    ensures { Judges (λ o. o) (spec.negation_of at operand) result }
{
    if operand.value_type.is_of(Base::Boolean) {
        Ok(base_value(at, Base::Boolean, operand.uses))
    } else {
        table.broken_rule(at, Rule::C5, Detail::Operand(operand.as_found()))
    }
}

/// A predeclared function does not take a value.
fn refuse_argument(table: &ScopeTable, at: usize, operand: Operand) -> Result<Operand, CheckFault>
    ensures { result ≡ Err (check_fault.Rule at C5) }
{
    table.broken_rule(at, Rule::C5, Detail::Operand(operand.as_found()))
}

/// A call of a predeclared function with its one argument.
fn standard_value_of(
    table: &ScopeTable,
    at: usize,
    function: Predeclared,
    operand: Operand,
    uses: Use,
) -> Result<Operand, CheckFault>
    ensures { Judges (λ o. o) (spec.standard_value_of at function operand uses) result }
{
    match function {
        Predeclared::Succ | Predeclared::Pred => match operand.value_type {
            ValueType::Ordinal(range) => Ok(base_value(at, range.base, uses)),
            _ => refuse_argument(table, at, operand),
        },
        Predeclared::Ord => match operand.value_type {
            ValueType::Ordinal(_) => Ok(base_value(at, Base::Integer, uses)),
            _ => refuse_argument(table, at, operand),
        },
        Predeclared::Chr => {
            if operand.value_type.is_of(Base::Integer) {
                Ok(base_value(at, Base::Char, uses))
            } else {
                refuse_argument(table, at, operand)
            }
        }
        Predeclared::Abs => {
            if operand.value_type.is_of(Base::Integer) {
                Ok(base_value(at, Base::Integer, uses))
            } else {
                refuse_argument(table, at, operand)
            }
        }
        Predeclared::Empty => {
            if operand.is_queue() {
                Ok(base_value(at, Base::Boolean, uses))
            } else {
                refuse_argument(table, at, operand)
            }
        }
        _ => refuse_argument(table, at, operand),
    }
}

/// Whether a predeclared routine is a function.
pub fn is_function(routine: Predeclared) -> bool
    ensures { result ≡ spec.is_function routine }
{
    match routine {
        Predeclared::Delay | Predeclared::Continue | Predeclared::Display => false,
        _ => true,
    }
}

/// A call of a predeclared routine as a value.
pub fn standard_value(
    table: &ScopeTable,
    at: usize,
    function: Predeclared,
    operands: &[Operand],
    uses: Use,
) -> Result<Operand, CheckFault>
    ensures { Judges (λ o. o) (spec.standard_value at function operands.now uses) result }
{
    if !is_function(function) {
        return table.broken_rule(at, Rule::C5, Detail::Value(Role::Procedure));
    }
    match operands {
        [operand] => standard_value_of(table, at, function, *operand, uses),
        _ => table.broken_rule(at, Rule::C7, Detail::Number(None, operands.len())),
    }
}
