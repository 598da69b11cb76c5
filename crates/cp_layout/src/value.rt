//! Values and variables with slots, and the operations on values.

ghost use Rattle.std.specs.Prelude.{◌≡◌, IfOk};
ghost use Rattle.cp_slots.specs.Code.{place_seen, expression_seen, set_seen};
ghost use Rattle.cp_layout.specs.Values as spec;
ghost use Rattle.cp_layout.specs.Values.{value_seen};

use cp_slots::{
    Arithmetic, Comparison, ComponentPlace, Logic, OrdinalExpression, Place, PlaceOrigin,
    SetExpression, SetOperation,
};
use cp_symbols::{CellBase, CellType, PredeclaredRoutine};
use cp_tree::{Addition, Multiplication, Relation};
use std::alloc::{AllocError, Global};

/// The value of an expression.
#[derive(Drop)]
pub enum Value {
    Ordinal(OrdinalExpression, CellBase),
    Set(SetExpression),
    /// An array, a record or a queue.
    Whole(Place, CellType),
    Component(ComponentPlace),
}

/// What a name with selectors stands for.
#[derive(Drop)]
pub enum Designated {
    Value(Value),
    Variable(Place, CellType),
    /// A component, or an array of these, by the number of the first above that of its container.
    Contained(usize, CellType),
    /// A component of a system type.
    Component(ComponentPlace, usize),
    Routine(usize),
    Entry(ComponentPlace, usize),
    Predeclared(PredeclaredRoutine),
    Nothing,
}

/// A number.
pub fn number(number: i16, base: CellBase) -> Value
    ensures { value_seen result ≡ spec.number_value number base }
{
    Value::Ordinal(OrdinalExpression::Number(number), base)
}

/// What stands for a value that cannot be.
pub fn no_value() -> Value
    ensures { value_seen result ≡ spec.no_value }
{
    number(0, CellBase::Integer)
}

/// A whole variable.
pub fn place_at(alloc: Global, origin: PlaceOrigin) -> Place
    ensures { place_seen result ≡ spec.place_at origin }
{
    Place {
        origin,
        offset: 0,
        indices: Vec::new(alloc),
    }
}

/// The value of a variable.
pub fn load(place: Place, value_type: CellType) -> Value
    ensures { value_seen result ≡ spec.value_loaded_from (place_seen place) value_type }
{
    match value_type {
        CellType::Ordinal(range) => Value::Ordinal(OrdinalExpression::Load(place), range.base),
        CellType::Set(_) => Value::Set(SetExpression::Load(place)),
        _ => Value::Whole(place, value_type),
    }
}

/// The variable whose value it is.
pub fn place_of(alloc: Global, value: Value) -> Place
    ensures { place_seen result ≡ spec.place_of (value_seen value) }
{
    match value {
        Value::Ordinal(OrdinalExpression::Load(place), _) => place,
        Value::Set(SetExpression::Load(place)) => place,
        Value::Whole(place, _) => place,
        _ => place_at(alloc, PlaceOrigin::Local(0)),
    }
}

/// The expression of an ordinal value.
pub fn ordinal(value: Value) -> OrdinalExpression
    ensures { expression_seen result ≡ spec.ordinal_of (value_seen value) }
{
    match value {
        Value::Ordinal(expression, _) => expression,
        _ => OrdinalExpression::Number(0),
    }
}

/// The expression of a set.
pub fn set_expression(value: Value) -> SetExpression
    ensures { set_seen result ≡ spec.set_of (value_seen value) }
{
    match value {
        Value::Set(expression) => expression,
        _ => SetExpression::Empty,
    }
}

/// `not` of a value.
pub fn negation_of(alloc: Global, value: Value) -> Result<Value, AllocError>
    ensures { IfOk result (λ v. value_seen v ≡ spec.negation_of (value_seen value)) }
{
    let inner = Box::new(alloc, ordinal(value))?;
    Ok(Value::Ordinal(OrdinalExpression::Not(inner), CellBase::Boolean))
}

/// A value with the sign `-`.
pub fn opposite(alloc: Global, value: Value) -> Result<Value, AllocError>
    ensures { IfOk result (λ v. value_seen v ≡ spec.opposite (value_seen value)) }
{
    let inner = Box::new(alloc, ordinal(value))?;
    Ok(Value::Ordinal(OrdinalExpression::Negate(inner), CellBase::Integer))
}

/// Two values, each in a box. They are let go here where memory fails, whatever they are: that takes each caller a long proof.
pub fn in_two_boxes<L: Drop, R: Drop>(
    alloc: Global,
    left: L,
    right: R,
) -> Result<(Box<L>, Box<R>), AllocError>
    ensures left { IfOk result (λ p. p.0.value ≡ left) }
    ensures right { IfOk result (λ p. p.1.value ≡ right) }
{
    let left = Box::new(alloc, left)?;
    Ok((left, Box::new(alloc, right)?))
}

fn arithmetic(
    alloc: Global,
    operation: Arithmetic,
    left: Value,
    right: Value,
) -> Result<Value, AllocError>
    ensures { IfOk result (λ v. value_seen v ≡ spec.arithmetic_of operation (value_seen left) (value_seen right)) }
{
    let (left, right) = in_two_boxes(alloc, ordinal(left), ordinal(right))?;
    Ok(Value::Ordinal(
        OrdinalExpression::Arithmetic(operation, left, right),
        CellBase::Integer,
    ))
}

fn logic(alloc: Global, operation: Logic, left: Value, right: Value) -> Result<Value, AllocError>
    ensures { IfOk result (λ v. value_seen v ≡ spec.logic_of operation (value_seen left) (value_seen right)) }
{
    let (left, right) = in_two_boxes(alloc, ordinal(left), ordinal(right))?;
    Ok(Value::Ordinal(
        OrdinalExpression::Logic(operation, left, right),
        CellBase::Boolean,
    ))
}

fn combined_sets(
    alloc: Global,
    operation: SetOperation,
    left: Value,
    right: Value,
) -> Result<Value, AllocError>
    ensures { IfOk result (λ v. value_seen v ≡ spec.combination_of operation (value_seen left) (value_seen right)) }
{
    let (left, right) = in_two_boxes(alloc, set_expression(left), set_expression(right))?;
    Ok(Value::Set(SetExpression::Combine(operation, left, right)))
}

/// Two terms added, subtracted or joined.
pub fn sum_of(
    alloc: Global,
    operation: Addition,
    left: Value,
    right: Value,
) -> Result<Value, AllocError>
    ensures { IfOk result (λ v. value_seen v ≡ spec.sum_of operation (value_seen left) (value_seen right)) }
{
    match (operation, &left) {
        (Addition::Plus, _) => arithmetic(alloc, Arithmetic::Add, left, right),
        (Addition::Minus, Value::Set(_)) => combined_sets(
            alloc,
            SetOperation::Difference,
            left,
            right,
        ),
        (Addition::Minus, _) => arithmetic(alloc, Arithmetic::Subtract, left, right),
        (Addition::Or, Value::Set(_)) => combined_sets(alloc, SetOperation::Union, left, right),
        (Addition::Or, _) => logic(alloc, Logic::Or, left, right),
    }
}

/// Two factors multiplied, divided or met.
pub fn product_of(
    alloc: Global,
    operation: Multiplication,
    left: Value,
    right: Value,
) -> Result<Value, AllocError>
    ensures { IfOk result (λ v. value_seen v ≡ spec.product_of operation (value_seen left) (value_seen right)) }
{
    match (operation, &left) {
        (Multiplication::Times, _) => arithmetic(alloc, Arithmetic::Multiply, left, right),
        (Multiplication::Div, _) => arithmetic(alloc, Arithmetic::Divide, left, right),
        (Multiplication::Mod, _) => arithmetic(alloc, Arithmetic::Modulo, left, right),
        (Multiplication::And, Value::Set(_)) => {
            combined_sets(alloc, SetOperation::Intersection, left, right)
        }
        (Multiplication::And, _) => logic(alloc, Logic::And, left, right),
    }
}

fn member(alloc: Global, left: Value, right: Value) -> Result<Value, AllocError>
    ensures { IfOk result (λ v. value_seen v ≡ spec.member_of (value_seen left) (value_seen right)) }
{
    let (element, set) = in_two_boxes(alloc, ordinal(left), set_expression(right))?;
    Ok(Value::Ordinal(OrdinalExpression::Member(element, set), CellBase::Boolean))
}

fn same_set(alloc: Global, is_same: bool, left: Value, right: Value) -> Result<Value, AllocError>
    ensures { IfOk result (λ v. value_seen v ≡ spec.same_sets is_same (value_seen left) (value_seen right)) }
{
    let (left, right) = in_two_boxes(alloc, set_expression(left), set_expression(right))?;
    Ok(Value::Ordinal(
        OrdinalExpression::SameSet(is_same, left, right),
        CellBase::Boolean,
    ))
}

fn comparison(
    alloc: Global,
    relation: Comparison,
    left: Value,
    right: Value,
) -> Result<Value, AllocError>
    ensures { IfOk result (λ v. value_seen v ≡ spec.comparison_value relation (value_seen left) (value_seen right)) }
{
    let (left, right) = in_two_boxes(alloc, ordinal(left), ordinal(right))?;
    Ok(Value::Ordinal(
        OrdinalExpression::Compare(relation, left, right),
        CellBase::Boolean,
    ))
}

/// Two sums compared.
pub fn comparison_of(
    alloc: Global,
    relation: Relation,
    left: Value,
    right: Value,
) -> Result<Value, AllocError>
    ensures { IfOk result (λ v. value_seen v ≡ spec.comparison_of relation (value_seen left) (value_seen right)) }
{
    match (relation, &left) {
        (Relation::In, _) => member(alloc, left, right),
        (Relation::Equal, Value::Set(_)) => same_set(alloc, true, left, right),
        (Relation::NotEqual, Value::Set(_)) => same_set(alloc, false, left, right),
        (Relation::Equal, _) => comparison(alloc, Comparison::Equal, left, right),
        (Relation::NotEqual, _) => comparison(alloc, Comparison::NotEqual, left, right),
        (Relation::Less, _) => comparison(alloc, Comparison::Less, left, right),
        (Relation::Greater, _) => comparison(alloc, Comparison::Greater, left, right),
        (Relation::AtMost, _) => comparison(alloc, Comparison::AtMost, left, right),
        (Relation::AtLeast, _) => comparison(alloc, Comparison::AtLeast, left, right),
    }
}

/// What a predeclared function answers for an argument.
pub fn standard_value(
    alloc: Global,
    function: PredeclaredRoutine,
    value: Value,
) -> Result<Value, AllocError>
    ensures { IfOk result (λ v. value_seen v ≡ spec.standard_value function (value_seen value)) }
{
    let (inner, base) = match value {
        Value::Ordinal(inner, base) => (inner, base),
        Value::Whole(place, _) => return Ok(is_empty(place)),
        _ => return Ok(no_value()),
    };
    let range = base.whole();
    Ok(match function {
        PredeclaredRoutine::Succ => Value::Ordinal(
            OrdinalExpression::Successor(Box::new(alloc, inner)?, range.high),
            base,
        ),
        PredeclaredRoutine::Pred => Value::Ordinal(
            OrdinalExpression::Predecessor(Box::new(alloc, inner)?, range.low),
            base,
        ),
        PredeclaredRoutine::Chr => {
            Value::Ordinal(
                OrdinalExpression::Character(Box::new(alloc, inner)?),
                CellBase::Char,
            )
        }
        PredeclaredRoutine::Abs => {
            Value::Ordinal(
                OrdinalExpression::Absolute(Box::new(alloc, inner)?),
                CellBase::Integer,
            )
        }
        _ => Value::Ordinal(inner, CellBase::Integer),
    })
}

fn is_empty(place: Place) -> Value
    ensures { value_seen result ≡ spec.empty_queue (place_seen place) }
{
    Value::Ordinal(OrdinalExpression::IsEmpty(place), CellBase::Boolean)
}
