//! Addresses of places, and values of expressions and sets. Parts are evaluated from left to right; the first run error counts.

ghost use Rattle.std.specs.Prelude.{◌≡◌, ℕ, ◌*◌, ◌^◌, ◌<◌, ◌-ℤ◌, IfOk, IsTrue, unsigned_abs};
ghost use Rattle.cp_store.specs.Answers.{result_of};
ghost use Rattle.cp_store.specs.Inside.{Begins, CanGoThrough, CanReach, CanRead, CanReadSet, HasCells};
ghost use Rattle.cp_store.specs.Memory.{memory_of};
ghost use Rattle.cp_store.specs.Places as spec;

use crate::answer::Evaluation;
use crate::arithmetic::{
    absolute, apply_logic, calculate, check_range, compare, is_true, negate, predecessor,
    successor, truth,
};
use crate::error::ErrorName;
use crate::memory::{Address, Frame, Room, cell};
use crate::set::{self, SetValue};
use cp_slots::{Index, OrdinalExpression, Place, PlaceOrigin, SetExpression};

/// Where a variable begins.
#[inline(always)]
#[tactic(auto, using(crate::proofs::Reaches::onward_exact))]
pub fn origin_address(origin: PlaceOrigin, room: &Room, frame: &Frame) -> Address
    requires { Begins room.now.references.items frame.now origin }
    ensures { result ≡ spec.origin_address room.now.references.items frame.now origin }
{
    match origin {
        PlaceOrigin::Permanent(slot) => Address::Permanent(frame.own + slot),
        PlaceOrigin::Local(slot) => Address::Local(frame.base + slot),
        PlaceOrigin::Reference(number) => room.references[frame.references + number],
    }
}

/// How far the element of an index is from the beginning of its array.
#[tactic(auto, using(crate::proofs::Reaches::nearer))]
pub fn element_offset(index: i16, low: i16, high: i16, size: usize) -> Result<usize, ErrorName>
    requires { unsigned_abs (high -ℤ low) * size < 2 ^ 64 }
    ensures { result ≡ spec.element_offset low high size index }
{
    let index = check_range(index, low, high)?;
    let elements = index.abs_diff(low) as usize;
    Ok(elements * size)
}

/// The address of a place.
#[cycle(evaluate)]
#[tactic(auto, using(crate::proofs::Reaches::begins, crate::proofs::Reaches::moves))]
#[inline(always)]
pub fn address(
    place: &Place,
    permanents: &[i16],
    room: &Room,
    frame: &Frame,
) -> Result<Address, ErrorName>
    requires { (cells : ℕ) × CanReach (memory_of permanents.now room.now) frame.now place.now cells }
    ensures value { result ≡ spec.address_at (memory_of permanents.now room.now) frame.now place.now }
    ensures cells { (cells : ℕ) → CanReach (memory_of permanents.now room.now) frame.now place.now cells → IfOk result (λ at. HasCells (memory_of permanents.now room.now) at cells) }
{
    let start = origin_address(place.origin, room, frame).plus(place.offset);
    match place.indices.as_slice() {
        [] => Ok(start),
        indices => element_address(start, indices, permanents, room, frame),
    }
}

// The address after all indices: apart, since addresses go through memory.
#[cycle(evaluate)]
#[inline(never)]
fn element_address(
    start: Address,
    indices: &[Index],
    permanents: &[i16],
    room: &Room,
    frame: &Frame,
) -> Result<Address, ErrorName>
    requires { (cells : ℕ) × CanGoThrough (memory_of permanents.now room.now) frame.now start indices.now cells }
    ensures { result ≡ spec.element_address (memory_of permanents.now room.now) frame.now start indices.now }
{
    through(start, indices, permanents, room, frame)
}

// The address after all indices.
#[cycle(evaluate)]
#[inline(always)]
#[tactic(auto, using(crate::proofs::Reaches::index_reads))]
fn through(
    start: Address,
    indices: &[Index],
    permanents: &[i16],
    room: &Room,
    frame: &Frame,
) -> Result<Address, ErrorName>
    requires { (cells : ℕ) × CanGoThrough (memory_of permanents.now room.now) frame.now start indices.now cells }
    ensures { result ≡ spec.element_address (memory_of permanents.now room.now) frame.now start indices.now }
{
    let mut at = start;
    for index in indices {
        let value = evaluate(&index.at, permanents, room, frame)?;
        at = at.plus(element_offset(value, index.low, index.high, index.size)?);
    }
    Ok(at)
}

/// The value of an expression.
#[cycle(evaluate)]
#[inline(always)]
pub fn evaluate(
    expression: &OrdinalExpression,
    permanents: &[i16],
    room: &Room,
    frame: &Frame,
) -> Result<i16, ErrorName>
    requires { CanRead (memory_of permanents.now room.now) frame.now expression.now }
    ensures { result ≡ spec.value_at (memory_of permanents.now room.now) frame.now expression.now }
{
    match expression {
        OrdinalExpression::Number(value) => Ok(*value),
        OrdinalExpression::Load(place) => load_value(place, permanents, room, frame),
        _ => answer(
            expression,
            &EvaluationView {
                permanents,
                room,
                frame,
            },
        )
        .result(),
    }
}

/// The value of an expression, computed where it is asked for: worth its length for right sides of assignments, which mostly are
/// operations.
#[inline(always)]
pub fn evaluate_here(
    expression: &OrdinalExpression,
    permanents: &[i16],
    room: &Room,
    frame: &Frame,
) -> Result<i16, ErrorName>
    requires { CanRead (memory_of permanents.now room.now) frame.now expression.now }
    ensures { result ≡ spec.value_at (memory_of permanents.now room.now) frame.now expression.now }
{
    let view = EvaluationView {
        permanents,
        room,
        frame,
    };
    compute_value(expression, &view)
}

// What an expression is read in. The functions of its parts share one, so that each takes two arguments and not four.
#[derive(Clone, Copy)]
struct EvaluationView<'a> {
    permanents: &'a [i16],
    room: &'a Room,
    frame: &'a Frame,
}

// The value of a part.
#[cycle(evaluate)]
#[inline(always)]
fn operand_value(expression: &OrdinalExpression, view: &EvaluationView) -> Result<i16, ErrorName>
    requires { CanRead (memory_of view.now.permanents.now view.now.room.now) view.now.frame.now expression.now }
    ensures { result ≡ spec.value_at (memory_of view.now.permanents.now view.now.room.now) view.now.frame.now expression.now }
{
    match expression {
        OrdinalExpression::Number(value) => Ok(*value),
        OrdinalExpression::Load(place) => load_value(place, view.permanents, view.room, view.frame),
        _ => answer(expression, view).result(),
    }
}

// The value of the left side of an operation, which often is one itself: that is computed where it stands.
#[cycle(evaluate)]
#[inline(always)]
fn left_part(expression: &OrdinalExpression, view: &EvaluationView) -> Result<i16, ErrorName>
    requires { CanRead (memory_of view.now.permanents.now view.now.room.now) view.now.frame.now expression.now }
    ensures { result ≡ spec.value_at (memory_of view.now.permanents.now view.now.room.now) view.now.frame.now expression.now }
{
    if let OrdinalExpression::Arithmetic(operator, left, right) = expression {
        let left = operand_value(left, view)?;
        let right = operand_value(right, view)?;
        return calculate(*operator, left, right);
    }
    operand_value(expression, view)
}

// The value of an expression, handed over in a register.
#[cycle(evaluate)]
#[inline(never)]
fn answer(expression: &OrdinalExpression, view: &EvaluationView) -> Evaluation
    requires { CanRead (memory_of view.now.permanents.now view.now.room.now) view.now.frame.now expression.now }
    ensures { result_of result ≡ spec.value_at (memory_of view.now.permanents.now view.now.room.now) view.now.frame.now expression.now }
{
    Evaluation::of(compute_value(expression, view))
}

// The value of an expression by its parts.
#[cycle(evaluate)]
#[inline(always)]
fn compute_value(expression: &OrdinalExpression, view: &EvaluationView) -> Result<i16, ErrorName>
    requires { CanRead (memory_of view.now.permanents.now view.now.room.now) view.now.frame.now expression.now }
    ensures { result ≡ spec.value_at (memory_of view.now.permanents.now view.now.room.now) view.now.frame.now expression.now }
{
    // The most frequent form is not looked up in a table.
    if let OrdinalExpression::Arithmetic(operator, left, right) = expression {
        let left = left_part(left, view)?;
        let right = operand_value(right, view)?;
        return calculate(*operator, left, right);
    }
    match expression {
        OrdinalExpression::Number(value) => Ok(*value),
        OrdinalExpression::Load(place) => load_value(place, view.permanents, view.room, view.frame),
        OrdinalExpression::Arithmetic(_, _, _) => unreachable!(),
        OrdinalExpression::Compare(relation, left, right) => {
            let left = operand_value(left, view)?;
            let right = operand_value(right, view)?;
            Ok(compare(*relation, left, right))
        }
        OrdinalExpression::Logic(operator, left, right) => {
            let left = operand_value(left, view)?;
            let right = operand_value(right, view)?;
            Ok(apply_logic(*operator, left, right))
        }
        OrdinalExpression::Not(operand) => {
            let value = operand_value(operand, view)?;
            Ok(truth(!is_true(value)))
        }
        OrdinalExpression::Negate(_)
        | OrdinalExpression::Absolute(_)
        | OrdinalExpression::Successor(_, _) => { rare(expression, view).result() }
        OrdinalExpression::Predecessor(_, _)
        | OrdinalExpression::Character(_)
        | OrdinalExpression::IsEmpty(_) => { rare(expression, view).result() }
        OrdinalExpression::SameSet(_, _, _) | OrdinalExpression::Member(_, _) => {
            set_test(expression, view).result()
        }
    }
}

// The value of a rarer form: apart, so that the frequent ones save fewer registers.
#[cycle(evaluate)]
#[inline(never)]
fn rare(expression: &OrdinalExpression, view: &EvaluationView) -> Evaluation
    requires form { IsTrue (spec.is_rare expression.now) }
    requires reads { CanRead (memory_of view.now.permanents.now view.now.room.now) view.now.frame.now expression.now }
    ensures { result_of result ≡ spec.value_at (memory_of view.now.permanents.now view.now.room.now) view.now.frame.now expression.now }
{
    Evaluation::of(rare_value(expression, view))
}

#[cycle(evaluate)]
fn rare_value(expression: &OrdinalExpression, view: &EvaluationView) -> Result<i16, ErrorName>
    requires form { IsTrue (spec.is_rare expression.now) }
    requires reads { CanRead (memory_of view.now.permanents.now view.now.room.now) view.now.frame.now expression.now }
    ensures { result ≡ spec.value_at (memory_of view.now.permanents.now view.now.room.now) view.now.frame.now expression.now }
{
    match expression {
        OrdinalExpression::Negate(operand) => negate(operand_value(operand, view)?),
        OrdinalExpression::Absolute(operand) => absolute(operand_value(operand, view)?),
        OrdinalExpression::Successor(operand, last) => successor(
            operand_value(operand, view)?,
            *last,
        ),
        OrdinalExpression::Predecessor(operand, first) => predecessor(
            operand_value(operand, view)?,
            *first,
        ),
        OrdinalExpression::Character(operand) => {
            let number = operand_value(operand, view)?;
            check_range(number, 0, 127)
        }
        OrdinalExpression::IsEmpty(queue) => {
            let waits = load_value(queue, view.permanents, view.room, view.frame)?;
            Ok(truth(!is_true(waits)))
        }
        OrdinalExpression::Number(_)
        | OrdinalExpression::Load(_)
        | OrdinalExpression::Not(_)
        | OrdinalExpression::Arithmetic(_, _, _)
        | OrdinalExpression::Logic(_, _, _)
        | OrdinalExpression::Compare(_, _, _)
        | OrdinalExpression::SameSet(_, _, _)
        | OrdinalExpression::Member(_, _) => unreachable!(),
    }
}

// Whether two sets are the same, or an element belongs to a set: apart, since sets go through memory.
#[cycle(evaluate)]
#[inline(never)]
fn set_test(expression: &OrdinalExpression, view: &EvaluationView) -> Evaluation
    requires test { IsTrue (spec.is_set_test expression.now) }
    requires reads { CanRead (memory_of view.now.permanents.now view.now.room.now) view.now.frame.now expression.now }
    ensures { result_of result ≡ spec.value_at (memory_of view.now.permanents.now view.now.room.now) view.now.frame.now expression.now }
{
    Evaluation::of(test_sets(expression, view))
}

#[cycle(evaluate)]
fn test_sets(expression: &OrdinalExpression, view: &EvaluationView) -> Result<i16, ErrorName>
    requires test { IsTrue (spec.is_set_test expression.now) }
    requires reads { CanRead (memory_of view.now.permanents.now view.now.room.now) view.now.frame.now expression.now }
    ensures { result ≡ spec.value_at (memory_of view.now.permanents.now view.now.room.now) view.now.frame.now expression.now }
{
    match expression {
        OrdinalExpression::SameSet(wanted, left, right) => {
            let left = evaluate_set(left, view.permanents, view.room, view.frame)?;
            let right = evaluate_set(right, view.permanents, view.room, view.frame)?;
            Ok(set::compare_sets(*wanted, left, right))
        }
        OrdinalExpression::Member(element, whole) => {
            let element = operand_value(element, view)?;
            let whole = evaluate_set(whole, view.permanents, view.room, view.frame)?;
            Ok(truth(set::is_member(whole, element)))
        }
        OrdinalExpression::Number(_)
        | OrdinalExpression::Load(_)
        | OrdinalExpression::Negate(_)
        | OrdinalExpression::Absolute(_)
        | OrdinalExpression::Not(_)
        | OrdinalExpression::Successor(_, _)
        | OrdinalExpression::Predecessor(_, _)
        | OrdinalExpression::Character(_)
        | OrdinalExpression::Arithmetic(_, _, _)
        | OrdinalExpression::Logic(_, _, _)
        | OrdinalExpression::Compare(_, _, _)
        | OrdinalExpression::IsEmpty(_) => unreachable!(),
    }
}

// The value of the cell at a place.
#[cycle(evaluate)]
#[tactic(auto, using(crate::proofs::Reaches::begins, crate::proofs::Reaches::moves, crate::proofs::Reaches::reached))]
#[inline(always)]
fn load_value(
    place: &Place,
    permanents: &[i16],
    room: &Room,
    frame: &Frame,
) -> Result<i16, ErrorName>
    requires { CanReach (memory_of permanents.now room.now) frame.now place.now 1 }
    ensures { result ≡ spec.load_value (memory_of permanents.now room.now) (spec.address_at (memory_of permanents.now room.now) frame.now place.now) }
{
    match place.indices.as_slice() {
        [] => {
            let at = origin_address(place.origin, room, frame).plus(place.offset);
            Ok(cell(permanents, room, at))
        }
        _ => element(place, permanents, room, frame).result(),
    }
}

// The value of the cell at a place with indices: apart, so that places without them are read where they stand.
#[cycle(evaluate)]
#[tactic(auto, using(crate::proofs::Reaches::begins, crate::proofs::Reaches::moves))]
#[inline(never)]
fn element(place: &Place, permanents: &[i16], room: &Room, frame: &Frame) -> Evaluation
    requires { CanReach (memory_of permanents.now room.now) frame.now place.now 1 }
    ensures { result_of result ≡ spec.load_value (memory_of permanents.now room.now) (spec.address_at (memory_of permanents.now room.now) frame.now place.now) }
{
    let start = origin_address(place.origin, room, frame).plus(place.offset);
    match through(start, place.indices.as_slice(), permanents, room, frame) {
        Ok(at) => Evaluation::Value(cell(permanents, room, at)),
        Err(name) => Evaluation::of_error(name),
    }
}

/// The value of a set expression.
#[cycle(evaluate)]
pub fn evaluate_set(
    expression: &SetExpression,
    permanents: &[i16],
    room: &Room,
    frame: &Frame,
) -> Result<SetValue, ErrorName>
    requires { CanReadSet (memory_of permanents.now room.now) frame.now expression.now }
    ensures { result ≡ spec.set_at (memory_of permanents.now room.now) frame.now expression.now }
{
    match expression {
        SetExpression::Load(place) => {
            let at = address(place, permanents, room, frame)?;
            Ok(set::load_set(permanents, room, at))
        }
        SetExpression::Empty => Ok(set::empty()),
        SetExpression::With(whole, element) => {
            let whole = evaluate_set(whole, permanents, room, frame)?;
            let element = evaluate(element, permanents, room, frame)?;
            set::with(whole, element)
        }
        SetExpression::Combine(operation, left, right) => {
            let left = evaluate_set(left, permanents, room, frame)?;
            let right = evaluate_set(right, permanents, room, frame)?;
            Ok(set::combine_sets(*operation, left, right))
        }
    }
}
