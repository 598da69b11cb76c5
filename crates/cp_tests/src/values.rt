//! Values of small expressions, worked by hand.

ghost use Rattle.std.specs.Prelude.{◌≡◌, ◌≤◌, [], IfOk, IfSome, IsTrue};
ghost use Rattle.cp_slots.specs.Inside.{expression_inside, has, place_room};
ghost use Rattle.cp_slots.specs.Tables.{RoutineView};

use cp_slots::{
    Argument, ArgumentValue, Arithmetic, ComponentPlace, Index, OrdinalExpression, Place,
    PlaceOrigin, SetOperation,
};
use cp_store::arithmetic::calculate;
use cp_store::component::component_of;
use cp_store::set::{self, SetValue};
use cp_store::{
    Address, Bound, ErrorName, Frame, Room, address, bind_frame, cell, close_frame, evaluate,
    evaluate_arguments, open_frame, write_set,
};
use std::alloc::{AllocError, Global};

const FRAME: Frame = Frame {
    routine: 0,
    component: 0,
    own: 0,
    base: 0,
    references: 0,
};

// No frames, and room for none.
fn empty_room(alloc: Global) -> Room
    ensures { (result.cells.items ≡ []) × (result.references.items ≡ []) }
{
    Room {
        cells: Vec::new(alloc),
        references: Vec::new(alloc),
    }
}

fn set_of(members: &[i16]) -> SetValue {
    let mut whole = set::empty();
    for member in members {
        whole = set::with(whole, *member).unwrap_or(whole);
    }
    whole
}

// Two sets, as they are read back from the cells 0 to 7 and 8 to 15.
fn two_sets(alloc: Global) -> (SetValue, SetValue) {
    let mut cells = [0; 16];
    let mut room = empty_room(alloc);
    let left = set_of(&[1, 3, 5, 127]);
    let right = set_of(&[3, 4, 127]);
    write_set(&mut cells, &mut room, Address::Permanent(0), left);
    write_set(&mut cells, &mut room, Address::Permanent(8), right);
    let left = set::load_set(&cells, &room, Address::Permanent(0));
    let right = set::load_set(&cells, &room, Address::Permanent(8));
    (left, right)
}

// An operation of two sets, and whether it has a member.
static MEMBERS: [(SetOperation, i16, bool); 8] = [
    (SetOperation::Intersection, 3, true),
    (SetOperation::Intersection, 1, false),
    (SetOperation::Difference, 1, true),
    (SetOperation::Difference, 127, false),
    (SetOperation::Union, 4, true),
    (SetOperation::Union, 0, false),
    (SetOperation::Union, 200, false),
    (SetOperation::Union, -1, false),
];

#[test]
fn set_operations(rt: HostRuntime) {
    let (left, right) = two_sets(rt.alloc());
    for (operation, member, is_in) in &MEMBERS {
        let whole = set::combine_sets(*operation, left, right);
        assert!(rt; set::is_member(whole, *member) == *is_in, "{member}");
    }
}

#[test]
fn set_comparisons(rt: HostRuntime) {
    let (left, right) = two_sets(rt.alloc());
    let union = set::combine_sets(SetOperation::Union, left, right);
    let whole = set_of(&[1, 3, 4, 5, 127]);
    let (equal, unequal) = (
        set::compare_sets(true, union, whole),
        set::compare_sets(false, union, whole),
    );
    assert!(rt; equal == 1 && unequal == 0);
}

// An operation of two integers, and its result.
static RESULTS: [(Arithmetic, i16, i16, Result<i16, ErrorName>); 10] = [
    (Arithmetic::Divide, -7, 2, Ok(-3)),
    (Arithmetic::Modulo, -7, 2, Ok(-1)),
    (Arithmetic::Modulo, 7, -2, Ok(1)),
    (Arithmetic::Divide, -32768, -1, Err(ErrorName::Overflow)),
    (Arithmetic::Modulo, -32768, -1, Ok(0)),
    (Arithmetic::Modulo, 1, 0, Err(ErrorName::ZeroDivisor)),
    (Arithmetic::Multiply, 181, 181, Ok(32761)),
    (Arithmetic::Multiply, 182, 182, Err(ErrorName::Overflow)),
    (Arithmetic::Add, 32767, 1, Err(ErrorName::Overflow)),
    (Arithmetic::Subtract, -32768, 1, Err(ErrorName::Overflow)),
];

#[test]
fn integers(rt: HostRuntime) {
    for (operator, left, right, result) in &RESULTS {
        assert!(rt; calculate(*operator, *left, *right) == *result);
    }
}

// `table[2]`, a row of two cells in an array of rows 1 .. 3, after a cell of something else.
fn row(alloc: Global, index: i16) -> Result<Place, AllocError>
    ensures { IfOk result (λ p. (r : RoutineView) → 7 ≤ r.own → IsTrue (has 2 (place_room r p))) }
{
    let mut indices = Vec::with_capacity(alloc, 1)?;
    indices.push(Index {
        at: OrdinalExpression::Number(index),
        low: 1,
        high: 3,
        size: 2,
    })?;
    Ok(Place {
        origin: PlaceOrigin::Permanent(0),
        offset: 1,
        indices,
    })
}

// An index of the table, and the address of its row.
static PLACES: [(i16, Result<Address, ErrorName>); 4] = [
    (1, Ok(Address::Permanent(1))),
    (3, Ok(Address::Permanent(5))),
    (4, Err(ErrorName::Range)),
    (0, Err(ErrorName::Range)),
];

fn has_address(alloc: Global, index: i16, wanted: Result<Address, ErrorName>) -> bool {
    let room = empty_room(alloc);
    let cells = [0, 1, 2, 3, 4, 5, 6];
    match row(alloc, index) {
        Ok(place) => address(&place, &cells, &room, &FRAME) == wanted,
        Err(_) => false,
    }
}

#[test]
fn addresses(rt: HostRuntime) {
    for (index, wanted) in &PLACES {
        assert!(rt; has_address(rt.alloc(), *index, *wanted), "{index}");
    }
}

// The first cell of a row.
#[tactic(auto, using(crate::proofs::OwnCells::one_of_two))]
fn load(alloc: Global, index: i16) -> Result<OrdinalExpression, AllocError>
    ensures { IfOk result (λ e. (r : RoutineView) → 7 ≤ r.own → IsTrue (expression_inside r e)) }
{
    let place = row(alloc, index)?;
    Ok(OrdinalExpression::Load(place))
}

fn loads_third(alloc: Global) -> bool {
    let room = empty_room(alloc);
    let cells = [0, 1, 2, 3, 4, 5, 6];
    match load(alloc, 2) {
        Ok(load) => evaluate(&load, &cells, &room, &FRAME) == Ok(3),
        Err(_) => false,
    }
}

fn variable(alloc: Global) -> Place
    ensures { (r : RoutineView) → 1 ≤ r.own → IsTrue (has 1 (place_room r result)) }
{
    Place {
        origin: PlaceOrigin::Permanent(0),
        offset: 0,
        indices: Vec::new(alloc),
    }
}

// No frames, and room for one.
fn room(alloc: Global) -> Result<Room, AllocError>
    ensures { IfOk result (λ room. (room.cells.items ≡ []) × (room.references.items ≡ [])) }
{
    Ok(Room {
        cells: Vec::with_capacity(alloc, 8)?,
        references: Vec::with_capacity(alloc, 8)?,
    })
}

// Whether a routine with a `var` parameter, to which a permanent variable is passed, reads it.
fn passes_reference(alloc: Global) -> bool {
    let mut cells = [7];
    let Ok(mut room) = room(alloc) else {
        return false;
    };
    let mut bounds: Vec<Bound> = Vec::new(alloc);
    let arguments = [Argument {
        slot: 0,
        value: ArgumentValue::Reference(variable(alloc)),
    }];
    if bounds.reserve(1).is_ok() && 1 <= bounds.capacity() {
        let evaluated = evaluate_arguments(&arguments, &cells, &[], &room, FRAME, &mut bounds);
        if evaluated.is_ok()
            && room.cells.len() == 0
            && room.references.len() == 0
            && room.cells.capacity() >= 2
            && room.references.capacity() >= 1
        {
            open_frame(&mut room, &[0, 0], 1);
            if bounds.len() == 1
                && room.references.len() == 1
                && bounds[0] == Bound::Reference(Address::Permanent(0))
            {
                bind_frame(
                    &mut cells,
                    &mut room,
                    FRAME,
                    &arguments,
                    &[Bound::Reference(Address::Permanent(0))],
                );
                let is_bound = room.references[0] == Address::Permanent(0)
                    && cell(&cells, &room, room.references[0]) == 7;
                close_frame(&mut room, 0, 0);
                is_bound && room.cells.len() == 0
            } else {
                false
            }
        } else {
            false
        }
    } else {
        false
    }
}

fn number(alloc: Global, value: i16) -> Option<Box<OrdinalExpression>>
    ensures { IfSome result (λ e. (r : RoutineView) → IsTrue (expression_inside r e.value)) }
{
    Box::new(alloc, OrdinalExpression::Number(value)).ok()
}

fn has_component(alloc: Global) -> bool {
    let room = empty_room(alloc);
    match number(alloc, 2) {
        Some(index) => {
            let element = ComponentPlace::Element {
                first: 1,
                low: 1,
                high: 3,
                stride: 2,
                index,
            };
            component_of(&element, &[], &[], &room, FRAME) == Ok(3)
        }
        None => false,
    }
}

#[test]
fn expressions(rt: HostRuntime) {
    assert!(rt; loads_third(rt.alloc()));
    assert!(rt; passes_reference(rt.alloc()));
    assert!(rt; has_component(rt.alloc()));
}
