//! Types as they are written.

ghost use Rattle.std.specs.Prelude.{◌≡◌, ◌<◌, ◌^◌, OnOk, length};
ghost use Rattle.cp_scope.specs.Judged.{Judges, Finds};
ghost use Rattle.cp_scope.specs.Scopes.{new_scope};
ghost use Rattle.cp_scope.specs.View.{scope_of, scopes_of, shape_view};
ghost use Rattle.cp_tree.specs.View.{type_view, simple_view, field_group_view, field_groups_of, field_groups_view};
ghost use Rattle.cp_check.specs.Types as spec;

use crate::constant::{ConstantNumber, constant};
use crate::name::meaning_of;
use crate::record::{add_fields, reserve_fields};
use cp_scope::{
    ArrayShape, Base, CheckFault, Meaning, Range, Rule, Scope, ScopeTable, TokenShape, ValueType,
    broken_rule, times,
};
use cp_text::Name;
use cp_tree::{FieldGroup, Identifier, Simple, SimpleKind, SystemKind, Type, TypeKind};
use std::alloc::Global;

/// Where a type stands.
#[derive(Clone, Copy)]
pub enum Spot {
    /// Of a permanent variable of the program or of a system type.
    Permanent(Option<SystemKind>),
    /// In a type definition.
    Definition,
    /// Of an array's elements.
    Element,
    /// Of a set's values.
    Base,
    Other,
}

/// What queues and components a type holds.
#[derive(Clone, Copy)]
pub enum Holding {
    Plain,
    Queue,
    Queues,
    Component(SystemKind),
    Components(SystemKind),
}

/// What queues and components a type holds.
pub fn held_by(table: &ScopeTable, value_type: ValueType) -> Holding
    ensures { result ≡ spec.holding (scopes_of table.now) value_type }
{
    match value_type {
        ValueType::Queue => Holding::Queue,
        ValueType::Component(kind, _) => Holding::Component(kind),
        ValueType::Array(at) => match table.shapes().array(at) {
            Some(array) => match array.element {
                ValueType::Queue => Holding::Queues,
                ValueType::Component(kind, _) => Holding::Components(kind),
                _ => Holding::Plain,
            },
            None => Holding::Plain,
        },
        _ => Holding::Plain,
    }
}

/// Whether components of a kind stand among the variables of an owner.
fn may_own(owner: Option<SystemKind>, kind: SystemKind) -> bool
    ensures { result ≡ spec.may_own owner kind }
{
    match kind {
        SystemKind::Class => true,
        SystemKind::Monitor => match owner {
            Some(SystemKind::Class) => false,
            _ => true,
        },
        SystemKind::Process => match owner {
            None => true,
            Some(_) => false,
        },
    }
}

/// Whether a queue stands at a spot.
fn may_queue(spot: Spot) -> bool
    ensures { result ≡ spec.may_queue spot }
{
    match spot {
        Spot::Permanent(Some(SystemKind::Monitor)) => true,
        Spot::Element => true,
        _ => false,
    }
}

/// Whether an array of queues stands at a spot.
fn may_queues(spot: Spot) -> bool
    ensures { result ≡ spec.may_queues spot }
{
    match spot {
        Spot::Permanent(Some(SystemKind::Monitor)) => true,
        Spot::Definition => true,
        _ => false,
    }
}

/// Whether a component stands at a spot.
fn may_component(spot: Spot, kind: SystemKind) -> bool
    ensures { result ≡ spec.may_component spot kind }
{
    match spot {
        Spot::Permanent(owner) => may_own(owner, kind),
        Spot::Element => true,
        _ => false,
    }
}

/// Whether an array of components stands at a spot.
fn may_components(spot: Spot, kind: SystemKind) -> bool
    ensures { result ≡ spec.may_components spot kind }
{
    match spot {
        Spot::Permanent(owner) => may_own(owner, kind),
        Spot::Definition => true,
        _ => false,
    }
}

/// Queues and components stand only where they may; what is no base of a set is looked at later.
fn check_spot(
    at: usize,
    spot: Spot,
    held: Holding,
    value_type: ValueType,
) -> Result<ValueType, CheckFault>
    ensures { Judges (λ t. t) (spec.check_spot at spot held value_type) result }
{
    match spot {
        Spot::Base => return Ok(value_type),
        _ => {}
    }
    match held {
        Holding::Plain => Ok(value_type),
        Holding::Queue => {
            if may_queue(spot) {
                Ok(value_type)
            } else {
                broken_rule(at, Rule::C11)
            }
        }
        Holding::Queues => {
            if may_queues(spot) {
                Ok(value_type)
            } else {
                broken_rule(at, Rule::C11)
            }
        }
        Holding::Component(kind) => {
            if may_component(spot, kind) {
                Ok(value_type)
            } else {
                broken_rule(at, Rule::C13)
            }
        }
        Holding::Components(kind) => {
            if may_components(spot, kind) {
                Ok(value_type)
            } else {
                broken_rule(at, Rule::C13)
            }
        }
    }
}

/// The type of a name.
#[tactic(auto, unfolding(crate::specs::Types::type_named))]
pub fn type_named(table: &ScopeTable, at: usize, name: &Name) -> Result<ValueType, CheckFault>
    ensures { Judges (λ t. t) (spec.type_named (scopes_of table.now) at name.now) result }
{
    match meaning_of(table, at, name)? {
        Meaning::Kind(value_type) => Ok(value_type),
        _ => broken_rule(at, Rule::C4),
    }
}

/// The type of a name where it stands at a spot.
#[tactic(auto, unfolding(crate::specs::Types::type_at_spot))]
pub fn type_at_spot(
    table: &ScopeTable,
    spot: Spot,
    at: usize,
    name: &Name,
) -> Result<ValueType, CheckFault>
    ensures { Judges (λ t. t) (spec.type_at_spot (scopes_of table.now) spot at name.now) result }
{
    let value_type = type_named(table, at, name)?;
    check_spot(at, spot, held_by(table, value_type), value_type)
}

/// A subrange.
fn subrange_type(
    at: usize,
    low: ConstantNumber,
    high: ConstantNumber,
) -> Result<ValueType, CheckFault>
    ensures { Judges (λ t. t) (spec.subrange_type at (low, high)) result }
{
    if !low.base.is_same(high.base) {
        broken_rule(at, Rule::C5)
    } else if high.value < low.value {
        broken_rule(at, Rule::C18)
    } else {
        Ok(ValueType::Ordinal(Range {
            base: low.base,
            low: low.value,
            high: high.value,
        }))
    }
}

/// A constant of an enumeration.
#[tactic(auto, unfolding(crate::specs::Types::member))]
fn member(
    alloc: Global,
    table: &mut ScopeTable,
    base: Base,
    number: usize,
    node: &Identifier,
) -> Result<(), CheckFault>
    requires { number < 2 ^ 63 }
    ensures faults { Finds (spec.member (scopes_of table.old) base number node.now).faults result }
    ensures scopes { OnOk result (scopes_of table.new ≡ (spec.member (scopes_of table.old) base number node.now).scopes) }
{
    if table.is_declared(&node.name) {
        return broken_rule(node.at, Rule::C2);
    }
    table.add(
        alloc,
        node.name.as_str(),
        Meaning::Constant(base, number as i64),
    )
}

/// The constants of an enumeration.
#[tactic(auto, using(crate::proofs::Left::left), unfolding(crate::specs::Types::members))]
fn members(
    alloc: Global,
    table: &mut ScopeTable,
    base: Base,
    nodes: &[Identifier],
) -> Result<(), CheckFault>
    requires { length nodes.now < 2 ^ 63 }
    ensures faults { Finds (spec.members (scopes_of table.old) base 0 nodes.now).faults result }
    ensures scopes { OnOk result (scopes_of table.new ≡ (spec.members (scopes_of table.old) base 0 nodes.now).scopes) }
{
    for number in 0..nodes.len() {
        member(alloc, table, base, number, &nodes[number])?;
    }
    Ok(())
}

/// A type that is written on its own.
#[tactic(auto, unfolding(crate::specs::Types::simple_type), using(crate::proofs::Judging::first_append))]
fn simple(
    alloc: Global,
    table: &mut ScopeTable,
    spot: Spot,
    node: &Simple,
) -> Result<ValueType, CheckFault>
    ensures judged { Judges (λ t. t) (spec.simple_type (scopes_of table.old) spot (simple_view node.now)).type result }
    ensures scopes { OnOk result (scopes_of table.new ≡ (spec.simple_type (scopes_of table.old) spot (simple_view node.now)).scopes) }
{
    let at = node.at;
    match &node.kind {
        SimpleKind::Name(name) => type_at_spot(table, spot, at, name),
        SimpleKind::Enumeration(names) => {
            let base = Base::Enumeration(at, names.len() as i64 - 1);
            members(alloc, table, base, names)?;
            Ok(ValueType::Ordinal(base.whole()))
        }
        SimpleKind::Subrange(low, high) => {
            let low = constant(table, low)?;
            let high = constant(table, high)?;
            subrange_type(at, low, high)
        }
    }
}

/// What queues and components an array of such elements holds.
fn holding_array(element: ValueType) -> Holding
    ensures { result ≡ spec.holding_array element }
{
    match element {
        ValueType::Queue => Holding::Queues,
        ValueType::Component(kind, _) => Holding::Components(kind),
        _ => Holding::Plain,
    }
}

/// The cells of a type, as many as the program may have.
pub const MOST_CELLS: u32 = 8192;

/// A type is not too large.
fn check_cells(at: usize, cells: u32) -> Result<(), CheckFault>
    ensures { Judges (λ u. u) (spec.check_cells at cells) result }
{
    if cells > MOST_CELLS {
        broken_rule(at, Rule::C20)
    } else {
        Ok(())
    }
}

/// The rules of an array type itself.
#[tactic(auto, unfolding(crate::specs::Types::shape_of_array), using(crate::proofs::Judging::refuses_bind))]
fn array_type(
    table: &ScopeTable,
    spot: Spot,
    at: usize,
    index: ValueType,
    element: ValueType,
) -> Result<ArrayShape, CheckFault>
    ensures { Judges (λ a. a) (spec.shape_of_array (scopes_of table.now) spot at (index, element)) result }
{
    match index {
        ValueType::Ordinal(range) => {
            let cells = times(range.count(), table.shapes().cells_of(element));
            let _ = check_spot(at, spot, holding_array(element), ValueType::Array(at))?;
            check_cells(at, cells)?;
            Ok(ArrayShape {
                index: range,
                element,
                cells,
            })
        }
        _ => broken_rule(at, Rule::C5),
    }
}

/// The rules of a set type itself.
fn set_of(at: usize, base_at: usize, base: ValueType) -> Result<ValueType, CheckFault>
    ensures { Judges (λ t. t) (spec.set_of at base_at base) result }
{
    match base {
        ValueType::Ordinal(range) => {
            if range.low < 0 || 127 < range.high {
                broken_rule(at, Rule::C20)
            } else {
                Ok(ValueType::Set(Some(range)))
            }
        }
        _ => broken_rule(base_at, Rule::C5),
    }
}

/// Fields of one type.
#[cycle(types)]
#[tactic(auto, unfolding(crate::specs::Types::group_typed), using(crate::proofs::Judging::first_append))]
fn field_group(
    alloc: Global,
    table: &mut ScopeTable,
    fields: &mut Scope,
    node: &FieldGroup,
) -> Result<(), CheckFault>
    ensures faults { Finds (spec.group_typed (scope_of fields.old) (scopes_of table.old) (field_group_view node.now)).faults result }
    ensures fields { OnOk result (scope_of fields.new ≡ (spec.group_typed (scope_of fields.old) (scopes_of table.old) (field_group_view node.now)).fields) }
    ensures scopes { OnOk result (scopes_of table.new ≡ (spec.group_typed (scope_of fields.old) (scopes_of table.old) (field_group_view node.now)).scopes) }
{
    reserve_fields(alloc, fields, &node.names)?;
    let value_type = type_of(alloc, table, Spot::Other, &node.field_type)?;
    add_fields(alloc, fields, &node.names, Meaning::Variable(value_type))
}

/// The fields of a record.
#[cycle(types)]
#[tactic(auto, using(crate::proofs::Left::left), unfolding(crate::specs::Types::groups_typed))]
fn field_groups(
    alloc: Global,
    table: &mut ScopeTable,
    fields: &mut Scope,
    nodes: &[FieldGroup],
) -> Result<(), CheckFault>
    ensures faults { Finds (spec.groups_typed (scope_of fields.old) (scopes_of table.old) (field_groups_of (field_groups_view nodes.now))).faults result }
    ensures fields { OnOk result (scope_of fields.new ≡ (spec.groups_typed (scope_of fields.old) (scopes_of table.old) (field_groups_of (field_groups_view nodes.now))).fields) }
    ensures scopes { OnOk result (scopes_of table.new ≡ (spec.groups_typed (scope_of fields.old) (scopes_of table.old) (field_groups_of (field_groups_view nodes.now))).scopes) }
{
    for node in nodes {
        field_group(alloc, table, fields, node)?;
    }
    Ok(())
}

/// A record type.
#[cycle(types)]
#[tactic(auto, using(crate::proofs::Fields::sound_refuses))]
fn record(
    alloc: Global,
    table: &mut ScopeTable,
    at: usize,
    nodes: &[FieldGroup],
) -> Result<TokenShape, CheckFault>
    ensures judged { Judges shape_view (spec.sound_shape at (spec.groups_typed new_scope (scopes_of table.old) (field_groups_of (field_groups_view nodes.now)))) result }
    ensures scopes { OnOk result (scopes_of table.new ≡ (spec.groups_typed new_scope (scopes_of table.old) (field_groups_of (field_groups_view nodes.now))).scopes) }
{
    let mut fields = Scope::new(alloc);
    field_groups(alloc, table, &mut fields, nodes)?;
    let cells = fields.census(table.shapes()).cells;
    check_cells(at, cells)?;
    Ok(TokenShape::Record(fields, cells))
}

/// A type.
#[cycle(types)]
#[tactic(auto, unfolding(crate::specs::Types::typed))]
pub fn type_of(
    alloc: Global,
    table: &mut ScopeTable,
    spot: Spot,
    node: &Type,
) -> Result<ValueType, CheckFault>
    ensures judged { Judges (λ t. t) (spec.typed (scopes_of table.old) spot (type_view node.now)).type result }
    ensures scopes { OnOk result (scopes_of table.new ≡ (spec.typed (scopes_of table.old) spot (type_view node.now)).scopes) }
{
    let at = node.at;
    match &node.kind {
        TypeKind::Simple(inner) => simple(alloc, table, spot, inner),
        TypeKind::Array(index, element) => {
            let index = simple(alloc, table, Spot::Other, index)?;
            let element = type_of(alloc, table, Spot::Element, element)?;
            let shape = array_type(table, spot, at, index, element)?;
            table.keep(at, TokenShape::Array(shape))?;
            Ok(ValueType::Array(at))
        }
        TypeKind::Set(base) => {
            let base_at = base.at;
            let base = simple(alloc, table, Spot::Base, base)?;
            set_of(at, base_at, base)
        }
        TypeKind::Record(groups, _) => {
            let shape = record(alloc, table, at, groups)?;
            table.keep(at, shape)?;
            Ok(ValueType::Record(at))
        }
    }
}
