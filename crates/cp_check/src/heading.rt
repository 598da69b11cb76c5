//! Headings of routines.

ghost use Rattle.std.specs.Prelude.{◌≡◌, map, OnOk, IfErr, Ok};
ghost use Rattle.cp_scope.specs.Judged.{Judges, Finds};
ghost use Rattle.cp_scope.specs.View.{scopes_of};
ghost use Rattle.cp_scope.specs.declared.fault.CheckFault.TheVariants as check_fault;
ghost use Rattle.cp_tree.specs.View.{group_view, parameter_group_view, routine_kind_view, routine_view};
ghost use Rattle.cp_check.specs.Declarations as declarations;
ghost use Rattle.cp_check.specs.Headings as spec;

use crate::declaration::{add_all, reserve_name, reserve_names};
use crate::types::{Holding, held_by, type_named};
use cp_scope::{
    CheckFault, Heading, Meaning, Rule, ScopeTable, TokenShape, ValueType, broken_rule,
};
use cp_tree::{Group, Identifier, ParameterGroup, Routine, RoutineKind, SystemKind};
use std::alloc::Global;

/// The type of a parameter, where it may be one.
fn check_parameter_type(
    at: usize,
    held: Holding,
    value_type: ValueType,
) -> Result<ValueType, CheckFault>
    ensures { Judges (λ t. t) (spec.check_parameter_type at held value_type) result }
{
    match held {
        Holding::Plain => Ok(value_type),
        Holding::Queue => broken_rule(at, Rule::C15),
        Holding::Queues => broken_rule(at, Rule::C11),
        Holding::Component(SystemKind::Process) => broken_rule(at, Rule::C15),
        Holding::Component(_) => broken_rule(at, Rule::C13),
        Holding::Components(_) => broken_rule(at, Rule::C13),
    }
}

#[tactic(auto, unfolding(crate::specs::Headings::parameter_type))]
fn parameter_type(table: &ScopeTable, node: &Group) -> Result<ValueType, CheckFault>
    ensures { Judges (λ t. t) (spec.parameter_type (scopes_of table.now) (group_view node.now)) result }
{
    let at = node.type_name.at;
    let value_type = type_named(table, at, &node.type_name.name)?;
    check_parameter_type(at, held_by(table, value_type), value_type)
}

#[tactic(auto, unfolding(crate::specs::Headings::group_step), using(crate::proofs::Judging::first_append))]
fn group(
    alloc: Global,
    table: &mut ScopeTable,
    is_var: bool,
    node: &Group,
) -> Result<(), CheckFault>
    ensures faults { Finds (spec.group_step is_var (scopes_of table.old) (group_view node.now)).faults result }
    ensures scopes { OnOk result (scopes_of table.new ≡ (spec.group_step is_var (scopes_of table.old) (group_view node.now)).scopes) }
{
    reserve_names(alloc, table, &node.names)?;
    let value_type = parameter_type(table, node)?;
    let meaning = if is_var {
        Meaning::Reference(value_type)
    } else {
        Meaning::Parameter(value_type)
    };
    add_all(alloc, table, &node.names, meaning)
}

/// The parameters of a function.
#[tactic(auto, using(crate::proofs::Left::left), unfolding(crate::specs::Headings::group_steps))]
fn groups(alloc: Global, table: &mut ScopeTable, nodes: &[Group]) -> Result<(), CheckFault>
    ensures faults { Finds (spec.group_steps (scopes_of table.old) (map group_view nodes.now)).faults result }
    ensures scopes { OnOk result (scopes_of table.new ≡ (spec.group_steps (scopes_of table.old) (map group_view nodes.now)).scopes) }
{
    for node in nodes {
        group(alloc, table, false, node)?;
    }
    Ok(())
}

/// The parameters of a procedure.
#[tactic(auto, using(crate::proofs::Left::left), unfolding(crate::specs::Headings::parameter_steps))]
fn parameters(
    alloc: Global,
    table: &mut ScopeTable,
    nodes: &[ParameterGroup],
) -> Result<(), CheckFault>
    ensures faults { Finds (spec.parameter_steps (scopes_of table.old) (map parameter_group_view nodes.now)).faults result }
    ensures scopes { OnOk result (scopes_of table.new ≡ (spec.parameter_steps (scopes_of table.old) (map parameter_group_view nodes.now)).scopes) }
{
    for node in nodes {
        group(alloc, table, node.is_var, &node.group)?;
    }
    Ok(())
}

/// The type of a result, which holds no queue and no component.
fn check_result_type(
    at: usize,
    held: Holding,
    value_type: ValueType,
) -> Result<ValueType, CheckFault>
    ensures { Judges (λ t. t) (spec.check_result_type at held value_type) result }
{
    match held {
        Holding::Plain => Ok(value_type),
        Holding::Queue => broken_rule(at, Rule::C11),
        Holding::Queues => broken_rule(at, Rule::C11),
        Holding::Component(_) => broken_rule(at, Rule::C13),
        Holding::Components(_) => broken_rule(at, Rule::C13),
    }
}

#[tactic(auto, unfolding(crate::specs::Headings::result_type), using(crate::proofs::Judging::refuses_bind, crate::proofs::Judging::refuses_twice))]
fn result_type(table: &ScopeTable, name: &Identifier) -> Result<Option<ValueType>, CheckFault>
    ensures { Judges (λ t. t) (spec.result_type (scopes_of table.now) name.now) result }
{
    let value_type = type_named(table, name.at, &name.name)?;
    let value_type = check_result_type(name.at, held_by(table, value_type), value_type)?;
    Ok(Some(value_type))
}

/// The parameters, and the type of a function's result.
#[tactic(auto, unfolding(crate::specs::Headings::parameters_and_result, crate::specs::Headings::parameter_steps), using(crate::proofs::Judging::first_append))]
fn parameters_and_result(
    alloc: Global,
    table: &mut ScopeTable,
    node: &RoutineKind,
) -> Result<Option<ValueType>, CheckFault>
    ensures judged { Judges (λ t. t) (spec.parameters_and_result (scopes_of table.old) (routine_kind_view node.now)).result result }
    ensures scopes { OnOk result (scopes_of table.new ≡ (spec.parameters_and_result (scopes_of table.old) (routine_kind_view node.now)).scopes) }
{
    match node {
        RoutineKind::Procedure(nodes) => {
            parameters(alloc, table, nodes)?;
            Ok(None)
        }
        RoutineKind::Function(nodes, name) => {
            groups(alloc, table, nodes)?;
            result_type(table, name)
        }
        RoutineKind::Invariants => Ok(None),
    }
}

/// A function's result is ordinal.
fn check_ordinal_result(at: usize, value_type: Option<ValueType>) -> Result<(), CheckFault>
    ensures { Finds (spec.result_faults at value_type) result }
{
    match value_type {
        None => Ok(()),
        Some(value_type) => {
            if value_type.is_ordinal() {
                Ok(())
            } else {
                broken_rule(at, Rule::C5)
            }
        }
    }
}

/// Whether routines of an owner may be entries.
fn may_enter(owner: Option<SystemKind>) -> bool
    ensures { result ≡ spec.may_enter owner }
{
    match owner {
        Some(SystemKind::Class) => true,
        Some(SystemKind::Monitor) => true,
        _ => false,
    }
}

/// Entries stand in classes and monitors.
fn check_entry_place(at: usize, owner: Option<SystemKind>, is_entry: bool) -> Result<(), CheckFault>
    ensures { Finds (spec.entry_faults at owner is_entry) result }
{
    if is_entry && !may_enter(owner) {
        broken_rule(at, Rule::C9)
    } else {
        Ok(())
    }
}

/// The rules of a heading itself.
#[tactic(auto, using(crate::proofs::Judging::first_append))]
fn check_heading(
    owner: Option<SystemKind>,
    node: &Routine,
    value_type: Option<ValueType>,
) -> Result<Option<ValueType>, CheckFault>
    ensures { Judges (λ t. t) (spec.check_heading owner (routine_view node.now) value_type) result }
{
    check_ordinal_result(node.at, value_type)?;
    check_entry_place(node.name.at.saturating_sub(1), owner, node.is_entry)?;
    Ok(value_type)
}

/// The heading of a routine, in a scope of its own.
#[tactic(auto, unfolding(crate::specs::Headings::heading), using(crate::proofs::Judging::refuses_bind))]
pub fn heading(
    alloc: Global,
    table: &mut ScopeTable,
    owner: Option<SystemKind>,
    node: &Routine,
) -> Result<Option<ValueType>, CheckFault>
    ensures judged { Judges (λ t. t) (spec.heading owner (routine_view node.now) (declarations.reserve_name (scopes_of table.old) node.now.name)).result result }
    ensures scopes { OnOk result (scopes_of table.new ≡ (spec.heading owner (routine_view node.now) (declarations.reserve_name (scopes_of table.old) node.now.name)).scopes) }
{
    reserve_name(alloc, table, &node.name)?;
    table.enter(alloc, false)?;
    let value_type = parameters_and_result(alloc, table, &node.kind)?;
    check_heading(owner, node, value_type)
}

/// From its heading on a routine is visible.
#[tactic(auto, unfolding(crate::specs::Headings::announce))]
pub fn announce(
    alloc: Global,
    table: &mut ScopeTable,
    node: &Routine,
    value_type: Option<ValueType>,
) -> Result<(), CheckFault>
    ensures ok { OnOk result (scopes_of table.new ≡ spec.announce (routine_view node.now) value_type (scopes_of table.old)) }
    ensures memory { IfErr result (λ e. e ≡ check_fault.Memory) }
{
    let heading = Heading {
        is_entry: node.is_entry,
        parameters: table.parameters(alloc)?,
        result: value_type,
    };
    table.keep(node.name.at, TokenShape::Heading(heading, node.body.at))?;
    table.add_around(
        alloc,
        node.name.name.as_str(),
        Meaning::Routine(node.name.at),
    )
}
