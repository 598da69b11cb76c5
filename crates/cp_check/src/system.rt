//! System types.

ghost use Rattle.std.specs.Prelude.{◌≡◌, map, OnOk, IfErr, Ok};
ghost use Rattle.cp_scope.specs.Judged.{Judges, Finds};
ghost use Rattle.cp_scope.specs.View.{scopes_of};
ghost use Rattle.cp_tree.specs.View.{group_view, system_view, definition_view, system_definition_view, program_part_view};
ghost use Rattle.cp_scope.specs.declared.fault.CheckFault.TheVariants as check_fault;
ghost use Rattle.cp_check.specs.Systems as spec;

use crate::declaration::{
    add_all, add_one, constant_definitions, parts, reserve_name, reserve_names, variable_groups,
};
use crate::operand::Context;
use crate::routine::{need_of, routines};
use crate::statement::statements;
use crate::types::{Holding, Spot, held_by, type_named, type_of};
use cp_scope::{
    CheckFault, Heading, Meaning, Rule, ScopeTable, TokenShape, Use, ValueType, broken_rule,
};
use cp_tree::{
    Definition, Group, ProgramPart, ProgramPartKind, System, SystemDefinition, SystemKind,
};
use std::alloc::Global;

/// The type of a parameter of a system type, where it may be one.
fn check_parameter_type(
    at: usize,
    owner: SystemKind,
    held: Holding,
    value_type: ValueType,
) -> Result<ValueType, CheckFault>
    ensures { Judges (λ t. t) (spec.check_parameter_type at owner held value_type) result }
{
    match held {
        Holding::Plain => Ok(value_type),
        Holding::Queue => broken_rule(at, Rule::C15),
        Holding::Queues => broken_rule(at, Rule::C11),
        Holding::Component(kind) => match kind {
            SystemKind::Process => broken_rule(at, Rule::C15),
            SystemKind::Monitor => Ok(value_type),
            SystemKind::Class => match owner {
                SystemKind::Class => Ok(value_type),
                _ => broken_rule(at, Rule::C14),
            },
        },
        Holding::Components(_) => broken_rule(at, Rule::C13),
    }
}

#[tactic(auto, unfolding(crate::specs::Systems::parameter_type))]
fn parameter_type(
    table: &ScopeTable,
    owner: SystemKind,
    node: &Group,
) -> Result<ValueType, CheckFault>
    ensures { Judges (λ t. t) (spec.parameter_type owner (scopes_of table.now) (group_view node.now)) result }
{
    let at = node.type_name.at;
    let value_type = type_named(table, at, &node.type_name.name)?;
    check_parameter_type(at, owner, held_by(table, value_type), value_type)
}

#[tactic(auto, unfolding(crate::specs::Systems::group_step), using(crate::proofs::Judging::first_append))]
fn group(
    alloc: Global,
    table: &mut ScopeTable,
    owner: SystemKind,
    node: &Group,
) -> Result<(), CheckFault>
    ensures faults { Finds (spec.group_step owner (scopes_of table.old) (group_view node.now)).faults result }
    ensures scopes { OnOk result (scopes_of table.new ≡ (spec.group_step owner (scopes_of table.old) (group_view node.now)).scopes) }
{
    reserve_names(alloc, table, &node.names)?;
    let value_type = parameter_type(table, owner, node)?;
    add_all(alloc, table, &node.names, Meaning::Parameter(value_type))
}

/// The parameters of a system type.
#[tactic(auto, using(crate::proofs::Left::left), unfolding(crate::specs::Systems::group_steps))]
fn groups(
    alloc: Global,
    table: &mut ScopeTable,
    owner: SystemKind,
    nodes: &[Group],
) -> Result<(), CheckFault>
    ensures faults { Finds (spec.group_steps owner (scopes_of table.old) (map group_view nodes.now)).faults result }
    ensures scopes { OnOk result (scopes_of table.new ≡ (spec.group_steps owner (scopes_of table.old) (map group_view nodes.now)).scopes) }
{
    for node in nodes {
        group(alloc, table, owner, node)?;
    }
    Ok(())
}

/// The declarations of a system type.
#[tactic(auto, unfolding(crate::specs::Systems::inside), using(crate::proofs::Judging::first_append))]
fn inside(alloc: Global, table: &mut ScopeTable, node: &System) -> Result<(), CheckFault>
    ensures faults { Finds (spec.inside (scopes_of table.old) (system_view node.now)).faults result }
    ensures scopes { OnOk result (scopes_of table.new ≡ (spec.inside (scopes_of table.old) (system_view node.now)).scopes) }
{
    groups(alloc, table, node.kind, &node.parameters)?;
    parts(alloc, table, Spot::Permanent(Some(node.kind)), &node.parts)?;
    routines(alloc, table, Some(node.kind), &node.routines)
}

/// A system type in a scope of its own.
#[tactic(auto, unfolding(crate::specs::Systems::enter_system), using(crate::proofs::Judging::first_append))]
fn enter_system(alloc: Global, table: &mut ScopeTable, node: &System) -> Result<Use, CheckFault>
    ensures judged { Judges (λ u. u) (spec.enter_system (scopes_of table.old) (system_view node.now)).uses result }
    ensures scopes { OnOk result (scopes_of table.new ≡ (spec.enter_system (scopes_of table.old) (system_view node.now)).scopes) }
{
    inside(alloc, table, node)?;
    let context = Context {
        owner: Some(node.kind),
        routine: None,
        is_quiet: false,
    };
    statements(alloc, table, context, &node.body.statements)
}

/// A system type is closed.
#[tactic(auto, unfolding(crate::specs::Systems::close_system))]
fn close_system(
    alloc: Global,
    table: &mut ScopeTable,
    at: usize,
    uses: Use,
) -> Result<(), CheckFault>
    ensures ok { OnOk result (scopes_of table.new ≡ spec.close_system (scopes_of table.old) at uses) }
    ensures memory { IfErr result (λ e. e ≡ check_fault.Memory) }
{
    let heading = Heading {
        is_entry: false,
        parameters: table.parameters(alloc)?,
        result: None,
    };
    let census = table.census();
    let members = table.leave(alloc);
    table.keep(
        at,
        TokenShape::System(members, heading, census, need_of(uses)),
    )
}

/// A system type; the variables around it are not visible in it.
#[tactic(auto, unfolding(crate::specs::Systems::system_type))]
fn system(alloc: Global, table: &mut ScopeTable, node: &System) -> Result<ValueType, CheckFault>
    ensures judged { Judges (λ t. t) (spec.system_type (scopes_of table.old) (system_view node.now)).type result }
    ensures scopes { OnOk result (scopes_of table.new ≡ (spec.system_type (scopes_of table.old) (system_view node.now)).scopes) }
{
    table.enter(alloc, true)?;
    let uses = enter_system(alloc, table, node)?;
    close_system(alloc, table, node.at, uses)?;
    Ok(ValueType::Component(node.kind, node.at))
}

#[tactic(auto, unfolding(crate::specs::Systems::type_of_definition))]
fn type_of_definition(
    alloc: Global,
    table: &mut ScopeTable,
    node: &Definition,
) -> Result<ValueType, CheckFault>
    ensures judged { Judges (λ t. t) (spec.type_of_definition (scopes_of table.old) (definition_view node.now)).type result }
    ensures scopes { OnOk result (scopes_of table.new ≡ (spec.type_of_definition (scopes_of table.old) (definition_view node.now)).scopes) }
{
    match node {
        Definition::Type(written) => type_of(alloc, table, Spot::Definition, written),
        Definition::System(written) => system(alloc, table, written),
    }
}

#[tactic(auto, unfolding(crate::specs::Systems::definition_step), using(crate::proofs::Judging::first_append))]
fn definition(
    alloc: Global,
    table: &mut ScopeTable,
    node: &SystemDefinition,
) -> Result<(), CheckFault>
    ensures faults { Finds (spec.definition_step (scopes_of table.old) (system_definition_view node.now)).faults result }
    ensures scopes { OnOk result (scopes_of table.new ≡ (spec.definition_step (scopes_of table.old) (system_definition_view node.now)).scopes) }
{
    reserve_name(alloc, table, &node.name)?;
    let value_type = type_of_definition(alloc, table, &node.value)?;
    add_one(alloc, table, &node.name, Meaning::Kind(value_type))
}

#[tactic(auto, using(crate::proofs::Left::left), unfolding(crate::specs::Systems::definition_steps))]
fn definitions(
    alloc: Global,
    table: &mut ScopeTable,
    nodes: &[SystemDefinition],
) -> Result<(), CheckFault>
    ensures faults { Finds (spec.definition_steps (scopes_of table.old) (map system_definition_view nodes.now)).faults result }
    ensures scopes { OnOk result (scopes_of table.new ≡ (spec.definition_steps (scopes_of table.old) (map system_definition_view nodes.now)).scopes) }
{
    for node in nodes {
        definition(alloc, table, node)?;
    }
    Ok(())
}

#[tactic(auto, unfolding(crate::specs::Systems::program_part_step))]
fn program_part(alloc: Global, table: &mut ScopeTable, node: &ProgramPart) -> Result<(), CheckFault>
    ensures faults { Finds (spec.program_part_step (scopes_of table.old) (program_part_view node.now)).faults result }
    ensures scopes { OnOk result (scopes_of table.new ≡ (spec.program_part_step (scopes_of table.old) (program_part_view node.now)).scopes) }
{
    match &node.kind {
        ProgramPartKind::Constants(nodes) => constant_definitions(alloc, table, nodes),
        ProgramPartKind::Types(nodes) => definitions(alloc, table, nodes),
        ProgramPartKind::Variables(nodes) => {
            variable_groups(alloc, table, Spot::Permanent(None), nodes)
        }
    }
}

/// The declarations at the program's top.
#[tactic(auto, using(crate::proofs::Left::left), unfolding(crate::specs::Systems::program_part_steps))]
pub fn program_parts(
    alloc: Global,
    table: &mut ScopeTable,
    nodes: &[ProgramPart],
) -> Result<(), CheckFault>
    ensures faults { Finds (spec.program_part_steps (scopes_of table.old) (map program_part_view nodes.now)).faults result }
    ensures scopes { OnOk result (scopes_of table.new ≡ (spec.program_part_steps (scopes_of table.old) (map program_part_view nodes.now)).scopes) }
{
    for node in nodes {
        program_part(alloc, table, node)?;
    }
    Ok(())
}
