//! Declarations of constants, types and variables.

ghost use Rattle.std.specs.Prelude.{◌≡◌, map, OnOk, IfErr, Some};
ghost use Rattle.cp_scope.specs.Judged.{Finds};
ghost use Rattle.cp_scope.specs.View.{scopes_of};
ghost use Rattle.cp_scope.specs.declared.fault.CheckFault.TheVariants as check_fault;
ghost use Rattle.cp_tree.specs.View.{constant_definition_view, type_definition_view, variable_group_view, part_view};
ghost use Rattle.cp_check.specs.Declarations as spec;

use crate::constant::constant;
use crate::types::{Spot, type_of};
use cp_scope::{CheckFault, Meaning, Rule, ScopeTable, broken_rule};
use cp_tree::{ConstantDefinition, Identifier, Part, PartKind, TypeDefinition, VariableGroup};
use std::alloc::Global;

/// A name is being declared.
#[tactic(auto, unfolding(crate::specs::Declarations::reserve_name))]
pub fn reserve_name(
    alloc: Global,
    table: &mut ScopeTable,
    name: &Identifier,
) -> Result<(), CheckFault>
    ensures faults { Finds (spec.reserve_name (scopes_of table.old) name.now).faults result }
    ensures scopes { OnOk result (scopes_of table.new ≡ (spec.reserve_name (scopes_of table.old) name.now).scopes) }
{
    if table.is_declared(&name.name) {
        return broken_rule(name.at, Rule::C2);
    }
    table.reserve(alloc, &name.name)
}

/// Names of one type are being declared.
#[tactic(auto, using(crate::proofs::Left::left), unfolding(crate::specs::Declarations::reserve_names))]
pub fn reserve_names(
    alloc: Global,
    table: &mut ScopeTable,
    names: &[Identifier],
) -> Result<(), CheckFault>
    ensures faults { Finds (spec.reserve_names (scopes_of table.old) names.now).faults result }
    ensures scopes { OnOk result (scopes_of table.new ≡ (spec.reserve_names (scopes_of table.old) names.now).scopes) }
{
    for name in names {
        reserve_name(alloc, table, name)?;
    }
    Ok(())
}

/// Names of one meaning are declared.
#[tactic(auto, using(crate::proofs::Left::left), unfolding(crate::specs::Declarations::add_all, crate::specs::Declarations::add_names))]
pub fn add_all(
    alloc: Global,
    table: &mut ScopeTable,
    names: &[Identifier],
    meaning: Meaning,
) -> Result<(), CheckFault>
    ensures ok { OnOk result (scopes_of table.new ≡ spec.add_all (scopes_of table.old) names.now (Some meaning)) }
    ensures memory { IfErr result (λ e. e ≡ check_fault.Memory) }
{
    for name in names {
        table.add(alloc, name.name.as_str(), meaning)?;
    }
    table.settle();
    Ok(())
}

/// A name of a meaning is declared.
#[tactic(auto, unfolding(crate::specs::Declarations::add_one))]
pub fn add_one(
    alloc: Global,
    table: &mut ScopeTable,
    name: &Identifier,
    meaning: Meaning,
) -> Result<(), CheckFault>
    ensures ok { OnOk result (scopes_of table.new ≡ spec.add_one (scopes_of table.old) name.now (Some meaning)) }
    ensures memory { IfErr result (λ e. e ≡ check_fault.Memory) }
{
    table.add(alloc, name.name.as_str(), meaning)?;
    table.settle();
    Ok(())
}

#[tactic(auto, unfolding(crate::specs::Declarations::constant_step), using(crate::proofs::Judging::first_append))]
fn constant_definition(
    alloc: Global,
    table: &mut ScopeTable,
    node: &ConstantDefinition,
) -> Result<(), CheckFault>
    ensures faults { Finds (spec.constant_step (scopes_of table.old) (constant_definition_view node.now)).faults result }
    ensures scopes { OnOk result (scopes_of table.new ≡ (spec.constant_step (scopes_of table.old) (constant_definition_view node.now)).scopes) }
{
    reserve_name(alloc, table, &node.name)?;
    let number = constant(table, &node.value)?;
    add_one(
        alloc,
        table,
        &node.name,
        Meaning::Constant(number.base, number.value),
    )
}

/// Definitions of constants.
#[tactic(auto, using(crate::proofs::Left::left), unfolding(crate::specs::Declarations::constant_steps))]
pub fn constant_definitions(
    alloc: Global,
    table: &mut ScopeTable,
    nodes: &[ConstantDefinition],
) -> Result<(), CheckFault>
    ensures faults { Finds (spec.constant_steps (scopes_of table.old) (map constant_definition_view nodes.now)).faults result }
    ensures scopes { OnOk result (scopes_of table.new ≡ (spec.constant_steps (scopes_of table.old) (map constant_definition_view nodes.now)).scopes) }
{
    for node in nodes {
        constant_definition(alloc, table, node)?;
    }
    Ok(())
}

#[tactic(auto, unfolding(crate::specs::Declarations::type_step), using(crate::proofs::Judging::first_append))]
fn type_definition(
    alloc: Global,
    table: &mut ScopeTable,
    node: &TypeDefinition,
) -> Result<(), CheckFault>
    ensures faults { Finds (spec.type_step (scopes_of table.old) (type_definition_view node.now)).faults result }
    ensures scopes { OnOk result (scopes_of table.new ≡ (spec.type_step (scopes_of table.old) (type_definition_view node.now)).scopes) }
{
    reserve_name(alloc, table, &node.name)?;
    let value_type = type_of(alloc, table, Spot::Definition, &node.value)?;
    add_one(alloc, table, &node.name, Meaning::Kind(value_type))
}

/// Definitions of types.
#[tactic(auto, using(crate::proofs::Left::left), unfolding(crate::specs::Declarations::type_steps))]
pub fn type_definitions(
    alloc: Global,
    table: &mut ScopeTable,
    nodes: &[TypeDefinition],
) -> Result<(), CheckFault>
    ensures faults { Finds (spec.type_steps (scopes_of table.old) (map type_definition_view nodes.now)).faults result }
    ensures scopes { OnOk result (scopes_of table.new ≡ (spec.type_steps (scopes_of table.old) (map type_definition_view nodes.now)).scopes) }
{
    for node in nodes {
        type_definition(alloc, table, node)?;
    }
    Ok(())
}

#[tactic(auto, unfolding(crate::specs::Declarations::variable_step), using(crate::proofs::Judging::first_append))]
fn variable_group(
    alloc: Global,
    table: &mut ScopeTable,
    spot: Spot,
    node: &VariableGroup,
) -> Result<(), CheckFault>
    ensures faults { Finds (spec.variable_step spot (scopes_of table.old) (variable_group_view node.now)).faults result }
    ensures scopes { OnOk result (scopes_of table.new ≡ (spec.variable_step spot (scopes_of table.old) (variable_group_view node.now)).scopes) }
{
    reserve_names(alloc, table, &node.names)?;
    let value_type = type_of(alloc, table, spot, &node.variable_type)?;
    add_all(alloc, table, &node.names, Meaning::Variable(value_type))
}

/// Groups of variables.
#[tactic(auto, using(crate::proofs::Left::left), unfolding(crate::specs::Declarations::variable_steps))]
pub fn variable_groups(
    alloc: Global,
    table: &mut ScopeTable,
    spot: Spot,
    nodes: &[VariableGroup],
) -> Result<(), CheckFault>
    ensures faults { Finds (spec.variable_steps spot (scopes_of table.old) (map variable_group_view nodes.now)).faults result }
    ensures scopes { OnOk result (scopes_of table.new ≡ (spec.variable_steps spot (scopes_of table.old) (map variable_group_view nodes.now)).scopes) }
{
    for node in nodes {
        variable_group(alloc, table, spot, node)?;
    }
    Ok(())
}

#[tactic(auto, unfolding(crate::specs::Declarations::part_step))]
fn part(alloc: Global, table: &mut ScopeTable, spot: Spot, node: &Part) -> Result<(), CheckFault>
    ensures faults { Finds (spec.part_step spot (scopes_of table.old) (part_view node.now)).faults result }
    ensures scopes { OnOk result (scopes_of table.new ≡ (spec.part_step spot (scopes_of table.old) (part_view node.now)).scopes) }
{
    match &node.kind {
        PartKind::Constants(nodes) => constant_definitions(alloc, table, nodes),
        PartKind::Types(nodes) => type_definitions(alloc, table, nodes),
        PartKind::Variables(nodes) => variable_groups(alloc, table, spot, nodes),
    }
}

/// The declarations of a system type or a routine, whose variables stand at a spot.
#[tactic(auto, using(crate::proofs::Left::left), unfolding(crate::specs::Declarations::part_steps))]
pub fn parts(
    alloc: Global,
    table: &mut ScopeTable,
    spot: Spot,
    nodes: &[Part],
) -> Result<(), CheckFault>
    ensures faults { Finds (spec.part_steps spot (scopes_of table.old) (map part_view nodes.now)).faults result }
    ensures scopes { OnOk result (scopes_of table.new ≡ (spec.part_steps spot (scopes_of table.old) (map part_view nodes.now)).scopes) }
{
    for node in nodes {
        part(alloc, table, spot, node)?;
    }
    Ok(())
}
