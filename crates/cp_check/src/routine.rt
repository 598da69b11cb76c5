//! Routines.

ghost use Rattle.std.specs.Prelude.{◌≡◌, map, OnOk, IfErr};
ghost use Rattle.cp_scope.specs.Judged.{Judges, Finds};
ghost use Rattle.cp_scope.specs.View.{scopes_of};
ghost use Rattle.cp_scope.specs.declared.fault.CheckFault.TheVariants as check_fault;
ghost use Rattle.cp_tree.specs.View.{routine_view};
ghost use Rattle.cp_check.specs.Routines as spec;

use crate::declaration::parts;
use crate::heading::{announce, heading};
use crate::operand::Context;
use crate::statement::statements;
use crate::types::Spot;
use cp_scope::{CheckFault, ScopeTable, TokenShape, Use, ValueType, plus};
use cp_tree::{Routine, SystemKind};
use std::alloc::Global;

/// Function calls, and the greatest need of what is called.
pub fn need_of(uses: Use) -> u32
    ensures { result ≡ spec.need_of uses }
{
    plus(uses.calls, uses.need)
}

/// What a routine needs, and whether it may delay.
fn routine_use(cells: u32, value_type: Option<ValueType>, uses: Use) -> Use
    ensures { result ≡ spec.routine_use cells value_type uses }
{
    let result_cells = match value_type {
        Some(_) => 1,
        None => 0,
    };
    Use {
        calls: 0,
        need: plus(plus(cells, result_cells), need_of(uses)),
        delays: uses.delays,
    }
}

/// The local declarations and the body.
#[tactic(auto, unfolding(crate::specs::Routines::enter_routine), using(crate::proofs::Judging::first_append))]
fn enter_routine(
    alloc: Global,
    table: &mut ScopeTable,
    owner: Option<SystemKind>,
    node: &Routine,
) -> Result<Use, CheckFault>
    ensures judged { Judges (λ u. u) (spec.enter_routine owner (routine_view node.now) (scopes_of table.old)).uses result }
    ensures scopes { OnOk result (scopes_of table.new ≡ (spec.enter_routine owner (routine_view node.now) (scopes_of table.old)).scopes) }
{
    parts(alloc, table, Spot::Other, &node.parts)?;
    let context = Context {
        owner,
        routine: Some(node.name.at),
        is_quiet: false,
    };
    statements(alloc, table, context, &node.body.statements)
}

/// A routine is closed.
#[tactic(auto, unfolding(crate::specs::Routines::close_routine))]
fn close_routine(
    alloc: Global,
    table: &mut ScopeTable,
    node: &Routine,
    value_type: Option<ValueType>,
    uses: Use,
) -> Result<(), CheckFault>
    ensures ok { OnOk result (scopes_of table.new ≡ spec.close_routine (routine_view node.now) value_type uses (scopes_of table.old)) }
    ensures memory { IfErr result (λ e. e ≡ check_fault.Memory) }
{
    let uses = routine_use(table.census().cells, value_type, uses);
    let _ = table.leave(alloc);
    table.keep(node.body.at, TokenShape::Body(uses))?;
    table.settle();
    Ok(())
}

#[tactic(auto, unfolding(crate::specs::Routines::routine_step), using(crate::proofs::Judging::first_append))]
fn routine(
    alloc: Global,
    table: &mut ScopeTable,
    owner: Option<SystemKind>,
    node: &Routine,
) -> Result<(), CheckFault>
    ensures faults { Finds (spec.routine_step owner (scopes_of table.old) (routine_view node.now)).faults result }
    ensures scopes { OnOk result (scopes_of table.new ≡ (spec.routine_step owner (scopes_of table.old) (routine_view node.now)).scopes) }
{
    let value_type = heading(alloc, table, owner, node)?;
    announce(alloc, table, node, value_type)?;
    let uses = enter_routine(alloc, table, owner, node)?;
    close_routine(alloc, table, node, value_type, uses)
}

/// The routines of a system type or of the program.
#[tactic(auto, using(crate::proofs::Left::left), unfolding(crate::specs::Routines::routine_steps))]
pub fn routines(
    alloc: Global,
    table: &mut ScopeTable,
    owner: Option<SystemKind>,
    nodes: &[Routine],
) -> Result<(), CheckFault>
    ensures faults { Finds (spec.routine_steps owner (scopes_of table.old) (map routine_view nodes.now)).faults result }
    ensures scopes { OnOk result (scopes_of table.new ≡ (spec.routine_steps owner (scopes_of table.old) (map routine_view nodes.now)).scopes) }
{
    for node in nodes {
        routine(alloc, table, owner, node)?;
    }
    Ok(())
}
