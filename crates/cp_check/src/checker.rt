//! The check of a whole program.

ghost use Rattle.std.specs.Prelude.{◌≡◌, [], IfOk, IfErr, OnOk};
ghost use Rattle.cp_scope.specs.Judged.{Judges, Finds, RefusesList};
ghost use Rattle.cp_scope.specs.View.{scopes_of};
ghost use Rattle.cp_scope.specs.declared.fault.CheckFault.TheVariants as check_fault;
ghost use Rattle.cp_tree.specs.TreeView.{tree_view};
ghost use Rattle.cp_tree.specs.View.{program_view};
ghost use Rattle.cp_check.specs.Faults as spec;
ghost use Rattle.cp_check.specs.Faults.{faults_of};

use crate::operand::Context;
use crate::routine::{need_of, routines};
use crate::statement::statements;
use crate::system::program_parts;
use crate::types::MOST_CELLS;
use cp_scope::{Census, CheckFault, Rule, ScopeTable, Use, broken_rule};
use cp_tree::{Program, Tree};
use std::alloc::Global;

/// A tree that breaks no rule.
#[derive(Drop)]
pub struct Checked {
    tree: Tree,
    ghost accepted: { faults_of (tree_view tree) ≡ [] },
}

impl Checked {
    /// The tree that was checked.
    pub fn tree(&self) -> &Tree
        ensures { result.now ≡ self.now.tree }
    {
        &self.tree
    }
}

/// The declarations of a program.
#[tactic(auto, unfolding(crate::specs::Faults::declarations), using(crate::proofs::Judging::first_append))]
fn declarations(alloc: Global, table: &mut ScopeTable, node: &Program) -> Result<(), CheckFault>
    ensures faults { Finds (spec.declarations (scopes_of table.old) (program_view node.now)).faults result }
    ensures scopes { OnOk result (scopes_of table.new ≡ (spec.declarations (scopes_of table.old) (program_view node.now)).scopes) }
{
    program_parts(alloc, table, &node.parts)?;
    routines(alloc, table, None, &node.routines)
}

/// The program's declarations and its initial statement.
#[tactic(auto, unfolding(crate::specs::Faults::declarations_and_body), using(crate::proofs::Judging::first_append))]
fn declarations_and_body(
    alloc: Global,
    table: &mut ScopeTable,
    node: &Program,
) -> Result<Use, CheckFault>
    ensures judged { Judges (λ u. u) (spec.declarations_and_body (scopes_of table.old) (program_view node.now)).uses result }
    ensures scopes { OnOk result (scopes_of table.new ≡ (spec.declarations_and_body (scopes_of table.old) (program_view node.now)).scopes) }
{
    declarations(alloc, table, node)?;
    let context = Context {
        owner: None,
        routine: None,
        is_quiet: false,
    };
    statements(alloc, table, context, &node.body.statements)
}

/// The processes that a program may have besides its own.
const MOST_PROCESSES: u32 = 15;

/// The components that a program may have.
const MOST_COMPONENTS: u32 = 64;

/// The frame cells of a process.
const MOST_FRAME_CELLS: u32 = 4096;

/// Whether a program passes a limit.
fn is_too_large(census: Census, uses: Use) -> bool
    ensures { result ≡ spec.is_too_large census uses }
{
    MOST_PROCESSES < census.processes
        || MOST_COMPONENTS < census.components
        || MOST_CELLS < census.cells
        || MOST_FRAME_CELLS < census.need
        || MOST_FRAME_CELLS < need_of(uses)
}

/// The rules of a program, and its limits.
fn within_limits(alloc: Global, table: &mut ScopeTable, node: &Program) -> Result<(), CheckFault>
    ensures { Finds (spec.with_limits (program_view node.now).period (spec.declarations_and_body (scopes_of table.old) (program_view node.now))) result }
{
    let uses = declarations_and_body(alloc, table, node)?;
    if is_too_large(table.census(), uses) {
        return broken_rule(node.period, Rule::C20);
    }
    Ok(())
}

// The table is let go at one way out.
#[tactic(auto, unfolding(crate::specs::Faults::faults_of))]
fn check_tree(alloc: Global, tree: &Tree) -> Result<(), CheckFault>
    ensures { Finds (faults_of (tree_view tree.now)) result }
{
    let mut table = ScopeTable::new(alloc)?;
    within_limits(alloc, &mut table, &tree.program)
}

/// The names that are known where the check of a program ends, be that where it breaks a rule.
pub fn names_at_fault(alloc: Global, tree: &Tree) -> Result<ScopeTable, CheckFault>
    ensures { IfErr result (λ e. e ≡ check_fault.Memory) }
{
    let mut table = ScopeTable::new(alloc)?;
    match within_limits(alloc, &mut table, &tree.program) {
        Err(CheckFault::Memory) => Err(CheckFault::Memory),
        _ => Ok(table),
    }
}

/// Whether a program breaks no rule, or the first that it breaks, in reading order.
/// The tree comes back with each refusal.
pub fn check(alloc: Global, tree: Tree) -> Result<Checked, (CheckFault, Tree)>
    ensures accepted { IfOk result (λ c. faults_of (tree_view tree) ≡ []) }
    ensures same { IfOk result (λ c. c.tree ≡ tree) }
    ensures refused { IfErr result (λ e. RefusesList e.0 (faults_of (tree_view tree))) }
    ensures back { IfErr result (λ e. e.1 ≡ tree) }
{
    match check_tree(alloc, &tree) {
        Ok(()) => Ok(Checked { tree }),
        Err(fault) => Err((fault, tree)),
    }
}
