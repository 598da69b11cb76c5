//! Statements.

ghost use Rattle.std.specs.Prelude.{◌≡◌, [], map, Ok, Err};
ghost use Rattle.cp_scope.specs.Judged.{Judges, Finds};
ghost use Rattle.cp_scope.specs.View.{scopes_of};
ghost use Rattle.cp_tree.specs.View.{statement_view, statements_view, statements_of, arm_view, arms_view, arms_of, start_view, designator_view, expression_view, expressions_of, expressions_view};
ghost use Rattle.cp_scope.specs.Counts.{no_use};
ghost use Rattle.cp_scope.specs.declared.fault.CheckFault.TheVariants as check_fault;
ghost use Rattle.cp_scope.specs.declared.fault.Rule.TheVariants.{C5};
ghost use Rattle.cp_check.specs.Statements as spec;

use crate::call::{check_arguments, check_routine_call, is_own, place_of, total_use};
use crate::case::{Label, check_case, labels};
use crate::expression::{arguments, designator, expression};
use crate::name::{name_meaning, role_of};
use crate::operand::{Context, DesignatedName, Named, Operand};
use crate::operation::is_function;
use cp_scope::{
    Base, CheckFault, Detail, Parameter, Predeclared, Role, Rule, ScopeTable, Use, ValueType,
    broken_rule, values_of,
};
use cp_tree::{Arm, Designator, Expression, Start, Statement, StatementKind, SystemKind};
use std::alloc::Global;

/// What stands on the left of an assignment.
#[derive(Clone, Copy)]
pub enum Target {
    /// A variable.
    Assignable(ValueType),
    /// What is not assignable, and its type, if it has one.
    Fixed(Option<ValueType>),
    /// A procedure or a type.
    Kind,
}

/// What a function's name on the left stands for.
fn function_target(table: &ScopeTable, context: Context, routine: usize, is_local: bool) -> Target
    ensures { result ≡ spec.function_target (scopes_of table.now) context routine is_local }
{
    match table.shapes().result(routine) {
        None => Target::Kind,
        Some(result) => {
            if is_local && is_own(context, routine) {
                Target::Assignable(result)
            } else {
                Target::Fixed(None)
            }
        }
    }
}

/// What a name on the left stands for.
fn target_of(table: &ScopeTable, context: Context, named: Named) -> Target
    ensures { result ≡ spec.target_of (scopes_of table.now) context named }
{
    match named {
        Named::Variable(value_type) => {
            if place_of(table, value_type).is_assignable() {
                Target::Assignable(value_type)
            } else {
                Target::Fixed(Some(value_type))
            }
        }
        Named::Parameter(value_type) => Target::Fixed(Some(value_type)),
        Named::Constant(base) => Target::Fixed(Some(values_of(base))),
        Named::Routine(routine) => function_target(table, context, routine, true),
        Named::Entry(routine) => function_target(table, context, routine, false),
        Named::Predeclared(routine) => {
            if is_function(routine) {
                Target::Fixed(None)
            } else {
                Target::Kind
            }
        }
        Named::Kind | Named::Nothing => Target::Kind,
    }
}

/// No procedure and no type stands on the left.
fn check_target(
    table: &ScopeTable,
    named: Named,
    at: usize,
    target: Target,
) -> Result<Target, CheckFault>
    ensures { Judges (λ t. t) (spec.check_target at target) result }
{
    match target {
        Target::Kind => table.broken_rule(at, Rule::C5, Detail::Target(role_of(table, named))),
        _ => Ok(target),
    }
}

/// The rules of an assignment itself.
fn check_assignment(
    table: &ScopeTable,
    at: usize,
    target: Target,
    value: Operand,
    uses: Use,
) -> Result<Use, CheckFault>
    ensures { Judges (λ u. u) (spec.check_assignment at target value uses) result }
{
    match target {
        Target::Assignable(value_type) => {
            if value_type.agrees(value.value_type) {
                Ok(uses)
            } else {
                table.broken_rule(
                    at,
                    Rule::C5,
                    Detail::Assignment(value_type, value.as_found()),
                )
            }
        }
        Target::Fixed(Some(value_type)) => {
            let detail = Detail::Fixed(Some(value_type));
            if value_type.agrees(value.value_type) {
                table.broken_rule(at, Rule::C6, detail)
            } else {
                table.broken_rule(at, Rule::C5, detail)
            }
        }
        Target::Fixed(None) => table.broken_rule(at, Rule::C6, Detail::Fixed(None)),
        Target::Kind => broken_rule(at, Rule::C5),
    }
}

#[tactic(auto, unfolding(crate::specs::Statements::assignment))]
fn assignment(
    alloc: Global,
    table: &ScopeTable,
    context: Context,
    at: usize,
    left: &Designator,
    right: &Expression,
) -> Result<Use, CheckFault>
    ensures { Judges (λ u. u) (spec.assignment (scopes_of table.now) context at (designator_view left.now) (expression_view right.now)) result }
{
    let name = designator(alloc, table, context, left)?;
    let target = target_of(table, context, name.named);
    let target = check_target(table, name.named, left.name.at, target)?;
    let value = expression(alloc, table, context, false, right)?;
    check_assignment(table, at, target, value, name.uses.and(value.uses))
}

/// Whether `delay` or `continue` may stand here.
fn may_wait(table: &ScopeTable, context: Context, routine: Predeclared) -> bool
    ensures { result ≡ spec.may_wait (scopes_of table.now) context routine }
{
    match (context.owner, context.routine) {
        (Some(SystemKind::Monitor), Some(own)) => match routine {
            Predeclared::Delay => true,
            _ => table.shapes().is_entry(own) && table.shapes().result(own).is_none(),
        },
        _ => false,
    }
}

/// The queue on which a process waits.
fn check_queue(table: &ScopeTable, at: usize, operands: &[Operand]) -> Result<(), CheckFault>
    ensures { Finds (spec.queue_faults at operands.now) result }
{
    match operands {
        [operand] => {
            if operand.is_queue() {
                Ok(())
            } else {
                table.broken_rule(at, Rule::C5, Detail::Operand(operand.as_found()))
            }
        }
        _ => table.broken_rule(at, Rule::C7, Detail::Number(None, operands.len())),
    }
}

/// A process waits only where it may.
fn check_wait_place(
    table: &ScopeTable,
    context: Context,
    at: usize,
    routine: Predeclared,
) -> Result<(), CheckFault>
    ensures { Finds (spec.wait_faults (scopes_of table.now) context at routine) result }
{
    if may_wait(table, context, routine) {
        Ok(())
    } else {
        broken_rule(at, Rule::C12)
    }
}

/// The rules of `display`.
fn check_display(table: &ScopeTable, at: usize, operands: &[Operand]) -> Result<(), CheckFault>
    ensures { Finds (spec.display_faults at operands.now) result }
{
    match operands {
        [operand] => {
            if operand.value_type.is_ordinal() {
                Ok(())
            } else {
                table.broken_rule(operand.at, Rule::C21, Detail::Operand(operand.as_found()))
            }
        }
        _ => table.broken_rule(at, Rule::C7, Detail::Number(None, operands.len())),
    }
}

/// The rules of `delay` and `continue`.
#[tactic(auto, using(crate::proofs::Judging::first_append))]
fn check_wait(
    table: &ScopeTable,
    context: Context,
    at: usize,
    routine: Predeclared,
    operands: &[Operand],
) -> Result<(), CheckFault>
    ensures { Finds (spec.waiting_faults (scopes_of table.now) context at routine operands.now) result }
{
    check_queue(table, at, operands)?;
    check_wait_place(table, context, at, routine)
}

/// A call of a predeclared routine as a statement.
fn check_standard_call(
    table: &ScopeTable,
    context: Context,
    at: usize,
    routine: Predeclared,
    operands: &[Operand],
    uses: Use,
) -> Result<Use, CheckFault>
    ensures { Judges (λ u. u) (spec.check_standard_call (scopes_of table.now) context at routine operands.now uses) result }
{
    match routine {
        Predeclared::Display => {
            check_display(table, at, operands)?;
            Ok(uses)
        }
        Predeclared::Delay => {
            check_wait(table, context, at, routine, operands)?;
            Ok(uses.and(Use {
                calls: 0,
                need: 0,
                delays: true,
            }))
        }
        Predeclared::Continue => {
            check_wait(table, context, at, routine, operands)?;
            Ok(uses)
        }
        _ => table.broken_rule(at, Rule::C5, Detail::Call(Role::Function)),
    }
}

/// A call of a routine as a statement.
#[tactic(auto, unfolding(crate::specs::Statements::check_procedure_call))]
fn check_procedure_call(
    table: &ScopeTable,
    context: Context,
    at: usize,
    name_at: usize,
    is_local: bool,
    routine: usize,
    operands: &[Operand],
    uses: Use,
) -> Result<Use, CheckFault>
    ensures { Judges (λ u. u) (spec.check_procedure_call (scopes_of table.now) context at name_at is_local routine operands.now uses) result }
{
    match table.shapes().result(routine) {
        Some(_) => table.broken_rule(at, Rule::C5, Detail::Call(Role::Function)),
        None => check_routine_call(
            table, context, at, name_at, is_local, routine, operands, uses,
        ),
    }
}

/// The rules of a call statement itself.
#[tactic(auto, unfolding(crate::specs::Statements::check_call))]
fn check_call(
    table: &ScopeTable,
    context: Context,
    at: usize,
    name: DesignatedName,
    operands: &[Operand],
) -> Result<Use, CheckFault>
    ensures { Judges (λ u. u) (spec.check_call (scopes_of table.now) context at (name, operands.now)) result }
{
    let uses = name.uses;
    match name.named {
        Named::Predeclared(routine) => {
            let uses = total_use(uses, operands);
            check_standard_call(table, context, at, routine, operands, uses)
        }
        Named::Routine(routine) => check_procedure_call(
            table,
            context,
            at,
            name.name_at,
            true,
            routine,
            operands,
            uses,
        ),
        Named::Entry(routine) => check_procedure_call(
            table,
            context,
            at,
            name.name_at,
            false,
            routine,
            operands,
            uses,
        ),
        _ => table.broken_rule(at, Rule::C5, Detail::Call(role_of(table, name.named))),
    }
}

/// The parameters of what is called, where as many arguments stand.
fn parameters_of(table: &ScopeTable, named: Named, number: usize) -> &[Parameter]
    ensures { result.now ≡ spec.parameters_of (scopes_of table.now) named number }
{
    match named {
        Named::Routine(routine) => procedure_parameters(table, routine, number),
        Named::Entry(routine) => procedure_parameters(table, routine, number),
        _ => &[],
    }
}

/// The parameters of a procedure, where as many arguments stand.
fn procedure_parameters(table: &ScopeTable, routine: usize, number: usize) -> &[Parameter]
    ensures { result.now ≡ spec.procedure_parameters (scopes_of table.now) routine number }
{
    let parameters = table.shapes().parameters(routine);
    match table.shapes().result(routine) {
        Some(_) => &[],
        None => {
            if parameters.len() == number {
                parameters
            } else {
                &[]
            }
        }
    }
}

#[tactic(auto, unfolding(crate::specs::Statements::call), using(crate::proofs::Statements::number_is))]
fn call(
    alloc: Global,
    table: &ScopeTable,
    context: Context,
    at: usize,
    target: &Designator,
    nodes: &[Expression],
) -> Result<Use, CheckFault>
    ensures { Judges (λ u. u) (spec.call (scopes_of table.now) context at (designator_view target.now) (expressions_of (expressions_view nodes.now))) result }
{
    let name = designator(alloc, table, context, target)?;
    let parameters = parameters_of(table, name.named, nodes.len());
    let operands = arguments(alloc, table, context, parameters, nodes)?;
    check_call(table, context, at, name, &operands)
}

/// A test is a truth value; what its statement takes.
fn check_test(table: &ScopeTable, at: usize, test: Operand, uses: Use) -> Result<Use, CheckFault>
    ensures { Judges (λ u. u) (spec.check_test at test uses) result }
{
    if test.value_type.is_of(Base::Boolean) {
        Ok(uses)
    } else {
        table.broken_rule(at, Rule::C5, Detail::Operand(test.as_found()))
    }
}

/// What an annotation says is a truth value.
#[tactic(auto, unfolding(crate::specs::Statements::assertion))]
fn assertion(
    alloc: Global,
    table: &ScopeTable,
    context: Context,
    node: &Expression,
) -> Result<Use, CheckFault>
    ensures { Judges (λ u. u) (spec.assertion (scopes_of table.now) context (expression_view node.now)) result }
{
    let test = expression(alloc, table, context.quiet(), false, node)?;
    check_test(table, node.at, test, test.uses)
}

/// What is said before a statement, in its order.
#[tactic(auto, using(crate::proofs::Left::left_total, crate::proofs::Statements::assertions_refuse), unfolding(crate::specs::Statements::assertions))]
fn assertions(
    alloc: Global,
    table: &ScopeTable,
    context: Context,
    nodes: &[Expression],
) -> Result<Use, CheckFault>
    ensures { Judges (λ u. u) (spec.assertions (scopes_of table.now) context (Ok no_use) (expressions_view nodes.now)) result }
{
    let mut total = Use::nothing();
    for node in nodes {
        total = total.and(assertion(alloc, table, context, node)?);
    }
    Ok(total)
}

/// Whether the variable and the bounds of a `for` agree.
fn counts(first: ValueType, from: Operand, to: Operand) -> bool
    ensures { result ≡ spec.counts first from to }
{
    first.is_ordinal() && first.agrees(from.value_type) && first.agrees(to.value_type)
}

/// The variable and the bounds of a `for` do not agree.
fn refuse_bounds(
    table: &ScopeTable,
    at: usize,
    first: ValueType,
    from: Operand,
    to: Operand,
) -> Result<Use, CheckFault>
    ensures { result ≡ Err (check_fault.Rule at C5) }
{
    table.broken_rule(
        at,
        Rule::C5,
        Detail::Bounds(first, from.as_found(), to.as_found()),
    )
}

/// The rules of a `for` itself.
fn check_for(
    table: &ScopeTable,
    at: usize,
    name_at: usize,
    named: Named,
    target: Target,
    from: Operand,
    to: Operand,
    uses: Use,
) -> Result<Use, CheckFault>
    ensures { Judges (λ u. u) (spec.check_for at name_at target from to uses) result }
{
    match target {
        Target::Kind => table.broken_rule(at, Rule::C5, Detail::Counter(role_of(table, named))),
        Target::Assignable(value_type) => {
            if counts(value_type, from, to) {
                Ok(uses)
            } else {
                refuse_bounds(table, at, value_type, from, to)
            }
        }
        Target::Fixed(Some(value_type)) => {
            if counts(value_type, from, to) {
                table.broken_rule(name_at, Rule::C6, Detail::Fixed(Some(value_type)))
            } else {
                refuse_bounds(table, at, value_type, from, to)
            }
        }
        Target::Fixed(None) => {
            if counts(from.value_type, from, to) {
                table.broken_rule(name_at, Rule::C6, Detail::Fixed(None))
            } else {
                table.broken_rule(at, Rule::C5, Detail::Fixed(None))
            }
        }
    }
}

/// A start of a component variable.
#[tactic(auto, unfolding(crate::specs::Statements::check_start), using(crate::proofs::Judging::first_append))]
fn check_start(
    table: &ScopeTable,
    at: usize,
    name: DesignatedName,
    operands: &[Operand],
) -> Result<Use, CheckFault>
    ensures { Judges (λ u. u) (spec.check_start (scopes_of table.now) at (name, operands.now)) result }
{
    match name.named {
        Named::Variable(ValueType::Component(kind, system)) => {
            let shapes = table.shapes();
            check_arguments(table, at, system, shapes.parameters(system), operands)?;
            let need = match kind {
                SystemKind::Process => 0,
                _ => shapes.initial_need(system),
            };
            Ok(total_use(name.uses, operands).and(Use {
                calls: 0,
                need,
                delays: false,
            }))
        }
        _ => table.broken_rule(at, Rule::C17, Detail::Start(role_of(table, name.named))),
    }
}

#[tactic(auto, unfolding(crate::specs::Statements::start))]
fn start(
    alloc: Global,
    table: &ScopeTable,
    context: Context,
    node: &Start,
) -> Result<Use, CheckFault>
    ensures { Judges (λ u. u) (spec.start (scopes_of table.now) context (start_view node.now)) result }
{
    let name = designator(alloc, table, context, &node.target)?;
    let operands = arguments(alloc, table, context, &[], &node.arguments)?;
    check_start(table, node.target.name.at, name, &operands)
}

#[tactic(auto, using(crate::proofs::Left::left_total, crate::proofs::Statements::starts_refuse), unfolding(crate::specs::Statements::starts))]
fn starts(
    alloc: Global,
    table: &ScopeTable,
    context: Context,
    nodes: &[Start],
) -> Result<Use, CheckFault>
    ensures { Judges (λ u. u) (spec.starts (scopes_of table.now) context (Ok no_use) (map start_view nodes.now)) result }
{
    let mut total = Use::nothing();
    for node in nodes {
        total = total.and(start(alloc, table, context, node)?);
    }
    Ok(total)
}

/// `init` stands in an initial statement.
fn check_init(at: usize, context: Context, uses: Use) -> Result<Use, CheckFault>
    ensures { Judges (λ u. u) (spec.initial at context uses) result }
{
    match context.routine {
        None => Ok(uses),
        Some(_) => broken_rule(at, Rule::C16),
    }
}

#[cycle(statement)]
#[tactic(auto, unfolding(crate::specs::Statements::statement), using(crate::proofs::Judging::refuses_both, crate::proofs::Branches::else_first, crate::proofs::Branches::else_second))]
fn statement(
    alloc: Global,
    table: &ScopeTable,
    context: Context,
    node: &Statement,
) -> Result<Use, CheckFault>
    ensures { Judges (λ u. u) (spec.statement (scopes_of table.now) context (statement_view node.now)) result }
{
    let at = node.at;
    match &node.kind {
        StatementKind::Empty => Ok(Use::nothing()),
        StatementKind::Assign(left, right) => { assignment(alloc, table, context, at, left, right) }
        StatementKind::Call(target, nodes) => call(alloc, table, context, at, target, nodes),
        StatementKind::Block(inner) => statements(alloc, table, context, inner),
        StatementKind::Cycle(inner) => statements(alloc, table, context, inner),
        StatementKind::If(test, first, second) => match second {
            None => {
                let test = expression(alloc, table, context, false, test)?;
                let uses = statement(alloc, table, context, first)?;
                check_test(table, at, test, test.uses.and(uses))
            }
            Some(second) => {
                let test = expression(alloc, table, context, false, test)?;
                let uses = statement(alloc, table, context, first)?;
                let uses = uses.and(statement(alloc, table, context, second)?);
                check_test(table, at, test, test.uses.and(uses))
            }
        },
        StatementKind::While(test, inner) => {
            let test = expression(alloc, table, context, false, test)?;
            let uses = statement(alloc, table, context, inner)?;
            check_test(table, at, test, test.uses.and(uses))
        }
        StatementKind::Repeat(inner, test) => {
            let uses = statements(alloc, table, context, inner)?;
            let test = expression(alloc, table, context, false, test)?;
            check_test(table, at, test, uses.and(test.uses))
        }
        StatementKind::For(name, from, _, to, inner) => {
            let variable = name_meaning(table, name)?;
            let from = expression(alloc, table, context, false, from)?;
            let to = expression(alloc, table, context, false, to)?;
            let uses = statement(alloc, table, context, inner)?;
            let target = target_of(table, context, variable.named);
            let uses = from.uses.and(to.uses).and(uses);
            check_for(table, at, name.at, variable.named, target, from, to, uses)
        }
        StatementKind::Init(nodes) => {
            check_init(at, context, starts(alloc, table, context, nodes)?)
        }
        StatementKind::Case(selector, nodes, _) => {
            let selector = expression(alloc, table, context, false, selector)?;
            let (labels, uses) = arms(alloc, table, context, nodes)?;
            check_case(alloc, table, at, selector, &labels, uses)
        }
        StatementKind::Asserted(_, tests, inner) => {
            let uses = assertions(alloc, table, context, tests)?;
            Ok(uses.and(statement(alloc, table, context, inner)?))
        }
    }
}

/// The labels of an arm, and what it takes.
#[cycle(statement)]
#[tactic(auto, unfolding(crate::specs::Statements::labelled))]
fn arm(
    alloc: Global,
    table: &ScopeTable,
    context: Context,
    node: &Arm,
) -> Result<(Vec<Label>, Use), CheckFault>
    ensures { Judges (λ p. (p.0.items, p.1)) (spec.labelled (scopes_of table.now) context (arm_view node.now)) result }
{
    let labels = labels(alloc, table, &node.labels)?;
    let uses = statement(alloc, table, context, &node.body)?;
    Ok((labels, uses))
}

/// The labels of arms, and what the arms take.
#[cycle(statement)]
#[tactic(auto, using(crate::proofs::Left::left_total, crate::proofs::Arms::arms_refuse), unfolding(crate::specs::Statements::arms))]
fn arms(
    alloc: Global,
    table: &ScopeTable,
    context: Context,
    nodes: &[Arm],
) -> Result<(Vec<Label>, Use), CheckFault>
    ensures { Judges (λ p. (p.0.items, p.1)) (spec.arms (scopes_of table.now) context (Ok ([], no_use)) (arms_of (arms_view nodes.now))) result }
{
    let mut all = Vec::new(alloc);
    let mut total = Use::nothing();
    for node in nodes {
        let (labels, uses) = arm(alloc, table, context, node)?;
        all.extend_from_slice(&labels)?;
        total = total.and(uses);
    }
    Ok((all, total))
}

/// Statements in their order.
#[cycle(statement)]
#[tactic(auto, using(crate::proofs::Left::left_total, crate::proofs::Statements::statements_refuse), unfolding(crate::specs::Statements::statements))]
pub fn statements(
    alloc: Global,
    table: &ScopeTable,
    context: Context,
    nodes: &[Statement],
) -> Result<Use, CheckFault>
    ensures { Judges (λ u. u) (spec.statements (scopes_of table.now) context (Ok no_use) (statements_of (statements_view nodes.now))) result }
{
    let mut total = Use::nothing();
    for node in nodes {
        total = total.and(statement(alloc, table, context, node)?);
    }
    Ok(total)
}
