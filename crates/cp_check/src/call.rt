//! The rules of calls.

ghost use Rattle.std.specs.Prelude.{◌≡◌, IfOk, length};
ghost use Rattle.cp_scope.specs.Judged.{Judges, Finds};
ghost use Rattle.cp_scope.specs.View.{scopes_of};
ghost use Rattle.cp_check.specs.Calls as spec;

use crate::operand::{Context, DesignatedName, Named, Operand, OperandUse, value};
use crate::operation::{is_function, standard_value};
use cp_scope::{
    CheckFault, Detail, Parameter, Role, Rule, ScopeTable, Use, ValueType, broken_rule, values_of,
};
use cp_tree::SystemKind;

/// Whether an argument fits a parameter.
fn fits(parameter: Parameter, operand: Operand) -> bool
    ensures { result ≡ spec.fits parameter operand }
{
    if !parameter.is_var {
        parameter.value_type.agrees(operand.value_type)
    } else if operand.place.is_function() {
        true
    } else {
        parameter.value_type.is_same(operand.value_type)
    }
}

/// Whether arguments fit parameters, of which there are as many; notes the first that does not.
#[tactic(auto, using(crate::proofs::Left::left))]
fn all_fit(
    table: &ScopeTable,
    heading: usize,
    parameters: &[Parameter],
    operands: &[Operand],
) -> bool
    requires { length parameters.now ≡ length operands.now }
    ensures { result ≡ spec.all_fit parameters.now operands.now }
{
    for i in 0..parameters.len() {
        if !fits(parameters[i], operands[i]) {
            table.note(Detail::Argument(heading, i, operands[i].as_found()));
            return false;
        }
    }
    true
}

/// The number and the types of arguments of what has its heading at a token.
pub fn check_arguments(
    table: &ScopeTable,
    at: usize,
    heading: usize,
    parameters: &[Parameter],
    operands: &[Operand],
) -> Result<(), CheckFault>
    ensures faults { Finds (spec.fit_faults at parameters.now operands.now) result }
    ensures as_many { IfOk result (λ u. length parameters.now ≡ length operands.now) }
{
    if parameters.len() != operands.len() {
        table.broken_rule(at, Rule::C7, Detail::Number(Some(heading), operands.len()))
    } else if all_fit(table, heading, parameters, operands) {
        Ok(())
    } else {
        broken_rule(at, Rule::C5)
    }
}

/// Whether an argument is a variable where one is wanted.
fn check_variable(
    table: &ScopeTable,
    parameter: Parameter,
    operand: Operand,
) -> Result<(), CheckFault>
    ensures { Finds (spec.variable_faults parameter operand) result }
{
    if parameter.is_var && !operand.place.is_assignable() {
        table.broken_rule(operand.at, Rule::C6, Detail::Fixed(operand.own_type()))
    } else {
        Ok(())
    }
}

/// Arguments are variables where such are wanted.
#[tactic(auto, using(crate::proofs::Left::left))]
fn check_variables(
    table: &ScopeTable,
    parameters: &[Parameter],
    operands: &[Operand],
) -> Result<(), CheckFault>
    requires { length parameters.now ≡ length operands.now }
    ensures { Finds (spec.all_variable_faults parameters.now operands.now) result }
{
    for i in 0..parameters.len() {
        check_variable(table, parameters[i], operands[i])?;
    }
    Ok(())
}

/// What operands take, besides something else.
#[tactic(auto, using(crate::proofs::Left::read), unfolding(crate::specs::Calls::total_use))]
pub fn total_use(uses: Use, operands: &[Operand]) -> Use
    ensures { result ≡ spec.total_use uses operands.now }
{
    let mut total = uses;
    for operand in operands {
        total = total.and(operand.uses);
    }
    total
}

/// An entry is called from outside, another routine from inside.
fn check_entry(at: usize, is_local: bool, is_entry: bool) -> Result<(), CheckFault>
    ensures { Finds (spec.entry_faults at is_local is_entry) result }
{
    if is_local == is_entry {
        broken_rule(at, Rule::C9)
    } else {
        Ok(())
    }
}

/// No routine calls itself.
fn check_recursion(at: usize, context: Context, routine: usize) -> Result<(), CheckFault>
    ensures { Finds (spec.own_faults at context routine) result }
{
    match context.routine {
        Some(own) => {
            if own == routine {
                broken_rule(at, Rule::C10)
            } else {
                Ok(())
            }
        }
        None => Ok(()),
    }
}

/// Whether a node stands in the initial statement of a monitor.
fn is_initial_of_monitor(context: Context) -> bool
    ensures { result ≡ spec.is_initial_of_monitor context }
{
    match (context.owner, context.routine) {
        (Some(SystemKind::Monitor), None) => true,
        _ => false,
    }
}

/// An annotation calls no routine.
fn check_quiet(at: usize, context: Context, is_here: bool) -> Result<(), CheckFault>
    ensures { Finds (spec.quiet_faults at context is_here) result }
{
    if is_here && context.is_quiet {
        broken_rule(at, Rule::C22)
    } else {
        Ok(())
    }
}

/// A monitor's initial statement does not delay.
fn check_delay(at: usize, context: Context, is_local: bool, body: Use) -> Result<(), CheckFault>
    ensures { Finds (spec.delay_faults at context is_local body) result }
{
    if is_initial_of_monitor(context) && is_local && body.delays {
        broken_rule(at, Rule::C12)
    } else {
        Ok(())
    }
}

/// The rules of a call itself; what it takes. A local call has its name at its first token, so that faults come by their rules there.
#[tactic(auto, unfolding(crate::specs::Calls::check_routine_call), using(crate::proofs::Judging::first_append))]
pub fn check_routine_call(
    table: &ScopeTable,
    context: Context,
    at: usize,
    name_at: usize,
    is_local: bool,
    routine: usize,
    operands: &[Operand],
    uses: Use,
) -> Result<Use, CheckFault>
    ensures { Judges (λ u. u) (spec.check_routine_call (scopes_of table.now) context at name_at is_local routine operands.now uses) result }
{
    let shapes = table.shapes();
    let parameters = shapes.parameters(routine);
    let body = shapes.body(routine);
    check_arguments(table, at, routine, parameters, operands)?;
    check_quiet(at, context, !is_local)?;
    check_entry(name_at, is_local, shapes.is_entry(routine))?;
    check_recursion(name_at, context, routine)?;
    check_delay(name_at, context, is_local, body)?;
    check_quiet(at, context, is_local)?;
    check_variables(table, parameters, operands)?;
    Ok(total_use(uses, operands).and(Use {
        calls: 0,
        need: body.need,
        delays: is_local && body.delays,
    }))
}

/// A call of a function as a value.
#[tactic(auto, unfolding(crate::specs::Calls::function_value))]
fn function_value(
    table: &ScopeTable,
    context: Context,
    at: usize,
    name_at: usize,
    is_local: bool,
    routine: usize,
    operands: &[Operand],
    uses: Use,
) -> Result<Operand, CheckFault>
    ensures { Judges (λ o. o) (spec.function_value (scopes_of table.now) context at name_at is_local routine operands.now uses) result }
{
    match table.shapes().result(routine) {
        None => table.broken_rule(at, Rule::C5, Detail::Value(Role::Procedure)),
        Some(result) => {
            let uses = check_routine_call(
                table, context, at, name_at, is_local, routine, operands, uses,
            )?;
            Ok(value(
                at,
                result,
                uses.and(Use {
                    calls: 1,
                    need: 0,
                    delays: false,
                }),
            ))
        }
    }
}

/// Whether a type is a queue, a component or an array of such, which are not assignable.
fn is_fixed(table: &ScopeTable, value_type: ValueType) -> bool
    ensures { result ≡ spec.is_fixed (scopes_of table.now) value_type }
{
    match value_type {
        ValueType::Queue => true,
        ValueType::Component(_, _) => true,
        ValueType::Array(at) => match table.shapes().array(at) {
            Some(array) => match array.element {
                ValueType::Queue => true,
                ValueType::Component(_, _) => true,
                _ => false,
            },
            None => false,
        },
        _ => false,
    }
}

/// How a variable may be used.
pub fn place_of(table: &ScopeTable, value_type: ValueType) -> OperandUse
    ensures { result ≡ spec.place_of (scopes_of table.now) value_type }
{
    if is_fixed(table, value_type) {
        OperandUse::Fixed
    } else {
        OperandUse::Assignable
    }
}

/// What stands alone has no arguments.
fn check_alone(
    table: &ScopeTable,
    operand: Operand,
    operands: &[Operand],
) -> Result<Operand, CheckFault>
    ensures { Judges (λ o. o) (spec.alone operand operands.now) result }
{
    match operands {
        [] => Ok(operand),
        [_, ..] => table.broken_rule(
            operand.at,
            Rule::C5,
            Detail::Value(Role::Value(operand.value_type)),
        ),
    }
}

/// A name with selectors and arguments as a value.
#[tactic(auto, unfolding(crate::specs::Calls::value_of))]
pub fn value_of(
    table: &ScopeTable,
    context: Context,
    at: usize,
    name: DesignatedName,
    operands: &[Operand],
) -> Result<Operand, CheckFault>
    ensures { Judges (λ o. o) (spec.value_of (scopes_of table.now) context at (name, operands.now)) result }
{
    let uses = name.uses;
    match name.named {
        Named::Constant(base) => check_alone(table, value(at, values_of(base), uses), operands),
        Named::Variable(value_type) => check_alone(
            table,
            Operand {
                at,
                value_type,
                place: place_of(table, value_type),
                uses,
            },
            operands,
        ),
        Named::Parameter(value_type) => check_alone(
            table,
            Operand {
                at,
                value_type,
                place: OperandUse::Fixed,
                uses,
            },
            operands,
        ),
        Named::Predeclared(routine) => standard_value(
            table,
            at,
            routine,
            operands,
            total_use(uses, operands),
        ),
        Named::Routine(routine) => function_value(
            table,
            context,
            at,
            name.name_at,
            true,
            routine,
            operands,
            uses,
        ),
        Named::Entry(routine) => function_value(
            table,
            context,
            at,
            name.name_at,
            false,
            routine,
            operands,
            uses,
        ),
        Named::Kind | Named::Nothing => {
            table.broken_rule(at, Rule::C5, Detail::Value(Role::Kind))
        }
    }
}

/// Whether a routine is the one in which a node stands.
pub fn is_own(context: Context, routine: usize) -> bool
    ensures { result ≡ spec.is_own context routine }
{
    match context.routine {
        Some(own) => own == routine,
        None => false,
    }
}

/// Whether a name is that of a function, but not of the one around it.
pub fn is_other_function(table: &ScopeTable, context: Context, named: Named) -> bool
    ensures { result ≡ spec.is_other_function (scopes_of table.now) context named }
{
    match named {
        Named::Predeclared(routine) => is_function(routine),
        Named::Routine(routine) => {
            table.shapes().result(routine).is_some() && !is_own(context, routine)
        }
        Named::Entry(routine) => table.shapes().result(routine).is_some(),
        _ => false,
    }
}

/// A name alone in the place of a `var` argument.
pub fn variable_of(
    table: &ScopeTable,
    context: Context,
    at: usize,
    name: DesignatedName,
) -> Result<Operand, CheckFault>
    ensures { Judges (λ o. o) (spec.variable_of (scopes_of table.now) context at name) result }
{
    if is_other_function(table, context, name.named) {
        Ok(Operand {
            at,
            value_type: ValueType::Queue,
            place: OperandUse::Function,
            uses: name.uses,
        })
    } else {
        value_of(table, context, at, name, &[])
    }
}
