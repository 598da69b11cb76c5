//! Expressions.

ghost use Rattle.std.specs.Prelude.{◌≡◌, ◌&&◌, [], Ok, Some};
ghost use Rattle.cp_scope.specs.Judged.{Judges};
ghost use Rattle.cp_scope.specs.View.{scopes_of};
ghost use Rattle.cp_tree.specs.View.{expression_view, expressions_view, expressions_of, sum_view, term_view, terms_view, terms_of, factor_view, factors_view, factors_of, designator_view, selector_view, selectors_view, selectors_of};
ghost use Rattle.cp_check.specs.Names.{meaning_of_name};
ghost use Rattle.cp_check.specs.Expressions as spec;

use crate::call::{total_use, value_of, variable_of};
use crate::name::{check_selectors, element_of, member_of, name_meaning};
use crate::operand::{Context, DesignatedName, Operand, base_value, value};
use crate::operation::{
    check_agreement, negation_of, product_of, relation_value, sum_of, with_sign,
};
use cp_scope::{
    Base, CheckFault, Detail, Parameter, Rule, ScopeTable, Use, ValueType, broken_rule,
};
use cp_tree::{
    Addition, Designator, Expression, Factor, FactorKind, Identifier, Multiplication, Selector,
    Sign, Sum, Term,
};
use std::alloc::Global;

/// Whether there are no arguments.
#[tactic(auto, using(crate::proofs::Lists::some_expressions))]
fn has_none(nodes: &[Expression]) -> bool
    ensures { result ≡ spec.has_none (expressions_of (expressions_view nodes.now)) }
{
    match nodes {
        [] => true,
        [_, ..] => false,
    }
}

/// Whether a factor stands alone.
#[tactic(auto, using(crate::proofs::Lists::some_factors))]
fn has_no_factors(nodes: &[(Multiplication, Factor)]) -> bool
    ensures { result ≡ spec.has_no_factors (factors_of (factors_view nodes.now)) }
{
    match nodes {
        [] => true,
        [_, ..] => false,
    }
}

/// Whether a term stands alone.
#[tactic(auto, using(crate::proofs::Lists::some_terms))]
fn has_no_terms(nodes: &[(Addition, Term)]) -> bool
    ensures { result ≡ spec.has_no_terms (terms_of (terms_view nodes.now)) }
{
    match nodes {
        [] => true,
        [_, ..] => false,
    }
}

/// Whether a factor stands alone in the place of a `var` argument.
fn is_factor_alone(is_var: bool, nodes: &[(Multiplication, Factor)]) -> bool
    ensures { result ≡ (is_var && spec.has_no_factors (factors_of (factors_view nodes.now))) }
{
    is_var && has_no_factors(nodes)
}

/// Whether a term stands alone in the place of a `var` argument.
fn is_term_alone(is_var: bool, sign: Option<Sign>, nodes: &[(Addition, Term)]) -> bool
    ensures { result ≡ (is_var && (spec.is_unsigned sign && spec.has_no_terms (terms_of (terms_view nodes.now)))) }
{
    match sign {
        None => is_var && has_no_terms(nodes),
        Some(_) => false,
    }
}

/// An expression in parentheses.
fn value_in_parentheses(at: usize, operand: Operand) -> Operand
    ensures { result ≡ spec.value_in_parentheses at operand }
{
    value(at, operand.value_type, operand.uses)
}

/// Whether elements agree with the base of the first; notes the first that does not.
#[tactic(auto, using(crate::proofs::Left::left))]
fn are_elements(table: &ScopeTable, first: Operand, base: Base, operands: &[Operand]) -> bool
    ensures { result ≡ spec.are_elements base operands.now }
{
    for operand in operands {
        if !operand.value_type.is_of(base) {
            table.note(Detail::Elements(first.as_found(), operand.as_found()));
            return false;
        }
    }
    true
}

/// A set constructor.
fn set_value(table: &ScopeTable, at: usize, operands: &[Operand]) -> Result<Operand, CheckFault>
    ensures { Judges (λ o. o) (spec.set_value at operands.now) result }
{
    match operands {
        [] => Ok(value(at, ValueType::Set(None), Use::nothing())),
        [first, ..] => match first.value_type {
            ValueType::Ordinal(range) => {
                if are_elements(table, *first, range.base, operands) {
                    let uses = total_use(Use::nothing(), operands);
                    Ok(value(at, ValueType::Set(Some(range.base.whole())), uses))
                } else {
                    broken_rule(at, Rule::C5)
                }
            }
            _ => {
                let detail = Detail::Elements(first.as_found(), first.as_found());
                table.broken_rule(at, Rule::C5, detail)
            }
        },
    }
}

/// Whether the argument at a place is that of a `var` parameter.
fn is_var_at(parameters: &[Parameter], place: usize) -> bool
    ensures { result ≡ spec.is_var_at parameters.now place }
{
    match parameters.get(place) {
        Some(parameter) => parameter.is_var,
        None => false,
    }
}

#[cycle(expression)]
#[tactic(auto, using(crate::proofs::Left::left_total, crate::proofs::Expressions::selectors_refuse), unfolding(crate::specs::Expressions::selectors))]
fn selectors(
    alloc: Global,
    table: &ScopeTable,
    context: Context,
    start: DesignatedName,
    nodes: &[Selector],
) -> Result<DesignatedName, CheckFault>
    ensures { Judges (λ d. d) (spec.selectors (scopes_of table.now) context (Ok start) (selectors_of (selectors_view nodes.now))) result }
{
    let mut whole = start;
    for node in nodes {
        whole = selector(alloc, table, context, whole, node)?;
    }
    Ok(whole)
}

#[cycle(expression)]
#[tactic(auto, unfolding(crate::specs::Expressions::selector))]
fn selector(
    alloc: Global,
    table: &ScopeTable,
    context: Context,
    whole: DesignatedName,
    node: &Selector,
) -> Result<DesignatedName, CheckFault>
    ensures { Judges (λ d. d) (spec.selector (scopes_of table.now) context (Ok whole) (selector_view node.now)) result }
{
    match node {
        Selector::Field(name) => member_of(table, name, whole),
        Selector::Index(index) => {
            let index = expression(alloc, table, context, false, index)?;
            Ok(element_of(table, whole, index))
        }
    }
}

#[cycle(expression)]
#[tactic(auto, using(crate::proofs::Expressions::selectors_refuse))]
fn name_with_selectors(
    alloc: Global,
    table: &ScopeTable,
    context: Context,
    name: &Identifier,
    nodes: &[Selector],
) -> Result<DesignatedName, CheckFault>
    ensures { Judges (λ d. d) (spec.selectors (scopes_of table.now) context (meaning_of_name (scopes_of table.now) name.now) (selectors_of (selectors_view nodes.now))) result }
{
    match name_meaning(table, name) {
        Ok(start) => selectors(alloc, table, context, start, nodes),
        Err(fault) => Err(fault),
    }
}

/// A name with its selectors.
#[cycle(expression)]
#[tactic(auto, unfolding(crate::specs::Expressions::designator))]
pub fn designator(
    alloc: Global,
    table: &ScopeTable,
    context: Context,
    node: &Designator,
) -> Result<DesignatedName, CheckFault>
    ensures { Judges (λ d. d) (spec.designator (scopes_of table.now) context (designator_view node.now)) result }
{
    let whole = name_with_selectors(alloc, table, context, &node.name, &node.selectors)?;
    check_selectors(node.name.at, whole)
}

/// A factor; in the place of a `var` argument a function's name alone is no call.
#[cycle(expression)]
#[tactic(auto, unfolding(crate::specs::Expressions::factor))]
fn factor(
    alloc: Global,
    table: &ScopeTable,
    context: Context,
    is_var: bool,
    node: &Factor,
) -> Result<Operand, CheckFault>
    ensures { Judges (λ o. o) (spec.factor (scopes_of table.now) context is_var (factor_view node.now)) result }
{
    let at = node.at;
    match &node.kind {
        FactorKind::Number(_) => Ok(base_value(at, Base::Integer, Use::nothing())),
        FactorKind::Character(_) => Ok(base_value(at, Base::Char, Use::nothing())),
        FactorKind::Named(name, nodes) => {
            let name = designator(alloc, table, context, name)?;
            if is_var && has_none(nodes) {
                variable_of(table, context, at, name)
            } else {
                let operands = arguments(alloc, table, context, &[], nodes)?;
                value_of(table, context, at, name, &operands)
            }
        }
        FactorKind::Group(inner) => {
            Ok(value_in_parentheses(at, expression(alloc, table, context, false, inner)?))
        }
        FactorKind::Not(inner) => {
            negation_of(table, at, factor(alloc, table, context, false, inner)?)
        },
        FactorKind::Set(nodes) => {
            let operands = arguments(alloc, table, context, &[], nodes)?;
            set_value(table, at, &operands)
        }
    }
}

#[cycle(expression)]
#[tactic(auto, using(crate::proofs::Left::left_total, crate::proofs::Expressions::factors_refuse), unfolding(crate::specs::Expressions::more_factors))]
fn more_factors(
    alloc: Global,
    table: &ScopeTable,
    context: Context,
    at: usize,
    first: Operand,
    nodes: &[(Multiplication, Factor)],
) -> Result<Option<Operand>, CheckFault>
    ensures { Judges (λ o. o) (spec.more_factors (scopes_of table.now) context at (Ok (Some first)) (factors_of (factors_view nodes.now))) result }
{
    let mut total = Some(first);
    for (operation, node) in nodes {
        let next = factor(alloc, table, context, false, node)?;
        total = product_of(table, at, *operation, total, next);
    }
    Ok(total)
}

/// A term, likewise.
#[cycle(expression)]
#[tactic(auto, using(crate::proofs::Expressions::term_first, crate::proofs::Expressions::term_more, crate::proofs::Expressions::term_passed))]
fn term(
    alloc: Global,
    table: &ScopeTable,
    context: Context,
    is_var: bool,
    node: &Term,
) -> Result<Operand, CheckFault>
    ensures { Judges (λ o. o) (spec.term_value (scopes_of table.now) context is_var (term_view node.now)) result }
{
    let is_alone = is_factor_alone(is_var, &node.more);
    let first = factor(alloc, table, context, is_alone, &node.first)?;
    check_agreement(
        node.at,
        more_factors(alloc, table, context, node.at, first, &node.more)?,
    )
}

#[cycle(expression)]
#[tactic(auto, using(crate::proofs::Left::left_total, crate::proofs::Expressions::terms_refuse), unfolding(crate::specs::Expressions::more_terms))]
fn more_terms(
    alloc: Global,
    table: &ScopeTable,
    context: Context,
    at: usize,
    first: Option<Operand>,
    nodes: &[(Addition, Term)],
) -> Result<Option<Operand>, CheckFault>
    ensures { Judges (λ o. o) (spec.more_terms (scopes_of table.now) context at (Ok first) (terms_of (terms_view nodes.now))) result }
{
    let mut total = first;
    for (operation, node) in nodes {
        let next = term(alloc, table, context, false, node)?;
        total = sum_of(table, at, *operation, total, next);
    }
    Ok(total)
}

/// A sum, likewise.
#[cycle(expression)]
#[tactic(auto, using(crate::proofs::Expressions::sum_first, crate::proofs::Expressions::sum_more, crate::proofs::Expressions::sum_passed))]
fn sum(
    alloc: Global,
    table: &ScopeTable,
    context: Context,
    is_var: bool,
    node: &Sum,
) -> Result<Operand, CheckFault>
    ensures { Judges (λ o. o) (spec.sum_value (scopes_of table.now) context is_var (sum_view node.now)) result }
{
    let is_alone = is_term_alone(is_var, node.sign, &node.more);
    let first = term(alloc, table, context, is_alone, &node.first)?;
    let first = with_sign(table, node.at, node.sign, first);
    check_agreement(
        node.at,
        more_terms(alloc, table, context, node.at, first, &node.more)?,
    )
}

/// An expression; in the place of a `var` argument a function's name alone is no call.
#[cycle(expression)]
#[tactic(auto, unfolding(crate::specs::Expressions::expression))]
pub fn expression(
    alloc: Global,
    table: &ScopeTable,
    context: Context,
    is_var: bool,
    node: &Expression,
) -> Result<Operand, CheckFault>
    ensures { Judges (λ o. o) (spec.expression (scopes_of table.now) context is_var (expression_view node.now)) result }
{
    match &node.right {
        None => sum(alloc, table, context, is_var, &node.left),
        Some((relation, right)) => {
            let left = sum(alloc, table, context, false, &node.left)?;
            let right = sum(alloc, table, context, false, right)?;
            relation_value(table, node.at, *relation, left, right)
        }
    }
}

/// The arguments of a call of a routine with these parameters.
#[cycle(expression)]
#[tactic(auto, using(crate::proofs::Expressions::arguments_passed, crate::proofs::Expressions::arguments_refused, crate::proofs::Expressions::arguments_none))]
pub fn arguments(
    alloc: Global,
    table: &ScopeTable,
    context: Context,
    parameters: &[Parameter],
    nodes: &[Expression],
) -> Result<Vec<Operand>, CheckFault>
    ensures { Judges (λ v. v.items) (spec.arguments (scopes_of table.now) context parameters.now 0 (expressions_of (expressions_view nodes.now))) result }
{
    let mut operands = Vec::new(alloc);
    for place in 0..nodes.len() {
        let is_var = is_var_at(parameters, place);
        operands.push(expression(alloc, table, context, is_var, &nodes[place])?)?;
    }
    Ok(operands)
}
