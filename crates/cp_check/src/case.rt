//! The labels of a `case`.

ghost use Rattle.std.specs.Prelude.{◌≡◌, [], IfOk};
ghost use Rattle.cp_scope.specs.Judged.{Judges, Finds};
ghost use Rattle.cp_scope.specs.View.{scopes_of};
ghost use Rattle.cp_check.specs.Cases as spec;

use crate::constant::{ConstantNumber, constant};
use crate::operand::Operand;
use cp_scope::{Base, CheckFault, Detail, Rule, ScopeTable, Use, ValueType, broken_rule};
use cp_tree::Constant;
use indexmap::IndexSet;
use std::alloc::Global;

/// A label, and where it stands.
#[derive(Clone, Copy)]
pub struct Label {
    pub at: usize,
    pub number: ConstantNumber,
}

#[tactic(auto, unfolding(crate::specs::Cases::one_label))]
fn one_label(table: &ScopeTable, node: &Constant) -> Result<Label, CheckFault>
    ensures { Judges (λ l. l) (spec.one_label (scopes_of table.now) node.now) result }
{
    let number = constant(table, node)?;
    Ok(Label {
        at: node.at,
        number,
    })
}

/// The labels of an arm.
#[tactic(auto, using(crate::proofs::Labels::labels_passed, crate::proofs::Labels::labels_refused, crate::proofs::Labels::labels_none))]
pub fn labels(
    alloc: Global,
    table: &ScopeTable,
    nodes: &[Constant],
) -> Result<Vec<Label>, CheckFault>
    ensures { Judges (λ v. v.items) (spec.labels (scopes_of table.now) nodes.now) result }
{
    let mut labels = Vec::new(alloc);
    for node in nodes {
        labels.push(one_label(table, node)?)?;
    }
    Ok(labels)
}

/// Whether labels agree with a base.
#[tactic(auto, using(crate::proofs::Left::left))]
fn are_labels(base: Base, labels: &[Label]) -> bool
    ensures { result ≡ spec.are_labels base labels.now }
{
    for label in labels {
        if !label.number.base.is_same(base) {
            return false;
        }
    }
    true
}

/// The selector is ordinal, and the labels agree with it.
#[tactic(auto, using(crate::proofs::Numbers::one_base))]
fn check_labels(
    table: &ScopeTable,
    at: usize,
    selector: Operand,
    labels: &[Label],
) -> Result<(), CheckFault>
    ensures faults { Finds (spec.label_faults at selector.value_type labels.now) result }
    ensures agree { IfOk result (λ u. spec.AreOfOneBase labels.now) }
{
    match selector.value_type {
        ValueType::Ordinal(range) => {
            if are_labels(range.base, labels) {
                Ok(())
            } else {
                table.broken_rule(at, Rule::C5, Detail::Operand(selector.as_found()))
            }
        }
        _ => table.broken_rule(at, Rule::C5, Detail::Operand(selector.as_found())),
    }
}

/// Each label stands once, where all are of one base.
#[tactic(auto, using(crate::proofs::Left::left), unfolding(crate::specs::Cases::twice_faults))]
fn check_once(alloc: Global, labels: &[Label]) -> Result<(), CheckFault>
    requires agree { spec.AreOfOneBase labels.now }
    ensures { Finds (spec.twice_faults [] labels.now) result }
{
    let mut numbers = IndexSet::new(alloc);
    for label in labels {
        if !numbers.insert(label.number.value)? {
            return broken_rule(label.at, Rule::C19);
        }
    }
    Ok(())
}

/// The rules of a `case` itself; what it takes.
#[tactic(auto, using(crate::proofs::Judging::first_append))]
pub fn check_case(
    alloc: Global,
    table: &ScopeTable,
    at: usize,
    selector: Operand,
    labels: &[Label],
    uses: Use,
) -> Result<Use, CheckFault>
    ensures { Judges (λ u. u) (spec.check_case at (selector, (labels.now, uses))) result }
{
    check_labels(table, at, selector, labels)?;
    check_once(alloc, labels)?;
    Ok(selector.uses.and(uses))
}
