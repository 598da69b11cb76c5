//! Names of the fields of records.

ghost use Rattle.std.specs.Prelude.{◌≡◌, OnOk, IfErr, Some};
ghost use Rattle.cp_scope.specs.Judged.{Finds};
ghost use Rattle.cp_scope.specs.View.{scope_of};
ghost use Rattle.cp_scope.specs.declared.fault.CheckFault.TheVariants as check_fault;
ghost use Rattle.cp_check.specs.Records as spec;

use cp_scope::{CheckFault, Meaning, Rule, Scope, broken_rule};
use cp_tree::Identifier;
use std::alloc::Global;

/// A field's name is being declared.
#[tactic(auto, unfolding(crate::specs::Records::reserve_field))]
fn reserve_field(alloc: Global, fields: &mut Scope, name: &Identifier) -> Result<(), CheckFault>
    ensures faults { Finds (spec.reserve_field (scope_of fields.old) name.now).faults result }
    ensures fields { OnOk result (scope_of fields.new ≡ (spec.reserve_field (scope_of fields.old) name.now).fields) }
{
    if fields.is_declared(name.name.as_str()) {
        return broken_rule(name.at, Rule::C2);
    }
    fields.reserve(alloc, name.name.as_str())
}

/// The names of fields of one type are being declared.
#[tactic(auto, using(crate::proofs::Left::left), unfolding(crate::specs::Records::reserve_fields))]
pub fn reserve_fields(
    alloc: Global,
    fields: &mut Scope,
    names: &[Identifier],
) -> Result<(), CheckFault>
    ensures faults { Finds (spec.reserve_fields (scope_of fields.old) names.now).faults result }
    ensures fields { OnOk result (scope_of fields.new ≡ (spec.reserve_fields (scope_of fields.old) names.now).fields) }
{
    for name in names {
        reserve_field(alloc, fields, name)?;
    }
    Ok(())
}

/// Fields of one meaning are declared.
#[tactic(auto, using(crate::proofs::Left::left), unfolding(crate::specs::Records::add_fields, crate::specs::Records::with_fields))]
pub fn add_fields(
    alloc: Global,
    fields: &mut Scope,
    names: &[Identifier],
    meaning: Meaning,
) -> Result<(), CheckFault>
    ensures ok { OnOk result (scope_of fields.new ≡ spec.add_fields (scope_of fields.old) names.now (Some meaning)) }
    ensures memory { IfErr result (λ e. e ≡ check_fault.Memory) }
{
    for name in names {
        fields.add(alloc, name.name.as_str(), meaning)?;
    }
    fields.settle();
    Ok(())
}
