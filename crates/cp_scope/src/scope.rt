//! The names of one scope.

ghost use Rattle.std.specs.Prelude.{◌≡◌, option_map, Some, IfErr, IfOk, OnOk};
ghost use Rattle.cp_scope.specs.Scopes as spec;
ghost use Rattle.cp_scope.specs.View.{scope_of, shapes_of};
ghost use Rattle.cp_scope.specs.declared.fault.CheckFault.TheVariants as check_fault;

use crate::fault::CheckFault;
use crate::shape::Census;
use crate::shapes::Shapes;
use crate::types::{Meaning, Parameter};
use indexmap::IndexMap;
use std::alloc::Global;

/// The names of a scope, those that are being declared, and whether its variables and routines are hidden from the scopes inside.
#[derive(Drop)]
pub struct Scope {
    names: IndexMap<String, Meaning>,
    pending: IndexMap<String, ()>,
    is_sealed: bool,
}

impl Scope {
    /// No names.
    #[tactic(auto, unfolding(crate::specs::View::scope_of, crate::specs::View::names_of, crate::specs::View::keys_seen))]
    pub fn new(alloc: Global) -> Scope
        ensures { scope_of result ≡ spec.new_scope }
    {
        Scope {
            names: IndexMap::new(alloc),
            pending: IndexMap::new(alloc),
            is_sealed: false,
        }
    }

    /// What the name stands for in this scope, as the scopes inside see it.
    #[tactic(auto, using(crate::proofs::Names::looked_none))]
    pub fn look(&self, name: &str) -> Option<Meaning>
        ensures { option_map (λ m. Some m) result ≡ spec.look_in name.now (scope_of self.now) }
    {
        let found = *self.names.get(name)?;
        if !self.is_sealed {
            return Some(found);
        }
        if found.is_open() { Some(found) } else { None }
    }

    /// Whether the name is declared or being declared.
    #[tactic(auto, unfolding(crate::specs::View::scope_of), using(crate::proofs::Names::declared_here, crate::proofs::Names::pending_here))]
    pub fn is_declared(&self, name: &str) -> bool
        ensures { result ≡ spec.is_declared_in (scope_of self.now) name.now }
    {
        self.names.contains_key(name) || self.pending.contains_key(name)
    }

    /// Declares a name that is not there yet; another keeps its meaning.
    pub fn add(&mut self, alloc: Global, name: &str, meaning: Meaning) -> Result<(), CheckFault>
        ensures ok { OnOk result (scope_of self.new ≡ spec.with_name (scope_of self.old) name.now (Some meaning)) }
        ensures memory { IfErr result (λ e. e ≡ check_fault.Memory) }
    {
        if !self.names.contains_key(name) {
            self.names.insert(String::from_str(alloc, name)?, meaning)?;
        }
        Ok(())
    }

    /// The name is being declared.
    pub fn reserve(&mut self, alloc: Global, name: &str) -> Result<(), CheckFault>
        ensures ok { OnOk result (scope_of self.new ≡ spec.with_pending (scope_of self.old) name.now) }
        ensures memory { IfErr result (λ e. e ≡ check_fault.Memory) }
    {
        if !self.pending.contains_key(name) {
            self.pending.insert(String::from_str(alloc, name)?, ())?;
        }
        Ok(())
    }

    /// No name is being declared.
    #[tactic(auto, unfolding(crate::specs::View::scope_of, crate::specs::View::keys_seen))]
    pub fn settle(&mut self)
        ensures { scope_of self.new ≡ spec.without_pending (scope_of self.old) }
    {
        self.pending.clear();
    }

    /// Hides or shows the variables and routines.
    #[tactic(auto, unfolding(crate::specs::View::scope_of))]
    pub fn seal(&mut self, is_sealed: bool)
        ensures { scope_of self.new ≡ spec.sealed is_sealed (scope_of self.old) }
    {
        self.is_sealed = is_sealed;
    }

    /// The parameters, in their order.
    pub fn parameters(&self, alloc: Global) -> Result<Vec<Parameter>, CheckFault>
        ensures ok { IfOk result (λ v. v.items ≡ spec.parameters_in (scope_of self.now).names) }
        ensures memory { IfErr result (λ e. e ≡ check_fault.Memory) }
    {
        let mut parameters = Vec::new(alloc);
        for meaning in self.names.values() {
            if let Some(parameter) = meaning.as_parameter() {
                parameters.push(parameter)?;
            }
        }
        Ok(parameters)
    }

    /// What the names take.
    pub fn census(&self, shapes: &Shapes) -> Census
        ensures { result ≡ spec.census (scope_of self.now).names (shapes_of shapes.now) }
    {
        let mut total = Census::nothing();
        for meaning in self.names.values() {
            total = total.and(shapes.census_of(*meaning));
        }
        total
    }
}
