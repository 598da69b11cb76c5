//! What is known while a program is checked.

ghost use Rattle.std.specs.Prelude.{◌≡◌, option_map, map, Some, Err, IfErr, IfOk, OnOk, false};
ghost use Rattle.cp_scope.specs.Scopes as spec;
ghost use Rattle.cp_scope.specs.View.{scopes_of, scope_of, shapes_of, shape_view};
ghost use Rattle.cp_scope.specs.declared.fault.CheckFault.TheVariants as check_fault;

use crate::detail::Detail;
use crate::fault::{CheckFault, Rule, broken_rule};
use crate::scope::Scope;
use crate::shape::{Census, TokenShape};
use crate::shapes::Shapes;
use crate::types::{Base, Meaning, Parameter, Predeclared, ValueType, values_of};
use cp_text::Name;
use std::alloc::Global;
use std::cell::Cell;
use std::mem;

/// The innermost scope, those around it, outermost first, and what is written at tokens.
#[derive(Drop)]
pub struct ScopeTable {
    outer: Vec<Scope>,
    inner: Scope,
    shapes: Shapes,
    /// What does not agree where the check ends.
    detail: Cell<Option<Detail>>,
}

impl ScopeTable {
    /// No names at all.
    #[tactic(auto, unfolding(crate::specs::View::scopes_of))]
    fn empty(alloc: Global) -> ScopeTable
        ensures { scopes_of result ≡ spec.no_names }
    {
        ScopeTable {
            outer: Vec::new(alloc),
            inner: Scope::new(alloc),
            shapes: Shapes::new(alloc),
            detail: Cell::new(None),
        }
    }

    /// Notes what does not agree, in place of what was noted before.
    pub fn note(&self, detail: Detail) {
        self.detail.set(Some(detail));
    }

    /// What was noted last.
    pub fn detail(&self) -> Option<Detail> {
        self.detail.get()
    }

    /// A rule is broken at a token, since something does not agree.
    pub fn broken_rule<T>(&self, at: usize, rule: Rule, detail: Detail) -> Result<T, CheckFault>
        ensures { result ≡ Err (check_fault.Rule at rule) }
    {
        self.note(detail);
        broken_rule(at, rule)
    }

    /// What is written at tokens.
    #[tactic(auto, unfolding(crate::specs::View::scopes_of))]
    pub fn shapes(&self) -> &Shapes
        ensures { shapes_of result.now ≡ (scopes_of self.now).shapes }
    {
        &self.shapes
    }

    /// The predeclared names alone.
    pub fn new(alloc: Global) -> Result<ScopeTable, CheckFault>
        ensures ok { IfOk result (λ t. scopes_of t ≡ spec.start) }
        ensures memory { IfErr result (λ e. e ≡ check_fault.Memory) }
    {
        let mut table = ScopeTable::empty(alloc);
        table.add_predeclared(alloc)?;
        Ok(table)
    }

    // Borrows the table, which is let go in one place where memory is refused.
    fn add_predeclared(&mut self, alloc: Global) -> Result<(), CheckFault>
        ensures ok { OnOk result (scopes_of self.new ≡ spec.enter false (spec.with_procedures (spec.with_functions (spec.with_constants (spec.with_types (scopes_of self.old)))))) }
        ensures memory { IfErr result (λ e. e ≡ check_fault.Memory) }
    {
        self.add_types(alloc)?;
        self.add_constants(alloc)?;
        self.add_functions(alloc)?;
        self.add_procedures(alloc)?;
        self.enter(alloc, false)
    }

    fn add_types(&mut self, alloc: Global) -> Result<(), CheckFault>
        ensures ok { OnOk result (scopes_of self.new ≡ spec.with_types (scopes_of self.old)) }
        ensures memory { IfErr result (λ e. e ≡ check_fault.Memory) }
    {
        self.add(alloc, "integer", Meaning::Kind(values_of(Base::Integer)))?;
        self.add(alloc, "boolean", Meaning::Kind(values_of(Base::Boolean)))?;
        self.add(alloc, "char", Meaning::Kind(values_of(Base::Char)))?;
        self.add(alloc, "queue", Meaning::Kind(ValueType::Queue))
    }

    fn add_constants(&mut self, alloc: Global) -> Result<(), CheckFault>
        ensures ok { OnOk result (scopes_of self.new ≡ spec.with_constants (scopes_of self.old)) }
        ensures memory { IfErr result (λ e. e ≡ check_fault.Memory) }
    {
        self.add(alloc, "false", Meaning::Constant(Base::Boolean, 0))?;
        self.add(alloc, "true", Meaning::Constant(Base::Boolean, 1))
    }

    fn add_functions(&mut self, alloc: Global) -> Result<(), CheckFault>
        ensures ok { OnOk result (scopes_of self.new ≡ spec.with_functions (scopes_of self.old)) }
        ensures memory { IfErr result (λ e. e ≡ check_fault.Memory) }
    {
        self.add(alloc, "succ", Meaning::Predeclared(Predeclared::Succ))?;
        self.add(alloc, "pred", Meaning::Predeclared(Predeclared::Pred))?;
        self.add(alloc, "chr", Meaning::Predeclared(Predeclared::Chr))?;
        self.add(alloc, "ord", Meaning::Predeclared(Predeclared::Ord))?;
        self.add(alloc, "abs", Meaning::Predeclared(Predeclared::Abs))?;
        self.add(alloc, "empty", Meaning::Predeclared(Predeclared::Empty))
    }

    fn add_procedures(&mut self, alloc: Global) -> Result<(), CheckFault>
        ensures ok { OnOk result (scopes_of self.new ≡ spec.with_procedures (scopes_of self.old)) }
        ensures memory { IfErr result (λ e. e ≡ check_fault.Memory) }
    {
        self.add(alloc, "delay", Meaning::Predeclared(Predeclared::Delay))?;
        self.add(
            alloc,
            "continue",
            Meaning::Predeclared(Predeclared::Continue),
        )?;
        self.add(alloc, "display", Meaning::Predeclared(Predeclared::Display))
    }

    /// What the name stands for.
    #[tactic(auto, unfolding(crate::specs::View::scopes_of))]
    pub fn look(&self, name: &Name) -> Option<Meaning>
        ensures { option_map (λ m. Some m) result ≡ spec.look name.now (scopes_of self.now) }
    {
        let mut found = None;
        for scope in &self.outer {
            found = scope.look(name.as_str()).or(found);
        }
        self.inner.look(name.as_str()).or(found)
    }

    /// Whether the innermost scope has a declaration of the name.
    #[tactic(auto, unfolding(crate::specs::View::scopes_of))]
    pub fn is_declared(&self, name: &Name) -> bool
        ensures { result ≡ spec.is_declared (scopes_of self.now) name.now }
    {
        self.inner.is_declared(name.as_str())
    }

    /// Declares a name in the innermost scope; one that is there keeps its meaning.
    #[tactic(auto, unfolding(crate::specs::View::scopes_of, crate::specs::Scopes::add))]
    pub fn add(&mut self, alloc: Global, name: &str, meaning: Meaning) -> Result<(), CheckFault>
        ensures ok { OnOk result (scopes_of self.new ≡ spec.add (scopes_of self.old) name.now (Some meaning)) }
        ensures memory { IfErr result (λ e. e ≡ check_fault.Memory) }
    {
        self.inner.add(alloc, name, meaning)
    }

    /// The name is being declared.
    #[tactic(auto, unfolding(crate::specs::View::scopes_of, crate::specs::Scopes::reserve))]
    pub fn reserve(&mut self, alloc: Global, name: &Name) -> Result<(), CheckFault>
        ensures ok { OnOk result (scopes_of self.new ≡ spec.reserve (scopes_of self.old) name.now) }
        ensures memory { IfErr result (λ e. e ≡ check_fault.Memory) }
    {
        self.inner.reserve(alloc, name.as_str())
    }

    /// No name is being declared.
    #[tactic(auto, unfolding(crate::specs::View::scopes_of, crate::specs::Scopes::settle))]
    pub fn settle(&mut self)
        ensures { scopes_of self.new ≡ spec.settle (scopes_of self.old) }
    {
        self.inner.settle();
    }

    /// Opens a scope; from it the variables and routines of a sealed one are not visible.
    #[tactic(auto, unfolding(crate::specs::View::scopes_of, crate::specs::Scopes::enter), using(crate::proofs::Names::map_push))]
    pub fn enter(&mut self, alloc: Global, seals: bool) -> Result<(), CheckFault>
        ensures ok { OnOk result (scopes_of self.new ≡ spec.enter seals (scopes_of self.old)) }
        ensures memory { IfErr result (λ e. e ≡ check_fault.Memory) }
    {
        let mut inner = mem::replace(&mut self.inner, Scope::new(alloc));
        inner.seal(seals);
        self.outer.push(inner)?;
        Ok(())
    }

    /// The scope around the innermost one is taken out.
    #[tactic(auto, using(crate::proofs::Names::popped, crate::proofs::Names::popped_none))]
    fn take_around(&mut self, alloc: Global) -> Scope
        ensures inner { self.new.inner ≡ self.old.inner }
        ensures shapes { self.new.shapes ≡ self.old.shapes }
        ensures outer { map scope_of self.new.outer.items ≡ (spec.last_of (map scope_of self.old.outer.items)).outer }
        ensures taken { scope_of result ≡ (spec.last_of (map scope_of self.old.outer.items)).inner }
    {
        match self.outer.pop() {
            Some(scope) => scope,
            None => Scope::new(alloc),
        }
    }

    /// Closes the innermost scope, and answers it.
    #[tactic(auto, unfolding(crate::specs::View::scopes_of, crate::specs::Scopes::leave))]
    pub fn leave(&mut self, alloc: Global) -> Scope
        ensures scopes { scopes_of self.new ≡ spec.leave (scopes_of self.old) }
        ensures left { scope_of result ≡ (scopes_of self.old).inner }
    {
        let mut around = self.take_around(alloc);
        around.seal(false);
        mem::replace(&mut self.inner, around)
    }

    /// Declares a name in the scope around the innermost one.
    #[tactic(auto, unfolding(crate::specs::View::scopes_of, crate::specs::Scopes::add_around), using(crate::proofs::Names::map_push))]
    pub fn add_around(
        &mut self,
        alloc: Global,
        name: &str,
        meaning: Meaning,
    ) -> Result<(), CheckFault>
        ensures ok { OnOk result (scopes_of self.new ≡ spec.add_around (scopes_of self.old) name.now (Some meaning)) }
        ensures memory { IfErr result (λ e. e ≡ check_fault.Memory) }
    {
        let mut around = self.take_around(alloc);
        around.add(alloc, name, meaning)?;
        self.outer.push(around)?;
        Ok(())
    }

    /// Keeps what is written at a token, where nothing was kept.
    #[tactic(auto, unfolding(crate::specs::View::scopes_of, crate::specs::Scopes::keep))]
    pub fn keep(&mut self, at: usize, shape: TokenShape) -> Result<(), CheckFault>
        ensures ok { OnOk result (scopes_of self.new ≡ spec.keep (scopes_of self.old) at (shape_view shape)) }
        ensures memory { IfErr result (λ e. e ≡ check_fault.Memory) }
    {
        self.shapes.keep(at, shape)
    }

    /// The parameters in the innermost scope, in their order.
    #[tactic(auto, unfolding(crate::specs::View::scopes_of))]
    pub fn parameters(&self, alloc: Global) -> Result<Vec<Parameter>, CheckFault>
        ensures ok { IfOk result (λ v. v.items ≡ spec.parameters_in (scopes_of self.now).inner.names) }
        ensures memory { IfErr result (λ e. e ≡ check_fault.Memory) }
    {
        self.inner.parameters(alloc)
    }

    /// What the names of the innermost scope take.
    #[tactic(auto, unfolding(crate::specs::View::scopes_of))]
    pub fn census(&self) -> Census
        ensures { result ≡ spec.census (scopes_of self.now).inner.names (scopes_of self.now).shapes }
    {
        self.inner.census(&self.shapes)
    }
}
