//! What expressions and types read: what is declared around them.

ghost use Rattle.std.specs.Prelude.{◌≡◌, map, slice_index, IfOk};
ghost use Rattle.cp_layout.specs.Layers as spec;
ghost use Rattle.cp_layout.specs.Layers.{around_seen, heading_seen, system_seen};
ghost use Rattle.cp_layout.specs.LaidExpressions as expressions;
ghost use Rattle.cp_layout.specs.LaidStatements as statements;
ghost use Rattle.cp_symbols.specs.Symbols.{routine_seen};
ghost use Rattle.cp_layout.specs.Symbols.{name_of_routine, symbol_of_system};

use crate::kinds::Types;
use crate::layer::{HeadingLayout, Owned, ParameterLayout, SystemCells};
use crate::names::Names;
use cp_symbols::{FunctionResult, RoutineSymbol, SystemSymbol};
use std::alloc::{AllocError, Global};

/// What is declared around a statement.
#[derive(Drop)]
pub struct Surroundings<'a> {
    /// The line of each token.
    pub lines: &'a [u32],
    pub types: Types<'a>,
    pub names: Names<'a>,
    pub systems: Vec<SystemCells>,
    /// Of each routine, and of the one that is laid out.
    pub headings: Vec<HeadingLayout<'a>>,
    /// The cells and components of the system type that is laid out, or of the program.
    pub owned: Owned,
}

impl<'a> Surroundings<'a> {
    /// The line of a token; 0 where there is no such token.
    pub fn line(&self, at: usize) -> u32
        ensures { result ≡ slice_index self.now.lines.now at }
    {
        self.lines.get(at).copied().unwrap_or(0)
    }

    /// A parameter of a routine.
    pub fn parameter(&self, routine: usize, place: usize) -> Option<ParameterLayout>
        ensures { result ≡ spec.parameter_of (around_seen self.now) routine place }
    {
        let heading = self.headings.get(routine)?;
        heading.parameters.get(place).copied()
    }

    /// A function's result.
    pub fn result(&self, routine: usize) -> Option<FunctionResult>
        ensures { result ≡ spec.result_of (around_seen self.now) routine }
    {
        self.headings.get(routine)?.result
    }

    /// How many components one of a system type is, with those that it contains.
    pub fn component_count(&self, system: usize) -> usize
        ensures { result ≡ expressions.component_count (around_seen self.now) system }
    {
        match self.systems.get(system) {
            Some(system) => system.owned.count,
            None => 0,
        }
    }

    /// The initial statement of a system type.
    pub fn initial(&self, system: usize) -> usize
        ensures { result ≡ statements.initial_of (around_seen self.now) system }
    {
        match self.systems.get(system) {
            Some(system) => system.initial,
            None => 0,
        }
    }

    /// The headings of all routines.
    #[tactic(auto, using(crate::proofs::SymbolLists::routines_step, crate::proofs::SymbolLists::routines_none))]
    pub fn routine_symbols(&self, alloc: Global) -> Result<Vec<RoutineSymbol>, AllocError>
        ensures { IfOk result (λ v. map routine_seen v.items ≡ map name_of_routine (map heading_seen self.now.headings.items)) }
    {
        let mut symbols = Vec::new(alloc);
        for heading in &self.headings {
            symbols.push(RoutineSymbol {
                name: String::from_str(alloc, heading.name)?,
                parameters: heading.parameters.len(),
                result: heading.result,
            })?;
        }
        Ok(symbols)
    }

    /// The system types.
    #[tactic(auto, using(crate::proofs::SymbolLists::systems_step, crate::proofs::SymbolLists::systems_none))]
    pub fn system_symbols(&self, alloc: Global) -> Result<Vec<SystemSymbol>, AllocError>
        ensures { IfOk result (λ v. v.items ≡ map symbol_of_system (map system_seen self.now.systems.items)) }
    {
        let mut symbols = Vec::new(alloc);
        for system in &self.systems {
            symbols.push(SystemSymbol {
                kind: system.kind,
                components: system.owned.count,
            })?;
        }
        Ok(symbols)
    }
}
