//! The symbols of a program, sorted by what they belong to.

ghost use Rattle.std.specs.Prelude.{◌≡◌, ◌++◌, ◌+◌, flat_map, map, length, slice_get, IfOk, OnOk};
ghost use Rattle.std.specs.String.{string_bytes};
ghost use Rattle.cp_symbols.specs.Symbols.{routine_seen, symbol_seen};
ghost use Rattle.cp_legend.specs.Names as spec;
ghost use Rattle.cp_legend.specs.Names.{routine_names_seen, source_seen, system_seen, variable_seen, variables_seen};

use crate::legend::{LegendParameter, LegendPassing, LegendRoutine, LegendSystem, Variable};
use crate::parts::home_of;
use cp_slots::PlaceOrigin;
use cp_symbols::{CellType, FunctionResult, LayoutMeaning, RoutineSymbol, Symbol, Symbols};
use cp_tree::SystemKind;
use std::alloc::{AllocError, Global};

/// The system types; the program is the last.
#[tactic(auto, using(crate::proofs::Naming::each_step, crate::proofs::Naming::each_none))]
pub fn all_systems(alloc: Global, symbols: &Symbols) -> Result<Vec<LegendSystem>, AllocError>
    ensures { IfOk result (λ v. map system_seen v.items ≡ spec.at_each (spec.system_of (source_seen symbols.now)) (length symbols.now.systems.items + 1)) }
{
    let mut all = Vec::new(alloc);
    for number in 0..symbols.systems.len() + 1 {
        all.push(system_of(alloc, symbols, number)?)?;
    }
    Ok(all)
}

fn system_of(alloc: Global, symbols: &Symbols, number: usize) -> Result<LegendSystem, AllocError>
    ensures { IfOk result (λ s. system_seen s ≡ spec.system_of (source_seen symbols.now) number) }
{
    Ok(LegendSystem {
        name: String::from_str(alloc, type_name(&symbols.declared, number))?,
        kind: kind_of(symbols, number),
    })
}

// A system type has the name that is declared first.
fn type_name(declared: &[Symbol], number: usize) -> &str
    ensures { result.now ≡ spec.type_name (map symbol_seen declared.now) number }
{
    for symbol in declared {
        if is_system(symbol.meaning, number) {
            return symbol.name.as_str();
        }
    }
    ""
}

fn is_system(meaning: LayoutMeaning, number: usize) -> bool
    ensures { result ≡ spec.is_system meaning number }
{
    match meaning {
        LayoutMeaning::Kind(CellType::System(system)) => system == number,
        _ => false,
    }
}

fn kind_of(symbols: &Symbols, number: usize) -> Option<SystemKind>
    ensures { result ≡ spec.kind_in (slice_get symbols.now.systems.items number) }
{
    symbols.systems.get(number).map(|system| system.kind)
}

/// The permanent variables of each system type.
#[tactic(auto, using(crate::proofs::Naming::each_step, crate::proofs::Naming::each_none))]
pub fn all_permanents(alloc: Global, symbols: &Symbols) -> Result<Vec<Vec<Variable>>, AllocError>
    ensures { IfOk result (λ v. map variables_seen v.items ≡ spec.at_each (spec.permanents_of (source_seen symbols.now)) (length symbols.now.systems.items + 1)) }
{
    let mut all = Vec::new(alloc);
    for number in 0..symbols.systems.len() + 1 {
        all.push(permanents_of(alloc, symbols, number)?)?;
    }
    Ok(all)
}

#[tactic(auto, using(crate::proofs::Naming::declared_step, crate::proofs::Naming::declared_none))]
fn permanents_of(
    alloc: Global,
    symbols: &Symbols,
    number: usize,
) -> Result<Vec<Variable>, AllocError>
    ensures { IfOk result (λ v. map variable_seen v.items ≡ spec.permanents_of (source_seen symbols.now) number) }
{
    let mut variables = Vec::new(alloc);
    for symbol in &symbols.declared {
        if home_of(symbols, symbol) != number {
            continue;
        }
        if let LayoutMeaning::Variable(PlaceOrigin::Permanent(slot), shape) = symbol.meaning {
            let name = symbol.name.clone()?;
            variables.push(Variable { name, slot, shape })?;
        }
    }
    Ok(variables)
}

/// The routines.
#[tactic(auto, using(crate::proofs::Naming::routines_step, crate::proofs::Naming::routines_none))]
pub fn all_routines(alloc: Global, symbols: &Symbols) -> Result<Vec<LegendRoutine>, AllocError>
    ensures { IfOk result (λ v. map routine_names_seen v.items ≡ spec.routines_from (source_seen symbols.now) 0 (map routine_seen symbols.now.routines.items)) }
{
    let mut all = Vec::new(alloc);
    for (number, routine) in symbols.routines.iter().enumerate() {
        all.push(routine_of(alloc, symbols, number, routine)?)?;
    }
    Ok(all)
}

fn routine_of(
    alloc: Global,
    symbols: &Symbols,
    number: usize,
    heading: &RoutineSymbol,
) -> Result<LegendRoutine, AllocError>
    ensures { IfOk result (λ r. routine_names_seen r ≡ spec.routine_of (source_seen symbols.now) number (routine_seen heading.now)) }
{
    let mut routine = bare_routine(alloc, symbols, number, heading)?;
    if let Some(returned) = heading.result {
        routine.add_result(returned)?;
    }
    Ok(routine)
}

fn bare_routine(
    alloc: Global,
    symbols: &Symbols,
    number: usize,
    heading: &RoutineSymbol,
) -> Result<LegendRoutine, AllocError>
    ensures { IfOk result (λ r. routine_names_seen r ≡ spec.bare_routine (source_seen symbols.now) number (routine_seen heading.now)) }
{
    let mut parameters = parameters_of(alloc, symbols, number)?;
    parameters.truncate(heading.parameters);
    Ok(LegendRoutine {
        name: heading.name.clone()?,
        parameters,
        variables: locals_of(alloc, symbols, number)?,
        result: None,
    })
}

// The parameters of a routine, followed by its local variables.
#[tactic(auto, using(crate::proofs::Naming::declared_step, crate::proofs::Naming::declared_none))]
fn parameters_of(
    alloc: Global,
    symbols: &Symbols,
    number: usize,
) -> Result<Vec<LegendParameter>, AllocError>
    ensures { IfOk result (λ v. v.items ≡ flat_map (spec.parameter_named number) (map symbol_seen symbols.now.declared.items)) }
{
    let mut parameters = Vec::new(alloc);
    for symbol in &symbols.declared {
        add_parameter(&mut parameters, symbol, number)?;
    }
    Ok(parameters)
}

fn add_parameter(
    parameters: &mut Vec<LegendParameter>,
    symbol: &Symbol,
    number: usize,
) -> Result<(), AllocError>
    ensures { OnOk result (parameters.new.items ≡ parameters.old.items ++ spec.parameter_named number (symbol_seen symbol.now)) }
{
    if symbol.routine != number {
        return Ok(());
    }
    let LayoutMeaning::Variable(origin, shape) = symbol.meaning else {
        return Ok(());
    };
    let (slot, passing) = match origin {
        PlaceOrigin::Local(slot) => (slot, LegendPassing::Value),
        PlaceOrigin::Reference(slot) => (slot, LegendPassing::Reference),
        PlaceOrigin::Permanent(_) => return Ok(()),
    };
    parameters.push(LegendParameter {
        slot,
        shape,
        passing,
    })?;
    Ok(())
}

// The parameters with values and the local variables of a routine.
#[tactic(auto, using(crate::proofs::Naming::declared_step, crate::proofs::Naming::declared_none))]
fn locals_of(alloc: Global, symbols: &Symbols, number: usize) -> Result<Vec<Variable>, AllocError>
    ensures { IfOk result (λ v. map variable_seen v.items ≡ spec.locals_of (source_seen symbols.now) number) }
{
    let mut variables = Vec::new(alloc);
    for symbol in &symbols.declared {
        if symbol.routine != number {
            continue;
        }
        if let LayoutMeaning::Variable(PlaceOrigin::Local(slot), shape) = symbol.meaning {
            let name = symbol.name.clone()?;
            variables.push(Variable { name, slot, shape })?;
        }
    }
    Ok(variables)
}

impl LegendRoutine {
    // A function's result stands behind its parameters.
    fn add_result(&mut self, returned: FunctionResult) -> Result<(), AllocError>
        ensures { OnOk result (routine_names_seen self.new ≡ spec.with_result (routine_names_seen self.old) returned) }
    {
        let at = self.parameters.len().min(self.variables.len());
        let variable = self.result_variable(returned)?;
        self.variables.insert(at, variable)?;
        self.result = Some(at);
        Ok(())
    }

    // It has the function's name.
    fn result_variable(&self, returned: FunctionResult) -> Result<Variable, AllocError>
        ensures { IfOk result (λ v. variable_seen v ≡ spec.variable (string_bytes self.now.name) returned.slot returned.value_type) }
    {
        Ok(Variable {
            name: self.name.clone()?,
            slot: returned.slot,
            shape: returned.value_type,
        })
    }
}
