//! The parts of components: what each contains, as the source writes it.

ghost use Rattle.std.specs.Prelude.{◌≡◌, ◌++◌, ◌∷◌, [], ◌+◌, map, length, IfOk, OnOk};
ghost use Rattle.std.specs.String.{string_bytes};
ghost use Rattle.cp_symbols.specs.Kinds.{count_of};
ghost use Rattle.cp_symbols.specs.Symbols.{symbol_seen};
ghost use Rattle.cp_legend.specs.Names as spec;
ghost use Rattle.cp_legend.specs.Names.{part_seen, parts_seen, source_seen};

use crate::types::array_in;
use crate::values::push_index;
use cp_symbols::{ArrayType, CellRange, CellType, LayoutMeaning, Symbol, Symbols};
use std::alloc::{AllocError, Global};

/// A component inside another one, by how the source writes it there, and its system type.
#[derive(Drop)]
pub struct ComponentPart {
    pub text: String,
    pub system: usize,
}

/// The number of the system type that declares a name; that of the program is the last.
pub fn home_of(symbols: &Symbols, symbol: &Symbol) -> usize
    ensures { result ≡ spec.home (source_seen symbols.now) (symbol_seen symbol.now) }
{
    symbol.system.unwrap_or(symbols.systems.len())
}

/// The parts of the components of each system type.
#[tactic(auto, using(crate::proofs::Naming::each_step, crate::proofs::Naming::each_none))]
pub fn all_parts(alloc: Global, symbols: &Symbols) -> Result<Vec<Vec<ComponentPart>>, AllocError>
    ensures { IfOk result (λ v. map parts_seen v.items ≡ spec.at_each (spec.parts_of (source_seen symbols.now)) (length symbols.now.systems.items + 1)) }
{
    let mut all = Vec::new(alloc);
    for number in 0..symbols.systems.len() + 1 {
        all.push(parts_of(alloc, symbols, number)?)?;
    }
    Ok(all)
}

#[tactic(auto, using(crate::proofs::Naming::declared_step, crate::proofs::Naming::declared_none))]
fn parts_of(
    alloc: Global,
    symbols: &Symbols,
    number: usize,
) -> Result<Vec<ComponentPart>, AllocError>
    ensures { IfOk result (λ v. map part_seen v.items ≡ spec.parts_of (source_seen symbols.now) number) }
{
    let mut parts = Vec::new(alloc);
    for symbol in &symbols.declared {
        if home_of(symbols, symbol) != number {
            continue;
        }
        if let LayoutMeaning::Contained(_, shape) = symbol.meaning {
            add_contained(alloc, &mut parts, symbols, symbol.name.as_str(), shape)?;
        }
    }
    Ok(parts)
}

fn add_contained(
    alloc: Global,
    parts: &mut Vec<ComponentPart>,
    symbols: &Symbols,
    name: &str,
    shape: CellType,
) -> Result<(), AllocError>
    ensures { OnOk result (map part_seen parts.new.items ≡ map part_seen parts.old.items ++ spec.parts_of_type (source_seen symbols.now) name.now shape) }
{
    match shape {
        CellType::System(system) => add_part(parts, String::from_str(alloc, name)?, system),
        CellType::Array(number) => match array_in(&symbols.types, number) {
            Some(array) => add_elements(alloc, parts, &symbols.constants, name, array),
            None => Ok(()),
        },
        _ => Ok(()),
    }
}

fn add_part(parts: &mut Vec<ComponentPart>, text: String, system: usize) -> Result<(), AllocError>
    ensures { OnOk result (map part_seen parts.new.items ≡ map part_seen parts.old.items ++ spec.part (string_bytes text) system ∷ []) }
{
    parts.push(ComponentPart { text, system })?;
    Ok(())
}

fn add_elements(
    alloc: Global,
    parts: &mut Vec<ComponentPart>,
    constants: &[String],
    name: &str,
    array: ArrayType,
) -> Result<(), AllocError>
    ensures { OnOk result (map part_seen parts.new.items ≡ map part_seen parts.old.items ++ spec.elements_of (map string_bytes constants.now) name.now array.index array.element) }
{
    match array.element {
        CellType::System(system) => add_each(alloc, parts, constants, name, array.index, system),
        _ => Ok(()),
    }
}

#[tactic(auto, using(crate::proofs::Naming::elements_step, crate::proofs::Naming::elements_none))]
fn add_each(
    alloc: Global,
    parts: &mut Vec<ComponentPart>,
    constants: &[String],
    name: &str,
    index: CellRange,
    system: usize,
) -> Result<(), AllocError>
    ensures { OnOk result (map part_seen parts.new.items ≡ map part_seen parts.old.items ++ spec.elements_below (map string_bytes constants.now) name.now index system (count_of index)) }
{
    for place in 0..index.count() {
        let text = element_text(alloc, constants, name, index, place)?;
        add_part(parts, text, system)?;
    }
    Ok(())
}

fn element_text(
    alloc: Global,
    constants: &[String],
    name: &str,
    index: CellRange,
    place: usize,
) -> Result<String, AllocError>
    ensures { IfOk result (λ t. string_bytes t ≡ name.now ++ spec.index_text (map string_bytes constants.now) index place) }
{
    let mut text = String::from_str(alloc, name)?;
    push_index(constants, &mut text, index, place)?;
    Ok(text)
}
