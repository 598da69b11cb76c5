//! Names as they are declared, and the symbols that are made of them, where these are asked for.

ghost use Rattle.std.specs.Prelude.{◌≡◌, map, IfOk};
ghost use Rattle.cp_layout.specs.Layers.{noted_seen};
ghost use Rattle.cp_symbols.specs.Symbols.{symbol_seen};

use cp_symbols::{LayoutMeaning, Symbol};
use std::alloc::{AllocError, Global};

/// A name that was declared, also where it is no longer visible.
#[derive(Clone, Copy, Drop)]
pub struct NotedName<'a> {
    pub name: &'a str,
    pub meaning: LayoutMeaning,
    /// How many routines were laid out.
    pub routine: usize,
    /// The system type that declares it; the program is none.
    pub system: Option<usize>,
}

/// These names, as symbols.
#[tactic(auto, using(crate::proofs::SymbolLists::names_step, crate::proofs::SymbolLists::names_none))]
pub fn symbols_of(alloc: Global, noted: &[NotedName<'_>]) -> Result<Vec<Symbol>, AllocError>
    ensures { IfOk result (λ v. map symbol_seen v.items ≡ map noted_seen noted.now) }
{
    let mut symbols = Vec::new(alloc);
    for name in noted {
        symbols.push(name.symbol(alloc)?)?;
    }
    Ok(symbols)
}

impl NotedName<'_> {
    fn symbol(&self, alloc: Global) -> Result<Symbol, AllocError>
        ensures { IfOk result (λ s. symbol_seen s ≡ noted_seen self.now) }
    {
        Ok(Symbol {
            name: String::from_str(alloc, self.name)?,
            meaning: self.meaning,
            routine: self.routine,
            system: self.system,
        })
    }
}
