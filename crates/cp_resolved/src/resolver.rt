//! From a checked tree to its resolved program.

ghost use Rattle.std.specs.Prelude.{◌≡◌, IfOk};
ghost use Rattle.cp_tree.specs.TreeView.{tree_view};
ghost use Rattle.cp_layout.specs.Laid.{plain, laid, whole};
ghost use Rattle.cp_layout.specs.Symbols.{AreSymbolsOf};
ghost use Rattle.cp_slots.specs.Tables.{tables_of};
ghost use Rattle.cp_resolved.specs.Resolving.{IsProgramOf};

use cp_check::Checked;
use cp_layout::{lay_out, lay_out_with_symbols};
use cp_slots::{Layout, Resolved};
use cp_symbols::Symbols;
use std::alloc::{AllocError, Global};

/// The resolved program of a checked tree: its tables stand for the tree.
pub fn resolve(alloc: Global, checked: &Checked) -> Result<Resolved, AllocError>
    ensures { IfOk result (λ r. IsProgramOf (tree_view checked.now.tree) r) }
{
    let layout = lay_out(alloc, checked.tree())?;
    Ok(program_of(checked, layout))
}

/// The same, and what the names of the tree stand for in the tables.
pub fn resolve_with_symbols(
    alloc: Global,
    checked: &Checked,
) -> Result<(Resolved, Symbols), AllocError>
    ensures stands { IfOk result (λ r. IsProgramOf (tree_view checked.now.tree) r.0) }
    ensures symbols { IfOk result (λ r. AreSymbolsOf r.1 (whole (tree_view checked.now.tree))) }
{
    let (layout, symbols) = lay_out_with_symbols(alloc, checked.tree())?;
    Ok((program_of(checked, layout), symbols))
}

// The tables of a checked tree are sound. Only the contract speaks of the tree.
fn program_of(_checked: &Checked, layout: Layout) -> Resolved
    requires { plain (tables_of layout) ≡ laid (tree_view _checked.now.tree) }
    ensures { IsProgramOf (tree_view _checked.now.tree) result }
{
    Resolved::new(layout)
}
