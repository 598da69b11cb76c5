//! From the bytes of a source to its program.

ghost use Rattle.std.specs.Prelude.{◌≡◌, List, ℕ, IfOk, IfErr};
ghost use Rattle.cp_text.specs.Reading.{HasTokens};
ghost use Rattle.cp_tree.specs.TreeView.{tree_view};
ghost use Rattle.cp_layout.specs.Laid.{whole};
ghost use Rattle.cp_layout.specs.Symbols.{AreSymbolsOf};
ghost use Rattle.cp_resolved.specs.Resolving.{IsProgramOf};
ghost use Rattle.cp_front.specs.Loading.{IsTreeOf, IsRefusalOf, Loads};

use crate::refusal::Refusal;
use cp_check::{CheckFault, Checked, check};
use cp_drops::{drop_checked, drop_program, drop_tree};
use cp_resolved::{resolve, resolve_with_symbols};
use cp_slots::Resolved;
use cp_symbols::Symbols;
use cp_text::{ScanCause, Tokens, scan};
use cp_tree::{ParseFault, Tree, parse};
use std::alloc::Global;

/// A source that is accepted, with what it became.
pub struct Loaded {
    pub tokens: Tokens,
    /// The tree that the tokens spell. It breaks no rule.
    pub checked: Checked,
    /// The tables that stand for the tree.
    pub program: Resolved,
}

impl Loaded {
    /// The program alone. The rest is let go.
    pub fn into_program(self) -> Resolved
        ensures { result ≡ self.program }
    {
        let Loaded {
            tokens: _tokens,
            checked,
            program,
        } = self;
        drop_checked(checked);
        program
    }
}

/// The program of a source, or why it is refused: for its first faulty piece, else for the first token that can't stand there, else for
/// the first rule that it breaks.
///
/// # Errors
/// Those of [`Refusal`]. `Memory` comes in place of any of them.
pub fn load(alloc: Global, source: &[u8]) -> Result<Loaded, Refusal>
    ensures loaded { IfOk result (λ l. Loads source.now l.tokens (tree_view l.checked.tree)) }
    ensures stands { IfOk result (λ l. IsProgramOf (tree_view l.checked.tree) l.program) }
    ensures refused { IfErr result (λ r. IsRefusalOf source.now r) }
{
    match load_checked(alloc, source) {
        Ok((tokens, checked)) => resolve_checked(alloc, tokens, checked),
        Err(refusal) => Err(refusal),
    }
}

/// The same, and what its names stand for in the program.
///
/// # Errors
/// Those of [`load`].
pub fn load_with_symbols(alloc: Global, source: &[u8]) -> Result<(Loaded, Symbols), Refusal>
    ensures loaded { IfOk result (λ l. Loads source.now l.0.tokens (tree_view l.0.checked.tree)) }
    ensures stands { IfOk result (λ l. IsProgramOf (tree_view l.0.checked.tree) l.0.program) }
    ensures symbols { IfOk result (λ l. AreSymbolsOf l.1 (whole (tree_view l.0.checked.tree))) }
    ensures refused { IfErr result (λ r. IsRefusalOf source.now r) }
{
    match load_checked(alloc, source) {
        Ok((tokens, checked)) => resolve_checked_with_symbols(alloc, tokens, checked),
        Err(refusal) => Err(refusal),
    }
}

// The checked tree of a source, with its tokens.
fn load_checked(alloc: Global, source: &[u8]) -> Result<(Tokens, Checked), Refusal>
    ensures loaded { IfOk result (λ c. Loads source.now c.0 (tree_view c.1.tree)) }
    ensures refused { IfErr result (λ r. IsRefusalOf source.now r) }
{
    match scan(alloc, source) {
        Ok(tokens) => check_tokens(alloc, tokens),
        Err(fault) => match fault.cause {
            ScanCause::Memory => Err(Refusal::Memory),
            _ => Err(Refusal::Scan(fault)),
        },
    }
}

// The checked tree of the tokens of a source.
fn check_tokens(alloc: Global, tokens: Tokens) -> Result<(Tokens, Checked), Refusal>
    ensures loaded { IfOk result (λ c. (source : List ℕ) → HasTokens source tokens → Loads source c.0 (tree_view c.1.tree)) }
    ensures refused { IfErr result (λ r. (source : List ℕ) → HasTokens source tokens → IsRefusalOf source r) }
{
    match parse(alloc, &tokens) {
        Ok(tree) => check_tree(alloc, tokens, tree),
        Err(fault) => match fault {
            ParseFault::Memory => Err(Refusal::Memory),
            _ => Err(Refusal::Parse { tokens, fault }),
        },
    }
}

// The checked tree of the tree of these tokens.
fn check_tree(alloc: Global, tokens: Tokens, tree: Tree) -> Result<(Tokens, Checked), Refusal>
    requires { IsTreeOf tokens (tree_view tree) }
    ensures loaded { IfOk result (λ c. (source : List ℕ) → HasTokens source tokens → Loads source c.0 (tree_view c.1.tree)) }
    ensures refused { IfErr result (λ r. (source : List ℕ) → HasTokens source tokens → IsRefusalOf source r) }
{
    match check(alloc, tree) {
        Ok(checked) => Ok((tokens, checked)),
        Err((CheckFault::Memory, tree)) => {
            drop_tree(tree);
            Err(Refusal::Memory)
        }
        Err((fault, tree)) => Err(Refusal::Check {
            tokens,
            tree,
            fault,
        }),
    }
}

// The program of a checked tree.
fn resolve_checked(alloc: Global, tokens: Tokens, checked: Checked) -> Result<Loaded, Refusal>
    ensures loaded { IfOk result (λ l. (l.tokens ≡ tokens) × (tree_view l.checked.tree ≡ tree_view checked.tree)) }
    ensures stands { IfOk result (λ l. IsProgramOf (tree_view l.checked.tree) l.program) }
    ensures refused { IfErr result (λ r. r ≡ Refusal.Memory) }
{
    match resolve(alloc, &checked) {
        Ok(program) => Ok(Loaded {
            tokens,
            checked,
            program,
        }),
        Err(_) => {
            drop_checked(checked);
            Err(Refusal::Memory)
        }
    }
}

fn resolve_checked_with_symbols(
    alloc: Global,
    tokens: Tokens,
    checked: Checked,
) -> Result<(Loaded, Symbols), Refusal>
    ensures loaded { IfOk result (λ l. (l.0.tokens ≡ tokens) × (tree_view l.0.checked.tree ≡ tree_view checked.tree)) }
    ensures stands { IfOk result (λ l. IsProgramOf (tree_view l.0.checked.tree) l.0.program) }
    ensures symbols { IfOk result (λ l. AreSymbolsOf l.1 (whole (tree_view l.0.checked.tree))) }
    ensures refused { IfErr result (λ r. r ≡ Refusal.Memory) }
{
    match resolve_with_symbols(alloc, &checked) {
        Ok((program, symbols)) => {
            let loaded = Loaded {
                tokens,
                checked,
                program,
            };
            Ok((loaded, symbols))
        }
        Err(_) => {
            drop_checked(checked);
            Err(Refusal::Memory)
        }
    }
}

/// Lets go of what a source became.
pub fn drop_loaded(loaded: Loaded) {
    drop_program(loaded.into_program());
}
