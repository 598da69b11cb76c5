//! Why a source has no program, and the line that says so.

ghost use Rattle.std.specs.Prelude.{IfOk, option_map, string_bytes};
ghost use Rattle.cp_front.specs.Refusals as spec;

use crate::reasons::{check_reason, parse_reason, reason_line, scan_reason};
use cp_check::CheckFault;
use cp_drops::drop_tree;
use cp_text::{ScanFault, Tokens};
use cp_tree::{ParseFault, Tree};
use std::alloc::{AllocError, Global};

/// Why a source has no program.
pub enum Refusal {
    /// A piece of the text is faulty.
    Scan(ScanFault),
    /// The tokens of the text are those of no program.
    Parse {
        tokens: Tokens,
        fault: ParseFault,
    },
    /// The program breaks a rule.
    Check {
        tokens: Tokens,
        tree: Tree,
        fault: CheckFault,
    },
    /// Memory was refused.
    Memory,
}

/// The line that says where and why a source is refused. Where memory was refused there is none.
pub fn refusal_line(alloc: Global, refusal: &Refusal) -> Result<String, AllocError>
    ensures { IfOk result (λ line. spec.IsLineOf refusal.now (string_bytes line)) }
{
    match refusal {
        Refusal::Scan(fault) => line_for(alloc, fault.line, scan_reason(fault.cause)),
        Refusal::Parse { tokens, fault } => line_at(alloc, tokens, parse_reason(fault)),
        Refusal::Check { tokens, fault, .. } => line_at(alloc, tokens, check_reason(fault)),
        Refusal::Memory => Err(AllocError),
    }
}

// The refusal in a line, if there is a reason.
fn line_for(alloc: Global, line: u32, reason: Option<&str>) -> Result<String, AllocError>
    ensures { IfOk result (λ text. spec.IsRefusedIn line (option_map (λ s. s.now) reason.entry) (string_bytes text)) }
{
    match reason {
        Some(reason) => reason_line(alloc, line, reason),
        None => Err(AllocError),
    }
}

// The refusal at a token, or at the last one for the end of the source.
fn line_at(
    alloc: Global,
    tokens: &Tokens,
    reason: Option<(usize, &str)>,
) -> Result<String, AllocError>
    ensures { IfOk result (λ text. spec.IsRefusedAt tokens.now (option_map (λ r. (r.0, r.1.now)) reason.entry) (string_bytes text)) }
{
    match reason {
        Some((at, reason)) => reason_line(alloc, tokens.line(at.min(tokens.count())), reason),
        None => Err(AllocError),
    }
}

/// Lets go of a refusal.
pub fn drop_refusal(refusal: Refusal) {
    match refusal {
        Refusal::Scan(_fault) => {}
        Refusal::Parse {
            tokens: _tokens,
            fault: _fault,
        } => {}
        Refusal::Check {
            tokens: _tokens,
            tree,
            fault: _fault,
        } => drop_tree(tree),
        Refusal::Memory => {}
    }
}
