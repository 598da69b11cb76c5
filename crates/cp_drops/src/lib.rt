//! Trees and tables that are let go. They are some fifty types, one inside another, and a crate that lets one go proves for each of these
//! that it may. So they are let go here, and the crates above hand over what they have no more use for.
#![tactic(auto)]

use cp_check::Checked;
use cp_slots::Resolved;
use cp_tree::Tree;

pub fn drop_tree(_tree: Tree) {}

pub fn drop_checked(_checked: Checked) {}

pub fn drop_program(_program: Resolved) {}
