//! Calls that are made at once: which steps may be made in either order, and what a search that makes such steps at once finds. Definitions and laws.
#![tactic(auto)]

pub mod laws;

pub use laws::{
    law_at_once, law_commute, law_greater_limits, law_nothing_left_out, law_repeats, law_words,
};
