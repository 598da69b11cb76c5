//! The slot machine stands for the meaning of the program on its own names: definitions and laws.
#![tactic(auto)]

pub mod laws;

pub use laws::{
    law_in_step, law_means, law_never_passed_over, law_running, law_same_runs, law_state_as_before,
};
