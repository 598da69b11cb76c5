//! Programs that never end: what is possible in any number of choices, and who may wait for ever. Definitions and laws.
#![tactic(auto)]

pub mod laws;

pub use laws::{
    law_alone, law_endless_means, law_ends_to, law_lasso, law_lasso_found, law_lingers,
    law_lingers_found, law_more_steps, law_no_linger, law_no_waiting, law_ready_round, law_repeats,
    law_round, law_round_happens, law_settled, law_settled_means, law_slots_forget,
    law_slots_stay_ready, law_standstill, law_standstill_found, law_tables, law_trap, law_values,
    law_witness,
};
