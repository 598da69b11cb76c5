//! The laws that a story tells of a run what the meaning of the program says, on its own names. No code runs here.
#![tactic(auto)]

pub mod laws;

pub use laws::{
    law_events, law_monitors, law_open_calls, law_queues, law_stop, law_values, law_waits,
};
