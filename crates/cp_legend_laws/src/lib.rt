//! The laws that a legend gives each component its right name. No code runs here.
#![tactic(auto)]

pub mod laws;

pub use laws::{
    law_components, law_legend, law_locals, law_paths, law_permanents, law_places, law_routines,
    law_values,
};
