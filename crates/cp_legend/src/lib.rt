//! The names of a program beside its tables: components, routines and variables, as the source writes them.
#![tactic(auto)]

mod components;
pub mod legend;
mod parts;
mod places;
mod sorting;
pub mod types;
pub mod value;
mod values;

pub use legend::{
    Legend, LegendComponent, LegendParameter, LegendPassing, LegendRoutine, LegendSystem, Variable,
    legend_of,
};
pub use types::LegendTypes;
pub use value::{Member, SourceValue};
