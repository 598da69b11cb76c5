//! Legs of a program's processes that are made and watched: the places of the machine that their steps may touch.
#![tactic(auto)]

pub mod admissions;
pub mod changes;
pub mod effect;
pub mod laws;
pub mod leg;
pub mod reading;
pub mod renewing;
pub mod settled;
pub mod table;
pub mod touch;
pub mod touched;

pub use admissions::{AdmissionTable, make_admission, write_admission};
pub use changes::{Write, changes_of, number_in, write_row};
pub use effect::{Effect, make_effect};
pub use laws::{law_admission_row, law_look};
pub use leg::{WatchedLeg, watch_leg};
pub use settled::are_settled;
pub use table::{EffectTable, Known, KnownLeg};
pub use touch::touch_step;
pub use touched::Touched;
