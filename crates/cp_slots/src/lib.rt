//! The resolved program: items, places, tables, and what makes them sound.
#![tactic(auto)]

pub mod item;
pub mod place;
pub mod resolved;
pub mod tables;

pub use item::{Action, Item, ResolvedArm, Said, ShownKind};
pub use place::{
    Argument, ArgumentValue, Arithmetic, Comparison, ComponentPlace, Index, Logic,
    OrdinalExpression, Place, PlaceOrigin, SetExpression, SetOperation,
};
pub use resolved::Resolved;
pub use tables::{
    Component, ComponentKind, ComponentParameter, Layout, Process, ResolvedRoutine, SystemType,
};
