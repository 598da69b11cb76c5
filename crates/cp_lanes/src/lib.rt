//! One schedule as a picture of lanes: time goes down, each process has a column, and a monitor is a colour.
#![tactic(auto)]

mod changes;
mod draw;
mod frame;
mod heading;
mod key;
mod labels;
mod palette;
mod pictures;
mod plan;
mod rows;
mod sheet;
mod spans;
mod stops;
mod svg;
mod title;
mod wrapping;
mod written;

pub use pictures::{PictureView, Scene, picture};
pub use sheet::{SheetExtent, row_count};
