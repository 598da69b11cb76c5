//! The program `cpx` as a library: its options, and the way from the bytes of a source to the bytes of an answer.
#![tactic(auto)]

pub mod analysis;
pub mod answer;
mod answerers;
pub mod answering;
mod command;
pub mod command_line;
mod dealing;
mod ends;
mod exploring;
mod numbers;
pub mod options;
pub mod reading;
pub mod reason;
mod rules;
mod schedule;
mod texts;

pub use analysis::{Analysis, AnalysisFlags};
pub use answer::ExitStatus as Status;
pub use answering::{answer_stream, ends_stream, explore_stream, explore_stream_observed};
pub use command_line::{asks_version, read_options};
pub use cp_front::{Failed, Sink, Source, Wrapped};
pub use options::{OptionFault, Options};
pub use reading::{OwnWords, options_of};
pub use reason::{SourceReading, VERSION, word_reason};
