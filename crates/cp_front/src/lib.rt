//! The front end: from a source to its program, or to why it is refused. Both programs read, load and write by it.
#![tactic(auto)]

pub mod loading;
pub mod reasons;
pub mod refusal;
pub mod stream;
pub mod transfer;
pub mod wrapped;

pub use loading::{Loaded, drop_loaded, load, load_with_symbols};
pub use refusal::{Refusal, drop_refusal, refusal_line};
pub use stream::{Failed, Sink, Source};
pub use transfer::{MOST_BYTES, ReadFault, StreamFault, read_source, write_text};
pub use wrapped::Wrapped;
