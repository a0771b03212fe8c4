//! Sources and sinks of bytes that count their faults, in memory and over std's readers and writers; the words of a command; and the status
//! with which a command ends.
#![tactic(auto)]

mod adapters;
mod calls;
mod memory_sink;
mod memory_source;
mod pieces;
mod plain_source;
mod sink;
mod source;
mod status;
mod whole;
mod words;

pub use adapters::{StdSink, StdSource};
pub use memory_sink::MemorySink;
pub use memory_source::MemorySource;
pub use pieces::write_pieces;
pub use plain_source::PlainSource;
pub use sink::{Sink, WriteFailed};
pub use source::{ReadFailed, Source};
pub use status::Status;
pub use whole::{ReadAll, read_all, write_all};
pub use words::Words;
