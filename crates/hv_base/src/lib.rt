//! Bytes in and bytes out, with a count of what failed.
#![tactic(auto)]

mod copy;
mod in_source;
mod mem_sink;
mod mem_source;
mod out_sink;
mod sink;
mod source;
mod sure_sink;
mod sure_source;
#[cfg(test)]
mod tests;
mod whole;

pub use in_source::InSource;
pub use mem_sink::MemSink;
pub use mem_source::MemSource;
pub use out_sink::OutSink;
pub use sink::{Push, Sink};
pub use source::{Pull, Source};
pub use sure_sink::SureSink;
pub use sure_source::SureSource;
pub use whole::{ReadEnd, SinkFault, read_all, write_all};
