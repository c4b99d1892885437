//! Where the bytes of programs come from and go to.
#![tactic(auto)]

mod calls;
mod mem_sink;
mod mem_source;
mod sink;
mod source;
mod std_sink;
mod std_source;
#[cfg(test)]
mod tests;

pub use mem_sink::MemSink;
pub use mem_source::MemSource;
pub use sink::{Put, Sink, WriteFault, write_all};
pub use source::{Got, Source};
pub use std_sink::StdSink;
pub use std_source::StdSource;
