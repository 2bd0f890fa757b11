//! The outside: files and sinks whose faults are counted, over memory and over the real ones.
#![tactic(auto)]

mod files;
mod mem_files;
mod mem_sink;
mod real_files;
mod sink;
mod std_sink;
#[cfg(test)]
mod tests;

pub use files::{FileRefusal, Files};
pub use mem_files::{MemFile, MemFiles};
pub use mem_sink::MemSink;
pub use real_files::RealFiles;
pub use sink::{Failed, Sink, write_all};
pub use std_sink::StdSink;
