//! Inputs and sinks with counts of their faults, in memory and on the host.
#![tactic(auto)]

mod device;
mod host;
mod memory_inputs;
mod memory_sink;
mod never_fails;
mod opener;
mod plan;
mod stream;
mod whole;

pub use device::{Failed, Inputs, Sink, StartFault};
pub use host::{HostErr, HostInputs, HostOut, HostSink};
pub use memory_inputs::{HeldFile, MemoryInputs};
pub use memory_sink::MemorySink;
pub use never_fails::NeverFails;
pub use opener::{FileOpener, open_file};
pub use stream::{ByteReader, ByteWriter, read_next, write_prefix};
pub use whole::{ReadWhole, read_whole, write_whole};
