//! The outside of a volume: devices, sources, sinks, gates and runs, and those that lie in memory.
#![tactic(auto)]

mod device;
mod failing;
mod gate;
mod memory;
mod memory_text;
mod run;
mod sectors;
mod sink;
mod source;

pub use device::{Device, Failed};
pub use failing::missed;
pub use gate::{Gate, OpenGate};
pub use memory::MemoryDevice;
pub use memory_text::{MemorySink, MemorySource};
pub use run::{Named, NamedNew, Run, Unnamed};
pub use sectors::mix;
pub use sink::Sink;
pub use source::Source;
