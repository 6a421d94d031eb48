//! Where input comes from, where output goes, and what a worker passes on its way.
#![tactic(auto)]

mod copying;
mod counting;
mod gate;
mod mem_sink;
mod mem_source;
mod plan;
mod port;
mod reach;
mod standard;
mod sure;

pub use gate::{Gate, OpenGate};
pub use mem_sink::MemSink;
pub use mem_source::MemSource;
pub use port::{Failed, Sink, Source};
pub use reach::Reach;
pub use standard::{StdSink, StdSource};
pub use sure::{SureSink, SureSource};
