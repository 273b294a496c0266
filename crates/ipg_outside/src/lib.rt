//! Files and output as the program sees them: two traits that say what an outside tells and when it
//! may fail, an outside in memory, and the adapters to the real one.
#![tactic(auto)]

mod disk;
mod files;
mod installed;
mod mem_files;
mod mem_sink;
mod sink;
mod std_sink;
mod stored;
mod sure_files;
mod sure_sink;
mod waiting;

pub use disk::DiskFiles;
pub use files::{FileFault, Files};
pub use mem_files::MemFiles;
pub use mem_sink::MemSink;
pub use sink::{Sink, SinkFault};
pub use std_sink::StdSink;
pub use sure_files::SureFiles;
pub use sure_sink::SureSink;
