//! Files and sinks: the world outside as a run sees it, in memory and real.
#![tactic(auto)]

mod calls;
mod file_sink;
mod mem_files;
mod mem_sink;
mod outside;
mod real;
mod sure_files;
mod sure_sink;
mod whole_file;

pub use file_sink::FileSink;
pub use mem_files::{MemFile, MemFiles};
pub use mem_sink::MemSink;
pub use outside::{Failed, Fault, Files, Sink};
pub use real::{RealFiles, RealOut};
pub use sure_files::SureFiles;
pub use sure_sink::SureSink;
pub use whole_file::{ReadFail, read_all};
