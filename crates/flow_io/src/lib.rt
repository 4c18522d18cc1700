//! Files and output as the rest of the program sees them, with their faults counted.
//!
//! `Folder` gives the content of a name in parts and `Sink` takes bytes in pieces. Contracts see what a folder holds
//! and what a sink has taken, where it tells, and a count of faults that never falls: no answer `Failed` comes
//! without a rise of it. `read_whole` reads a file to its end, or says why not; `write_all` writes all of its bytes,
//! or a part from their front. `MemoryFolder` and `MemorySink` tell all, and fail at chosen calls. `RealFolder` and
//! `RealSink` stand over the system's files and standard output, of which no contract knows anything.
#![tactic(auto)]

mod folder;
mod memory_folder;
mod memory_sink;
mod reading;
mod real;
mod sink;
mod writing;

pub use folder::{Failed, Folder, Part};
pub use memory_folder::MemoryFolder;
pub use memory_sink::MemorySink;
pub use reading::{ReadRefusal, read_whole};
pub use real::{RealFolder, RealSink};
pub use sink::Sink;
pub use writing::write_all;
