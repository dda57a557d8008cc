//! Bytes from outside and bytes to outside: a `Source` is read, a `Sink` is written to. It stands on
//! nothing. Both count their faults, and a fault is answered only where the count rose. The ones in
//! memory are observable, so that a contract above can say what was read and written; those over the
//! runtime's input and output are not, and the same code runs over either.
#![tactic(auto)]

pub mod failed;
mod fault_plan;
pub mod mem_sink;
pub mod mem_source;
pub mod reading;
pub mod sink;
pub mod source;
pub mod std_sink;
pub mod std_source;
pub mod writing;

pub use failed::Failed;
pub use mem_sink::MemSink;
pub use mem_source::MemSource;
pub use reading::{ReadErr, read_all};
pub use sink::Sink;
pub use source::Source;
pub use std_sink::StdSink;
pub use std_source::StdSource;
pub use writing::write_all;
