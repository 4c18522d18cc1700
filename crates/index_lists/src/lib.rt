//! Lists whose records are linked by numbers: the queue of what waits, the trace of the steps that were made, and the edges
//! between numbered nodes.
//!
//! Contracts see each as a plain list. What takes an item out goes over no other item.
#![tactic(auto)]

mod edges;
mod queue;
mod records;
mod trace;

pub use edges::{EdgeIter, EdgeLists};
pub use queue::WorkQueue;
pub use trace::{TraceIter, TraceList};
