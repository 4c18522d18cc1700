//! Least solutions of monotone constraints over any lattice, by a worklist, kept right while the system is edited.
//!
//! Implement [`System`] for your problem; then
//!
//! ```rust
//! let mut engine = Engine::new(alloc, system, FirstPick)?;
//! engine.settle(None, &mut steps)?;
//! let value = engine.value(unknown);
//!
//! engine.reserve(&edit)?;
//! engine.retract(edit);
//! engine.settle(None, &mut steps)?;
//! ```
//!
//! An [`Engine`] is a machine that keeps the steps that it made and the constraints that wait. Its values are the replay
//! of the steps. Each visit takes out one waiting constraint; a visit that raises a value makes its readers wait. In
//! which order they are visited is the caller's choice, by a [`Pick`]; the values at the end are the same. An edit takes out
//! the steps that follow from what is gone, and makes what has to be visited again wait.
#![tactic(auto)]

mod answers;
mod engine;
mod numbers;
mod order;
mod pick;
mod plan;
mod progress;
mod retract;
mod settle;
mod system;
mod taint;
mod turn;
mod values;

pub use answers::{SettleRefusal, Visited};
pub use engine::Engine;
pub use pick::{FirstPick, LastPick, Pick};
pub use system::System;
pub use values::Values;
