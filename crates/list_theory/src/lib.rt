//! Lists whose items a test tells apart: membership, taking an item out, and putting an item last unless it is there.
//!
//! The crate has definitions and lemmas alone, for every type of items. Queues, constraint systems and graphs stand on
//! them, each with the test of its own items.
#![tactic(auto)]
