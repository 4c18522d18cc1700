//! What it is for code to be that of an expression, and how the code of each form comes from that of its parts.
//!
//! Definitions and lemmas, and no code.
#![tactic(auto)]
