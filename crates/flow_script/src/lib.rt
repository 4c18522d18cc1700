//! The text of a script: the commands of a session, a line each.
#![tactic(auto)]

mod command;
mod laws;
mod line;
mod number;
mod parts;
mod refusal;
mod script;

pub use command::{Command, Line};
pub use laws::scripts_have_one_answer;
pub use refusal::{ScriptFaultKind, ScriptRefusal};
pub use script::read_script;
