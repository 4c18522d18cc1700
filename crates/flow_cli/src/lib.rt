//! The commands of the program, from words and files to bytes.
//!
//! `run` is the top call: it takes the words, a folder and a sink, and answers a status. Its contract ties each status to
//! its cause and to what was written.
#![tactic(auto)]

mod accept;
mod files;
mod names;
mod output;
mod print;
mod running;
mod status;
mod words;

pub use running::run;
pub use status::Status;
pub use words::{Request, read_words};
