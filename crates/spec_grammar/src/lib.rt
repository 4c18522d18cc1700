//! The grammar of specifications as data, with the laws that hold of it, and the tokens of a specification as its parsers read them.
//!
//! A reader's contract names `IsText` and `IsFirstFault` of `spec_syntax`; `specs/` has a file for each section of the language.
#![tactic(auto)]

ghost use Rattle.spec_grammar.specs.Laws.{BeginningsAreByCases, IsReadByOneToken};

mod cursor;
mod kind;
mod level;
mod values;

pub use cursor::{Cursor, LIMIT, Read, Refusal, kinds_of};
pub use kind::Kind;
pub use level::BinaryLevel;
pub use values::{named, number_of, text_of};

/// Some text of a symbol begins with these tokens exactly where they begin it by cases of its productions: whole texts of none or
/// more of a production's first parts, and then what begins the next.
pub fn beginnings_are_by_cases()
    ensures { BeginningsAreByCases }
{}

/// One token of choice is enough: the reading that the grammar gives answers a specification exactly where the tokens are a text
/// of it, and otherwise the first fault.
pub fn one_token_decides()
    ensures { IsReadByOneToken }
{}
