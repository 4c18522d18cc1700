//! Specifications: their tokens and their syntax tree, and what their control rules mean for a tree.
#![tactic(auto)]

mod edit;
mod expr;
mod fault;
mod lexer;
mod message;
mod pattern;
mod property;
mod rule;
mod signature;
mod spec;
mod tables;
mod token;
mod types;
mod words;

pub use edit::EditRefusal;
pub use expr::{ArithOp, CompareOp, Expr, ExprKind, SetOp, Side};
pub use fault::SpecFaultKind;
pub use lexer::{LexFaultKind, LexRefusal, is_name_byte, lex};
pub use message::{Level, Message, Part};
pub use pattern::{Pattern, PatternKind};
pub use property::{Direction, Mode, PropDecl, PropRule, Trigger};
pub use rule::{Chain, FlowRule, Item, ItemKind};
pub use signature::{Constructor, Signature, TreeSort};
pub use spec::{Named, Spec, TypedSpec};
pub use tables::{EnumDecl, FunctionDecl, TableDecl};
pub use token::{Token, TokenKind};
pub use types::{ElemSort, ExprType, LatticeType};
pub use words::is_reserved;
