//! Trees, and the paths, nodes, points and links that speak of them.
#![tactic(auto)]

mod annotation;
mod boxed;
mod copy;
mod elem;
mod element;
mod graph;
mod list;
mod measure;
mod node_text;
mod path;
mod path_text;
mod term;
mod text;
mod tree;
mod value;

pub use annotation::{location, resolved_name};
pub use boxed::Boxed;
pub use copy::copy_term;
pub use elem::Elem;
pub use element::{Element, edges_are_ordered, elements_are_ordered, nodes_are_ordered};
pub use graph::{Edge, Link, Node, NodeKind, Point, Unknown};
pub use list::List;
pub use measure::{depth, positions, size};
pub use node_text::{push_node, read_node, write_node};
pub use path::{Path, push_path, write_path};
pub use path_text::{PathRefusal, read_path};
pub use term::{Kind, Term};
pub use text::Text;
pub use tree::{NoPosition, replace, term_at};
pub use value::{Bindings, Bound, Entry, Value, Valued};
