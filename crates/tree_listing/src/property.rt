//! The properties of a specification, as far as its constraints need them.
use flow_syntax::Direction;
use flow_term::Text;

/// A property of nodes.
#[derive(Drop)]
pub struct Property {
    /// Its name.
    pub name: Text,
    /// The way in which it follows the control flow: that of its first rule, forward where it has none.
    pub direction: Direction,
}
