//! The properties of a specification, ready for its constraints.
use flow_term::List;
use tree_listing::Property;

/// The properties of a specification, by name.
#[derive(Drop)]
pub struct Properties {
    /// Each with its direction, in the order of names.
    pub list: List<Property>,
    /// The number of each, at the same place, among the declared ones in the order of the text.
    pub numbers: List<u32>,
    /// The place in `list` of each declared property, by its number.
    pub places: List<usize>,
}
