//! Values that a body reads, by number.
ghost use Rattle.std.specs.Prelude.{◌≡◌, ◌<◌, IsTrue, Some};
ghost use Rattle.std.specs.Option.{option_copied};
ghost use Rattle.tree_system.specs.Reading.{base_at};

use crate::bodies::Reads;
use flow_solver::Values;
use flow_syntax::Side;
use flow_term::Value;

/// The numbers of the first unknowns of the two nodes at which a body reads.
#[derive(Clone, Copy)]
pub struct Bases {
    /// Of the node at which the constraint aims.
    pub this: usize,
    /// Of the node from which its value comes.
    pub other: usize,
}

/// The number of the first unknown of the node at a side.
pub(crate) fn base_at(bases: Bases, side: Side) -> usize
    ensures { result ≡ base_at bases side }
{
    match side {
        Side::This => bases.this,
        Side::Prev => bases.other,
        Side::Next => bases.other,
    }
}

/// The values at two nodes.
#[derive(Drop)]
pub(crate) struct ReadsAt<'a> {
    pub(crate) values: &'a Values<Value>,
    /// The place of each property, by its number.
    pub(crate) places: &'a [usize],
    pub(crate) bases: Bases,
}

impl Reads for ReadsAt<'_> {
    ghost use Rattle.tree_system.specs.Reading.{has_value, value_there};

    ghost values = { λ r p s. value_there r.values.now r.bases r.places.now p s };

    ghost has = { λ r p s. has_value r.values.now r.bases r.places.now p s };

    fn read(&self, property: u32, side: Side) -> &Value {
        let place = self.places[property as usize];
        self.values.get(base_at(self.bases, side) + place).unwrap()
    }
}
