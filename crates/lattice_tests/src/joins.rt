//! A join in any lattice.
use lattice_base::Lattice;
use std::alloc::{AllocError, Global};

/// The join of two values, if it is above both, and both are above bottom.
pub(crate) fn join_of<L: Lattice>(
    alloc: Global,
    lattice: &L,
    a: &L::V,
    b: &L::V,
) -> Result<Option<L::V>, AllocError>
    requires left { L.valid lattice.now a.now }
    requires right { L.valid lattice.now b.now }
{
    let join = lattice.join(alloc, a, b)?;
    let copy = lattice.copy(alloc, &join)?;
    let bottom = lattice.bottom(alloc)?;
    let is_least = lattice.leq(&bottom, a) && lattice.leq(&bottom, b);
    let is_above = lattice.leq(a, &copy) && lattice.leq(b, &copy);
    if is_least && is_above && lattice.equal(&join, &copy) {
        Ok(Some(copy))
    } else {
        Ok(None)
    }
}
