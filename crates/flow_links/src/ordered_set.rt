//! A set whose items come out in order.
ghost use Rattle.std.specs.Prelude.{◌≡◌, IfOk, OnOk};
ghost use Rattle.std.specs.List.Sorted.{IsStrictlySortedBy};
ghost use Rattle.flow_links.specs.inner.Gains.{Gains};

use flow_term::{Element, List};
use std::alloc::{AllocError, Global};
use std::collections::BTreeSet;

/// Adds an item, unless it is there.
pub fn add<T: Element>(set: &mut BTreeSet<T>, item: T) -> Result<(), AllocError>
    ensures { OnOk result (Gains set.old.keys set.new.keys (λ x. x ≡ item)) }
{
    set.insert(item)?;
    Ok(())
}

/// The items of a set, in order.
pub fn in_order<T: Element>(alloc: Global, set: BTreeSet<T>) -> Result<List<T>, AllocError>
    ensures same { IfOk result (λ list. list ≡ set.keys) }
    ensures ordered { IfOk result (λ list. IsStrictlySortedBy T.cmp set.keys) }
{
    Ok(List::from_vec(set.into_iter().collect(alloc)?))
}
