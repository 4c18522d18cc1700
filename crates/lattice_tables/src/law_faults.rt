//! The first law that a table breaks.
ghost use Rattle.lattice_tables.specs.inner.Faults.{IsFirstOfLaw, IsFirstOfTable};
ghost use Rattle.lattice_tables.specs.inner.Shown.{shown};

use crate::joins::Joins;
use crate::tuples::{pairs, triples};
use table_laws::LawFault;

/// The first element whose join with itself is another one.
fn idempotent_fault(joins: &Joins<'_>) -> Option<LawFault>
    ensures { IsFirstOfLaw (shown joins.now) 0 result }
{
    let a = (0..joins.count).find(|a| joins.changes_itself(*a))?;
    Some(LawFault::Idempotent(a))
}

/// The first two elements whose join is another one when they are exchanged.
fn commutative_fault(joins: &Joins<'_>) -> Option<LawFault>
    ensures { IsFirstOfLaw (shown joins.now) 1 result }
{
    let (a, b) = pairs(joins.count, joins.count).find(|(a, b)| joins.depends_on_order(*a, *b))?;
    Some(LawFault::Commutative(a, b))
}

/// The first three elements whose join depends on which two are joined first.
fn associative_fault(joins: &Joins<'_>) -> Option<LawFault>
    ensures { IsFirstOfLaw (shown joins.now) 2 result }
{
    let ((a, b), c) = triples(joins.count).find(|((a, b), c)| joins.depends_on_grouping(
        *a, *b, *c,
    ))?;
    Some(LawFault::Associative(a, b, c))
}

/// The first element that the join with bottom changes, on one side or the other.
fn bottom_fault(joins: &Joins<'_>) -> Option<LawFault>
    ensures { IsFirstOfLaw (shown joins.now) 3 result }
{
    let a = (0..joins.count).find(|a| joins.changes_by_bottom(*a))?;
    Some(LawFault::BottomLaw(a))
}

/// The first law that the table breaks, at the first elements at which it does.
pub(crate) fn law_fault(joins: &Joins<'_>) -> Option<LawFault>
    ensures { IsFirstOfTable (shown joins.now) result }
{
    if let Some(fault) = idempotent_fault(joins) {
        return Some(fault);
    }
    if let Some(fault) = commutative_fault(joins) {
        return Some(fault);
    }
    if let Some(fault) = associative_fault(joins) {
        return Some(fault);
    }
    bottom_fault(joins)
}
