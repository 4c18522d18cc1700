//! Sets of the numbers 0 and 1, as a lattice.
ghost use Rattle.std.specs.Prelude.{◌≡◌, true, IfOk};

use flow_term::List;
use index_lists::TraceList;
use lattice_base::Lattice;
use std::alloc::{AllocError, Global};

/// A list of the numbers.
pub(crate) fn listed(alloc: Global, numbers: &[usize]) -> Result<List<usize>, AllocError>
    ensures { IfOk result (λ list. list ≡ numbers.now) }
{
    Ok(List::from_vec(numbers.to_vec(alloc)?))
}

/// The steps of a trace, each a target and a key.
pub(crate) fn steps_of(
    alloc: Global,
    trace: &TraceList,
) -> Result<Vec<(usize, usize)>, AllocError> {
    let mut steps = Vec::new(alloc);
    for step in trace.iter() {
        steps.push(step)?;
    }
    Ok(steps)
}

/// Sets of the numbers 0 and 1: whether each is in it.
#[derive(Drop)]
pub(crate) struct Pairs;

impl Lattice for Pairs {
    ghost use Rattle.std.specs.Prelude.{⊤, false};
    ghost use Rattle.solver_examples.specs.Examples.{includes, union};
    ghost use Rattle.solver_examples.specs.Laws.{pair_laws, pair_order};

    type V = (bool, bool);

    ghost valid = { λ _ _. ⊤ };

    ghost least = { λ _. (false, false) };

    ghost joined = { λ _ a b. union a b };

    ghost below = { λ _ a b. includes a b ≡ true };

    fn bottom(&self, alloc: Global) -> Result<(bool, bool), AllocError> {
        Ok((false, false))
    }

    fn join(
        &self,
        alloc: Global,
        a: &(bool, bool),
        b: &(bool, bool),
    ) -> Result<(bool, bool), AllocError> {
        Ok((a.0 || b.0, a.1 || b.1))
    }

    fn leq(&self, a: &(bool, bool), b: &(bool, bool)) -> bool {
        (!a.0 || b.0) && (!a.1 || b.1)
    }

    fn equal(&self, a: &(bool, bool), b: &(bool, bool)) -> bool {
        a.0 == b.0 && a.1 == b.1
    }

    fn copy(&self, alloc: Global, a: &(bool, bool)) -> Result<(bool, bool), AllocError> {
        Ok((a.0, a.1))
    }

    ghost laws = { λ _. pair_laws };

    ghost order = { λ _ a b _ _. pair_order a b };
}
