//! Whether an entered position is passed.
ghost use Rattle.std.specs.Prelude.{◌≡◌, ◌↔◌, IfOk, IsTrue, map, true, false};
ghost use Rattle.std.specs.List.{list_all};
ghost use Rattle.rule_plans.specs.declared.stop.Stop.TheVariants.{Entry as AtEntry, Exit as AtExit};
ghost use Rattle.rule_plans.specs.Hops.{Leads};
ghost use Rattle.graph_shape.specs.Shapes.{bits_of, would_pass};

use crate::kept::Kept;
use flow_term::List;
use path_tree::PathTree;
use rule_plans::{Step, Stop, reached};
use std::alloc::{AllocError, Global};

/// Which children would be passed, by their numbers.
pub fn child_bits(alloc: Global, children: &[PathTree<Kept>]) -> Result<List<bool>, AllocError>
    ensures { IfOk result (λ bits. bits ≡ bits_of children.now) }
{
    let mut bits = List::new(alloc);
    for child in children {
        bits.push(child.value.summary.passes)?;
    }
    Ok(bits)
}

/// Whether all children would be passed.
pub fn are_all_passed(children: &[PathTree<Kept>]) -> bool
    ensures { result ≡ list_all would_pass children.now }
{
    children.iter().all(|child| child.value.summary.passes)
}

/// Whether the exit is reached from the entry.
pub fn is_through(
    alloc: Global,
    steps: &[Step],
    children: &[PathTree<Kept>],
) -> Result<bool, AllocError>
    ensures { IfOk result (λ b. IsTrue b ↔ Leads steps.now (bits_of children.now) AtEntry AtExit) }
{
    let bits = child_bits(alloc, children)?;
    let found = reached(alloc, steps, bits.as_slice(), Stop::Entry)?;
    Ok(found.contains(&Stop::Exit))
}
