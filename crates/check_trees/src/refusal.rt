ghost use Rattle.std.specs.Prelude.{◌≡◌, ◌++◌, reverse, IfOk};

use flow_term::{List, Path};
use std::alloc::{AllocError, Global};

/// Why a tree is refused.
#[derive(Debug, Drop)]
pub enum TreeRefusal {
    /// At this path, the least such one, the form of the tree doesn't fit the sort that is expected there.
    IllSorted(Path),
    /// Memory ran out.
    NoMemory,
}

impl From<AllocError> for TreeRefusal {
    ghost use Rattle.check_trees.specs.declared.refusal.TreeRefusal.TheVariants.{NoMemory};

    ghost from_gives = { λ _ e. e ≡ NoMemory };

    fn from(_: AllocError) -> TreeRefusal {
        TreeRefusal::NoMemory
    }
}

/// The path that goes on from a position by a trail, which has the last step first.
pub fn path_behind(alloc: Global, position: &[u32], trail: List<u32>) -> Result<Path, AllocError>
    ensures { IfOk result (λ path. path ≡ position.now ++ reverse trail) }
{
    let mut steps = Vec::from_slice(alloc, position)?;
    let mut below = trail.into_vec();
    below.reverse();
    steps.extend_from_slice(below.as_slice())?;
    Ok(Path::from_vec(steps))
}
