//! Paths of positions.
ghost use Rattle.std.specs.Prelude.{◌≡◌, IfOk};
ghost use Rattle.flow_syntax.specs.Graph.{below};

use flow_term::Path;
use std::alloc::{AllocError, Global};

/// A path of its own.
pub fn same_path(alloc: Global, path: &[u32]) -> Result<Path, AllocError>
    ensures { IfOk result (λ copy. copy ≡ path.now) }
{
    Ok(Path::from_vec(Vec::from_slice(alloc, path)?))
}

/// The path of a child.
pub fn child_path(alloc: Global, path: &[u32], n: u32) -> Result<Path, AllocError>
    ensures { IfOk result (λ child. child ≡ below path.now n) }
{
    let mut longer = Vec::from_slice(alloc, path)?;
    longer.push(n)?;
    Ok(Path::from_vec(longer))
}
