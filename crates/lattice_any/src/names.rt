//! Copies of names.
ghost use Rattle.std.specs.Prelude.{◌≡◌, IfOk};

use flow_syntax::Named;
use flow_term::List;
use std::alloc::{AllocError, Global};

/// The same names. Fails only for want of memory.
pub(crate) fn copy_names(alloc: Global, names: &[Named]) -> Result<List<Named>, AllocError>
    ensures { IfOk result (λ copy. copy ≡ names.now) }
{
    let mut copy = List::new(alloc);
    for name in names {
        copy.push(name.duplicate()?)?;
    }
    Ok(copy)
}
