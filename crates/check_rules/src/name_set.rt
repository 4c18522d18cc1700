//! Sets of names.
ghost use Rattle.std.specs.Prelude.{◌≡◌, ◌||◌, ℕ, List as Sequence, OnOk, bytes_eq};
ghost use Rattle.check_rules.specs.inner.Tables.{has_name};

use flow_term::Text;
use indexmap::IndexSet;
use std::alloc::AllocError;

/// Names, each looked up by hash.
pub type NameSet<'a> = IndexSet<&'a str>;

/// Whether the name is in the set.
pub fn has_name(names: &NameSet<'_>, name: &Text) -> bool
    ensures { result ≡ has_name names.now name.now }
{
    names.contains(name.as_str())
}

/// Puts the name into the set.
pub fn add_name<'a>(names: &mut NameSet<'a>, name: &'a Text) -> Result<(), AllocError>
    ensures { OnOk result ((x : Sequence ℕ) → has_name names.new x ≡ (has_name names.old x || bytes_eq x name.now)) }
{
    names.insert(name.as_str())?;
    Ok(())
}
