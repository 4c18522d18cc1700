//! Rows of numbers.
ghost use Rattle.std.specs.Prelude.{◌≡◌, ◌++◌, ◌∷◌, ◌<◌, ℕ, [], IfOk, OnOk, get_or, length, slice_set};

use flow_term::List;
use std::alloc::{AllocError, Global};

/// So many empty rows.
pub fn empty_rows(alloc: Global, count: usize) -> Result<Vec<List<usize>>, AllocError>
    ensures len { IfOk result (λ table. length table.items ≡ count) }
    ensures empty { IfOk result (λ table. (u : ℕ) → get_or table.items u [] ≡ []) }
{
    let mut table = Vec::new(alloc);
    for _row in 0..count {
        table.push(List::new(alloc))?;
    }
    Ok(table)
}

/// Puts a number last into the row of this place.
pub fn push_at(table: &mut Vec<List<usize>>, place: usize, number: usize) -> Result<(), AllocError>
    requires { place < length table.old.items }
    ensures { OnOk result (table.new.items ≡ slice_set table.old.items place (get_or table.old.items place [] ++ number ∷ [])) }
{
    table[place].push(number)
}
