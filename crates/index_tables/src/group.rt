//! Numbers by what stands at their places.
ghost use Rattle.std.specs.Prelude.{◌≡◌, ◌<◌, ℕ, [], All, IfOk, filter, get_or, length, nat_eq};
ghost use Rattle.std.specs.List.{range_with_len};

use crate::rows::{empty_rows, push_at};
use flow_term::List;
use std::alloc::{AllocError, Global};

/// For each number below `count` the places at which it stands, in order. It takes time in the number of places and of rows.
pub fn grouped(
    alloc: Global,
    numbers: &[usize],
    count: usize,
) -> Result<Vec<List<usize>>, AllocError>
    requires { All (λ u. u < count) numbers.now }
    ensures len { IfOk result (λ table. length table.items ≡ count) }
    ensures rows { IfOk result (λ table. (u : ℕ) → u < count
        → get_or table.items u [] ≡ filter (λ k. nat_eq (get_or numbers.now k 0) u) (range_with_len 0 (length numbers.now))) }
{
    let mut table = empty_rows(alloc, count)?;
    for place in 0..numbers.len() {
        push_at(&mut table, numbers[place], place)?;
    }
    Ok(table)
}
