//! The search for the least position that doesn't fit, depth first. What it finds is a trail: the steps from where it
//! began to that position, the last step first.
ghost use Rattle.std.specs.Prelude.{◌≡◌, ◌<◌, ◌^◌, [], IfOk, None, Some, if◌then◌else◌, is_some, length, slice_get, sum_by};
ghost use Rattle.flow_term.specs.Annotations.{number_in, term_layer, text_in};
ghost use Rattle.flow_term.specs.Trees.{term_size};
ghost use Rattle.tree_fitting.specs.Children.{MisfitsAmong};
ghost use Rattle.tree_fitting.specs.Fits.{MisfitsBelow, named_sort};
ghost use Rattle.check_trees.specs.inner.Index.{IsIndexOf};
ghost use Rattle.check_trees.specs.inner.Searching.{IsFound, list_sort, tuple_sort};

use crate::constructors::Constructors;
use flow_syntax::{Constructor, Named, TreeSort};
use flow_term::{Kind, List, Term};
use std::alloc::{AllocError, Global};

/// The trail to the least misfit at or below a term of which this sort is expected.
#[cycle(search)]
pub fn misfit(
    alloc: Global,
    constructors: &[Constructor],
    index: &Constructors,
    sort: &TreeSort,
    term: &Term,
) -> Result<Option<List<u32>>, AllocError>
    requires indexed { IsIndexOf constructors.now index.now }
    requires small { term_size term.now < 2 ^ 32 }
    ensures { IfOk result (IsFound (MisfitsBelow constructors.now sort.now term.now)) }
{
    match sort {
        TreeSort::Any => Ok(None),
        TreeSort::Str => Ok(here_unless(alloc, is_string(term))),
        TreeSort::Int => Ok(here_unless(alloc, is_integer(term))),
        TreeSort::Sort(name) => misfit_of_sort(alloc, constructors, index, name, term),
        TreeSort::Items(item) => misfit_of_list(alloc, constructors, index, item.get(), term),
        TreeSort::Tuple(sorts) => {
            misfit_of_tuple(alloc, constructors, index, sorts.as_slice(), term)
        }
    }
}

/// The same where the sort with this name is expected.
#[cycle(search)]
pub fn misfit_of_sort(
    alloc: Global,
    constructors: &[Constructor],
    index: &Constructors,
    sort: &Named,
    term: &Term,
) -> Result<Option<List<u32>>, AllocError>
    requires indexed { IsIndexOf constructors.now index.now }
    requires small { term_size term.now < 2 ^ 32 }
    ensures { IfOk result (IsFound (MisfitsBelow constructors.now (named_sort sort.now) term.now)) }
{
    let Kind::Apply(name, args) = &term.kind else {
        return Ok(Some(List::new(alloc)));
    };
    match index.argument_sorts(constructors, &sort.text, name, args.len()) {
        None => Ok(Some(List::new(alloc))),
        Some(sorts) => misfit_in_parts(alloc, constructors, index, sorts, args.as_slice()),
    }
}

#[cycle(search)]
fn misfit_of_list(
    alloc: Global,
    constructors: &[Constructor],
    index: &Constructors,
    sort: &TreeSort,
    term: &Term,
) -> Result<Option<List<u32>>, AllocError>
    requires indexed { IsIndexOf constructors.now index.now }
    requires small { term_size term.now < 2 ^ 32 }
    ensures { IfOk result (IsFound (MisfitsBelow constructors.now (list_sort sort.now) term.now)) }
{
    match &term.kind {
        Kind::Items(items) => {
            misfit_in_items(alloc, constructors, index, sort, items.as_slice())
        }
        _ => Ok(Some(List::new(alloc))),
    }
}

#[cycle(search)]
fn misfit_of_tuple(
    alloc: Global,
    constructors: &[Constructor],
    index: &Constructors,
    sorts: &[TreeSort],
    term: &Term,
) -> Result<Option<List<u32>>, AllocError>
    requires indexed { IsIndexOf constructors.now index.now }
    requires small { term_size term.now < 2 ^ 32 }
    ensures { IfOk result (IsFound (MisfitsBelow constructors.now (tuple_sort sorts.now) term.now)) }
{
    let Kind::Tuple(parts) = &term.kind else {
        return Ok(Some(List::new(alloc)));
    };
    if sorts.len() != parts.len() {
        return Ok(Some(List::new(alloc)));
    }
    misfit_in_parts(alloc, constructors, index, sorts, parts.as_slice())
}

/// The trail to the least misfit at or below the items of a list, each of which is to be of this sort.
#[cycle(search)]
fn misfit_in_items(
    alloc: Global,
    constructors: &[Constructor],
    index: &Constructors,
    sort: &TreeSort,
    items: &[Term],
) -> Result<Option<List<u32>>, AllocError>
    requires indexed { IsIndexOf constructors.now index.now }
    requires small { sum_by term_size items.now < 2 ^ 32 }
    ensures { IfOk result (IsFound (MisfitsAmong constructors.now (λ n. Some sort.now) items.now)) }
{
    for (n, item) in items.iter().enumerate() {
        if let Some(mut trail) = misfit(alloc, constructors, index, sort, item)? {
            trail.push(n as u32)?;
            return Ok(Some(trail));
        }
    }
    Ok(None)
}

/// The trail to the least misfit at or below parts that have sorts of their own.
#[cycle(search)]
fn misfit_in_parts(
    alloc: Global,
    constructors: &[Constructor],
    index: &Constructors,
    sorts: &[TreeSort],
    parts: &[Term],
) -> Result<Option<List<u32>>, AllocError>
    requires indexed { IsIndexOf constructors.now index.now }
    requires as_many { length sorts.now ≡ length parts.now }
    requires small { sum_by term_size parts.now < 2 ^ 32 }
    ensures { IfOk result (IsFound (MisfitsAmong constructors.now (slice_get sorts.now) parts.now)) }
{
    for (n, part) in parts.iter().enumerate() {
        if let Some(mut trail) = misfit(alloc, constructors, index, &sorts[n], part)? {
            trail.push(n as u32)?;
            return Ok(Some(trail));
        }
    }
    Ok(None)
}

/// A trail with no steps, unless the term fits.
fn here_unless(alloc: Global, fits: bool) -> Option<List<u32>>
    ensures { result ≡ (if fits then None else Some []) }
{
    if fits {
        return None;
    }
    Some(List::new(alloc))
}

fn is_string(term: &Term) -> bool
    ensures { result ≡ is_some (text_in (term_layer term.now)) }
{
    matches!(&term.kind, Kind::Str(_))
}

fn is_integer(term: &Term) -> bool
    ensures { result ≡ is_some (number_in (term_layer term.now)) }
{
    matches!(&term.kind, Kind::Int(_))
}
