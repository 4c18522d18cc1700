//! The sort that is expected at a position of a tree that fits.
ghost use Rattle.std.specs.Prelude.{◌≡◌, slice_get};
ghost use Rattle.std.specs.Option.{option_copied};
ghost use Rattle.tree_fitting.specs.Fits.{FitsBelow, child_sort, expected_below, named_sort};
ghost use Rattle.check_trees.specs.inner.Index.{IsIndexOf};

use crate::constructors::Constructors;
use flow_syntax::{Constructor, Named, TreeSort};
use flow_term::{Kind, Term};

/// The sort that is expected of the child with this number of a term that fits a sort.
fn sort_of_child<'a>(
    constructors: &'a [Constructor],
    index: &Constructors,
    sort: &'a TreeSort,
    term: &Term,
    n: u32,
) -> Option<&'a TreeSort>
    requires { IsIndexOf constructors.now index.now }
    ensures { option_copied result ≡ child_sort constructors.now sort.now term.now n }
{
    match sort {
        TreeSort::Sort(name) => sort_of_argument(constructors, index, name, term, n),
        TreeSort::Items(item) => Some(item.get()),
        TreeSort::Tuple(sorts) => sort_at(sorts.as_slice(), n),
        TreeSort::Any | TreeSort::Str | TreeSort::Int => None,
    }
}

/// The same where the sort is the one with this name.
pub fn sort_of_argument<'a>(
    constructors: &'a [Constructor],
    index: &Constructors,
    sort: &Named,
    term: &Term,
    n: u32,
) -> Option<&'a TreeSort>
    requires { IsIndexOf constructors.now index.now }
    ensures { option_copied result ≡ child_sort constructors.now (named_sort sort.now) term.now n }
{
    let Kind::Apply(name, args) = &term.kind else {
        return None;
    };
    let sorts = index.argument_sorts(constructors, &sort.text, name, args.len())?;
    sort_at(sorts, n)
}

fn sort_at<'a>(sorts: &'a [TreeSort], n: u32) -> Option<&'a TreeSort>
    ensures { option_copied result ≡ slice_get sorts.now n }
{
    sorts.get(n as usize)
}

/// The sort that is expected at the end of a path below a term that fits a sort with all below it.
pub fn sort_below<'a>(
    constructors: &'a [Constructor],
    index: &Constructors,
    sort: &'a TreeSort,
    term: &Term,
    steps: &[u32],
) -> Option<&'a TreeSort>
    requires indexed { IsIndexOf constructors.now index.now }
    requires fits { FitsBelow constructors.now sort.now term.now }
    ensures { option_copied result ≡ expected_below constructors.now sort.now term.now steps.now }
{
    let mut wanted = sort;
    let mut at = term;
    for step in steps {
        wanted = sort_of_child(constructors, index, wanted, at, *step)?;
        at = at.child(*step)?;
    }
    Some(wanted)
}
