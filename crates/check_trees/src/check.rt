//! Whole trees, and replacements in trees that fit.
ghost use Rattle.std.specs.Prelude.{◌≡◌, ◌<◌, ◌^◌, ◌∷◌, List as Sequence, ℕ, IfOk, Some};
ghost use Rattle.flow_term.specs.Trees.{Put, term_size};
ghost use Rattle.tree_fitting.specs.Fits.{TreeFits, expected_at};
ghost use Rattle.tree_fitting.specs.Least.{IsLeastMisfit};
ghost use Rattle.check_trees.specs.Answers.{Accepts, IsRight, Refuses};
ghost use Rattle.check_trees.specs.inner.Index.{IsIndexOf};
ghost use Rattle.std.specs.Option.{option_copied};
ghost use Rattle.check_trees.specs.inner.Searching.{IsFoundAt, Tells};

use crate::constructors::Constructors;
use crate::expected::{sort_below, sort_of_argument};
use crate::refusal::{TreeRefusal, path_behind};
use crate::search::{misfit, misfit_of_sort};
use flow_syntax::{Signature, TreeSort, TypedSpec};
use flow_term::{List, Path, Term};
use std::alloc::{AllocError, Global};

/// Whether a tree fits the signature of a specification. Without a signature each tree does.
///
/// `IllSorted` comes exactly where a position doesn't fit the sort that is expected of it, with the path of the least
/// such position in the order of paths.
pub fn check_tree(alloc: Global, spec: &TypedSpec, tree: &Term) -> Result<(), TreeRefusal>
    requires { term_size tree.now < 2 ^ 32 }
    ensures right { IsRight spec.now.spec.signature tree.now result }
    ensures accepted { TreeFits spec.now.spec.signature tree.now → Accepts result }
    ensures refused { (path : Sequence ℕ) → IsLeastMisfit spec.now.spec.signature tree.now path → Refuses result path }
{
    match &spec.spec.signature {
        None => Ok(()),
        Some(signature) => Constructors::new(alloc, signature)?.check(alloc, signature, tree),
    }
}

/// What `check_tree` answers for the tree with `new` at the path, where the tree fits. Of the tree only what the path leads
/// through is looked at. Where the path is no position the tree stays as it is, and so it fits.
pub fn check_subtree(
    alloc: Global,
    spec: &TypedSpec,
    tree: &Term,
    path: &Path,
    new: &Term,
) -> Result<(), TreeRefusal>
    requires fits { TreeFits spec.now.spec.signature tree.now }
    requires small { term_size new.now < 2 ^ 32 }
    ensures right { IsRight spec.now.spec.signature (Put tree.now path.now new.now) result }
    ensures accepted { TreeFits spec.now.spec.signature (Put tree.now path.now new.now) → Accepts result }
    ensures refused { (least : Sequence ℕ) → IsLeastMisfit spec.now.spec.signature (Put tree.now path.now new.now) least → Refuses result least }
{
    match &spec.spec.signature {
        None => Ok(()),
        Some(signature) => {
            Constructors::new(alloc, signature)?.check_subtree(alloc, signature, tree, path, new)
        }
    }
}

impl Constructors {
    /// `check_tree`, by the index of the constructors of the signature.
    pub fn check(
        &self,
        alloc: Global,
        signature: &Signature,
        tree: &Term,
    ) -> Result<(), TreeRefusal>
        requires indexed { IsIndexOf signature.now.constructors self.now }
        requires small { term_size tree.now < 2 ^ 32 }
        ensures right { IsRight (Some signature.now) tree.now result }
        ensures accepted { TreeFits (Some signature.now) tree.now → Accepts result }
        ensures refused { (path : Sequence ℕ) → IsLeastMisfit (Some signature.now) tree.now path → Refuses result path }
    {
        let constructors = signature.constructors.as_slice();
        let found = misfit_of_sort(alloc, constructors, self, &signature.start, tree)?;
        answer(alloc, &[], found)
    }

    /// `check_subtree`, by the index of the constructors of the signature.
    pub fn check_subtree(
        &self,
        alloc: Global,
        signature: &Signature,
        tree: &Term,
        path: &Path,
        new: &Term,
    ) -> Result<(), TreeRefusal>
        requires indexed { IsIndexOf signature.now.constructors self.now }
        requires fits { TreeFits (Some signature.now) tree.now }
        requires small { term_size new.now < 2 ^ 32 }
        ensures right { IsRight (Some signature.now) (Put tree.now path.now new.now) result }
        ensures accepted { TreeFits (Some signature.now) (Put tree.now path.now new.now) → Accepts result }
        ensures refused { (least : Sequence ℕ) → IsLeastMisfit (Some signature.now) (Put tree.now path.now new.now) least → Refuses result least }
    {
        let found = misfit_at(alloc, signature, self, tree, path.as_slice(), new)?;
        answer(alloc, path.as_slice(), found)
    }
}

/// The trail to the least misfit of a new part, which is to stand at this path of a tree that fits.
fn misfit_at(
    alloc: Global,
    signature: &Signature,
    index: &Constructors,
    tree: &Term,
    steps: &[u32],
    new: &Term,
) -> Result<Option<List<u32>>, AllocError>
    requires indexed { IsIndexOf signature.now.constructors index.now }
    requires fits { TreeFits (Some signature.now) tree.now }
    requires small { term_size new.now < 2 ^ 32 }
    ensures { IfOk result (λ found. IsFoundAt signature.now.constructors (expected_at signature.now tree.now steps.now) new.now found) }
{
    let constructors = signature.constructors.as_slice();
    let [first, rest @ ..] = steps else {
        return misfit_of_sort(alloc, constructors, index, &signature.start, new);
    };
    match sort_behind(signature, index, tree, *first, rest) {
        None => Ok(None),
        Some(sort) => misfit(alloc, constructors, index, sort, new),
    }
}

/// The sort that is expected at a path that isn't the root's, in a tree that fits.
fn sort_behind<'a>(
    signature: &'a Signature,
    index: &Constructors,
    tree: &Term,
    first: u32,
    rest: &[u32],
) -> Option<&'a TreeSort>
    requires indexed { IsIndexOf signature.now.constructors index.now }
    requires fits { TreeFits (Some signature.now) tree.now }
    ensures { option_copied result ≡ expected_at signature.now tree.now (first ∷ rest.now) }
{
    let constructors = signature.constructors.as_slice();
    let sort = sort_of_argument(constructors, index, &signature.start, tree, first)?;
    let child = tree.child(first)?;
    sort_below(constructors, index, sort, child, rest)
}

/// What is answered where this trail was found behind a position.
fn answer(alloc: Global, position: &[u32], found: Option<List<u32>>) -> Result<(), TreeRefusal>
    ensures { Tells position.now found result }
{
    match found {
        None => Ok(()),
        Some(trail) => Err(TreeRefusal::IllSorted(path_behind(alloc, position, trail)?)),
    }
}
