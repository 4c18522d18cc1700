ghost use Rattle.std.specs.Prelude.{◌≡◌, IfOk, IfErr, None, Some, slice_get, slice_set, option_map, option_and_then, unwrap_or};
ghost use Rattle.std.specs.Option.{option_copied};
ghost use Rattle.flow_term.specs.Trees.{At, Put};

use crate::list::List;
use crate::path::Path;
use crate::term::{Kind, Term};
use std::mem;

/// There is no position at the path.
#[derive(Clone, Copy, Debug, PartialEq, Eq)]
pub struct NoPosition;

/// The term at the path, if the path is a position.
pub fn term_at<'a>(tree: &'a Term, path: &Path) -> Option<&'a Term>
    ensures { option_copied result ≡ At tree.now path.now }
{
    let mut at = tree;
    for step in path.as_slice() {
        at = at.child(*step)?;
    }
    Some(at)
}

/// Puts `new` at the path, and hands the old part out. Where the path is no position, the tree stays and `new` comes back.
pub fn replace(tree: &mut Term, path: &Path, new: Term) -> Result<Term, (NoPosition, Term)>
    ensures old { IfOk result (λ old. At tree.old path.now ≡ Some old) }
    ensures new { IfOk result (λ _. tree.new ≡ Put tree.old path.now new) }
    ensures no_position { IfErr result (λ e. At tree.old path.now ≡ None) }
    ensures unchanged { IfErr result (λ e. (e.1 ≡ new) × (tree.new ≡ tree.old)) }
{
    replace_below(tree, path.as_slice(), new)
}

#[cycle(replace)]
fn replace_below(tree: &mut Term, steps: &[u32], new: Term) -> Result<Term, (NoPosition, Term)>
    ensures old { IfOk result (λ old. At tree.old steps.now ≡ Some old) }
    ensures new { IfOk result (λ _. tree.new ≡ Put tree.old steps.now new) }
    ensures no_position { IfErr result (λ e. At tree.old steps.now ≡ None) }
    ensures unchanged { IfErr result (λ e. (e.1 ≡ new) × (tree.new ≡ tree.old)) }
{
    let [first, rest @ ..] = steps else {
        return Ok(mem::replace(tree, new));
    };
    match &mut tree.kind {
        Kind::Apply(_, args) => replace_item(args, *first, rest, new),
        Kind::Tuple(parts) => replace_item(parts, *first, rest, new),
        Kind::Items(items) => replace_item(items, *first, rest, new),
        Kind::Int(_) | Kind::Str(_) => Err((NoPosition, new)),
    }
}

#[cycle(replace)]
fn replace_item(
    items: &mut List<Term>,
    at: u32,
    steps: &[u32],
    new: Term,
) -> Result<Term, (NoPosition, Term)>
    ensures old { IfOk result (λ old. option_and_then (λ item. At item steps.now) (slice_get items.old at) ≡ Some old) }
    ensures new { IfOk result (λ _. items.new ≡ unwrap_or (option_map (λ item. slice_set items.old at (Put item steps.now new)) (slice_get items.old at)) items.old) }
    ensures no_position { IfErr result (λ e. option_and_then (λ item. At item steps.now) (slice_get items.old at) ≡ None) }
    ensures unchanged { IfErr result (λ e. (e.1 ≡ new) × (items.new ≡ items.old)) }
{
    match items.get_mut(at as usize) {
        None => Err((NoPosition, new)),
        Some(item) => replace_below(item, steps, new),
    }
}
