//! A shape after a replacement, without memory.
ghost use Rattle.std.specs.Prelude.{◌≡◌, slice_get, slice_set, option_map, unwrap_or};
ghost use Rattle.graph_shape.specs.Replaced.{PutShape};

use crate::kept::{Kept, Summary};
use flow_term::List;
use path_tree::PathTree;

/// Puts the part at the path, and the summaries at the positions above it, from the root on; what matches there stays. Takes no memory.
#[cycle(put)]
pub fn put_shape(shape: &mut PathTree<Kept>, path: &[u32], above: &[Summary], new: PathTree<Kept>)
    ensures { shape.new ≡ PutShape shape.old path.now above.now new }
{
    let [first, below @ ..] = path else {
        *shape = new;
        return;
    };
    let [summary, others @ ..] = above else {
        return;
    };
    shape.value.summary = *summary;
    put_in_item(&mut shape.children, *first, below, others, new);
}

#[cycle(put)]
fn put_in_item(
    items: &mut List<PathTree<Kept>>,
    at: u32,
    path: &[u32],
    above: &[Summary],
    new: PathTree<Kept>,
)
    ensures { items.new ≡ unwrap_or (option_map (λ c. slice_set items.old at (PutShape c path.now above.now new)) (slice_get items.old at)) items.old }
{
    match items.get_mut(at as usize) {
        None => {}
        Some(item) => put_shape(item, path, above, new),
    }
}
