ghost use Rattle.std.specs.Prelude.{◌≡◌, IfOk, IfErr, None, Some, slice_get, slice_set, option_map, option_and_then, unwrap_or};
ghost use Rattle.std.specs.Option.{option_copied};
ghost use Rattle.path_tree.specs.Shapes.{ChildrenAt, PartAt, PutChildren, PutPart, PutValue, ValueAt, child_count_at, children_of, value_of};

use flow_term::{List, NoPosition};
use std::mem;

/// A position with its value, and its children.
#[cycle(path_tree)]
#[derive(Drop)]
pub struct PathTree<T> {
    /// What is kept of the position.
    pub value: T,
    /// The children, by their numbers.
    pub children: List<PathTree<T>>,
}

impl<T> PathTree<T> {
    /// The child with this number, if there is one.
    pub fn child(&self, at: u32) -> Option<&PathTree<T>>
        ensures { option_copied result ≡ slice_get (children_of self.now) at }
    {
        self.children.as_slice().get(at as usize)
    }

    /// The part at the path, if the path is a position.
    pub fn part(&self, path: &[u32]) -> Option<&PathTree<T>>
        ensures { option_copied result ≡ PartAt self.now path.now }
    {
        let mut at = self;
        for step in path {
            at = at.child(*step)?;
        }
        Some(at)
    }

    /// The value at the path, if the path is a position.
    pub fn value_at(&self, path: &[u32]) -> Option<&T>
        ensures { option_copied result ≡ ValueAt self.now path.now }
    {
        match self.part(path) {
            None => None,
            Some(part) => Some(&part.value),
        }
    }

    /// Puts `new` at the path, and hands the old part out. Where the path is no position, the tree stays and `new` comes back. Takes no memory.
    #[cycle(replace)]
    pub fn replace(
        &mut self,
        path: &[u32],
        new: PathTree<T>,
    ) -> Result<PathTree<T>, (NoPosition, PathTree<T>)>
        ensures old { IfOk result (λ old. PartAt self.old path.now ≡ Some old) }
        ensures new { IfOk result (λ _. self.new ≡ PutPart self.old path.now new) }
        ensures no_position { IfErr result (λ e. PartAt self.old path.now ≡ None) }
        ensures unchanged { IfErr result (λ e. (e.1 ≡ new) × (self.new ≡ self.old)) }
    {
        let [first, rest @ ..] = path else {
            return Ok(mem::replace(self, new));
        };
        replace_item(&mut self.children, *first, rest, new)
    }

    /// Puts a value at the path, and hands the old one out. Where the path is no position, the tree stays and the value comes back. Takes no memory.
    #[cycle(set_value)]
    pub fn set_value(&mut self, path: &[u32], value: T) -> Result<T, (NoPosition, T)>
        ensures old { IfOk result (λ old. ValueAt self.old path.now ≡ Some old) }
        ensures new { IfOk result (λ _. self.new ≡ PutValue self.old path.now value) }
        ensures no_position { IfErr result (λ e. ValueAt self.old path.now ≡ None) }
        ensures unchanged { IfErr result (λ e. (e.1 ≡ value) × (self.new ≡ self.old)) }
    {
        let [first, rest @ ..] = path else {
            return Ok(mem::replace(&mut self.value, value));
        };
        set_in_item(&mut self.children, *first, rest, value)
    }

    /// The number of children of the part at the path, if the path is a position.
    pub fn child_count(&self, path: &[u32]) -> Option<usize>
        ensures { result ≡ child_count_at self.now path.now }
    {
        match self.part(path) {
            None => None,
            Some(part) => Some(part.children.len()),
        }
    }

    /// Gives the part at the path other children, and hands the old ones out. Where the path is no position, the tree stays and the new ones come
    /// back. Takes no memory.
    #[cycle(set_children)]
    pub fn set_children(
        &mut self,
        path: &[u32],
        new: List<PathTree<T>>,
    ) -> Result<List<PathTree<T>>, (NoPosition, List<PathTree<T>>)>
        ensures old { IfOk result (λ old. ChildrenAt self.old path.now ≡ Some old) }
        ensures new { IfOk result (λ _. self.new ≡ PutChildren self.old path.now new) }
        ensures no_position { IfErr result (λ e. ChildrenAt self.old path.now ≡ None) }
        ensures unchanged { IfErr result (λ e. (e.1 ≡ new) × (self.new ≡ self.old)) }
    {
        let [first, rest @ ..] = path else {
            return Ok(mem::replace(&mut self.children, new));
        };
        set_children_in_item(&mut self.children, *first, rest, new)
    }
}

#[cycle(replace)]
fn replace_item<T>(
    items: &mut List<PathTree<T>>,
    at: u32,
    path: &[u32],
    new: PathTree<T>,
) -> Result<PathTree<T>, (NoPosition, PathTree<T>)>
    ensures old { IfOk result (λ old. option_and_then (λ item. PartAt item path.now) (slice_get items.old at) ≡ Some old) }
    ensures new { IfOk result (λ _. items.new ≡ unwrap_or (option_map (λ item. slice_set items.old at (PutPart item path.now new)) (slice_get items.old at)) items.old) }
    ensures no_position { IfErr result (λ e. option_and_then (λ item. PartAt item path.now) (slice_get items.old at) ≡ None) }
    ensures unchanged { IfErr result (λ e. (e.1 ≡ new) × (items.new ≡ items.old)) }
{
    match items.get_mut(at as usize) {
        None => Err((NoPosition, new)),
        Some(item) => item.replace(path, new),
    }
}

#[cycle(set_value)]
fn set_in_item<T>(
    items: &mut List<PathTree<T>>,
    at: u32,
    path: &[u32],
    value: T,
) -> Result<T, (NoPosition, T)>
    ensures old { IfOk result (λ old. option_and_then (λ item. ValueAt item path.now) (slice_get items.old at) ≡ Some old) }
    ensures new { IfOk result (λ _. items.new ≡ unwrap_or (option_map (λ item. slice_set items.old at (PutValue item path.now value)) (slice_get items.old at)) items.old) }
    ensures no_position { IfErr result (λ e. option_and_then (λ item. ValueAt item path.now) (slice_get items.old at) ≡ None) }
    ensures unchanged { IfErr result (λ e. (e.1 ≡ value) × (items.new ≡ items.old)) }
{
    match items.get_mut(at as usize) {
        None => Err((NoPosition, value)),
        Some(item) => item.set_value(path, value),
    }
}

#[cycle(set_children)]
fn set_children_in_item<T>(
    items: &mut List<PathTree<T>>,
    at: u32,
    path: &[u32],
    new: List<PathTree<T>>,
) -> Result<List<PathTree<T>>, (NoPosition, List<PathTree<T>>)>
    ensures old { IfOk result (λ old. option_and_then (λ item. ChildrenAt item path.now) (slice_get items.old at) ≡ Some old) }
    ensures new { IfOk result (λ _. items.new ≡ unwrap_or (option_map (λ item. slice_set items.old at (PutChildren item path.now new)) (slice_get items.old at)) items.old) }
    ensures no_position { IfErr result (λ e. option_and_then (λ item. ChildrenAt item path.now) (slice_get items.old at) ≡ None) }
    ensures unchanged { IfErr result (λ e. (e.1 ≡ new) × (items.new ≡ items.old)) }
{
    match items.get_mut(at as usize) {
        None => Err((NoPosition, new)),
        Some(item) => item.set_children(path, new),
    }
}
