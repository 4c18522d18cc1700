//! Children put in among others, and taken out.
ghost use Rattle.std.specs.Prelude.{◌≡◌, ◌<◌, ◌≤◌, IfOk, IfErr, IfSome, Some, None, insert, vec_capacity, vec_len};
ghost use Rattle.std.specs.Option.{ForSome};
ghost use Rattle.path_tree.specs.Shapes.{InsertItem, ItemAt, RemoveItem, child_count_at};

use crate::tree::PathTree;
use flow_term::{List, NoPosition};
use std::alloc::Global;

impl<T: Drop> PathTree<T> {
    /// Puts `new` in as child number `at` of the part at the path; the children from there on follow it. They move into the room, which becomes
    /// their list, so no memory is taken. Where the path is no position, or the part has fewer than `at` children, the tree stays, and `new` and the
    /// room come back.
    pub fn insert_item(
        &mut self,
        path: &[u32],
        at: u32,
        new: PathTree<T>,
        room: Vec<PathTree<T>>,
    ) -> Result<(), (NoPosition, PathTree<T>, Vec<PathTree<T>>)>
        requires empty { vec_len room ≡ 0 }
        requires enough { ForSome (child_count_at self.old path.now) (λ n. n < vec_capacity room) }
        ensures place { IfOk result (λ _. IfSome (child_count_at self.old path.now) (λ n. at ≤ n)) }
        ensures new { IfOk result (λ _. self.new ≡ InsertItem self.old path.now at new) }
        ensures no_place { IfErr result (λ e. ForSome (child_count_at self.old path.now) (λ n. n < at)) }
        ensures unchanged { IfErr result (λ e. (e.1 ≡ new) × (e.2 ≡ room) × (self.new ≡ self.old)) }
    {
        match self.child_count(path) {
            None => return Err((NoPosition, new, room)),
            Some(count) => {
                if count < at as usize {
                    return Err((NoPosition, new, room));
                }
            }
        }
        let alloc = *room.allocator();
        let Ok(items) = self.set_children(path, List::new(alloc)) else {
            unreachable!()
        };
        let items = moved_with(room, items.into_vec(), at as usize, new);
        let Ok(_) = self.set_children(path, List::from_vec(items)) else {
            unreachable!()
        };
        Ok(())
    }

    /// Takes child number `at` out of the part at the path, and hands it out; the children behind it move up. Where there is no such child, the
    /// tree stays. Takes no memory.
    pub fn remove_item(
        &mut self,
        alloc: Global,
        path: &[u32],
        at: u32,
    ) -> Result<PathTree<T>, NoPosition>
        ensures old { IfOk result (λ old. ItemAt self.old path.now at ≡ Some old) }
        ensures new { IfOk result (λ _. self.new ≡ RemoveItem self.old path.now at) }
        ensures no_place { IfErr result (λ _. ItemAt self.old path.now at ≡ None) }
        ensures unchanged { IfErr result (λ _. self.new ≡ self.old) }
    {
        match self.child_count(path) {
            None => return Err(NoPosition),
            Some(count) => {
                if count <= at as usize {
                    return Err(NoPosition);
                }
            }
        }
        let Ok(items) = self.set_children(path, List::new(alloc)) else {
            unreachable!()
        };
        let mut items = items.into_vec();
        let item = items.remove(at as usize);
        let Ok(_) = self.set_children(path, List::from_vec(items)) else {
            unreachable!()
        };
        Ok(item)
    }
}

/// The items with one more among them, in the room. Takes no memory.
fn moved_with<X>(room: Vec<X>, items: Vec<X>, at: usize, new: X) -> Vec<X>
    requires empty { vec_len room ≡ 0 }
    requires enough { vec_len items < vec_capacity room }
    requires within { at ≤ vec_len items }
    ensures { result.items ≡ insert items.items at new }
{
    let mut room = room;
    let mut items = items;
    room.append(&mut items).unwrap();
    items.destroy_empty();
    room.insert(at, new).unwrap();
    room
}
