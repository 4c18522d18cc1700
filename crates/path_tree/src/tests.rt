use crate::PathTree;
use flow_term::List;
use std::alloc::{AllocError, Global};

fn leaf(alloc: Global, value: u32) -> PathTree<u32> {
    PathTree {
        value,
        children: List::new(alloc),
    }
}

#[test]
fn parts_are_found_changed_and_taken_out(rt: HostRuntime) -> Result<(), AllocError> {
    let alloc = rt.alloc();
    let mut tree = leaf(alloc, 0);
    for value in 1..4 {
        tree.children.push(leaf(alloc, value))?;
    }
    assert_eq!(rt; tree.value_at(&[2]).copied(), Some(3));
    assert!(rt; tree.replace(&[1], leaf(alloc, 7)).is_ok());
    assert!(rt; tree.set_value(&[2], 8).is_ok());
    assert!(rt; tree.remove_item(alloc, &[], 0).is_ok());
    assert_eq!(rt; tree.value_at(&[0]).copied(), Some(7));
    assert_eq!(rt; tree.value_at(&[1]).copied(), Some(8));
    assert_eq!(rt; tree.value_at(&[2]).copied(), None);
    Ok(())
}
