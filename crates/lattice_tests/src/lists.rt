//! The lists of a worklist solver and of a graph.
use index_lists::{EdgeLists, TraceList, WorkQueue};
use std::alloc::{AllocError, Global};
use std::test::Fail;

#[test]
fn a_queue_keeps_the_order_of_what_is_left(rt: HostRuntime) -> Result<(), Fail> {
    let mut queue = WorkQueue::new(rt.alloc());
    queue.grow(4)?;
    queue.push(2);
    queue.push(0);
    queue.push(3);
    queue.push(2);
    queue.push(1);
    assert_eq!(rt; queue.len(), 4);
    assert!(rt; queue.remove(0));
    assert!(rt; !queue.remove(0));
    assert!(rt; queue.contains(3) && !queue.contains(0) && !queue.contains(9));
    assert_eq!(rt; queue.pop_at(1), 3);
    assert_eq!(rt; queue.pop_at(0), 2);
    assert_eq!(rt; queue.pop_at(0), 1);
    assert_eq!(rt; queue.len(), 0);
    Ok(())
}

/// The steps that are left, once those of a target are taken out.
fn left_in_trace(alloc: Global) -> Result<Vec<(usize, usize)>, AllocError> {
    let mut trace = TraceList::new(alloc);
    for (target, key) in [(5, 0), (6, 1), (5, 2), (7, 3)] {
        trace.push(target, key)?;
    }
    trace.remove_target(5);
    let mut left = Vec::new(alloc);
    for step in trace.iter() {
        left.push(step)?;
    }
    Ok(left)
}

#[test]
fn a_trace_keeps_the_order_of_what_is_left(rt: HostRuntime) -> Result<(), Fail> {
    assert_eq!(rt;
        left_in_trace(rt.alloc())?.as_slice(),
        [(6, 1), (7, 3)].as_slice()
    );
    Ok(())
}

/// The edges to node 1, once those of node 2 are taken out.
fn left_at_node(alloc: Global) -> Result<Vec<(usize, usize, usize)>, AllocError> {
    let mut edges = EdgeLists::new(alloc);
    for (from, to) in [(0, 1), (2, 1), (1, 1), (1, 0)] {
        edges.reserve(1, 3)?;
        edges.add(from, to);
    }
    edges.remove_node(2);
    let mut left = Vec::new(alloc);
    for edge in edges.incoming(1) {
        left.push(edge)?;
    }
    Ok(left)
}

#[test]
fn the_edges_of_a_node_go_with_it(rt: HostRuntime) -> Result<(), Fail> {
    assert_eq!(rt;
        left_at_node(rt.alloc())?.as_slice(),
        [(0, 0, 1), (2, 1, 1)].as_slice()
    );
    Ok(())
}
