//! Operations on sets, at numbers; the size of a count of steps.
use flow_term::List;
use lattice_base::Steps;
use lattice_sets::{SortedSet, contains, includes, inter, minus, union};
use std::alloc::{AllocError, Global};
use std::marker::Brand;
use std::test::Fail;

/// The set of the numbers.
pub(crate) fn set_of(alloc: Global, numbers: &[u32]) -> Result<SortedSet<u32>, AllocError> {
    let mut set = SortedSet::new(alloc);
    for number in numbers {
        set.insert(*number)?;
    }
    Ok(set)
}

/// What the operations on two sets give, one behind the other.
fn results(
    alloc: Global,
    a: &SortedSet<u32>,
    b: &SortedSet<u32>,
) -> Result<Vec<List<u32>>, AllocError> {
    let mut lists = Vec::new(alloc);
    lists.push(union(alloc, a.items(), b.items())?)?;
    lists.push(inter(alloc, a.items(), b.items())?)?;
    lists.push(minus(alloc, a.items(), b.items())?)?;
    Ok(lists)
}

#[test]
fn operations_on_sets_have_their_names(rt: HostRuntime) -> Result<(), Fail> {
    let a = set_of(rt.alloc(), &[3, 1, 3, 2])?;
    let b = set_of(rt.alloc(), &[9, 2])?.duplicate(rt.alloc())?;
    let lists = results(rt.alloc(), &a, &b)?;
    let want: [&[u32]; 3] = [&[1, 2, 3, 9], &[2], &[1, 3]];
    for (list, items) in lists.iter().zip(want) {
        assert_eq!(rt; list.as_slice(), items);
    }
    assert!(rt; contains(a.items(), &2) && !contains(a.items(), &9));
    assert!(rt; includes(a.items(), a.items()) && !includes(a.items(), b.items()));
    Ok(())
}

#[test]
fn a_count_of_steps_takes_no_memory(rt: HostRuntime) {
    assert_eq!(rt; size_of::<Steps<Brand>>(), 0);
}
