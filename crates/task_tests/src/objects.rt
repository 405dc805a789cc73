use atom_objects::Objects;
use std::alloc::{AllocError, Global};
use std::test::*;

/// The numbers, taken one by one.
fn pushed(alloc: Global, numbers: &[u64]) -> Result<Objects, AllocError> {
    let mut objects = Objects::new(alloc);
    for number in numbers {
        objects.push(*number)?;
    }
    Ok(objects)
}

fn are_kept(objects: Result<Objects, AllocError>, numbers: &[u64]) -> bool {
    matches!(objects, Ok(objects) if objects.as_slice() == numbers)
}

static LISTS: &[&[u64]] = &[&[3, 1, 4], &[3, 1, 4, 1], &[], &[5, 6, 7, 8]];

#[test]
fn short_and_long_lists_keep_their_numbers(rt: HostRuntime) {
    let alloc = rt.alloc();
    for numbers in LISTS {
        let taken = Objects::from_slice(alloc, numbers);
        let is_so = are_kept(taken, numbers) && are_kept(pushed(alloc, numbers), numbers);
        assert!(rt; is_so, "{numbers:?}");
    }
}
