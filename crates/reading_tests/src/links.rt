//! Which names are on a cycle of links.

use names::{Links, Names};
use std::alloc::{AllocError, Global};
use std::test::*;

/// As many numbers, each as the four bytes of a name.
fn numbers(alloc: Global, count: u32) -> Result<Vec<[u8; 4]>, AllocError> {
    let mut names = Vec::new(alloc);
    for number in 0..count {
        names.push(number.to_be_bytes())?;
    }
    Ok(names)
}

/// Links from each of the names to the next one.
fn chain<'a>(
    alloc: Global,
    first: &'a [u8],
    names: &'a [[u8; 4]],
) -> Result<Links<'a>, AllocError> {
    let mut links = Links::new(alloc);
    let mut last = first;
    for name in names {
        links.add(last, name.as_slice())?;
        last = name.as_slice();
    }
    Ok(links)
}

/// Whether each of the names is on the cycle, or none is.
fn are_all(cycle: &Names<'_>, names: &[&[u8]], is_there: bool) -> bool {
    names.iter().all(|name| cycle.has(name) == is_there)
}

/// Whether the former names are on a cycle, and the latter aren't.
fn are_told(
    alloc: Global,
    links: &Links<'_>,
    cyclic: &[&[u8]],
    others: &[&[u8]],
) -> Result<bool, AllocError> {
    let cycle = links.cycles(alloc)?;
    Ok(are_all(&cycle, cyclic, true) && are_all(&cycle, others, false))
}

/// Whether a chain of names is no cycle, and a link back from the last one of them to the seventh makes one.
fn is_closed<'a>(
    alloc: Global,
    links: &mut Links<'a>,
    sixth: &[u8],
    seventh: &'a [u8],
    last: &'a [u8],
) -> Result<bool, AllocError> {
    let is_open = are_told(alloc, links, &[], &[b"first"])?;
    links.add(last, seventh)?;
    links.add(last, b"other")?;
    let told = are_told(alloc, links, &[seventh, last], &[b"first", b"other", sixth])?;
    Ok(is_open && told)
}

fn closes(alloc: Global, names: &[[u8; 4]]) -> Result<bool, AllocError> {
    let (sixth, seventh) = (6_u32.to_be_bytes(), 7_u32.to_be_bytes());
    let last = 99_999_u32.to_be_bytes();
    let mut links = chain(alloc, b"first", names)?;
    let is_closed = is_closed(alloc, &mut links, &sixth, &seventh, &last);
    drop(links);
    is_closed
}

#[test]
fn long_chains_are_no_cycles(rt: HostRuntime) -> Result<(), AllocError> {
    let names = numbers(rt.alloc(), 100_000)?;
    assert!(rt; closes(rt.alloc(), &names)?);
    Ok(())
}
