//! Searches of graphs.

use names::{Arc, Searches};
use std::alloc::{AllocError, Global};
use std::test::*;

/// Whether the searches of these arcs are right, as they always should be. No contract says so.
fn are_searched(alloc: Global, count: usize, pairs: &[(usize, usize)]) -> Result<bool, AllocError> {
    let arcs: Vec<Arc> = pairs
        .iter()
        .map(|&(from, to)| Arc { from, to })
        .collect(alloc)?;
    let searches = Searches::new(alloc, count, &arcs)?;
    Ok(searches.are_right(count, &arcs))
}

static SMALL_GRAPHS: &[&[(usize, usize)]] = &[
    &[],
    &[(0, 0)],
    &[(0, 1), (1, 2), (0, 2)],
    &[(0, 1), (1, 2), (2, 0)],
    // two cycles, and a way from one to the other
    &[(0, 1), (1, 0), (1, 2), (2, 3), (3, 4), (4, 3)],
    // a cycle inside a cycle
    &[(0, 1), (1, 2), (2, 1), (2, 3), (3, 0)],
    &[
        (5, 4),
        (4, 3),
        (3, 5),
        (3, 2),
        (2, 1),
        (1, 2),
        (0, 5),
        (5, 5),
    ],
    &[(0, 1), (0, 1), (1, 0), (2, 0), (2, 3)],
];

/// Arcs between eight numbers, as a generator of numbers picks them.
fn mixed(alloc: Global, seed: u64) -> Result<Vec<(usize, usize)>, AllocError> {
    let mut state = seed;
    let mut pairs = Vec::new(alloc);
    for _ in 0..11_usize {
        state = state
            .wrapping_mul(6364136223846793005)
            .wrapping_add(1442695040888963407);
        pairs.push((((state >> 33) % 8) as usize, ((state >> 45) % 8) as usize))?;
    }
    Ok(pairs)
}

#[test]
fn searches_of_small_and_of_mixed_graphs_are_right(rt: HostRuntime) -> Result<(), AllocError> {
    for graph in SMALL_GRAPHS {
        assert!(rt; are_searched(rt.alloc(), 6, graph)?);
    }
    for seed in 0..2000_u64 {
        let pairs = mixed(rt.alloc(), seed)?;
        assert!(rt; are_searched(rt.alloc(), 8, &pairs)?, "{seed}");
    }
    Ok(())
}
