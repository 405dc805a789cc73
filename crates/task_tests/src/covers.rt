//! Covers of facts that are numbers.

ghost use Rattle.std.specs.Prelude.{◌<◌};

use group_cover::{Groups, cover};
use lists::List;
use std::alloc::{AllocError, Global};
use std::test::*;

fn rows(alloc: Global, rows: &[&[u64]]) -> Result<List<List<u64>>, AllocError> {
    let mut lists = Vec::new(alloc);
    for row in rows {
        lists.push(List::from_vec(Vec::from_slice(alloc, row)?))?;
    }
    Ok(List::from_vec(lists))
}

/// Whether these are the sets of the cover, or of that with whole groups.
fn has_sets(
    alloc: Global,
    facts: u64,
    groups: &[&[u64]],
    full: bool,
    sets: &[&[u64]],
) -> Result<bool, AllocError> {
    let groups = Groups {
        groups: rows(alloc, groups)?,
    };
    let cover = cover(alloc, facts, &groups, full)?;
    Ok(cover.sets == rows(alloc, sets)?)
}

/// How many facts there are, the groups, whether whole groups are taken, and the sets of the cover.
type Row = (
    u64,
    &'static [&'static [u64]],
    bool,
    &'static [&'static [u64]],
);

const ALONE: &[&[u64]] = &[&[0], &[1], &[2]];

const OVERLAPPING: &[&[u64]] = &[&[0, 1, 2, 3], &[2, 3, 4, 5], &[1, 4, 5]];

const TIED: &[&[u64]] = &[&[0, 1, 2], &[1, 4, 5], &[0, 6, 7]];

const THREE: &[&[u64]] = &[&[0, 1, 2], &[0, 3, 4], &[0, 5, 6]];

static ROWS: &[Row] = &[
    // ---- parts of groups
    // Facts of no group stand alone.
    (0, &[], false, &[]),
    (3, &[], false, ALONE),
    (3, &[&[1]], false, ALONE),
    // The largest uncovered part is taken.
    (4, &[&[0, 1], &[1, 2, 3]], false, &[&[1, 2, 3], &[0]]),
    // After the first group, the other two have the same two uncovered facts, and only one of them is taken.
    (7, OVERLAPPING, false, &[&[0, 1, 2, 3], &[4, 5], &[6]]),
    // Of equal counts the first list is taken.
    (
        6,
        &[&[2, 4], &[0, 5]],
        false,
        &[&[0, 5], &[2, 4], &[1], &[3]],
    ),
    // With as many uncovered facts, the whole lists are compared, covered facts and all.
    (8, TIED, false, &[&[0, 1, 2], &[6, 7], &[4, 5], &[3]]),
    (7, THREE, false, &[&[0, 1, 2], &[3, 4], &[5, 6]]),
    // ---- whole groups
    // A fact stands in each whole group that is taken.
    (7, THREE, true, THREE),
    // The second group is as long as the first, but has fewer uncovered facts than the third.
    (
        10,
        &[&[0, 1, 2, 3, 4], &[0, 1, 2, 5, 6], &[7, 8, 9]],
        true,
        &[&[0, 1, 2, 3, 4], &[7, 8, 9], &[0, 1, 2, 5, 6]],
    ),
    // Of equal counts the first whole list is taken.
    (8, TIED, true, &[&[0, 1, 2], &[0, 6, 7], &[1, 4, 5], &[3]]),
    // Two groups have the same two uncovered facts: the second of them has none when the first is taken.
    (7, OVERLAPPING, true, &[&[0, 1, 2, 3], &[1, 4, 5], &[6]]),
    // No whole group is taken without two uncovered facts.
    (0, &[], true, &[]),
    (3, &[], true, ALONE),
    (3, &[&[1]], true, ALONE),
    // A group that stands there twice, or inside another, is taken once, and a last fact stands alone.
    (2, &[&[0, 1], &[0, 1]], true, &[&[0, 1]]),
    (3, &[&[1, 2], &[0, 1, 2]], true, &[&[0, 1, 2]]),
    (4, &[&[0, 1, 2], &[2, 3]], true, &[&[0, 1, 2], &[3]]),
];

#[test]
fn covers_as_worked_by_hand(rt: HostRuntime) {
    for (number, row) in ROWS.iter().enumerate() {
        let answer = has_sets(rt.alloc(), row.0, row.1, row.2, row.3);
        assert!(rt; matches!(answer, Ok(true)), "row {number}");
    }
}

/// Whether groups of so many facts each, in reverse order, are taken in order, and then the last facts, which are fewer and
/// in no group.
fn are_parts_taken(alloc: Global, facts: &[u64], size: usize) -> Result<bool, AllocError>
    requires { 0 < size }
{
    let sets: Vec<&[u64]> = facts.chunks(size).collect(alloc)?;
    let mut groups = Vec::from_slice(alloc, &sets)?;
    groups.pop();
    groups.reverse();
    has_sets(alloc, facts.len() as u64, &groups, false, &sets)
}

fn are_many_covered(alloc: Global, facts: u64, size: usize) -> Result<bool, AllocError>
    requires { 0 < size }
{
    let facts: Vec<u64> = (0..facts).collect(alloc)?;
    are_parts_taken(alloc, &facts, size)
}

#[test]
fn covers_of_many_facts(rt: HostRuntime) {
    let is_large_taken = are_many_covered(rt.alloc(), 12_001, 12_000);
    assert!(rt; matches!(is_large_taken, Ok(true)), "one large group");
    let are_pairs_taken = are_many_covered(rt.alloc(), 400_001, 2);
    assert!(rt; matches!(are_pairs_taken, Ok(true)), "many pairs");
}
