//! Groups and covers, worked by hand. A row has the names of facts.

use crate::grouped::{Grouped, grouped_of};
use crate::tasks::{Asked, Row, assert_answers};
use crate::texts::{BACK, BALLS, BELL, BLOCKS, BOTH, GRIPPER, ONE, RUNG, SWITCH, THREE, TWO};
use group_cover::cover;
use lists::List;
use normal_task::Normal;
use reached_task::Fact;
use std::alloc::Global;
use std::test::*;

/// The names of the facts of a group, or of a set of a cover, in the order of facts: by predicate, and then by objects.
type Names = &'static [&'static str];

fn is_named(facts: &[Fact], number: u64, name: &str) -> bool {
    match facts.get(number as usize) {
        Some(fact) => fact.shown.as_slice() == name.as_bytes(),
        None => false,
    }
}

fn has_names(facts: &[Fact], numbers: &[u64], names: &[&str]) -> bool {
    for (place, number) in numbers.iter().enumerate() {
        match names.get(place) {
            Some(name) if is_named(facts, *number, name) => {}
            _ => return false,
        }
    }
    numbers.len() == names.len()
}

fn is_among(facts: &[Fact], groups: &[List<u64>], names: &[&str]) -> bool {
    for group in groups {
        if has_names(facts, group.as_slice(), names) {
            return true;
        }
    }
    false
}

/// Whether the groups are those of the rows, which differ from one another, in whatever order.
fn are_groups(grouped: &Grouped, rows: &[Names]) -> bool {
    let groups = grouped.groups.groups.as_slice();
    for names in rows {
        if !is_among(grouped.reached.facts.as_slice(), groups, names) {
            return false;
        }
    }
    groups.len() == rows.len()
}

/// Whether the sets are those of the rows, in their order.
fn are_sets(facts: &[Fact], sets: &[List<u64>], rows: &[Names]) -> bool {
    for (place, set) in sets.iter().enumerate() {
        match rows.get(place) {
            Some(names) if has_names(facts, set.as_slice(), names) => {}
            _ => return false,
        }
    }
    sets.len() == rows.len()
}

fn is_covered(alloc: Global, grouped: &Grouped, rows: &[Names]) -> bool {
    let facts = grouped.reached.facts.as_slice();
    match cover(alloc, facts.len() as u64, &grouped.groups, false) {
        Ok(cover) => are_sets(facts, cover.sets.as_slice(), rows),
        Err(_) => false,
    }
}

/// The groups of the candidates that are accepted, and the sets of their cover, where they are said.
struct Groups(&'static [Names], Option<&'static [Names]>);

fn are_as_said(alloc: Global, grouped: &Grouped, said: &Groups) -> bool {
    are_groups(grouped, said.0)
        && match said.1 {
            Some(rows) => is_covered(alloc, grouped, rows),
            None => true,
        }
}

impl Asked for Groups {
    fn is_answered(&self, alloc: Global, normal: &Normal) -> bool {
        match grouped_of(alloc, normal) {
            Ok(grouped) => {
                let are_as_said = are_as_said(alloc, &grouped, self);
                drop(grouped);
                are_as_said
            }
            Err(_) => false,
        }
    }
}

/// The robot's room.
const ROOM: Names = &["at-robby(rooma)", "at-robby(roomb)"];

/// A ball's room or gripper.
const FIRST_BALL: Names = &[
    "at(ball1, rooma)",
    "at(ball1, roomb)",
    "carry(ball1, left)",
    "carry(ball1, right)",
];

const SECOND_BALL: Names = &[
    "at(ball2, rooma)",
    "at(ball2, roomb)",
    "carry(ball2, left)",
    "carry(ball2, right)",
];

static ROWS: &[Row<Groups>] = &[
    // Accepted are off alone, which nothing adds, and on with off. Off is true at the start, so both weigh one.
    (SWITCH, ONE, Groups(&[&["off()"], &["on()", "off()"]], None)),
    // Accepted are the hand (free, or holding some block); for each block what is below it (a block, the table, the hand);
    // and for each block what is above it (a block, nothing, the hand). At the start the hand is free, each block is on the
    // table, and each is clear: seven instances weigh one. A block on itself is reachable where deletes are ignored: it is
    // held after pick-up, and clear from the start.
    (
        BLOCKS,
        THREE,
        Groups(
            &[
                &["handempty()", "holding(a)", "holding(b)", "holding(c)"],
                &[
                    "on(a, a)",
                    "on(a, b)",
                    "on(a, c)",
                    "ontable(a)",
                    "holding(a)",
                ],
                &[
                    "on(b, a)",
                    "on(b, b)",
                    "on(b, c)",
                    "ontable(b)",
                    "holding(b)",
                ],
                &[
                    "on(c, a)",
                    "on(c, b)",
                    "on(c, c)",
                    "ontable(c)",
                    "holding(c)",
                ],
                &["on(a, a)", "on(b, a)", "on(c, a)", "clear(a)", "holding(a)"],
                &["on(a, b)", "on(b, b)", "on(c, b)", "clear(b)", "holding(b)"],
                &["on(a, c)", "on(b, c)", "on(c, c)", "clear(c)", "holding(c)"],
            ],
            None,
        ),
    ),
    // Accepted is the place. It is l1 at the start, and each place can be reached. Rung is in no candidate.
    (
        BELL,
        RUNG,
        Groups(&[&["at(l1)", "at(l2)", "at(l3)", "at(l4)"]], None),
    ),
    // Accepted is what q counts. It is a alone at the start, and b can get it.
    (BACK, TWO, Groups(&[&["q(a)", "q(b)"]], None)),
    // With a and b at the start the instance weighs two.
    (BACK, BOTH, Groups(&[], None)),
    // Accepted are the room; for each ball its room or gripper; and for each gripper that it is free, or its ball. Instances
    // for a room or a gripper as the ball, or a room or a ball as the gripper, weigh nothing.
    (
        GRIPPER,
        BALLS,
        Groups(
            &[
                ROOM,
                FIRST_BALL,
                SECOND_BALL,
                &["free(left)", "carry(ball1, left)", "carry(ball2, left)"],
                &["free(right)", "carry(ball1, right)", "carry(ball2, right)"],
            ],
            // The balls' groups have four facts, and that of ball1 comes first. Then each gripper's group has one fact
            // left, so the room is next, and the free grippers stand alone.
            Some(&[
                FIRST_BALL,
                SECOND_BALL,
                ROOM,
                &["free(left)"],
                &["free(right)"],
            ]),
        ),
    ),
];

#[test]
fn groups_and_covers_as_worked_by_hand(rt: HostRuntime) {
    assert_answers(&rt, rt.alloc(), ROWS);
}
