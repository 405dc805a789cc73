//! How many candidates are tried for pairs of files, and which are accepted, worked by hand.

use crate::candidates::{PartRow, are_candidates};
use crate::tasks::{Asked, Row, assert_answers};
use crate::texts::{BACK, BALLS, BELL, BLOCKS, GRIPPER, ONE, RUNG, SWITCH, THREE, TWO};
use invariant_guess::find;
use normal_task::Normal;
use std::alloc::Global;
use std::test::*;

/// How many candidates are asked for, how many are tried, and which are accepted.
struct Search(u64, u64, &'static [&'static [PartRow]]);

impl Asked for Search {
    fn is_answered(&self, alloc: Global, normal: &Normal) -> bool {
        matches!(find(alloc, normal, self.0), Ok(found) if found.tried == self.1
            && are_candidates(alloc, normal, found.accepted.as_slice(), self.2))
    }
}

static ROWS: &[Row<Search>] = &[
    // The switch: off, and on with off.
    (
        SWITCH,
        ONE,
        Search(
            100000,
            3,
            &[
                &[("off", &[], None)],
                &[("on", &[], None), ("off", &[], None)],
            ],
        ),
    ),
    // Two alone: off.
    (SWITCH, ONE, Search(2, 2, &[&[("off", &[], None)]])),
    // Blocks: the hand, what is below a block, and what is above one.
    (
        BLOCKS,
        THREE,
        Search(
            100000,
            20,
            &[
                &[("handempty", &[], None), ("holding", &[], Some(0))],
                &[
                    ("on", &[0], Some(1)),
                    ("ontable", &[0], None),
                    ("holding", &[0], None),
                ],
                &[
                    ("on", &[1], Some(0)),
                    ("clear", &[0], None),
                    ("holding", &[0], None),
                ],
            ],
        ),
    ),
    // What is taken from an object may be given back to it: one object has it at a time.
    (BACK, TWO, Search(100000, 4, &[&[("q", &[], Some(0))]])),
    // One place at a time.
    (BELL, RUNG, Search(100000, 3, &[&[("at", &[], Some(0))]])),
    // One room at a time; a ball is in a room or carried; a gripper is free or carries a ball.
    (
        GRIPPER,
        BALLS,
        Search(
            100000,
            12,
            &[
                &[("at-robby", &[], Some(0))],
                &[("at", &[0], Some(1)), ("carry", &[0], Some(1))],
                &[("free", &[0], None), ("carry", &[1], Some(0))],
            ],
        ),
    ),
];

#[test]
fn candidates_are_tried_and_accepted_as_worked_by_hand(rt: HostRuntime) {
    assert_answers(&rt, rt.alloc(), ROWS);
}
