//! The h2 pass over tasks that are written out by hand.

use crate::tasks::{BACK, GATE, Making, RESTING, ROOM, SAFE, assert_made, task};
use std::test::*;

/// A house with a cellar in which a lamp can be lit, which goes out on the way up. Nobody can fly to the attic or read,
/// since the lamp never shines in the hall, and what flickers is two things at once. One may descend by one more operator.
macro_rules! house {
    (operators $operators:literal $([$($descend:literal),*])*) => {
        task! {
            metric 0
            variables 3
                ["var0", -1, 3, "Atom at(cellar)", "Atom at(attic)", "Atom at(hall)"]
                ["var1", -1, 2, "Atom lit()", "NegatedAtom lit()"]
                ["var2", -1, 2, "Atom read()", "NegatedAtom read()"]
            groups 4
                [3, "0 0", "0 1", "0 2"]
                [3, "0 1", "0 2", "1 0"]
                [2, "0 1", "1 0"]
                [2, "0 2", "1 0"]
            state 2 1 1
            goal 2 "1 0" "2 0"
            operators $operators
                ["climb", 0, 2, "0 0 0 2", "0 1 -1 1", 1]
                ["descend", 0, 1, "0 0 2 0", 1]
                $([$($descend),*])*
                ["flicker", 0, 2, "0 1 -1 0", "0 1 -1 1", 1]
                ["fly", 1, "1 0", 1, "0 0 2 1", 1]
                ["light", 1, "0 0", 1, "0 1 -1 0", 1]
                ["read", 2, "0 2", "1 0", 1, "0 2 -1 0", 1]
            rules 0
        }
    };
}

/// The house without the attic, without what needs light in the hall and without what flickers. Two groups are one, and
/// a third has one fact left. That the book is read isn't possible, but the goal.
macro_rules! pruned_house {
    (operators $operators:literal $([$($descend:literal),*])*) => {
        task! {
            metric 0
            variables 3
                ["var0", -1, 2, "Atom at(cellar)", "Atom at(hall)"]
                ["var1", -1, 2, "Atom lit()", "NegatedAtom lit()"]
                ["var2", -1, 2, "Atom read()", "NegatedAtom read()"]
            groups 2
                [2, "0 0", "0 1"]
                [2, "0 1", "1 0"]
            state 1 1 1
            goal 2 "1 0" "2 0"
            operators $operators
                ["climb", 0, 2, "0 0 0 1", "0 1 -1 1", 1]
                ["descend", 0, 1, "0 0 1 0", 1]
                $([$($descend),*])*
                ["light", 1, "0 0", 1, "0 1 -1 0", 1]
            rules 0
        }
    };
}

const HOUSE: &str = house!(operators 6);

const PRUNED_HOUSE: &str = pruned_house!(operators 3);

static MADE: &[(&str, &str)] = &[
    // What no pair of facts allows is left out.
    (HOUSE, PRUNED_HOUSE),
    (PRUNED_HOUSE, PRUNED_HOUSE),
    // An operator that stands twice stays twice: there are two by which one descends.
    (
        house!(operators 7 ["descend", 0, 1, "0 0 2 0", 1]),
        pruned_house!(operators 4 ["descend", 0, 1, "0 0 1 0", 1]),
    ),
    // With a rule or an effect with a condition, and where pairs show nothing, a task stays.
    (RESTING, RESTING),
    (SAFE, SAFE),
    (GATE, GATE),
    (BACK, BACK),
    // The room has rules, derived variables and effects with conditions.
    (ROOM, ROOM),
];

#[test]
fn what_no_pair_of_facts_allows_is_left_out(rt: HostRuntime) {
    assert_made(&rt, rt.alloc(), Making::H2, MADE);
}
