//! A text as the planner's own translator writes it: an operator without objects has a space at the end of its name.

use crate::reading::{Refused, assert_refused, is_read_as, with_line};
use crate::tasks::task;
use sas_reader::SasPlace;
use std::alloc::AllocError;
use std::test::*;

const BELL: &str = task! {
    metric 1
    variables 3
        ["var0", -1, 2, "Atom at(a)", "Atom at(b)"]
        ["var1", -1, 2, "Atom rung()", "NegatedAtom rung()"]
        ["var2", 0, 2, "Atom heard()", "NegatedAtom heard()"]
    groups 1
        [2, "0 0", "0 1"]
    state 0 1 1
    goal 2 "0 0" "2 0"
    operators 3
        ["move a b", 0, 1, "0 0 0 1", 5]
        ["move b a", 0, 1, "0 0 1 0", 5]
        ["ring ", 1, "0 1", 1, "0 1 -1 0", 0]
    rules 1
        [1, "1 0", "2 1 0"]
};

// What other translators may write and isn't read.
static REFUSED: &[Refused] = &[
    // Lines that end with a carriage return and a line feed.
    (1, b"begin_version\r", 1, SasPlace::Version),
    // A cost where operators have none of their own.
    (5, b"0", 51, SasPlace::Operators),
    // A layer below -1.
    (24, b"-2", 24, SasPlace::Variables),
    // A group of one fact.
    (31, b"1", 31, SasPlace::Groups),
    // A fact of a group twice.
    (33, b"0 0", 33, SasPlace::Groups),
    // An axiom that doesn't start from its variable's default.
    (38, b"0", 72, SasPlace::Rules),
    // Two goals for one variable.
    (43, b"0 1", 43, SasPlace::Goal),
    // A cost past 31 bits.
    (51, b"2147483648", 51, SasPlace::Operators),
    // Two spaces at the end of a name.
    (61, b"ring  ", 61, SasPlace::Operators),
    // An axiom that reads a variable of its own layer.
    (71, b"2 0", 72, SasPlace::Rules),
];

#[test]
fn what_the_planner_writes_is_read_and_what_others_may_write_is_refused(
    rt: HostRuntime,
) -> Result<(), AllocError> {
    let bell = BELL.as_bytes();
    let unspaced = with_line(rt.alloc(), bell, 61, b"ring")?;
    assert!(rt; is_read_as(rt.alloc(), bell, &unspaced)?);
    assert_refused(&rt, rt.alloc(), bell, REFUSED);
    Ok(())
}
