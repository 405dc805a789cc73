//! The text of a house with a lamp, in which each rule for a line is broken in turn.

use crate::reading::{Refused, assert_refused, is_cut, is_read_as, with_line};
use sas_reader::SasPlace;
use std::alloc::{AllocError, Global};
use std::process::Abort;
use std::test::*;

const HOUSE: &[u8] = b"begin_version
3
end_version
begin_metric
1
end_metric
4
begin_variable
var0
-1
3
Atom at(a)
Atom at(b)
<none of those>
end_variable
begin_variable
var1
-1
2
Atom lit()
NegatedAtom lit()
end_variable
begin_variable
var2
0
2
Atom seeing()
NegatedAtom seeing()
end_variable
begin_variable
var3
1
3
Atom safe()
NegatedAtom safe()
Atom unknown()
end_variable
1
begin_mutex_group
3
0 0
0 1
1 0
end_mutex_group
begin_state
0
1
1
1
end_state
begin_goal
2
1 0
3 0
end_goal
2
begin_operator
go a b
1
1 0
2
0 0 0 1
1 2 0 0 0 2
3
end_operator
begin_operator
wait
0
1
2 0 1 2 0 1 -1 1
2147483647
end_operator
3
begin_rule
2
0 1
1 0
2 1 0
end_rule
begin_rule
1
2 0
3 1 0
end_rule
begin_rule
1
1 0
3 1 0
end_rule
";

// Lines of fixed words, which are exactly those.
static FIXED_WORDS: &[Refused] = &[
    (1, b"begin_versions", 1, SasPlace::Version),
    (1, b"begin_version\r", 1, SasPlace::Version),
    (1, b"", 1, SasPlace::Version),
    (2, b"4", 2, SasPlace::Version),
    (2, b"03", 2, SasPlace::Version),
    (3, b"end_metric", 3, SasPlace::Version),
    (4, b"begin_version", 4, SasPlace::Metric),
    (6, b"end_metric ", 6, SasPlace::Metric),
    (8, b"begin_variables", 8, SasPlace::Variables),
    (22, b" end_variable", 22, SasPlace::Variables),
    (39, b"begin_mutex", 39, SasPlace::Groups),
    (44, b"end_group", 44, SasPlace::Groups),
    (45, b"begin_goal", 45, SasPlace::State),
    (50, b"0", 50, SasPlace::State),
    (51, b"begin_state", 51, SasPlace::Goal),
    (55, b"end_goals", 55, SasPlace::Goal),
    (57, b"begin_rule", 57, SasPlace::Operators),
    (65, b"end_rule", 65, SasPlace::Operators),
    (74, b"begin_operator", 74, SasPlace::Rules),
    (89, b"end_operator", 89, SasPlace::Rules),
];

// The metric, which is 0 or 1, and counts, which are numbers below 2^64, at least 2 for the facts of a group. A count that is
// another number moves the fault to the line that it makes wrong.
static COUNTS: &[Refused] = &[
    (5, b"2", 5, SasPlace::Metric),
    (5, b"01", 5, SasPlace::Metric),
    (5, b"", 5, SasPlace::Metric),
    (7, b"04", 7, SasPlace::Variables),
    (7, b"", 7, SasPlace::Variables),
    (7, b"-1", 7, SasPlace::Variables),
    (7, b"+4", 7, SasPlace::Variables),
    (7, b"4 ", 7, SasPlace::Variables),
    (7, b"4x", 7, SasPlace::Variables),
    (7, b"18446744073709551616", 7, SasPlace::Variables),
    (7, b"18446744073709551615", 38, SasPlace::Variables),
    (7, b"5", 38, SasPlace::Variables),
    (7, b"3", 30, SasPlace::Groups),
    (38, b"", 38, SasPlace::Groups),
    (38, b"2", 45, SasPlace::Groups),
    (38, b"0", 39, SasPlace::State),
    (40, b"1", 40, SasPlace::Groups),
    (40, b"0", 40, SasPlace::Groups),
    (40, b"2", 43, SasPlace::Groups),
    (40, b"4", 44, SasPlace::Groups),
    (52, b"02", 52, SasPlace::Goal),
    (52, b"3", 55, SasPlace::Goal),
    (52, b"1", 54, SasPlace::Goal),
    (56, b"x", 56, SasPlace::Operators),
    (56, b"1000000", 73, SasPlace::Operators),
    (56, b"1", 66, SasPlace::Rules),
    (59, b"-1", 59, SasPlace::Operators),
    (59, b"2", 61, SasPlace::Operators),
    (61, b"", 61, SasPlace::Operators),
    (61, b"3", 64, SasPlace::Operators),
    (61, b"1", 63, SasPlace::Operators),
    (73, b"3 ", 73, SasPlace::Rules),
    (73, b"4", 90, SasPlace::Rules),
    (73, b"2", 85, SasPlace::End),
    (75, b"00", 75, SasPlace::Rules),
    (75, b"3", 78, SasPlace::Rules),
    (75, b"1", 77, SasPlace::Rules),
];

// A variable's name has its own number, its layer is -1 or a number, its range is at least 1, and its facts have names.
static VARIABLES: &[Refused] = &[
    (9, b"var1", 9, SasPlace::Variables),
    (9, b"var00", 9, SasPlace::Variables),
    (9, b"var", 9, SasPlace::Variables),
    (9, b"Var0", 9, SasPlace::Variables),
    (9, b"var0 ", 9, SasPlace::Variables),
    (17, b"var0", 17, SasPlace::Variables),
    (10, b"-2", 10, SasPlace::Variables),
    (10, b"-", 10, SasPlace::Variables),
    (10, b"-01", 10, SasPlace::Variables),
    (10, b"00", 10, SasPlace::Variables),
    (10, b"18446744073709551616", 10, SasPlace::Variables),
    (11, b"0", 11, SasPlace::Variables),
    (11, b"03", 11, SasPlace::Variables),
    (11, b"-1", 11, SasPlace::Variables),
    (11, b"2", 14, SasPlace::Variables),
    (11, b"4", 16, SasPlace::Variables),
    (12, b"", 12, SasPlace::Variables),
    (12, b" ", 12, SasPlace::Variables),
    (12, b" Atom at(a)", 12, SasPlace::Variables),
    (12, b"Atom at(a) ", 12, SasPlace::Variables),
];

// Pairs name a variable and a value of it. Those of a group rise by variable and value, those of conditions by variable. A
// value of the state is one of its variable.
static PAIRS: &[Refused] = &[
    (42, b"0 0", 42, SasPlace::Groups),
    (43, b"0 1", 43, SasPlace::Groups),
    (43, b"0 0", 43, SasPlace::Groups),
    (41, b"1 0", 42, SasPlace::Groups),
    (42, b"0 3", 42, SasPlace::Groups),
    (43, b"4 0", 43, SasPlace::Groups),
    (43, b"1 0 ", 43, SasPlace::Groups),
    (43, b" 1 0", 43, SasPlace::Groups),
    (43, b"1  0", 43, SasPlace::Groups),
    (43, b"1\t0", 43, SasPlace::Groups),
    (43, b"1", 43, SasPlace::Groups),
    (43, b"1 0 0", 43, SasPlace::Groups),
    (43, b"01 0", 43, SasPlace::Groups),
    (43, b"1 -1", 43, SasPlace::Groups),
    (43, b"", 43, SasPlace::Groups),
    (54, b"1 1", 54, SasPlace::Goal),
    (54, b"0 0", 54, SasPlace::Goal),
    (53, b"3 0", 54, SasPlace::Goal),
    (53, b"1 2", 53, SasPlace::Goal),
    (54, b"4 0", 54, SasPlace::Goal),
    (54, b"3  0", 54, SasPlace::Goal),
    (46, b"3", 46, SasPlace::State),
    (47, b"2", 47, SasPlace::State),
    (46, b"00", 46, SasPlace::State),
    (46, b"-1", 46, SasPlace::State),
    (46, b"", 46, SasPlace::State),
    (46, b"0 ", 46, SasPlace::State),
    (59, b"2\n1 0", 61, SasPlace::Operators),
    (59, b"2\n2 0", 61, SasPlace::Operators),
    (60, b"1 2", 60, SasPlace::Operators),
    (60, b"1", 60, SasPlace::Operators),
    (77, b"0 2", 77, SasPlace::Rules),
    (76, b"1 0", 77, SasPlace::Rules),
    (76, b"1 1", 77, SasPlace::Rules),
    (77, b"1 2", 77, SasPlace::Rules),
];

// An operator's name, its effect lines and its cost.
static OPERATORS: &[Refused] = &[
    (58, b"", 58, SasPlace::Operators),
    (58, b" ", 58, SasPlace::Operators),
    (58, b" go a b", 58, SasPlace::Operators),
    (58, b"go a b  ", 58, SasPlace::Operators),
    (62, b"0 0 0", 62, SasPlace::Operators),
    (62, b"0 0 0 1 0", 62, SasPlace::Operators),
    (62, b"1 0 0 1", 62, SasPlace::Operators),
    (62, b"1 0 0 0 1", 62, SasPlace::Operators),
    (62, b"", 62, SasPlace::Operators),
    (62, b"0 0 0 3", 62, SasPlace::Operators),
    (62, b"0 0 3 1", 62, SasPlace::Operators),
    (62, b"0 0 -2 1", 62, SasPlace::Operators),
    (62, b"00 0 0 1", 62, SasPlace::Operators),
    (62, b"0 0  0 1", 62, SasPlace::Operators),
    (62, b"0 0 0 1 ", 62, SasPlace::Operators),
    (62, b"0 4 0 0", 62, SasPlace::Operators),
    (62, b"0 2 1 0", 62, SasPlace::Operators),
    (18, b"5", 70, SasPlace::Operators),
    (62, b"0 1 0 1", 62, SasPlace::Operators),
    (60, b"0 0", 62, SasPlace::Operators),
    (62, b"0 0 -1 1", 63, SasPlace::Operators),
    (62, b"0 0 1 1", 63, SasPlace::Operators),
    (63, b"1 2 0 0 1 2", 63, SasPlace::Operators),
    (63, b"1 2 0 0 -1 2", 63, SasPlace::Operators),
    (70, b"2 2 0 0 1 1 -1 1", 70, SasPlace::Operators),
    (70, b"2 0 1 0 2 1 -1 1", 70, SasPlace::Operators),
    (70, b"2 0 1 2 2 1 -1 1", 70, SasPlace::Operators),
    (70, b"1 0 1 2 0 1 -1 1", 70, SasPlace::Operators),
    (70, b"3 0 1 2 0 1 -1 1", 70, SasPlace::Operators),
    (
        70,
        b"18446744073709551615 0 1 2 0 1 -1 1",
        70,
        SasPlace::Operators,
    ),
    (71, b"2147483648", 71, SasPlace::Operators),
    (71, b"-1", 71, SasPlace::Operators),
    (71, b"01", 71, SasPlace::Operators),
    (5, b"0", 64, SasPlace::Operators),
];

// The line that says what a rule changes.
static RULES: &[Refused] = &[
    (78, b"1 1 0", 78, SasPlace::Rules),
    (32, b"-1", 83, SasPlace::Rules),
    (78, b"4 1 0", 78, SasPlace::Rules),
    (77, b"2 0", 78, SasPlace::Rules),
    (77, b"3 0", 78, SasPlace::Rules),
    (82, b"3 0", 83, SasPlace::Rules),
    (25, b"1", 83, SasPlace::Rules),
    (32, b"0", 83, SasPlace::Rules),
    (78, b"2 0 1", 78, SasPlace::Rules),
    (48, b"0", 78, SasPlace::Rules),
    (78, b"2 1 1", 78, SasPlace::Rules),
    (78, b"2 1 2", 78, SasPlace::Rules),
    (88, b"3 1 2", 88, SasPlace::Rules),
    (83, b"3 1 2", 88, SasPlace::Rules),
    (78, b"2 1", 78, SasPlace::Rules),
    (78, b"2 1 0 0", 78, SasPlace::Rules),
    (78, b"2 -1 0", 78, SasPlace::Rules),
    (78, b"2 01 0", 78, SasPlace::Rules),
    (78, b"2 1 0 ", 78, SasPlace::Rules),
];

// What stands after the last rule, a further empty line too.
static ENDS: &[Refused] = &[
    (90, b"x", 90, SasPlace::End),
    (90, b"\n", 90, SasPlace::End),
    (90, b"x\n", 90, SasPlace::End),
    (90, b" ", 90, SasPlace::End),
];

// Lines that may stand in place of those of the house.
static ACCEPTED: &[(usize, &[u8])] = &[
    // The house itself.
    (1, b"begin_version"),
    (10, b"-1"),
    (14, b"x"),
    (14, b"Atom  at(c)"),
    (32, b"18446744073709551615"),
    (43, b"0 2"),
    (43, b"3 2"),
    (46, b"2"),
    (53, b"0 2"),
    (54, b"3 2"),
    (54, b"2 0"),
    (56, b"2"),
    (58, b"go"),
    (58, b"go  a"),
    (60, b"2 0"),
    (60, b"3 2"),
    (60, b"1 1"),
    (62, b"0 0 0 0"),
    (62, b"2 0 2 2 0 0 0 1"),
    (63, b"0 0 0 2"),
    (70, b"0 1 -1 1"),
    (70, b"0 1 1 0"),
    (70, b"1 1 0 1 -1 1"),
    (70, b"3 0 1 2 0 3 0 1 -1 1"),
    (71, b"0"),
    (71, b"2147483646"),
    (82, b"1 0"),
    (87, b"2 1"),
    (76, b"0 0"),
];

// How many lines stand before each line of a section: the range of these numbers.
static SECTIONS: &[(u64, u64, SasPlace)] = &[
    (0, 3, SasPlace::Version),
    (3, 6, SasPlace::Metric),
    (6, 37, SasPlace::Variables),
    (37, 44, SasPlace::Groups),
    (44, 50, SasPlace::State),
    (50, 55, SasPlace::Goal),
    (55, 72, SasPlace::Operators),
    (72, 89, SasPlace::Rules),
];

#[test]
fn lines_that_break_their_rules_are_refused(rt: HostRuntime) {
    let tables = [
        FIXED_WORDS,
        COUNTS,
        VARIABLES,
        PAIRS,
        OPERATORS,
        RULES,
        ENDS,
    ];
    for rows in tables {
        assert_refused(&rt, rt.alloc(), HOUSE, rows);
    }
}

/// Whether the house with this line in place of another is read, and written as it was read.
fn is_accepted(alloc: Global, line: usize, other: &[u8]) -> Result<bool, AllocError> {
    let text = with_line(alloc, HOUSE, line, other)?;
    is_read_as(alloc, text.as_slice(), text.as_slice())
}

#[test]
fn other_lines_that_meet_their_rules_are_read(rt: HostRuntime) {
    for row in ACCEPTED {
        let answer = is_accepted(rt.alloc(), row.0, row.1);
        assert!(rt; matches!(answer, Ok(true)), "{} {:?}", row.0, row.1);
    }
}

fn assert_cuts(rt: &impl Abort, alloc: Global, section: (u64, u64, SasPlace)) {
    let (first, last, place) = section;
    for before in first..last.min(89) {
        let answer = is_cut(alloc, HOUSE, before, place);
        assert!(rt; matches!(answer, Ok(true)), "{before}");
    }
}

#[test]
fn a_text_that_ends_early_lacks_its_next_line(rt: HostRuntime) {
    for section in SECTIONS {
        assert_cuts(&rt, rt.alloc(), *section);
    }
}
