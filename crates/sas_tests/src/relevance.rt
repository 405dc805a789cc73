//! The relevance pass over tasks that are written out by hand.

use crate::tasks::{self, Making, ROOM, assert_made, task};
use std::test::*;

/// `b` is to have `p`: that `a` has it is of no account.
const BACK: &str = task! {
    metric 0
    variables 2
        ["var0", -1, 2, "Atom q(a)", "Atom q(b)"]
        ["var1", -1, 2, "Atom p(b)", "NegatedAtom p(b)"]
    groups 1
        [2, "0 0", "0 1"]
    state 0 1
    goal 1 "1 0"
    operators 3
        ["act a b", 0, 1, "0 0 0 1", 1]
        ["act b a", 0, 2, "0 0 1 0", "0 1 -1 0", 1]
        ["act b b", 1, "0 1", 1, "0 1 -1 0", 1]
    rules 0
};

/// Two things can be done, and the first is wanted, or nothing is. The operators aren't in order.
macro_rules! shop {
    (goal $goals:literal $($goal:literal)*) => {
        task! {
            metric 0
            variables 2
                ["var0", -1, 2, "Atom done(a)", "NegatedAtom done(a)"]
                ["var1", -1, 2, "Atom done(b)", "NegatedAtom done(b)"]
            groups 0
            state 1 1
            goal $goals $($goal)*
            operators 2
                ["go b", 0, 1, "0 1 -1 0", 1]
                ["go a", 0, 1, "0 0 -1 0", 1]
            rules 0
        }
    };
}

/// The shop without the second thing, which is of no account.
const SMALL_SHOP: &str = task! {
    metric 0
    variables 1
        ["var0", -1, 2, "Atom done(a)", "NegatedAtom done(a)"]
    groups 0
    state 1
    goal 1 "0 0"
    operators 1
        ["go a", 0, 1, "0 0 -1 0", 1]
    rules 0
};

/// Nothing is left out.
const TOUCH: &str = task! {
    metric 0
    variables 2
        ["var0", -1, 2, "Atom p()", "NegatedAtom p()"]
        ["var1", -1, 2, "Atom q()", "NegatedAtom q()"]
    groups 0
    state 0 0
    goal 1 "1 1"
    operators 2
        ["drop-p", 0, 1, "0 0 0 1", 1]
        ["touch", 0, 2, "1 0 0 1 -1 0", "2 0 1 1 0 1 -1 1", 1]
    rules 0
};

/// The dust is left out, and with it the second operator of two that are one without it.
const GATE: &str = task! {
    metric 0
    variables 5
        ["var0", -1, 2, "Atom open()", "NegatedAtom open()"]
        ["var1", -1, 2, "Atom through()", "NegatedAtom through()"]
        ["var2", -1, 2, "Atom key()", "NegatedAtom key()"]
        ["var3", -1, 2, "Atom ringing()", "NegatedAtom ringing()"]
        ["var4", 0, 2, "Atom safe()", "NegatedAtom safe()"]
    groups 0
    state 1 1 0 1 1
    goal 1 "4 0"
    operators 3
        ["close", 0, 1, "0 0 -1 1", 1]
        ["go", 1, "0 0", 3, "1 2 0 1 -1 0", "0 3 -1 0", "1 2 0 3 -1 1", 1]
        ["open", 0, 1, "0 0 -1 0", 1]
    rules 1
        [1, "1 0", "4 1 0"]
};

static LEFT: &[(&str, &str)] = &[
    // What is of no account is left out.
    (tasks::BACK, BACK),
    (shop!(goal 1 "0 0"), SMALL_SHOP),
    // What can influence the goal stays: through conditions of effects and of rules, and by two effects with different new
    // values on one variable.
    (TOUCH, TOUCH),
    (tasks::GATE, GATE),
    (ROOM, ROOM),
    // With an empty goal the task stays. The operators of the shop stay in their own order.
    (shop!(goal 0), shop!(goal 0)),
];

#[test]
fn what_is_of_no_account_is_left_out(rt: HostRuntime) {
    assert_made(&rt, rt.alloc(), Making::Relevance, LEFT);
}
