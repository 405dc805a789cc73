//! Ground tasks, reached tasks and layers, worked by hand.

ghost use Rattle.std.specs.Prelude.{IfOk};
ghost use Rattle.ground_task.specs.Lawful.{IsLawful as IsLawfulGround};
ghost use Rattle.reached_task.specs.Lawful.{IsLawful};

use crate::grounds::reached_of;
use crate::lines::{Names, are_in_order, are_shown, is_shown};
use crate::tasks::{Asked, Row, assert_answers};
use crate::texts::{CHAIN, CIRCLE, ENDS, FORK, HALF, LAYERS, LOW, ROADS, SPREAD, START};
use axiom_layers::layers;
use ground_task::Ground;
use normal_task::Normal;
use reachable_instances::{reachable, reachable_effects};
use reached_task::{Fact, Reached};
use static_matcher::instances;
use std::alloc::{AllocError, Global};
use std::test::*;

/// A task as lines. Those of actions and axioms stand with the number of times that they are repeated, since no order of
/// them is fixed.
struct Task {
    init: &'static [&'static str],
    actions: &'static [(&'static str, usize)],
    axioms: &'static [(&'static str, usize)],
    goal: &'static str,
}

/// The ground task of a pair of texts, the actions that are made where those that can't be reached aren't, what is left of these
/// without effects that can't be reached, the reached task, and the reachable facts, each derived one with its layer.
struct Grounded {
    ground: Task,
    made: &'static [(&'static str, usize)],
    left: &'static [(&'static str, usize)],
    reached: Task,
    facts: &'static [(&'static str, Option<u64>)],
}

fn is_ground(ground: &Ground, task: &Task, actions: &[(&str, usize)]) -> bool {
    let names = Names { ground, facts: &[] };
    are_in_order(&names, ground.init.as_slice(), task.init)
        && are_shown(&names, ground.actions.as_slice(), actions)
        && are_shown(&names, ground.axioms.as_slice(), task.axioms)
        && is_shown(&names, &ground.goal, task.goal)
}

fn is_reached(ground: &Ground, reached: &Reached, task: &Task) -> bool {
    let names = Names {
        ground,
        facts: reached.facts.as_slice(),
    };
    are_in_order(&names, reached.init.as_slice(), task.init)
        && are_shown(&names, reached.actions.as_slice(), task.actions)
        && are_shown(&names, reached.axioms.as_slice(), task.axioms)
        && is_shown(&names, &reached.goal, task.goal)
}

fn is_fact(fact: &Fact, layer: u64, row: &(&str, Option<u64>)) -> bool {
    fact.shown.as_slice() == row.0.as_bytes()
        && fact.derived == row.1.is_some()
        && layer == row.1.unwrap_or(0)
}

fn are_facts(facts: &[Fact], layers: &[u64], rows: &[(&str, Option<u64>)]) -> bool {
    facts.len() == rows.len()
        && layers.len() == rows.len()
        && facts
            .iter()
            .zip(layers)
            .zip(rows)
            .all(|((fact, layer), row)| is_fact(fact, *layer, row))
}

fn has_facts(alloc: Global, reached: &Reached, rows: &[(&str, Option<u64>)]) -> bool
    requires { IsLawful reached.now }
{
    let facts = reached.facts.as_slice();
    matches!(layers(alloc, reached), Ok(layers) if are_facts(facts, layers.as_slice(), rows))
}

fn is_reached_so(alloc: Global, ground: &Ground, row: &Grounded) -> bool
    requires { IsLawfulGround ground.now }
{
    match reached_of(alloc, ground) {
        Ok(reached) => {
            let is_so = is_reached(ground, &reached, &row.reached)
                && has_facts(alloc, &reached, row.facts);
            drop(reached);
            is_so
        }
        Err(_) => false,
    }
}

/// Whether the ground task is that of the row, with these actions, and what can be reached of it as well.
fn is_grounded(
    alloc: Global,
    ground: Result<Ground, AllocError>,
    row: &Grounded,
    actions: &[(&str, usize)],
) -> bool
    requires { IfOk ground IsLawfulGround }
{
    match ground {
        Ok(ground) => {
            let is_so = is_ground(&ground, &row.ground, actions)
                && is_reached_so(alloc, &ground, row);
            drop(ground);
            is_so
        }
        Err(_) => false,
    }
}

impl Asked for Grounded {
    fn is_answered(&self, alloc: Global, normal: &Normal) -> bool {
        is_grounded(alloc, instances(alloc, normal), self, self.ground.actions)
            && is_grounded(alloc, reachable(alloc, normal), self, self.made)
            && is_grounded(alloc, reachable_effects(alloc, normal), self, self.left)
    }
}

static ROWS: &[Row<Grounded>] = &[
    // Neither q nor r can be reached: r is added only where q is true, and q only where r is. So the axiom for d goes, with d,
    // and so do the effects on r, under q, and on q, which deletes a fact that is never true. `not (q)` and `not (d)` are true
    // then, and the action that needs r goes. It is made, since the condition under which r is added isn't looked at: it names no object
    // of the effect's own.
    (
        CIRCLE,
        HALF,
        Grounded {
            ground: Task {
                init: &["p()"],
                actions: &[
                    (
                        "act | p() !d() | +r() q() | +s() !q() | -q() | -s() p() | -p()",
                        1,
                    ),
                    ("never | r() | +q()", 1),
                ],
                axioms: &[("d() | q()", 1), ("e() | p() !q()", 1)],
                goal: " s() !r()",
            },
            made: &[
                (
                    "act | p() !d() | +r() q() | +s() !q() | -q() | -s() p() | -p()",
                    1,
                ),
                ("never | r() | +q()", 1),
            ],
            left: &[
                (
                    "act | p() !d() | +r() q() | +s() !q() | -q() | -s() p() | -p()",
                    1,
                ),
                ("never | r() | +q()", 1),
            ],
            reached: Task {
                init: &["p()"],
                actions: &[("act | p() | +s() | -s() p() | -p()", 1)],
                axioms: &[("e() | p()", 1)],
                goal: " s()",
            },
            facts: &[("p()", None), ("s()", None), ("e()", Some(0))],
        },
    ),
    // Roads are static. From a two roads lead, so its action stands twice, and none leads from b and c. An effect adds b
    // alone: a is the place itself, and no road leads to c. The axiom has an instance for each of the two roads. The goal asks
    // for a road that isn't there.
    (
        ROADS,
        ENDS,
        Grounded {
            ground: Task {
                init: &["at(a)"],
                actions: &[("go a | at(a) | +at(b) | -at(a)", 2)],
                axioms: &[("near(a) | at(a)", 1), ("near(a) | at(b)", 1)],
                goal: "never",
            },
            made: &[("go a | at(a) | +at(b) | -at(a)", 2)],
            left: &[("go a | at(a) | +at(b) | -at(a)", 2)],
            reached: Task {
                init: &["at(a)"],
                actions: &[("go a | at(a) | +at(b) | -at(a)", 2)],
                axioms: &[("near(a) | at(a)", 1), ("near(a) | at(b)", 1)],
                goal: "never",
            },
            facts: &[("at(a)", None), ("at(b)", None), ("near(a)", Some(0))],
        },
    ),
    // f rests on d and e, whose layers are 0 and 1. Its last axiom can't be reached, since q can't, and so it doesn't count.
    (
        LAYERS,
        LOW,
        Grounded {
            ground: Task {
                init: &["p()"],
                actions: &[("act | p() | -p()", 1), ("never | q() | +q()", 1)],
                axioms: &[
                    ("d() | p()", 1),
                    ("e() | !d()", 1),
                    ("f() | d()", 1),
                    ("f() | !e()", 1),
                    ("f() | q() g()", 1),
                    ("g() | e()", 1),
                ],
                goal: " f() q()",
            },
            made: &[("act | p() | -p()", 1)],
            left: &[("act | p() | -p()", 1)],
            reached: Task {
                init: &["p()"],
                actions: &[("act | p() | -p()", 1)],
                axioms: &[
                    ("d() | p()", 1),
                    ("e() | !d()", 1),
                    ("f() | d()", 1),
                    ("f() | !e()", 1),
                    ("g() | e()", 1),
                ],
                goal: "never",
            },
            facts: &[
                ("p()", None),
                ("d()", Some(0)),
                ("e()", Some(1)),
                ("f()", Some(2)),
                ("g()", Some(2)),
            ],
        },
    ),
    // The last action waits for b, and then for c; the lost one waits for z, which nothing adds.
    (
        CHAIN,
        START,
        Grounded {
            ground: Task {
                init: &["a()"],
                actions: &[
                    ("last | b() c() | +e()", 1),
                    ("second | b() | +c()", 1),
                    ("first | a() | +b() | -a()", 1),
                    ("lost | a() z() | +y() | -z()", 1),
                ],
                axioms: &[],
                goal: " e()",
            },
            made: &[
                ("last | b() c() | +e()", 1),
                ("second | b() | +c()", 1),
                ("first | a() | +b() | -a()", 1),
            ],
            left: &[
                ("last | b() c() | +e()", 1),
                ("second | b() | +c()", 1),
                ("first | a() | +b() | -a()", 1),
            ],
            reached: Task {
                init: &["a()"],
                actions: &[
                    ("last | b() c() | +e()", 1),
                    ("second | b() | +c()", 1),
                    ("first | a() | +b() | -a()", 1),
                ],
                axioms: &[],
                goal: " e()",
            },
            facts: &[("a()", None), ("b()", None), ("c()", None), ("e()", None)],
        },
    ),
    // Of the tank t one effect adds what the next one waits for. The last one waits for d, which stays dry.
    (
        SPREAD,
        FORK,
        Grounded {
            ground: Task {
                init: &["wet(t, a)"],
                actions: &[(
                    "flow t | | +wet(t, b) wet(t, a) | +wet(t, c) wet(t, b) | +wet(t, e) wet(t, d)",
                    1,
                )],
                axioms: &[],
                goal: " wet(t, c)",
            },
            made: &[(
                "flow t | | +wet(t, b) wet(t, a) | +wet(t, c) wet(t, b) | +wet(t, e) wet(t, d)",
                1,
            )],
            left: &[("flow t | | +wet(t, b) wet(t, a) | +wet(t, c) wet(t, b)", 1)],
            reached: Task {
                init: &["wet(t, a)"],
                actions: &[("flow t | | +wet(t, b) wet(t, a) | +wet(t, c) wet(t, b)", 1)],
                axioms: &[],
                goal: " wet(t, c)",
            },
            facts: &[
                ("wet(t, a)", None),
                ("wet(t, b)", None),
                ("wet(t, c)", None),
            ],
        },
    ),
];

#[test]
fn what_can_be_reached_is_kept(rt: HostRuntime) {
    assert_answers(&rt, rt.alloc(), ROWS);
}
