//! Normal tasks of pairs of files, worked by hand.

use crate::shown::{Part, Shown};
use crate::tasks::{Row, assert_answers};
use std::test::*;

/// Pairs of files and what is shown of their normal tasks.
static TASKS: &[Row<Shown>] = &[
    // A `forall` is the negation of a new derived atom, which is true where some object doesn't have the inside.
    (
        "(define (domain all) (:predicates (p ?x) (q) (r))
 (:action set :parameters (?x) :effect (p ?x))
 (:derived (q) (forall (?x) (p ?x))) (:derived (r) (q)))",
        "(define (problem a) (:domain all) (:objects a b) (:init) (:goal (r)))",
        Shown(
            Part::Task,
            "predicates p/1 q/0:derived r/0:derived new-axiom@0/0:derived
action set 1 { 0 1 }: costs 1
 add 0(?0):
axiom 1 0: -3()
axiom 2 0: +1()
axiom 3 0 { 0 1 }: -0(?0)
goal: +2()",
        ),
    ),
    // A goal in one part with a variable is a new derived atom.
    (
        "(define (domain some) (:predicates (p ?x)) (:action set :parameters (?x) :effect (p ?x)))",
        "(define (problem e) (:domain some) (:objects a b) (:init) (:goal (exists (?x) (p ?x))))",
        Shown(
            Part::Task,
            "predicates p/1 new-axiom@0/0:derived
action set 1 { 0 1 }: costs 1
 add 0(?0):
axiom 1 0 { 0 1 }: +0(?0)
goal: +1()",
        ),
    ),
    // Actions come first, then axioms, and the goal last. The axioms of the files stand before those of new predicates.
    (
        "(define (domain order) (:predicates (p ?x) (q) (r) (s))
 (:derived (r) (forall (?x) (p ?x)))
 (:action one :precondition (q) :effect (when (forall (?x) (p ?x)) (q)))
 (:derived (s) (r))
 (:action two :precondition (forall (?x) (p ?x)) :effect (not (q))))",
        "(define (problem o) (:domain order) (:objects a) (:init) (:goal (or (forall (?x) (p ?x)) (s))))",
        Shown(
            Part::Task,
            "predicates p/1:fixed q/0 r/0:derived s/0:derived new-axiom@0/0:derived new-axiom@1/0:derived new-axiom@2/0:derived new-axiom@3/0:derived new-axiom@4/0:derived
action one 0: +1() costs 1
 add 1(): -4()
action two 0: -5() costs 1
 del 1():
axiom 2 0: -6()
axiom 3 0: +2()
axiom 4 0 { 0 }: -0(?0)
axiom 5 0 { 0 }: -0(?0)
axiom 6 0 { 0 }: -0(?0)
axiom 7 0 { 0 }: -0(?0)
axiom 8 0: -7()
axiom 8 0: +3()
goal: +8()",
        ),
    ),
    // An object that only the problem declares may stand in the domain, and constants come before it. An effect counts
    // also where its action has no schema, or its condition no part.
    (
        "(define (domain named) (:predicates (p ?x) (q ?x) (r) (s)) (:constants c)
 (:action never :precondition (or) :effect (not (p b)))
 (:action go :precondition (and (q b) (r)) :effect (and (q c) (when (not ()) (r)))))",
        "(define (problem n) (:domain named) (:objects a b) (:init) (:goal (and (p b) (s))))",
        Shown(
            Part::Task,
            "predicates p/1 q/1 r/0 s/0:fixed
action go 0: +1(#2) +2() costs 1
 add 1(#0):
goal: +0(#2) +3()",
        ),
    ),
    // The variables of a part stand behind those of an axiom's head, which alone are shown.
    (
        "(define (domain joined) (:types t) (:predicates (r ?x ?y) (d ?x ?y))
 (:derived (d ?x - t ?y) (or (r ?x ?y) (exists (?z - t) (and (r ?x ?z) (r ?z ?y)))))
 (:action set :parameters (?x ?y) :effect (r ?x ?y)))",
        "(define (problem j) (:domain joined) (:objects a b - object c - t) (:init) (:goal (d c a)))",
        Shown(
            Part::Task,
            "predicates r/2 d/2:derived
action set 2 { 0 1 2 } { 0 1 2 }: costs 1
 add 0(?0?1):
axiom 1 2 { 2 } { 0 1 2 }: +0(?0?1)
axiom 1 2 { 2 } { 0 1 2 } { 2 }: +0(?0?2) +0(?2?1)
goal: +1(#2#0)",
        ),
    ),
];

/// A domain whose second action has this text behind its name; the new predicates, and what is shown behind the first
/// action, up to the goal. The predicates are 0, 1 and 2, the objects are 0, 1 and 2, of which 2 alone is a `t`, and no
/// object is a `none`.
macro_rules! action {
    ($action:literal, $new:literal, $shown:literal) => {
        (
            concat!(
                "(define (domain d) (:types t none) (:predicates (p ?x) (q) (r ?x ?y))
 (:action all :effect (and (p a) (q) (r a b))) (:action go ", $action, "))"
            ),
            "(define (problem p) (:domain d) (:objects a b - object c - t) (:init) (:goal ()))",
            Shown(
                Part::Task,
                concat!(
                    "predicates p/1 q/0 r/2", $new, "
action all 0: costs 1
 add 0(#0):
 add 1():
 add 2(#0#1):
", $shown, "
goal:"
                ),
            ),
        )
    };
}

static ACTIONS: &[Row<Shown>] = &[
    // ---- quantifiers
    action!(
        ":precondition (forall (?x - none) (p ?x))",
        " new-axiom@0/0:derived",
        "action go 0: -3() costs 1
axiom 3 0 { }: -0(?0)"
    ),
    action!(
        ":precondition (exists (?x - none) (p ?x))",
        "",
        "action go 0 { }: +0(?0) costs 1"
    ),
    action!(
        ":parameters (?x) :precondition (not (exists (?y - t) (r ?x ?y)))",
        " new-axiom@0/1:derived",
        "action go 1 { 0 1 2 }: -3(?0) costs 1
axiom 3 1 { 0 1 2 } { 2 }: +2(?0?1)"
    ),
    action!(
        ":parameters (?x) :precondition (not (forall (?y - t) (r ?x ?y)))",
        "",
        "action go 1 { 0 1 2 } { 2 }: -2(?0?1) costs 1"
    ),
    // From the outside in and from left to right; the outermost bound argument comes first.
    action!(
        ":parameters (?a ?b) :precondition (and
 (forall (?x - t) (imply (forall (?y) (or (r ?y ?x) (r ?b ?y))) (r ?x ?a)))
 (forall (?z) (p ?z)))",
        " new-axiom@0/2:derived new-axiom@1/2:derived new-axiom@2/0:derived",
        "action go 2 { 0 1 2 } { 0 1 2 }: -3(?0?1) -5() costs 1
axiom 3 2 { 0 1 2 } { 0 1 2 } { 2 }: -4(?1?2) -2(?2?0)
axiom 4 2 { 0 1 2 } { 2 } { 0 1 2 }: -2(?2?1) -2(?0?2)
axiom 5 0 { 0 1 2 }: -0(?0)"
    ),
    // An inner variable counts, also where it has an outer one's name.
    action!(
        ":parameters (?x) :precondition (and (p ?x) (exists (?x - t) (p ?x)) (forall (?x) (p ?x)) (r ?x ?x))",
        " new-axiom@0/0:derived",
        "action go 1 { 0 1 2 } { 2 }: +0(?0) +0(?1) -3() +2(?0?0) costs 1
axiom 3 0 { 0 1 2 }: -0(?0)"
    ),
    // ---- parts
    action!(
        ":precondition (not (and (p a) (q)))",
        "",
        "action go 0: -0(#0) costs 1
action go 0: -1() costs 1"
    ),
    action!(
        ":precondition (and (or (p a) (p b)) (imply (q) (p c)))",
        "",
        "action go 0: +0(#0) -1() costs 1
action go 0: +0(#0) +0(#2) costs 1
action go 0: +0(#1) -1() costs 1
action go 0: +0(#1) +0(#2) costs 1"
    ),
    action!(
        ":parameters (?x ?y) :precondition (not (or (= ?x ?y) (not (= ?y b)) (imply (q) (q))))",
        "",
        "action go 2 { 0 1 2 } { 0 1 2 }: !(?0?1) =(?1#1) +1() -1() costs 1"
    ),
    action!(
        ":precondition (exists (?x) (or (exists (?y - t) (r ?x ?y)) (p ?x)))",
        "",
        "action go 0 { 0 1 2 } { 2 }: +2(?0?1) costs 1
action go 0 { 0 1 2 }: +0(?0) costs 1"
    ),
    // Variables of a later member stand behind those of the earlier ones.
    action!(
        ":parameters (?x) :precondition (and (exists (?y - t) (r ?x ?y)) (exists (?y ?z) (r ?y ?z)))",
        "",
        "action go 1 { 0 1 2 } { 2 } { 0 1 2 } { 0 1 2 }: +2(?0?1) +2(?2?3) costs 1"
    ),
    // Members that have one part stand beside one that has two.
    action!(
        ":parameters (?x) :precondition (and (q) (p ?x) (or (p a) (exists (?y - t) (r ?y ?x))) (exists (?z) (r ?z ?x)) (q))",
        "",
        "action go 1 { 0 1 2 } { 0 1 2 }: +1() +0(?0) +0(#0) +2(?1?0) +1() costs 1
action go 1 { 0 1 2 } { 2 } { 0 1 2 }: +1() +0(?0) +2(?1?0) +2(?2?0) +1() costs 1"
    ),
    // ---- effects
    action!(
        ":parameters (?x) :effect (when (r ?x a) (not (p ?x)))",
        "",
        "action go 1 { 0 1 2 }: costs 1
 del 0(?0): +2(?0#0)"
    ),
    // What holds before the action is its effect's condition, also where the action deletes it.
    action!(
        ":effect (and (not (p a)) (when (p a) (q)))",
        "",
        "action go 0: costs 1
 del 0(#0):
 add 1(): +0(#0)"
    ),
    action!(
        ":parameters (?x) :effect (forall (?y - t) (forall (?z) (when (r ?x ?z) (r ?z ?y))))",
        "",
        "action go 1 { 0 1 2 }: costs 1
 add 2(?2?1) { 2 } { 0 1 2 }: +2(?0?2)"
    ),
    action!(
        ":parameters (?x) :effect (forall (?x - t) (forall (?x) (p ?x)))",
        "",
        "action go 1 { 0 1 2 }: costs 1
 add 0(?2) { 2 } { 0 1 2 }:"
    ),
    // A condition is cut for each atom by itself, with new predicates of its own.
    action!(
        ":effect (when (forall (?x) (p ?x)) (and (q) (not (p a))))",
        " new-axiom@0/0:derived new-axiom@1/0:derived",
        "action go 0: costs 1
 add 1(): -3()
 del 0(#0): -4()
axiom 3 0 { 0 1 2 }: -0(?0)
axiom 4 0 { 0 1 2 }: -0(?0)"
    ),
    action!(
        ":effect (when (exists (?x) (p ?x)) (when (exists (?x - t) (r ?x ?x)) (q)))",
        "",
        "action go 0: costs 1
 add 1() { 0 1 2 } { 2 }: +0(?0) +2(?1?1)"
    ),
    // The variables of a part of the precondition stand before those of the effect.
    action!(
        ":parameters (?x) :precondition (exists (?w - t) (r ?x ?w))
 :effect (forall (?y - t) (when (p ?x) (when (exists (?z) (r ?y ?z)) (p ?y))))",
        "",
        "action go 1 { 0 1 2 } { 2 }: +2(?0?1) costs 1
 add 0(?2) { 2 } { 0 1 2 }: +0(?0) +2(?2?3)"
    ),
    // Those of each `forall` around the atom stand before those of the part, also where the `when` stands outside.
    action!(
        ":parameters (?x) :effect (when (or (exists (?z - t) (r ?x ?z)) (q)) (forall (?y) (p ?y)))",
        "",
        "action go 1 { 0 1 2 }: costs 1
 add 0(?1) { 0 1 2 } { 2 }: +2(?0?2)
 add 0(?1) { 0 1 2 }: +1()"
    ),
];

/// A goal over the predicate 0 and the objects 0 and 1, the new predicates, the axioms, and the literals of the goal.
macro_rules! goal {
    ($goal:literal, $new:literal, $axioms:literal, $literals:literal) => {
        (
            "(define (domain d) (:predicates (p ?x)))",
            concat!("(define (problem p) (:domain d) (:objects a b) (:init) (:goal ", $goal, "))"),
            Shown(
                Part::Task,
                concat!("predicates p/1:fixed", $new, $axioms, "\ngoal:", $literals),
            ),
        )
    };
}

static GOALS: &[Row<Shown>] = &[
    goal!("()", "", "", ""),
    goal!("(not (p b))", "", "", " -0(#1)"),
    goal!("(or)", " new-axiom@0/0:derived", "", " +1()"),
    goal!(
        "(or (p a) (p b))",
        " new-axiom@0/0:derived",
        "\naxiom 1 0: +0(#0)\naxiom 1 0: +0(#1)",
        " +1()"
    ),
    goal!(
        "(forall (?x) (p ?x))",
        " new-axiom@0/0:derived",
        "\naxiom 1 0 { 0 1 }: -0(?0)",
        " -1()"
    ),
];

const COUNTED: &str = "(define (problem p) (:domain d) (:init) (:goal ()) )";

const PRICED: &str =
    "(define (problem p) (:domain d) (:init) (:goal ()) (:metric minimize (total-cost)))";

/// An effect over the functions 0, 1 and 2, the problem, and what the action costs.
macro_rules! cost {
    ($effect:literal, $problem:expr, $cost:literal) => {
        (
            concat!(
                "(define (domain d) (:predicates (p)) (:functions (total-cost) (price ?x) (toll))
 (:action go :parameters (?x) :effect ", $effect, "))"
            ),
            $problem,
            Shown(Part::Costs, $cost),
        )
    };
}

static COSTS: &[Row<Shown>] = &[
    cost!(
        "(increase (total-cost) (price ?x))",
        PRICED,
        " costs function 1(?0)"
    ),
    cost!(
        "(and (p) (increase (total-cost) (toll)))",
        PRICED,
        " costs function 2()"
    ),
    cost!("(increase (total-cost) 5)", PRICED, " costs 5"),
    cost!("(p)", PRICED, " costs 0"),
    cost!("(increase (total-cost) (price ?x))", COUNTED, " costs 1"),
    cost!("(p)", COUNTED, " costs 1"),
];

/// What `:init` states stands once, in the order of the file, and `total-cost` has no value.
static STATED: &[Row<Shown>] = &[
    (
        "(define (domain d) (:constants c) (:predicates (p ?x) (q)) (:functions (total-cost) (price ?x) (toll)))",
        "(define (problem p) (:domain d) (:objects a b) (:init (p a) (q) (p a) (not (p b)) (= (price b) 3)
 (= (total-cost) 0) (p c) (= (toll) 0) (= (price b) 3) (= (price c) 2147483647) (q))
 (:goal ()) (:metric minimize (total-cost)))",
        Shown(
            Part::State,
            "objects c a b
init 0(#1) 1() 0(#0)
values 1(#2)=3 2()=0 1(#0)=2147483647
metric",
        ),
    ),
    (
        "(define (domain d))",
        "(define (problem p) (:domain d) (:init) (:goal ()))",
        Shown(Part::State, "objects\ninit\nvalues\nno metric"),
    ),
];

#[test]
fn normal_tasks_as_worked_by_hand(rt: HostRuntime) {
    assert_answers(&rt, rt.alloc(), TASKS);
    assert_answers(&rt, rt.alloc(), ACTIONS);
    assert_answers(&rt, rt.alloc(), GOALS);
    assert_answers(&rt, rt.alloc(), COSTS);
    assert_answers(&rt, rt.alloc(), STATED);
}
