//! What is said of candidates, and their repairs, worked by hand.

use crate::candidates::{PartRow, are_candidates, candidate_of};
use crate::tasks::{Asked, Row, assert_answers};
use crate::texts::{BACK, BLOCKS, GRIPPER, SWITCH};
use contradictions::Candidate;
use invariant_check::{AddPlace, Verdict, check_candidate, repairs};
use normal_task::Normal;
use std::alloc::Global;
use std::test::*;

/// What is said of a candidate. One that isn't balanced has the schema and the row of its first add effect that isn't,
/// and its repairs in their order.
enum Said {
    Accepted,
    Dropped,
    Unbalanced(u64, u64, &'static [&'static [PartRow]]),
}

/// A candidate, and what is said of it.
struct Says(&'static [PartRow], Said);

/// A problem with these objects.
macro_rules! problem {
    ($objects:literal) => {
        concat!("(define (problem p) (:domain d) (:objects ", $objects, ") (:init) (:goal ()))")
    };
}

const ROOMS: &str = problem!("a b - room c d - ball e f - gripper");

static WORKED: &[Row<Says>] = &[
    // Nothing deletes on where it is added. With off beside it, off is deleted there, which the precondition requires.
    (
        SWITCH,
        problem!(""),
        Says(
            &[("on", &[], None)],
            Said::Unbalanced(0, 0, &[&[("on", &[], None), ("off", &[], None)]]),
        ),
    ),
    (
        SWITCH,
        problem!(""),
        Says(&[("on", &[], None), ("off", &[], None)], Said::Accepted),
    ),
    // Nothing adds off.
    (
        SWITCH,
        problem!(""),
        Says(&[("off", &[], None)], Said::Accepted),
    ),
    // Where p(x) is added q(x) is deleted, but q(y) comes back where y is x; there is no further predicate.
    (
        BACK,
        problem!("a b"),
        Says(&[("p", &[0], None), ("q", &[0], None)], Said::Dropped),
    ),
    // q(y) is added and q(x) deleted: it comes back only where y is x, and then q(y) was true before.
    (
        BACK,
        problem!("a b"),
        Says(&[("q", &[], Some(0))], Said::Accepted),
    ),
    // A block is on something, on the table or held: each action adds one of these to it and deletes another.
    (
        BLOCKS,
        problem!("a b c"),
        Says(
            &[
                ("on", &[0], Some(1)),
                ("ontable", &[0], None),
                ("holding", &[0], None),
            ],
            Said::Accepted,
        ),
    ),
    // pick-up adds holding(x) in its last row, and deletes ontable(x) and clear(x), which it requires.
    (
        BLOCKS,
        problem!("a b c"),
        Says(
            &[("holding", &[0], None)],
            Said::Unbalanced(
                0,
                3,
                &[
                    &[("ontable", &[0], None), ("holding", &[0], None)],
                    &[("clear", &[0], None), ("holding", &[0], None)],
                ],
            ),
        ),
    ),
    // A ball is in one room, or is carried by one gripper.
    (
        GRIPPER,
        ROOMS,
        Says(
            &[("at", &[0], Some(1)), ("carry", &[0], Some(1))],
            Said::Accepted,
        ),
    ),
    // drop adds at(b, r) and deletes carry(b, g) alone, of which the ball is the first argument.
    (
        GRIPPER,
        ROOMS,
        Says(
            &[("at", &[0], Some(1))],
            Said::Unbalanced(2, 0, &[&[("at", &[0], Some(1)), ("carry", &[0], Some(1))]]),
        ),
    ),
    // A gripper is free, or carries one ball.
    (
        GRIPPER,
        ROOMS,
        Says(
            &[("free", &[0], None), ("carry", &[1], Some(0))],
            Said::Accepted,
        ),
    ),
];

const SPARE: &str = "(define (domain d) (:types spare) (:predicates (on) (off))
 (:action flip :precondition (off) :effect (and (on) (forall (?l - spare) (not (off))))))";

/// Effects with variables and conditions.
static EFFECTS: &[Row<Says>] = &[
    // The delete's variable is given ?from: the atom and its condition are then required. It comes back only where ?to
    // is ?from, and then the added atom was true before.
    (
        "(define (domain d) (:predicates (at ?x ?l))
 (:action go :parameters (?x ?from ?to) :precondition (at ?x ?from)
  :effect (and (at ?x ?to) (forall (?l) (when (at ?x ?l) (not (at ?x ?l)))))))",
        problem!("a b"),
        Says(&[("at", &[0], Some(1))], Said::Accepted),
    ),
    // Not all objects of ?from are towns, so the variable isn't given ?from; nothing else is required to be the place.
    (
        "(define (domain d) (:types town) (:predicates (at ?x ?l))
 (:action go :parameters (?x ?from ?to) :precondition (at ?x ?from)
  :effect (and (at ?x ?to) (forall (?l - town) (when (at ?x ?l) (not (at ?x ?l)))))))",
        problem!("a b - town c"),
        Says(&[("at", &[0], Some(1))], Said::Dropped),
    ),
    // The variable is given that of the add: each ?l is turned on where it is off.
    (
        "(define (domain d) (:predicates (on ?x) (off ?x))
 (:action all :effect (forall (?l) (when (off ?l) (and (on ?l) (not (off ?l)))))))",
        problem!("a b"),
        Says(&[("on", &[0], None), ("off", &[0], None)], Said::Accepted),
    ),
    // The add beside itself for another ?l adds a second atom: it isn't light, though home(x) is deleted.
    (
        "(define (domain d) (:predicates (at ?x ?l) (home ?x))
 (:action go :parameters (?x) :precondition (home ?x) :effect (and (not (home ?x)) (forall (?l) (at ?x ?l)))))",
        problem!("a b"),
        Says(
            &[("at", &[0], Some(1)), ("home", &[0], None)],
            Said::Dropped,
        ),
    ),
    // Each ?l is ?to, so the two atoms are the same.
    (
        "(define (domain d) (:predicates (at ?x ?l) (home ?x))
 (:action go :parameters (?x ?to) :precondition (home ?x)
  :effect (and (not (home ?x)) (forall (?l) (when (= ?l ?to) (at ?x ?l))))))",
        problem!("a b"),
        Says(
            &[("at", &[0], Some(1)), ("home", &[0], None)],
            Said::Accepted,
        ),
    ),
    // The deleted atom comes back where ?from is ?to, for another ?l than the c of the add.
    (
        "(define (domain d) (:constants c) (:predicates (at ?x ?l) (p ?x ?l))
 (:action act :parameters (?x ?from ?to) :precondition (and (at ?x ?from) (not (= ?to c)))
  :effect (and (forall (?l) (when (= ?l c) (p ?x ?l))) (not (at ?x ?from))
   (forall (?l) (when (and (at ?x ?l) (= ?l ?to)) (at ?x ?l))))))",
        problem!("a b"),
        Says(
            &[("at", &[0], Some(1)), ("p", &[0], Some(1))],
            Said::Dropped,
        ),
    ),
    // The variable stands in the condition alone, and is given c, which is near.
    (
        "(define (domain d) (:constants c) (:predicates (on) (off) (near ?l))
 (:action flip :precondition (and (off) (near c))
  :effect (and (on) (forall (?l) (when (near ?l) (not (off)))))))",
        problem!("a b"),
        Says(&[("on", &[], None), ("off", &[], None)], Said::Accepted),
    ),
    // The variable stands nowhere. Some object has to fit all the same: where there is no spare one nothing is deleted.
    (
        SPARE,
        problem!("a - spare b"),
        Says(&[("on", &[], None), ("off", &[], None)], Said::Accepted),
    ),
    (
        SPARE,
        problem!("a b"),
        Says(&[("on", &[], None), ("off", &[], None)], Said::Dropped),
    ),
    // Nothing requires the deleted atom to be true.
    (
        "(define (domain d) (:predicates (on) (off)) (:action flip :effect (and (on) (not (off)))))",
        problem!(""),
        Says(&[("on", &[], None), ("off", &[], None)], Said::Dropped),
    ),
    // The condition of the add requires the deleted atom, and what the delete asks for.
    (
        "(define (domain d) (:predicates (on) (off))
 (:action flip :effect (and (when (off) (on)) (when (off) (not (off))))))",
        problem!(""),
        Says(&[("on", &[], None), ("off", &[], None)], Said::Accepted),
    ),
    // The delete asks for more than what the add requires, and no effect changes armed.
    (
        "(define (domain d) (:predicates (on) (off) (armed))
 (:action flip :precondition (off) :effect (and (on) (when (armed) (not (off))))))",
        problem!(""),
        Says(&[("on", &[], None), ("off", &[], None)], Said::Dropped),
    ),
    // The delete asks for what the precondition requires.
    (
        "(define (domain d) (:predicates (on) (off) (armed))
 (:action flip :precondition (and (off) (armed)) :effect (and (on) (when (armed) (not (off))))))",
        problem!(""),
        Says(&[("on", &[], None), ("off", &[], None)], Said::Accepted),
    ),
    // The deleted atom comes back where armed holds.
    (
        "(define (domain d) (:predicates (on) (off) (armed))
 (:action flip :precondition (off) :effect (and (on) (not (off)) (when (armed) (off)))))",
        problem!(""),
        Says(&[("on", &[], None), ("off", &[], None)], Said::Dropped),
    ),
    // It would come back only where off is false, which the precondition excludes.
    (
        "(define (domain d) (:predicates (on) (off))
 (:action flip :precondition (off) :effect (and (on) (not (off)) (when (not (off)) (off)))))",
        problem!(""),
        Says(&[("on", &[], None), ("off", &[], None)], Said::Accepted),
    ),
];

const SWAP: &str = "(define (domain d) (:constants hall yard) (:predicates (here ?l) (gone ?l))
 (:action swap :precondition (and (gone hall) (gone yard))
  :effect (and (here hall) (here yard) (not (gone hall)) (not (gone yard)))))";

/// Lists of literals that are contradictory, and others.
static CONTRADICTIONS: &[Row<Says>] = &[
    // The added atom is true before.
    (
        "(define (domain d) (:predicates (on)) (:action keep :precondition (on) :effect (on)))",
        problem!(""),
        Says(&[("on", &[], None)], Said::Accepted),
    ),
    // Another atom of the instance is true before.
    (
        "(define (domain d) (:predicates (on ?x))
 (:action copy :parameters (?x ?y) :precondition (on ?x) :effect (on ?y)))",
        problem!("a b"),
        Says(&[("on", &[], Some(0))], Said::Dropped),
    ),
    // The conditions of the two adds exclude each other.
    (
        "(define (domain d) (:predicates (a) (p) (q) (r))
 (:action act :precondition (r) :effect (and (when (a) (p)) (when (not (a)) (q)) (not (r)))))",
        problem!(""),
        Says(
            &[("p", &[], None), ("q", &[], None), ("r", &[], None)],
            Said::Accepted,
        ),
    ),
    // at(x, z) is true before, so p(x) alone is new; at(x, y) is deleted, and is another atom than at(x, z).
    (
        "(define (domain d) (:predicates (at ?x ?l) (p ?x))
 (:action act :parameters (?x ?y ?z) :precondition (and (at ?x ?y) (at ?x ?z) (not (= ?y ?z)))
  :effect (and (p ?x) (not (at ?x ?y)) (at ?x ?z))))",
        problem!("a b"),
        Says(&[("at", &[0], Some(1)), ("p", &[0], None)], Said::Accepted),
    ),
    // a and b are two atoms of the instance, so act is never applicable where its weight is one.
    (
        "(define (domain d) (:predicates (a) (b) (c)) (:action act :precondition (and (a) (b)) :effect (c))
 (:action reset :effect (and (not (a)) (not (b)))))",
        problem!(""),
        Says(
            &[("a", &[], None), ("b", &[], None), ("c", &[], None)],
            Said::Accepted,
        ),
    ),
    // Without a part for a they are no two atoms of it; and act deletes nothing, so one more part is no repair.
    (
        "(define (domain d) (:predicates (a) (b) (c)) (:action act :precondition (and (a) (b)) :effect (c))
 (:action reset :effect (and (not (a)) (not (b)))))",
        problem!(""),
        Says(&[("b", &[], None), ("c", &[], None)], Said::Dropped),
    ),
    // They are two atoms of the instance for x, and c(y) is of that for y.
    (
        "(define (domain d) (:predicates (a ?x) (b ?x) (c ?x))
 (:action act :parameters (?x ?y) :precondition (and (a ?x) (b ?x)) :effect (c ?y))
 (:action reset :parameters (?x) :effect (and (not (a ?x)) (not (b ?x)))))",
        problem!("o1 o2"),
        Says(
            &[("a", &[0], None), ("b", &[0], None), ("c", &[0], None)],
            Said::Dropped,
        ),
    ),
    // p(x) and q(y) are never of one instance, since no object is of both types.
    (
        "(define (domain d) (:types t u) (:predicates (p ?x) (q ?x) (r ?x))
 (:action act :parameters (?x - t ?y - u) :precondition (and (r ?x) (r ?y))
  :effect (and (p ?x) (q ?y) (not (r ?x)) (not (r ?y)))))",
        problem!("a - t b - u"),
        Says(
            &[("p", &[0], None), ("q", &[0], None), ("r", &[0], None)],
            Said::Accepted,
        ),
    ),
    // The parameter stands nowhere, so it has no class: no list is contradictory by its empty range. Nothing deletes on.
    (
        "(define (domain d) (:types spare) (:predicates (on))
 (:action turn :parameters (?x - spare) :effect (on)))",
        problem!("a"),
        Says(&[("on", &[], None)], Said::Dropped),
    ),
    // b is of both types, and p(b) and q(b) are added where both parameters are b.
    (
        "(define (domain d) (:types u - t t) (:predicates (p ?x) (q ?x) (r ?x))
 (:action act :parameters (?x - t ?y - u) :precondition (and (r ?x) (r ?y))
  :effect (and (p ?x) (q ?y) (not (r ?x)) (not (r ?y)))))",
        problem!("a - t b - u"),
        Says(
            &[("p", &[0], None), ("q", &[0], None), ("r", &[0], None)],
            Said::Dropped,
        ),
    ),
    // The precondition excludes that both are b.
    (
        "(define (domain d) (:types u - t t) (:predicates (p ?x) (q ?x) (r ?x))
 (:action act :parameters (?x - t ?y - u) :precondition (and (r ?x) (r ?y) (not (= ?x ?y)))
  :effect (and (p ?x) (q ?y) (not (r ?x)) (not (r ?y)))))",
        problem!("a - t b - u"),
        Says(
            &[("p", &[0], None), ("q", &[0], None), ("r", &[0], None)],
            Said::Accepted,
        ),
    ),
    // hall and yard are two objects, so here(hall) and here(yard) are of two instances.
    (
        SWAP,
        problem!(""),
        Says(
            &[("here", &[0], None), ("gone", &[0], None)],
            Said::Accepted,
        ),
    ),
    // Where the place is counted they are two atoms of one instance.
    (
        SWAP,
        problem!(""),
        Says(
            &[("here", &[], Some(0)), ("gone", &[], Some(0))],
            Said::Dropped,
        ),
    ),
    // The delete's variable is given hall, where the precondition requires the thing to be.
    (
        "(define (domain d) (:constants hall) (:predicates (at ?x ?l))
 (:action leave :parameters (?x ?to) :precondition (at ?x hall)
  :effect (and (at ?x ?to) (forall (?l) (when (at ?x ?l) (not (at ?x ?l)))))))",
        problem!("a b"),
        Says(&[("at", &[0], Some(1))], Said::Accepted),
    ),
];

/// Repairs by several placements of one predicate.
static PLACED: &[Row<Says>] = &[
    // The placement (0, 1) comes before (1, 0). q stands first, so its places rise, and those of p turn with them.
    (
        "(define (domain d) (:predicates (q ?x ?y) (p ?x ?y))
 (:action act :parameters (?x ?y) :precondition (and (q ?x ?y) (q ?y ?x))
  :effect (and (p ?x ?y) (not (q ?x ?y)) (not (q ?y ?x)))))",
        problem!("a b"),
        Says(
            &[("p", &[0, 1], None)],
            Said::Unbalanced(
                0,
                0,
                &[
                    &[("q", &[0, 1], None), ("p", &[0, 1], None)],
                    &[("q", &[0, 1], None), ("p", &[1, 0], None)],
                ],
            ),
        ),
    ),
    // The first argument of q is counted before the second.
    (
        "(define (domain d) (:predicates (p ?x) (q ?x ?y))
 (:action act :parameters (?x) :precondition (q ?x ?x) :effect (and (p ?x) (not (q ?x ?x)))))",
        problem!("a b"),
        Says(
            &[("p", &[0], None)],
            Said::Unbalanced(
                0,
                0,
                &[
                    &[("p", &[0], None), ("q", &[1], Some(0))],
                    &[("p", &[0], None), ("q", &[0], Some(1))],
                ],
            ),
        ),
    ),
];

/// Whether this is what is said of the candidate, and these are its repairs.
fn is_said(
    alloc: Global,
    normal: &Normal,
    candidate: &Candidate,
    verdict: Verdict,
    said: &Said,
) -> bool {
    match (verdict, said) {
        (Verdict::Accepted, Said::Accepted) | (Verdict::Dropped, Said::Dropped) => true,
        (Verdict::Unbalanced(place), Said::Unbalanced(schema, effect, wanted)) => {
            place.schema == *schema
                && place.effect == *effect
                && has_repairs(alloc, normal, candidate, place, wanted)
        }
        _ => false,
    }
}

fn has_repairs(
    alloc: Global,
    normal: &Normal,
    candidate: &Candidate,
    place: AddPlace,
    wanted: &[&[PartRow]],
) -> bool {
    match repairs(alloc, normal, candidate, place) {
        Ok(found) => are_candidates(alloc, normal, found.as_slice(), wanted),
        Err(_) => false,
    }
}

fn is_checked(alloc: Global, normal: &Normal, candidate: &Candidate, said: &Said) -> bool {
    match check_candidate(alloc, normal, candidate) {
        Ok(verdict) => is_said(alloc, normal, candidate, verdict, said),
        Err(_) => false,
    }
}

impl Asked for Says {
    fn is_answered(&self, alloc: Global, normal: &Normal) -> bool {
        match candidate_of(alloc, normal, self.0) {
            Some(candidate) => {
                let is_checked = is_checked(alloc, normal, &candidate, &self.1);
                drop(candidate);
                is_checked
            }
            None => false,
        }
    }
}

#[test]
fn candidates_are_answered_as_worked_by_hand(rt: HostRuntime) {
    assert_answers(&rt, rt.alloc(), WORKED);
    assert_answers(&rt, rt.alloc(), EFFECTS);
    assert_answers(&rt, rt.alloc(), CONTRADICTIONS);
    assert_answers(&rt, rt.alloc(), PLACED);
}
