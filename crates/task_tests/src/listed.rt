//! The candidates with one part, worked by hand.

use crate::candidates::{PartRow, are_candidates};
use crate::tasks::{Asked, Row, assert_answers};
use invariant_check::one_predicate;
use normal_task::Normal;
use std::alloc::Global;
use std::test::*;

/// The candidates with one part, by predicate: first none of its positions is counted, and then each in its turn.
struct Ones(&'static [&'static [PartRow]]);

impl Asked for Ones {
    fn is_answered(&self, alloc: Global, normal: &Normal) -> bool {
        let ones = one_predicate(alloc, normal);
        matches!(ones, Ok(ones) if are_candidates(alloc, normal, ones.as_slice(), self.0))
    }
}

const PROBLEM: &str =
    "(define (problem p) (:domain d) (:objects a b) (:init) (:goal (forall (?x) (q ?x))))";

static ONES: &[Row<Ones>] = &[
    // No effect changes r, and s and the predicate that stands for the goal's `forall` are derived. Only deletes are of q.
    (
        "(define (domain d) (:predicates (p ?x ?y) (r ?x) (s ?x) (q ?x)) (:derived (s ?x) (r ?x))
 (:action act :parameters (?x ?y) :precondition (r ?x) :effect (and (p ?x ?y) (not (q ?x)))))",
        PROBLEM,
        Ones(&[
            &[("p", &[0, 1], None)],
            &[("p", &[1], Some(0))],
            &[("p", &[0], Some(1))],
            &[("q", &[0], None)],
            &[("q", &[], Some(0))],
        ]),
    ),
    // Where nothing is changed there is no candidate.
    (
        "(define (domain d) (:predicates (p ?x) (q ?x)))",
        PROBLEM,
        Ones(&[]),
    ),
];

#[test]
fn candidates_with_one_part_in_their_order(rt: HostRuntime) {
    assert_answers(&rt, rt.alloc(), ONES);
}
