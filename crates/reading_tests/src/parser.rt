//! What the two calls read.

use crate::reading::{domain_of, problem_of};
use pddl_lexer::At;
use pddl_syntax::{Action, Condition, Derived, Domain, Effect, Head, Init, Named, Problem, Typed};
use std::test::*;

const DOMAIN: &str = "(define (domain switch) ; a lamp
(:predicates (on) (off))
(:action FLIP :parameters ()
 :precondition (off)
 :effect (and (on) (not (OFF)))))";

const PROBLEM: &str = "(define (problem one) (:domain switch)
(:init (off))
(:goal (on)))";

const TYPED: &str = "(define (domain t)
(:constants a b - thing c)
(:functions (total-cost) (far ?x ?y - place) - number)
(:types thing - object)
(:predicates (at ?x - thing ?p))
(:derived (some) (exists (?x - thing) (imply (at ?x ?x) (= ?x a))))
(:action go :effect (forall (?z) (when () (increase (total-cost) 12)))
 :parameters (?x)))";

fn is_at(name: &Named, word: &str, line: u32, column: u32) -> bool {
    name.name.as_slice() == word.as_bytes() && name.at == At { line, column }
}

fn is_atom(condition: &Condition, predicate: &str, line: u32, column: u32) -> bool {
    matches!(condition, Condition::Atom(atom) if is_at(&atom.predicate, predicate, line, column))
}

fn is_flip(actions: &[Action]) -> bool {
    match actions {
        [action] => {
            is_at(&action.name, "flip", 3, 10)
                && is_atom(&action.precondition, "off", 4, 17)
                && matches!(&action.effect, Effect::And(members, At { line: 5, column: 10 }) if members.len() == 2)
        }
        _ => false,
    }
}

fn is_off(init: &[Init]) -> bool {
    matches!(init, [Init::Holds(atom)] if is_at(&atom.predicate, "off", 2, 9))
}

fn is_switch(domain: &Domain) -> bool {
    domain.predicates.len() == 2 && is_flip(domain.actions.as_slice())
}

fn is_lamp(problem: &Problem) -> bool {
    !problem.metric && is_off(problem.init.as_slice()) && is_atom(&problem.goal, "on", 3, 9)
}

/// Whether the second of three constants has one type, and the third none.
fn are_typed(constants: &[Typed]) -> bool {
    match constants {
        [_, typed, untyped] => {
            matches!(typed.types.as_slice(), [only] if is_at(only, "thing", 2, 19))
                && untyped.types.as_slice().is_empty()
        }
        _ => false,
    }
}

/// Whether the second of two functions has two variables.
fn are_functions(functions: &[Head]) -> bool {
    matches!(functions, [_, far] if far.variables.len() == 2)
}

fn is_exists(axioms: &[Derived]) -> bool {
    matches!(axioms, [axiom] if matches!(axiom.body, Condition::Exists(_, _, At { line: 6, column: 18 })))
}

/// Whether the one action is for all objects, and has no precondition.
fn is_forall(actions: &[Action]) -> bool {
    match actions {
        [go] => {
            matches!(
                go.effect,
                Effect::Forall(
                    _,
                    _,
                    At {
                        line: 7,
                        column: 21
                    }
                )
            ) && matches!(go.precondition, Condition::True(At { line: 7, column: 1 }))
        }
        _ => false,
    }
}

fn is_typed(domain: &Domain) -> bool {
    are_typed(domain.constants.as_slice())
        && domain.types.len() == 1
        && are_functions(domain.functions.as_slice())
        && is_exists(domain.axioms.as_slice())
        && is_forall(domain.actions.as_slice())
}

/// Sections and keys stand in any order.
#[test]
fn files_are_read(rt: HostRuntime) {
    assert!(rt; matches!(&domain_of(rt.alloc(), DOMAIN), Ok(domain) if is_switch(domain)));
    assert!(rt; matches!(&problem_of(rt.alloc(), PROBLEM), Ok(problem) if is_lamp(problem)));
    assert!(rt; matches!(&domain_of(rt.alloc(), TYPED), Ok(domain) if is_typed(domain)));
}
