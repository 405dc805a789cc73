//! The first check fault of two files.

ghost use Rattle.pddl_syntax.specs.Spelled.{IsWellSpelled, IsWellSpelledProblem};

use crate::reading::{domain_of, problem_of};
use lists::Stop;
use pddl_lexer::Kind::{
    self, CostForm, DerivedWritten, DuplicateName, InitConflict, RecursiveDerived, TooManyParts,
    TypeCycle, UnboundVariable, UnknownFunction, UnknownObject, UnknownPredicate, UnknownType,
    ValueConflict, WrongArity,
};
use pddl_lexer::{At, Fault};
use pddl_syntax::{Domain, Problem};
use std::alloc::Global;
use std::process::Abort;
use std::test::*;
use type_checker::{Side, check};

/// A fault that is answered, with its line and column, or none where both files are accepted.
type Answer = Option<(Side, Kind, u32, u32)>;

fn is_fault(
    side: Side,
    fault: Fault,
    (wanted_side, kind, line, column): (Side, Kind, u32, u32),
) -> bool {
    side == wanted_side && fault.kind == kind && fault.at == At { line, column }
}

/// How the check ends that doesn't accept the pair.
// It says nothing of what it does, so that no proof of a test carries it.
fn end_of(alloc: Global, domain: Domain, problem: Problem) -> Option<Stop<(Side, Fault)>>
    requires domain { IsWellSpelled domain }
    requires problem { IsWellSpelledProblem problem }
{
    check(alloc, domain, problem).err()
}

fn is_answer(alloc: Global, domain: Domain, problem: Problem, expected: Answer) -> bool
    requires domain { IsWellSpelled domain }
    requires problem { IsWellSpelledProblem problem }
{
    match (end_of(alloc, domain, problem), expected) {
        (None, None) => true,
        (Some(Stop::Fault((side, fault))), Some(wanted)) => is_fault(side, fault, wanted),
        _ => false,
    }
}

/// Whether the checker answers so of the two texts.
fn is_checked(alloc: Global, domain: &str, problem: &str, expected: Answer) -> bool {
    let Ok(domain) = domain_of(alloc, domain) else {
        return false;
    };
    let Ok(problem) = problem_of(alloc, problem) else {
        return false;
    };
    is_answer(alloc, domain, problem, expected)
}

const SWITCH: &str = "(define (domain switch)
(:predicates (on) (off))
(:action flip :precondition (off)
 :effect (and (on) (not (off)))))";

const LAMP: &str = "(define (problem lamp) (:domain switch)
(:init (off))
(:goal (on)))";

const STRAY: &str = "(define (domain stray)
(:predicates (at ?x - place
 ?y - thing) (at ?z))
(:constants a - spot))";

const ASTRAY: &str = "(define (problem astray) (:domain stray)
(:objects b - thing)
(:init)
(:goal (at c)))";

/// The device with these pieces of text behind it, from line 7 on.
macro_rules! device {
    ($($piece:literal),*) => {
        concat!("(define (domain device)
(:types a - b c - d)
(:predicates (on) (off) (at ?x) (lit))
(:functions (price))
(:derived (lit) (off))
(:action go :parameters (?x) :precondition (at ?x) :effect (and (on) (not (off))))
", $($piece,)* ")")
    };
}

/// The texts of a domain and of a problem, and what is answered of them.
type Row = (&'static str, &'static str, Answer);

/// An earlier kind comes first, whichever file has it, and of one kind the domain's faults come first.
static FILES: &[Row] = &[
    (SWITCH, LAMP, None),
    (STRAY, ASTRAY, Some((Side::Domain, UnknownType, 2, 23))),
    (SWITCH, ASTRAY, Some((Side::Problem, UnknownType, 2, 15))),
    (
        "(define (domain d) (:predicates (p) (p)))",
        "(define (problem p) (:domain d) (:init)\n(:goal (exists (?x - t) ())))",
        Some((Side::Problem, UnknownType, 2, 22)),
    ),
    (
        "(define (domain d) (:types a - object\nb - c\nc - b))",
        LAMP,
        Some((Side::Domain, TypeCycle, 2, 1)),
    ),
    (
        "(define (domain d) (:types object - a a - object) (:constants c - a))",
        "(define (problem p) (:domain d) (:init) (:goal ()))",
        None,
    ),
    (
        "(define (domain d) (:constants a))",
        "(define (problem p) (:domain d)\n(:objects b\na) (:init) (:goal ()))",
        Some((Side::Problem, DuplicateName, 3, 1)),
    ),
    // Of the variables of functions.
    (
        "(define (domain d) (:functions (f ?x - lamp)))",
        LAMP,
        Some((Side::Domain, UnknownType, 1, 40)),
    ),
    (
        "(define (domain d) (:functions (f ?x ?x)))",
        LAMP,
        Some((Side::Domain, DuplicateName, 1, 38)),
    ),
    (
        SWITCH,
        "(define (problem p) (:domain d) (:init)
(:goal (and (or (on) (on)) (or (on) (on) (on) (on) (on) (on) (on) (on))(or (on) (on) (on) (on) (on) (on) (on) (on))\
(or (on) (on) (on) (on) (on) (on) (on) (on))(or (on) (on) (on) (on) (on) (on) (on) (on)))))",
        Some((Side::Problem, TooManyParts, 2, 8)),
    ),
];

/// Further sections of the device, and their faults.
macro_rules! sections {
    ($(($section:literal, $kind:expr, $line:literal, $column:literal),)*) => {
        &[$((device!($section), LAMP, Some((Side::Domain, $kind, $line, $column))),)*]
    };
}

static SECTIONS: &[Row] = sections! {
    ("(:action b :parameters (?y - e))", UnknownType, 7, 30),
    ("(:action go)", DuplicateName, 7, 10),
    ("(:derived (at ?y - e) (on))", UnknownType, 7, 20),
    ("(:action b :parameters (?x\n?x))", DuplicateName, 8, 1),
    ("(:derived (at ?x ?x) (on))", DuplicateName, 7, 18),
    ("(:derived (dim) (on))", UnknownPredicate, 7, 12),
    ("(:action b :effect (increase (cost) 1))", UnknownFunction, 7, 31),
    ("(:action b :effect (at))", WrongArity, 7, 21),
    ("(:action b :effect (increase (total-cost x) 1))", WrongArity, 7, 31),
    ("(:action b :precondition\n (at x))", UnknownObject, 8, 6),
    ("(:action b :precondition\n (at ?y))", UnboundVariable, 8, 6),
    ("(:action b :precondition (exists (?y) (at ?y)) :effect\n (at ?y))", UnboundVariable, 8, 6),
    ("(:action b :effect (lit))", DerivedWritten, 7, 21),
    ("(:action b :effect (not (lit)))", DerivedWritten, 7, 26),
    ("(:derived (on)\n(not (on)))", DerivedWritten, 6, 66),
    ("(:derived (at ?x) (not (lit)))\n(:derived (lit) (exists (?x) (at ?x)))", RecursiveDerived, 5, 1),
    ("(:derived (at ?x) (at ?x))", RecursiveDerived, 7, 1),
    ("(:action b :effect (and (increase (total-cost) 1)\n (increase (total-cost) 1)))", CostForm, 8, 2),
    ("(:action b :effect (increase (price) 1))", CostForm, 7, 20),
    ("(:action b :effect (when (on)\n(increase (total-cost) 1)))", CostForm, 8, 1),
    ("(:action b :effect (increase (total-cost) (total-cost)))", CostForm, 7, 20),
};

const DEVICE: &str = device!();

/// The entries of `:init` of a problem of the device, from line 2 on, its goal, and what is answered.
macro_rules! problems {
    ($(($init:literal, $goal:literal, $answer:expr),)*) => {
        &[$((
            DEVICE,
            concat!("(define (problem p) (:domain device)\n(:init ", $init, ")\n(:goal ", $goal, "))"),
            $answer,
        ),)*]
    };
}

static PROBLEMS: &[Row] = problems! {
    ("(off)", "(exists (?z - f) (on))", Some((Side::Problem, UnknownType, 3, 22))),
    ("(off)", "(forall (?z) (at ?z))", None),
    ("(up)", "(down)", Some((Side::Problem, UnknownPredicate, 2, 9))),
    ("", "(and (on)\n (down))", Some((Side::Problem, UnknownPredicate, 4, 3))),
    ("(= (cost) 1)", "(on)", Some((Side::Problem, UnknownFunction, 2, 12))),
    ("(= (total-cost) 1)", "(on)", None),
    ("(= (price x) 1)", "(on)", Some((Side::Problem, WrongArity, 2, 12))),
    ("(on x)", "(on)", Some((Side::Problem, WrongArity, 2, 9))),
    ("(at x)", "(= y y)", Some((Side::Problem, UnknownObject, 2, 12))),
    ("", "(= y y)", Some((Side::Problem, UnknownObject, 3, 11))),
    ("", "(at ?z)", Some((Side::Problem, UnboundVariable, 3, 12))),
    ("(lit)", "(on)", Some((Side::Problem, DerivedWritten, 2, 9))),
    ("(not (lit))", "(lit)", Some((Side::Problem, DerivedWritten, 2, 14))),
    ("(on)\n(not (on)) (not (off))", "(on)", Some((Side::Problem, InitConflict, 3, 1))),
    ("(= (price) 1)\n(= (price) 1)\n(= (price) 2)", "(on)", Some((Side::Problem, ValueConflict, 4, 1))),
};

/// What stands in a section of the device before four times eight parts, and after them. Joined they have 4,096 parts, which is
/// as many as a condition may have.
macro_rules! parts {
    ($(($before:literal, $behind:literal, $answer:expr),)*) => {
        &[$((
            device!(
                $before,
                "(or (on) (on) (on) (on) (on) (on) (on) (on))(or (on) (on) (on) (on) (on) (on) (on) (on))",
                "(or (on) (on) (on) (on) (on) (on) (on) (on))(or (on) (on) (on) (on) (on) (on) (on) (on))",
                $behind
            ),
            LAMP,
            $answer,
        ),)*]
    };
}

static PARTS: &[Row] = parts! {
    ("(:action b :precondition (and", "))", None),
    ("(:action b :precondition\n(and (or (on) (on))", "))", Some((Side::Domain, TooManyParts, 8, 1))),
    ("(:action b :precondition (and (not ()) (or (on) (on))", "))", None),
    ("(:action b :precondition (and (on)\n(exists (?x) (and (or (on) (on))", "))))", Some((Side::Domain, TooManyParts, 7, 26))),
    // A quantifier that is replaced is one part, and what replaces it is counted by itself.
    ("(:action b :precondition (and (or (on) (on)) (not (exists (?x) (and", ")))))", None),
    ("(:action b :precondition (not\n(exists (?x) (and (or (on) (on))", "))))", Some((Side::Domain, TooManyParts, 8, 1))),
    ("(:action b :precondition\n(forall (?x) (not (and (or (on) (on))", "))))", Some((Side::Domain, TooManyParts, 8, 1))),
    // The conditions of a `when` and of those around it are joined, and those of two beside each other aren't.
    ("(:action b :effect (when (and", ")\n(when (or (on) (on)) (on))))", Some((Side::Domain, TooManyParts, 8, 7))),
    ("(:action b :effect (and (when (or (on) (on)) (on)) (when (and", ") (on))))", None),
    ("(:derived (lit)\n(and (or (on) (on))", "))", Some((Side::Domain, TooManyParts, 8, 1))),
    ("(:derived (lit) (and", "))", None),
};

fn assert_checked(rt: &impl Abort, alloc: Global, rows: &[Row]) {
    for row in rows {
        assert!(rt;
            is_checked(alloc, row.0, row.1, row.2),
            "{} {}",
            row.0,
            row.1
        );
    }
}

#[test]
fn first_faults_of_two_files(rt: HostRuntime) {
    assert_checked(&rt, rt.alloc(), FILES);
    assert_checked(&rt, rt.alloc(), SECTIONS);
    assert_checked(&rt, rt.alloc(), PROBLEMS);
    assert_checked(&rt, rt.alloc(), PARTS);
}
