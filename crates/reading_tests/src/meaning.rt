//! What conditions and steps mean, by the plain program.

use crate::reading::{domain_of, problem_of};
use lists::{List, Name};
use pddl_plain::{Bound, GroundAtom, Step, action_cost, holds, initial, is_given, take_step};
use pddl_syntax::{Condition, Domain, Problem};
use std::alloc::{AllocError, Global};
use std::process::Abort;
use std::test::*;

/// A problem with these entries of `:init`, and without objects or with those of the domain, with two, with three of two types, or
/// with two of which one has a price; or a problem with a ship and this goal.
macro_rules! problem {
    (plain $entries:literal) => { concat!("(define (problem p) (:domain d) (:init", $entries, ") (:goal ()))") };
    (two $entries:literal) => { concat!("(define (problem p) (:domain d) (:objects a b) (:init", $entries, ") (:goal ()))") };
    (typed $entries:literal) => { concat!("(define (problem p) (:domain d) (:objects a - t b c - u) (:init", $entries, ") (:goal ()))") };
    (sold $entries:literal) => { concat!("(define (problem p) (:domain d) (:objects a b) (:init (= (price a) 7)", $entries, ") (:goal ()) (:metric minimize (total-cost)))") };
    (ship $goal:literal) => { concat!("(define (problem p) (:domain d) (:objects ship - boat) (:init (p) (p) (not (q))) (:goal ", $goal, "))") };
}

/// Each letter as a name.
fn names(alloc: Global, letters: &str) -> Result<Vec<Name>, AllocError> {
    let mut names = Vec::new(alloc);
    for letter in letters.as_bytes() {
        names.push(Name::from_slice(alloc, &[*letter])?)?;
    }
    Ok(names)
}

/// The first action with these objects, each of one letter.
fn step(alloc: Global, objects: &str) -> Result<Step, AllocError> {
    Ok(Step {
        action: 0,
        objects: List::from_vec(names(alloc, objects)?),
    })
}

// A call of a plain program has a function of its own without clauses, so that no proof of a test carries its meaning.

fn state(alloc: Global, problem: &Problem) -> Result<Vec<GroundAtom>, AllocError> {
    initial(alloc, problem)
}

/// Where the step leads from the state, which has no derived atoms.
fn next(
    alloc: Global,
    domain: &Domain,
    problem: &Problem,
    state: &[GroundAtom],
    step: &Step,
) -> Result<Option<Vec<GroundAtom>>, AllocError> {
    take_step(alloc, domain, problem, state, state, step)
}

/// Whether some axiom gives the atom.
fn given(
    alloc: Global,
    domain: &Domain,
    problem: &Problem,
    full: &[GroundAtom],
    atom: &GroundAtom,
) -> Result<bool, AllocError> {
    is_given(alloc, domain, problem, full, atom)
}

/// Whether the condition holds in the state, which has no derived atoms.
fn is_true(
    alloc: Global,
    domain: &Domain,
    problem: &Problem,
    state: &[GroundAtom],
    condition: &Condition,
    binding: &[Bound],
) -> Result<bool, AllocError> {
    holds(alloc, domain, problem, state, condition, binding)
}

fn after_step(
    alloc: Global,
    domain: &Domain,
    problem: &Problem,
    objects: &str,
) -> Result<Option<Vec<GroundAtom>>, AllocError> {
    let state = state(alloc, problem)?;
    let step = step(alloc, objects)?;
    next(alloc, domain, problem, &state, &step)
}

/// The two texts. One that isn't read counts as want of memory.
fn read(alloc: Global, domain: &str, problem: &str) -> Result<(Domain, Problem), AllocError> {
    let domain = domain_of(alloc, domain).map_err(|_| AllocError)?;
    let problem = problem_of(alloc, problem).map_err(|_| AllocError)?;
    Ok((domain, problem))
}

/// The initial state of a problem.
fn stated(alloc: Global, problem: &str) -> Result<Vec<GroundAtom>, AllocError> {
    let problem = problem_of(alloc, problem).map_err(|_| AllocError)?;
    let state = state(alloc, &problem);
    drop(problem);
    state
}

fn is_within(atom: &GroundAtom, others: &[GroundAtom]) -> bool {
    others.iter().any(|other| atom.predicate == other.predicate && atom.objects == other.objects)
}

fn are_within(atoms: &[GroundAtom], others: &[GroundAtom]) -> bool {
    atoms.iter().all(|atom| is_within(atom, others))
}

fn are_same(atoms: &[GroundAtom], others: &[GroundAtom]) -> bool {
    are_within(atoms, others) && are_within(others, atoms)
}

/// Whether the first action with these objects leads from the initial state to that of another problem, or nowhere where there is
/// none.
fn leads(
    alloc: Global,
    domain: &Domain,
    problem: &Problem,
    objects: &str,
    wanted: Option<&str>,
) -> Result<bool, AllocError> {
    match (after_step(alloc, domain, problem, objects)?, wanted) {
        (Some(next), Some(wanted)) => Ok(are_same(&next, &stated(alloc, wanted)?)),
        (next, wanted) => Ok(next.is_none() && wanted.is_none()),
    }
}

/// What the first action costs where its `?x` stands for the object.
fn cost_in(
    alloc: Global,
    domain: &Domain,
    problem: &Problem,
    object: &str,
) -> Result<Option<u64>, AllocError> {
    let binding = [Bound {
        variable: Name::from_slice(alloc, b"?x")?,
        object: Name::from_slice(alloc, object.as_bytes())?,
    }];
    match domain.actions.as_slice() {
        [action, ..] => action_cost(alloc, problem, &binding, action),
        [] => Ok(None),
    }
}

/// Whether each of these derived atoms is in the full state exactly where some axiom gives it.
fn are_given(
    alloc: Global,
    domain: &Domain,
    problem: &Problem,
    full: &[GroundAtom],
    derived: &[GroundAtom],
) -> Result<bool, AllocError> {
    for atom in derived {
        if given(alloc, domain, problem, full, atom)? != is_within(atom, full) {
            return Ok(false);
        }
    }
    Ok(true)
}

/// Whether the axioms give just these derived atoms in the initial state of the problem.
fn are_given_at_first(
    alloc: Global,
    domain: &Domain,
    problem: &Problem,
) -> Result<bool, AllocError> {
    let full = state(alloc, problem)?;
    let derived = stated(alloc, problem!(typed "(seen a) (seen b) (dark)"))?;
    are_given(alloc, domain, problem, &full, &derived)
}

fn is_reached(alloc: Global, domain: &Domain, problem: &Problem) -> Result<bool, AllocError> {
    let state = state(alloc, problem)?;
    is_true(alloc, domain, problem, &state, &problem.goal, &[])
}

/// What is asked of a domain and a problem, with the answer.
#[derive(Clone, Copy)]
enum Asked {
    /// To which problem's initial state the first action with the row's objects leads, or that it leads nowhere.
    Leads(Option<&'static str>),
    /// What the first action costs where its `?x` stands for the row's object.
    Costs(Option<u64>),
    /// Whether the initial state is a full state.
    IsFull(bool),
    /// Whether the initial state reaches the goal.
    Reaches(bool),
}

/// A domain, a problem, objects of one letter each, and what is asked.
type Row = (&'static str, &'static str, &'static str, Asked);

fn is_answered(
    alloc: Global,
    domain: &Domain,
    problem: &Problem,
    objects: &str,
    asked: Asked,
) -> Result<bool, AllocError> {
    match asked {
        Asked::Leads(wanted) => leads(alloc, domain, problem, objects, wanted),
        Asked::Costs(cost) => Ok(cost_in(alloc, domain, problem, objects)? == cost),
        Asked::IsFull(wanted) => Ok(are_given_at_first(alloc, domain, problem)? == wanted),
        Asked::Reaches(wanted) => Ok(is_reached(alloc, domain, problem)? == wanted),
    }
}

// A function owns little, and hands on references: the proof of a function that owns much lets go of it at each end. What is
// read goes by a call, which costs the proof next to nothing.

fn is_so(alloc: Global, row: &Row) -> Result<bool, AllocError> {
    let (domain, problem) = read(alloc, row.0, row.1)?;
    let answer = is_answered(alloc, &domain, &problem, row.2, row.3);
    drop(domain);
    drop(problem);
    answer
}

/// An atom that is deleted and added is true.
const BACK: &str =
    "(define (domain back) (:predicates (p ?x) (q ?x)) (:action act :parameters (?x ?y)
 :precondition (q ?x) :effect (and (p ?x) (not (q ?x)) (q ?y))))";

/// A step costs the price of its object, and `b` has none.
const SHOP: &str =
    "(define (domain shop) (:predicates (done ?x)) (:functions (price ?x)) (:action go
 :parameters (?x) :effect (and (done ?x) (increase (total-cost) (price ?x)))))";

/// The condition of an effect is read in the old state.
const TOUCH: &str = "(define (domain touch) (:predicates (p) (q))
 (:action touch :effect (and (not (q)) (when (p) (q)))))";

const BELL: &str = "(define (domain bell) (:constants l1) (:predicates (at ?l) (rung))
 (:action ring :precondition (not (at l1)) :effect (rung)))";

/// Types restrict variables and not atoms.
const FIT: &str = "(define (domain fit) (:types t u) (:predicates (p ?x - t) (done))
 (:action go :parameters (?x - u) :precondition (p ?x) :effect (done)))";

/// The inner `?x` counts inside its list, for each of its objects, and the outer one elsewhere.
const INNER: &str = "(define (domain inner) (:types t u) (:predicates (p ?x) (q ?x))
 (:action act :parameters (?x - t) :precondition (exists (?x - u) (p ?x))
 :effect (and (not (p ?x)) (forall (?x - u) (when (p ?x) (q ?x))))))";

/// An outer variable counts inside a list without it.
const KEPT: &str = "(define (domain kept) (:predicates (r ?x ?y) (q ?x))
 (:action act :parameters (?x) :precondition (exists (?y) (r ?x ?y))
 :effect (forall (?y) (when (r ?x ?y) (q ?y)))))";

const NEST: &str = "(define (domain nest) (:predicates (p) (q) (r))
 (:action act :effect (when (p) (when (q) (r)))))";

/// Its second action is never taken.
const REST: &str = "(define (domain rest) (:predicates (p)) (:action act :effect ())
 (:action other :effect (not (p))))";

const FIVE: &str = "(define (domain five) (:predicates (p ?x))
 (:action act :parameters (?x) :effect (increase (total-cost) 5)))";

/// `seen` has two axioms, one for each type.
const LIGHT: &str = "(define (domain light) (:types t u)
 (:predicates (p ?x) (q ?x) (seen ?x) (dark))
 (:derived (seen ?x - t) (p ?x)) (:derived (seen ?x - u) (q ?x))
 (:derived (dark) (not (exists (?x) (seen ?x))))
 (:action act :parameters (?x) :precondition (dark) :effect (p ?x)))";

/// A boat is a vessel, which is a thing and a vehicle; what an entry says of `object` is ignored.
const PORT: &str = "(define (domain port) (:predicates (p) (q))
 (:types boat - vessel vessel - thing vessel - vehicle object - odd spare))";

const PRICED: &str = "(define (problem s) (:domain shop) (:objects a b c)
 (:init (= (price c) 3) (= (price a) 7)) (:goal ()) (:metric minimize (total-cost)))";

const COUNTED: &str = "(define (problem s) (:domain shop) (:objects a b c)
 (:init (= (price c) 3) (= (price a) 7)) (:goal ()))";

macro_rules! steps {
    ($(($domain:expr, $around:ident $entries:literal, $objects:literal, $wanted:expr),)*) => {
        &[$(($domain, problem!($around $entries), $objects, Asked::Leads($wanted)),)*]
    };
}

static STEPS: &[Row] = steps! {
    (BACK, two "(q a)", "aa", Some(problem!(two "(p a) (q a)"))),
    (BACK, two "(q a)", "ab", Some(problem!(two "(p a) (q b)"))),
    (BACK, two "(q a)", "ba", None),
    (BACK, two "(q a)", "a", None),
    (SHOP, sold "", "a", Some(problem!(sold "(done a)"))),
    (SHOP, sold "", "b", None),
    (SHOP, two "(= (price a) 7)", "b", Some(problem!(two "(done b)"))),
    (TOUCH, plain "(p) (q)", "", Some(problem!(plain "(q) (p)"))),
    (TOUCH, plain "(q)", "", Some(problem!(plain ""))),
    (BELL, plain "(at l1)", "", None),
    (BELL, plain "", "", Some(problem!(plain "(rung)"))),
    (FIT, typed "(p b)", "b", Some(problem!(typed "(p b) (done)"))),
    (FIT, typed "(p a)", "a", None),
    (INNER, typed "(p a) (p b)", "a", Some(problem!(typed "(p b) (q b)"))),
    (INNER, typed "(p b) (p c)", "a", Some(problem!(typed "(p b) (p c) (q b) (q c)"))),
    (INNER, typed "(p a)", "a", None),
    (KEPT, two "(r a b) (r b a)", "a", Some(problem!(two "(r a b) (r b a) (q b)"))),
    (KEPT, two "(r b a)", "a", None),
    (NEST, plain "(p) (q)", "", Some(problem!(plain "(p) (q) (r)"))),
    (NEST, plain "(p)", "", Some(problem!(plain "(p)"))),
    (NEST, plain "(q)", "", Some(problem!(plain "(q)"))),
    (REST, plain "(p)", "", Some(problem!(plain "(p)"))),
};

static COSTS: &[Row] = &[
    (SHOP, PRICED, "a", Asked::Costs(Some(7))),
    (SHOP, PRICED, "b", Asked::Costs(None)),
    (SHOP, COUNTED, "b", Asked::Costs(Some(1))),
    (FIVE, PRICED, "b", Asked::Costs(Some(5))),
    (FIVE, COUNTED, "b", Asked::Costs(Some(1))),
    (FIT, PRICED, "b", Asked::Costs(Some(0))),
];

/// Texts in problems of one sort, of which one thing is asked, with the answers.
macro_rules! asked {
    ($domain:ident $around:ident $asked:ident $(($text:literal, $wanted:expr),)*) => {
        &[$(($domain, problem!($around $text), "", Asked::$asked($wanted)),)*]
    };
}

/// Entries over `a` of type `t` and `b` and `c` of type `u`, which are those of a full state or not.
static FULL_STATES: &[Row] = asked! {
    LIGHT typed IsFull
    ("(dark)", true),
    ("", false),
    ("(p a) (seen a)", true),
    ("(p a) (seen a) (dark)", false),
    ("(p a) (dark)", false),
    ("(p b) (dark)", true),
    ("(p b) (seen b)", false),
    ("(q b) (seen b)", true),
    ("(p a) (q b) (seen a) (seen b)", true),
    ("(q a) (dark)", true),
};

/// Goals of a problem with the boat `ship`, (p) twice and (not (q)), which its initial state reaches or not.
static CONDITIONS: &[Row] = asked! {
    PORT ship Reaches
    ("()", true),
    ("(and)", true),
    ("(or)", false),
    ("(p)", true),
    ("(q)", false),
    ("(not (q))", true),
    ("(and (p) (q))", false),
    ("(or (q) (p))", true),
    ("(imply (p) (q))", false),
    ("(imply (q) (p))", true),
    ("(forall (?x - spare) (q))", true),
    ("(exists (?x - spare) (p))", false),
    ("(exists (?x - boat) (= ?x ship))", true),
    ("(exists (?x - thing) (= ?x ship))", true),
    ("(exists (?x - vehicle) (= ?x ship))", true),
    ("(exists (?x) (= ?x ship))", true),
    ("(exists (?x - odd) (= ?x ship))", false),
    ("(exists (?x - (either spare boat)) (= ?x ship))", true),
    ("(exists (?x - (either spare odd)) (p))", false),
    ("(forall (?x - (either spare odd)) (q))", true),
    ("(exists (?x - (either spare object)) (= ?x ship))", true),
    ("(forall (?x ?y) (= ?x ?y))", true),
    ("(exists (?x) (forall (?x - spare) (q)))", true),
};

fn assert_so(rt: &impl Abort, alloc: Global, rows: &[Row]) {
    for row in rows {
        let answer = is_so(alloc, row);
        assert!(rt; matches!(answer, Ok(true)), "{} {} {}", row.0, row.1, row.2);
    }
}

#[test]
fn steps_costs_states_and_conditions_as_worked_by_hand(rt: HostRuntime) {
    assert_so(&rt, rt.alloc(), STEPS);
    assert_so(&rt, rt.alloc(), COSTS);
    assert_so(&rt, rt.alloc(), FULL_STATES);
    assert_so(&rt, rt.alloc(), CONDITIONS);
}
