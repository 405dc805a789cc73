//! The first fault of one file, by the two calls that read it.

use crate::reading::File::{self, Domain, Problem};
use crate::reading::has_first_fault;
use pddl_lexer::Kind::{
    self, BadName, MissingSection, NotWhole, NumberTooLarge, RepeatedSection, ReservedWord,
    UnsupportedRequirement, UnsupportedSection,
};
use pddl_lexer::{At, Fault, ShapePlace};
use std::alloc::Global;
use std::process::Abort;
use std::test::*;

const FILE: Kind = Kind::Shape(ShapePlace::File);

const SECTION: Kind = Kind::Shape(ShapePlace::Section);

const HEAD: Kind = Kind::Shape(ShapePlace::Head);

const VARIABLES: Kind = Kind::Shape(ShapePlace::VariableList);

const TYPE_NAME: Kind = Kind::Shape(ShapePlace::TypeName);

const ACTION: Kind = Kind::Shape(ShapePlace::Action);

const CONDITION: Kind = Kind::Shape(ShapePlace::Condition);

const TERM: Kind = Kind::Shape(ShapePlace::Term);

const EFFECT: Kind = Kind::Shape(ShapePlace::Effect);

const COST: Kind = Kind::Shape(ShapePlace::Cost);

const ENTRY: Kind = Kind::Shape(ShapePlace::InitEntry);

/// What stands at a place of a file, and the fault that the file has with it, with its line and column. It begins
/// line 2, but for names, which begin in column 17 of line 1.
type Row = (&'static str, Kind, u32, u32);

// A name has none of `?`, `@` and `,`, doesn't begin with `:`, and isn't `-` or `=`. A `?` begins another word.
static NAMES: &[Row] = &[
    (":d", BadName, 1, 17),
    ("?d", BadName, 1, 17),
    ("=", BadName, 1, 17),
    ("-", BadName, 1, 17),
    ("d@", BadName, 1, 17),
    ("d,e", BadName, 1, 17),
    ("d\n?e", FILE, 2, 1),
    ("d)\n(:constants d:e\n:f", BadName, 3, 1),
];

// A list's own fault comes before those of its members, and a list at fault isn't looked into.
static SECTIONS: &[Row] = &[
    ("(x)", SECTION, 2, 1),
    ("(x)\n(:types a - (b))", SECTION, 2, 1),
    ("(:types a - (b))\n(x)\ny", SECTION, 4, 1),
    ("(:durative-action a)", UnsupportedSection, 2, 1),
    ("(:types a)\n(:types b - (c))", RepeatedSection, 3, 1),
    ("(:requirements :fluents)", UnsupportedRequirement, 2, 16),
    ("(:types a - ?b)", BadName, 2, 13),
    ("(:types a - =)", BadName, 2, 13),
    ("(:types a -\n(either b c))", UnsupportedSection, 3, 1),
    ("(:types a -\n(b))", TYPE_NAME, 3, 1),
    ("(:types a - (either) b -)", UnsupportedSection, 2, 13),
    ("(:constants a - (either b c))", UnsupportedSection, 2, 17),
    ("(:predicates (p ?x - (either)))", TYPE_NAME, 2, 22),
    ("(:predicates (p ?x - (foo) y))", VARIABLES, 2, 28),
    ("(:functions (f ?x - (foo)))", TYPE_NAME, 2, 21),
    ("(:derived (r ?x - (either)) (p ?x))", TYPE_NAME, 2, 19),
    ("(:types\na\n-)", SECTION, 2, 1),
    ("(:types\na\n@ -)", BadName, 4, 1),
    ("(:constants c\n- t ,)", BadName, 3, 5),
    ("(:constants\nb\n-)", SECTION, 2, 1),
    ("(:functions (=))", BadName, 2, 14),
    ("(:functions (or))", ReservedWord, 2, 14),
    ("(:functions\n- number (f))", HEAD, 3, 1),
    ("(:functions (f) - number\n- number)", HEAD, 3, 1),
    ("(:functions (f)\nnumber)", HEAD, 3, 1),
    ("(:functions (f) -\nreal)", UnsupportedSection, 3, 1),
    ("(:functions (f) -\n(number))", TYPE_NAME, 3, 1),
    ("(:functions\n(f)\n-)", SECTION, 2, 1),
    ("(:predicates\non (off))", HEAD, 3, 1),
    ("(:predicates (and))", ReservedWord, 2, 15),
    ("(:predicates (p?x)\n(:p))", BadName, 3, 2),
    ("(:predicates (p x))", VARIABLES, 2, 17),
    ("(:predicates (p :x))", VARIABLES, 2, 17),
    ("(:predicates (p ?))", BadName, 2, 17),
    ("(:predicates (p ??x))", BadName, 2, 17),
    ("(:predicates (p ?x?y\n?:z))", BadName, 3, 1),
    ("(:predicates (p ?x@))", BadName, 2, 17),
    ("(:predicates (p ?-))", BadName, 2, 17),
    ("(:predicates (p ?x - :b))", BadName, 2, 22),
    ("(:predicates (p ?x -\n()))", TYPE_NAME, 3, 1),
    ("(:predicates\n(p ?x\n-))", HEAD, 3, 1),
    ("(:action :a)", BadName, 2, 10),
    ("(:action a\n?b)", ACTION, 3, 1),
    ("(:action a\n:duration 1)", UnsupportedSection, 3, 1),
    ("(:action a :parameters (?x\nz))", VARIABLES, 3, 1),
    ("(:action a :parameters\n(?x\n-))", VARIABLES, 3, 1),
    ("(:action a :parameters\n?x)", VARIABLES, 3, 1),
    ("(:action a :precondition\n:effect (p))", CONDITION, 3, 1),
    ("(:action a :effect ()\n:effect)", RepeatedSection, 3, 1),
    ("(:action a\n:precondition)", ACTION, 3, 1),
    ("(:derived (r ?x) (p ?x)\n(p ?x))", SECTION, 3, 1),
    ("(:derived (r ?x)\n(not))", CONDITION, 3, 1),
];

// Behind variables a list is looked at once the list around it has no fault of its own.
static VARIABLE_TYPES: &[Row] = &[
    ("?x - (foo a)", TYPE_NAME, 2, 6),
    ("?x - ()", TYPE_NAME, 2, 6),
    ("?x - ((either a))", TYPE_NAME, 2, 6),
    ("?x - (either)", TYPE_NAME, 2, 6),
    ("?x - (either a ?b)", BadName, 2, 16),
    ("?x - (either a -)", BadName, 2, 16),
    ("?x - (either (a))", TYPE_NAME, 2, 14),
    ("?x - (either a (either b))", TYPE_NAME, 2, 16),
    ("- (either a (b))", TYPE_NAME, 2, 13),
    ("?x - (either a) ?y - (bar)", TYPE_NAME, 2, 22),
    ("?x - (foo) ?y - (either @)", TYPE_NAME, 2, 6),
    ("?x - (foo) y", VARIABLES, 2, 12),
    ("?x - (foo) (bar)", VARIABLES, 2, 12),
];

static CONDITIONS: &[Row] = &[
    ("p", CONDITION, 2, 1),
    ("(not)", CONDITION, 2, 1),
    ("(not (p)\n(q))", CONDITION, 3, 1),
    ("(exists\n?x (p))", VARIABLES, 3, 1),
    ("(exists (?x - (either p -)) (q))", BadName, 2, 25),
    ("(forall (?x - (foo)) (-))", TYPE_NAME, 2, 15),
    ("(< a b)", UnsupportedSection, 2, 1),
    ("(preference p (q))", UnsupportedSection, 2, 1),
    ("(when (p) (q))", ReservedWord, 2, 2),
    ("(and (p ?x)\n(p 1 @))", BadName, 3, 6),
    ("(p ?)", BadName, 2, 4),
    ("(= a\n=)", BadName, 3, 1),
    ("(not (:p))", BadName, 2, 7),
    ("(?p)", BadName, 2, 2),
    ("(p\n(q))", TERM, 3, 1),
];

static EFFECTS: &[Row] = &[
    ("p", EFFECT, 2, 1),
    ("(not\np)", EFFECT, 3, 1),
    ("(when (p)\n(-))", BadName, 3, 2),
    ("(p a\n?)", BadName, 3, 1),
    ("(not (p\n=))", BadName, 3, 1),
    ("(not\n(forall ?x))", ReservedWord, 3, 2),
    ("(forall (?x - (foo)) (-))", TYPE_NAME, 2, 15),
    ("(not (assign (f) 1))", ReservedWord, 2, 7),
    ("(preference p (q))", ReservedWord, 2, 2),
    ("(= a b)", BadName, 2, 2),
    ("(assign (f) 1)", UnsupportedSection, 2, 1),
    ("(increase\nf 1)", EFFECT, 3, 1),
    ("(increase (f)\n())", COST, 3, 1),
    ("(increase (f)\n?x)", NotWhole, 3, 1),
    ("(increase (f) :c)", NotWhole, 2, 15),
    ("(increase (f) -)", NotWhole, 2, 15),
    ("(increase (f) 1.5)", NotWhole, 2, 15),
    ("(increase (f)\n2147483648)", NumberTooLarge, 3, 1),
    ("(increase (f) (g =))", BadName, 2, 18),
];

// Missing sections come last.
static PROBLEM: &[Row] = &[
    ("(problem :p)", BadName, 2, 10),
    ("(problem p)\n(:domain ?d)", BadName, 3, 10),
    ("(problem p)\n(:domain d?e)", SECTION, 3, 11),
    ("(problem p)\n(:objects =)", BadName, 3, 11),
    ("(problem p)\n(:objects a - ?)", BadName, 3, 15),
    ("(problem p)\n(:objects a\n:b c -)", BadName, 4, 1),
    ("(problem p)\n(:objects a\n-)", SECTION, 3, 1),
    ("(problem p)\n(:goal\n(< a b))", UnsupportedSection, 4, 1),
    ("(problem p)\n(:constraints (on))", UnsupportedSection, 3, 1),
    ("(problem p)\n(:types a)", UnsupportedSection, 3, 1),
    (
        "(problem p) (:init (off))\n(:init (or))",
        RepeatedSection,
        3,
        1,
    ),
    ("(problem p)\n(:init) (:goal ())", MissingSection, 1, 1),
    ("(problem p)\n(:domain d) (:goal ())", MissingSection, 1, 1),
    ("(problem p)\n(:domain d) (:init)", MissingSection, 1, 1),
    ("(problem p)\n(:metric minimize)", UnsupportedSection, 3, 1),
    (
        "(problem p)\n(:metric maximize (total-cost))",
        UnsupportedSection,
        3,
        1,
    ),
    (
        "(problem p) (:metric minimize (total-cost))\n(:metric maximize (x))",
        RepeatedSection,
        3,
        1,
    ),
    ("(problem p) (:init\n(p))\n(:objects @)", BadName, 4, 11),
];

static ENTRIES: &[Row] = &[
    ("p", ENTRY, 2, 1),
    ("((p))", ENTRY, 2, 2),
    ("(not\np)", ENTRY, 3, 1),
    ("(=\nx 1)", ENTRY, 3, 1),
    ("(p ?x)", BadName, 2, 4),
    ("(p a\n-)", BadName, 3, 1),
    ("(:p)", BadName, 2, 2),
    ("(not (p\n=))", BadName, 3, 1),
    ("(= (f :a) 1)", BadName, 2, 7),
    ("(= (f a)\nb)", NotWhole, 3, 1),
    ("(= (f) 1.5)", NotWhole, 2, 8),
    (
        "(= (f) 2147483647)\n(= (f) 2147483648)",
        NumberTooLarge,
        3,
        8,
    ),
    ("(at 5\n(p a))", UnsupportedSection, 2, 1),
    ("(at 5)\n(< a b)", ReservedWord, 3, 2),
    ("(and (p))", ReservedWord, 2, 2),
];

fn has_fault(alloc: Global, file: File, (before, after): (&str, &str), row: &Row) -> bool {
    let (inside, kind, line, column) = *row;
    let at = At { line, column };
    let text = format!(in alloc; "{before}{inside}{after}");
    matches!(text, Ok(text) if has_first_fault(alloc, file, &text, Fault { kind, at }))
}

/// Asserts of each row that its text, between those before and after it, has the row's fault as its first.
fn assert_faults(rt: &impl Abort, alloc: Global, file: File, around: (&str, &str), rows: &[Row]) {
    for row in rows {
        assert!(rt; has_fault(alloc, file, around, row), "{}", row.0);
    }
}

#[test]
fn first_faults_of_one_file(rt: HostRuntime) {
    let parameters = "(define (domain d) (:action a :parameters (\n";
    let precondition = "(define (domain d) (:action a :precondition\n";
    let effect = "(define (domain d) (:action a :effect\n";
    let init = "(define (problem p) (:init\n";
    let alloc = rt.alloc();
    assert_faults(&rt, alloc, Domain, ("(define (domain ", "))"), NAMES);
    assert_faults(&rt, alloc, Domain, ("(define (domain d)\n", ")"), SECTIONS);
    assert_faults(&rt, alloc, Domain, (parameters, ")))"), VARIABLE_TYPES);
    assert_faults(&rt, alloc, Domain, (precondition, "))"), CONDITIONS);
    assert_faults(&rt, alloc, Domain, (effect, "))"), EFFECTS);
    assert_faults(&rt, alloc, Problem, ("(define\n", ")"), PROBLEM);
    assert_faults(&rt, alloc, Problem, (init, "))"), ENTRIES);
}
