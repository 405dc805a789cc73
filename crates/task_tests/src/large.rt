//! Large tasks, in which a body that searches where it could look up doesn't come to its end in time.

ghost use Rattle.ground_task.specs.Lawful.{IsLawful};
ghost use Rattle.reached_task.specs.Lawful.{IsLawful as IsLawfulReached};

use crate::grounds::{reached_of, reached_task};
use crate::made::{Part, made};
use crate::moves::{line_task, ring_task};
use crate::tasks::{Asked, is_answered};
use axiom_layers::layers;
use ground_task::{Ground, GroundAction};
use normal_task::{Normal, ObjectRange};
use reachable_instances::reachable;
use reached_task::Reached;
use static_matcher::instances;
use std::alloc::{AllocError, Global};
use std::test::*;

// ---- facts that are found one after another, each from the one before

/// How often a condition of an action that can be reached names a fact.
fn members(reached: &Reached) -> usize {
    let mut members = 0usize;
    for action in reached.actions.as_slice() {
        members = members.saturating_add(action.condition.positive.len());
    }
    members
}

/// Whether so many facts and actions can be reached, and each of these actions has one condition.
fn has_sizes(reached: &Reached, facts: usize, actions: usize) -> bool {
    reached.facts.len() == facts && reached.actions.len() == actions && members(reached) == actions
}

/// Whether that is so of what can be reached of the task.
fn reaches(alloc: Global, ground: Ground, facts: usize, actions: usize) -> Result<bool, AllocError>
    requires { IsLawful ground }
{
    let reached = reached_of(alloc, &ground);
    drop(ground);
    Ok(has_sizes(&reached?, facts, actions))
}

#[test]
fn two_lines_and_half_a_ring_are_reached(rt: HostRuntime) -> Result<(), AllocError> {
    let lines = line_task(rt.alloc(), 200000)?;
    assert!(rt; reaches(rt.alloc(), lines, 400000, 399998)?, "two lines");
    let ring = ring_task(rt.alloc(), 2000)?;
    assert!(rt; ring.actions.len() == 2000, "a ring");
    assert!(rt; reaches(rt.alloc(), ring, 1000, 1000)?, "half a ring");
    Ok(())
}

// ---- normal tasks of made texts

/// The parts of a domain and of a problem, and what is asked of their normal task.
type Made<Q> = (&'static [Part], &'static [Part], Q);

fn is_made_answered<Q: Asked>(alloc: Global, row: &Made<Q>) -> Result<bool, AllocError> {
    let domain = made(alloc, row.0)?;
    let problem = made(alloc, row.1)?;
    Ok(is_answered(alloc, &domain, &problem, &row.2))
}

/// So many numbers, from 0 on, of which each is so much greater than the one before.
type Numbers = (usize, u64);

/// By their first atoms' objects, the instances that a task has, and those of them that are made where the ones that can't be
/// reached aren't: one for each of the numbers.
struct Instances {
    all: Numbers,
    reachable: Numbers,
}

/// The object of the first atom of the action's condition.
fn first_object(action: &GroundAction) -> Option<u64> {
    let atom = action.condition.positive.as_slice().first()?;
    atom.objects.as_slice().first().copied()
}

/// These objects of all actions, the least first.
fn first_objects(alloc: Global, ground: &Ground) -> Result<Vec<u64>, AllocError> {
    let mut objects = Vec::new(alloc);
    for action in ground.actions.as_slice() {
        objects.push(first_object(action).unwrap_or(u64::MAX))?;
    }
    objects.sort_unstable();
    Ok(objects)
}

fn are_numbers(objects: &[u64], numbers: Numbers) -> bool {
    let (count, step) = numbers;
    let mut places = objects.iter().enumerate();
    objects.len() == count
        && places.all(|(place, object)| *object == step.saturating_mul(place as u64))
}

fn is_one_for_each(alloc: Global, ground: Result<Ground, AllocError>, numbers: Numbers) -> bool {
    match ground {
        Ok(ground) => {
            let objects = first_objects(alloc, &ground);
            drop(ground);
            matches!(objects, Ok(objects) if are_numbers(&objects, numbers))
        }
        Err(_) => false,
    }
}

impl Asked for Instances {
    fn is_answered(&self, alloc: Global, normal: &Normal) -> bool {
        is_one_for_each(alloc, instances(alloc, normal), self.all)
            && is_one_for_each(alloc, reachable(alloc, normal), self.reachable)
    }
}

static INSTANCES: &[Made<Instances>] = &[
    // In a ring one hops over the next place. So half of the places can be reached. A plain search goes through each three.
    (
        &[(
            1,
            "(define (domain ring) (:predicates (next ?x ?y) (at ?x)) (:action hop :parameters (?x ?y ?z)
 :precondition (and (at ?x) (next ?x ?y) (next ?y ?z)) :effect (and (not (at ?x)) (at ?z))))",
        )],
        &[
            (1, "(define (problem r) (:domain ring) (:objects"),
            (200000, " n#"),
            (1, ") (:init (at n1)"),
            (199999, " (next n# n#')"),
            (1, " (next n200000 n1)) (:goal (at n3)))"),
        ],
        Instances {
            all: (200000, 1),
            reachable: (100000, 2),
        },
    ),
    // From each place one comes to the hub, and from there home. But the roads lead from the hub to all places too, so that
    // home is looked at first.
    (
        &[(
            1,
            "(define (domain hub) (:predicates (road ?x ?y) (home ?x) (at ?x)) (:action go :parameters (?x ?y ?z)
 :precondition (and (at ?x) (road ?x ?y) (road ?y ?z) (home ?z)) :effect (and (not (at ?x)) (at ?z))))",
        )],
        &[
            (1, "(define (problem h) (:domain hub) (:objects"),
            (100000, " n#"),
            (1, " hub) (:init (at n1) (home n1)"),
            (100000, " (road n# hub) (road hub n#)"),
            (1, ") (:goal (at n1)))"),
        ],
        Instances {
            all: (100000, 1),
            reachable: (1, 1),
        },
    ),
];

#[test]
fn static_literals_are_matched_by_few_atoms(rt: HostRuntime) -> Result<(), AllocError> {
    for (number, row) in INSTANCES.iter().enumerate() {
        assert!(rt; is_made_answered(rt.alloc(), row)?, "row {number}");
    }
    Ok(())
}

/// The objects that the parameters of the first action range over.
struct Ranges(&'static [&'static [u64]]);

fn are_ranges(ranges: &[ObjectRange], rows: &[&[u64]]) -> bool {
    let mut pairs = ranges.iter().zip(rows);
    ranges.len() == rows.len() && pairs.all(|(range, row)| range.as_slice() == *row)
}

impl Asked for Ranges {
    fn is_answered(&self, alloc: Global, normal: &Normal) -> bool {
        match normal.schemas.as_slice().first() {
            Some(schema) => are_ranges(schema.parameters.as_slice(), self.0),
            None => false,
        }
    }
}

/// Two long lines of types, of which one is declared from its top on and one from its bottom on, with an object at the bottom
/// of each. Where the types are gone through again and again, in one order or the other, each time finds one more type of one
/// of the lines.
static TYPES: Made<Ranges> = (
    &[
        (1, "(define (domain types) (:types"),
        (100000, " up#' - up# down# - down#'"),
        (
            1,
            ") (:predicates (p ?x)) (:action go :parameters (?x - up1 ?y - down100001) :effect (p ?x)))",
        ),
    ],
    &[(
        1,
        "(define (problem t) (:domain types) (:objects a - up100001 b - down1) (:init) (:goal ()))",
    )],
    Ranges(&[&[0], &[1]]),
);

#[test]
fn long_lines_of_types_are_followed(rt: HostRuntime) -> Result<(), AllocError> {
    assert!(rt; is_made_answered(rt.alloc(), &TYPES)?, "ranges");
    Ok(())
}

/// How many derived facts there are in each of two lines, which have each layer once. In the order of facts the first line
/// falls to layer 0, the other one rises from it, and they take turns.
struct Lines(u64);

/// Whether these are the layers of the two facts at this place of the lines.
fn are_at(layers: &[u64], place: u64, count: u64) -> bool {
    matches!(layers, [falling, rising] if *rising == place
        && falling.saturating_add(place).saturating_add(1) == count)
}

fn are_lines(layers: &[u64], count: u64) -> bool {
    let mut pairs = layers.chunks(2).enumerate();
    layers.len() as u64 == count.saturating_mul(2)
        && pairs.all(|(place, pair)| are_at(pair, place as u64, count))
}

fn has_lines(alloc: Global, reached: &Reached, count: u64) -> bool
    requires { IsLawfulReached reached.now }
{
    matches!(layers(alloc, reached), Ok(layers) if are_lines(layers.as_slice(), count))
}

impl Asked for Lines {
    fn is_answered(&self, alloc: Global, normal: &Normal) -> bool {
        match reached_task(alloc, normal) {
            Ok(reached) => {
                let has_lines = has_lines(alloc, &reached, self.0);
                drop(reached);
                has_lines
            }
            Err(_) => false,
        }
    }
}

/// Two long lines of facts that rest on one another, of which one is told from its top on and one from its bottom on. Where
/// the axioms are gone through again and again, in one order or the other, each time lifts one of the lines by one layer.
static LAYERS: Made<Lines> = (
    &[
        (1, "(define (domain lines) (:predicates (up1)"),
        (250000, " (down#) (up#')"),
        (1, " (down250001))"),
        (
            250000,
            " (:derived (down#) (down#')) (:derived (up#') (up#))",
        ),
        (1, ")"),
    ],
    &[(
        1,
        "(define (problem l) (:domain lines) (:init (up1) (down250001)) (:goal ()))",
    )],
    Lines(250000),
);

#[test]
fn long_lines_of_axioms_get_their_layers(rt: HostRuntime) -> Result<(), AllocError> {
    assert!(rt; is_made_answered(rt.alloc(), &LAYERS)?, "layers");
    Ok(())
}
