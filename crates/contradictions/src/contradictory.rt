// Contradictory lists of literals.
ghost use Rattle.std.specs.Prelude.{◌≡◌, ◌++◌, ◌∷◌, [], ◌&&◌, ◌||◌, if◌then◌else◌, IfOk, OnOk, map, zip};
ghost use Rattle.std.specs.List.{flat_map, list_any, list_all};
ghost use Rattle.normal_task.specs.declared.task.Place.TheVariants.{Object};
ghost use Rattle.lists.specs.SameMembers.{SameMembers};
ghost use Rattle.contradictions.specs.Candidates.{at_positions};
ghost use Rattle.contradictions.specs.Contradictory as spec;
ghost use Rattle.contradictions.specs.Merges.{all_ranges, as_pair, pair_of, have_one_leader};

use crate::common::some_has_no_object;
use crate::ranges::Ranges;
use crate::terms::{TermPair, copy, is_same, is_same_place, merged, term_at};
use crate::types::{Candidate, Part};
use normal_task::{Literal, Place, Predicate};
use std::alloc::{AllocError, Global};

/// Literals with pairs of equated terms, for the instance that the terms name.
#[derive(Clone, Copy)]
pub struct Case<'a> {
    pub ranges: Ranges<'a>,
    pub literals: &'a [Literal],
    pub equated: &'a [TermPair],
    pub instance: &'a [Place],
}

// ---- one literal or term beside another

/// The terms are in one class each, the first with the first and so on, by the classes that the merges tell.
pub fn are_same(merges: &[TermPair], xs: &[Place], ys: &[Place]) -> bool
    ensures { result ≡ spec.are_same_terms (have_one_leader merges.now) xs.now ys.now }
{
    if xs.is_empty() {
        ys.is_empty()
    } else if ys.is_empty() {
        false
    } else {
        is_same(merges, &xs[0], &ys[0]) && are_same(merges, &xs[1..], &ys[1..])
    }
}

fn is_denied_by(merges: &[TermPair], one: &Literal, other: &Literal) -> bool
    ensures { result ≡ spec.is_denied_by (have_one_leader merges.now) one.now other.now }
{
    match one {
        Literal::Holds(positive, predicate, places) => match other {
            Literal::Holds(other_positive, other, other_places) => {
                *positive
                    && !*other_positive
                    && *predicate == *other
                    && are_same(merges, places.as_slice(), other_places.as_slice())
            }
            Literal::Equal(_, _, _) => false,
        },
        Literal::Equal(_, _, _) => false,
    }
}

fn parts_a_class(merges: &[TermPair], literal: &Literal) -> bool
    ensures { result ≡ spec.parts_a_class (have_one_leader merges.now) literal.now }
{
    match literal {
        Literal::Holds(_, _, _) => false,
        Literal::Equal(positive, left, right) => !*positive && is_same(merges, left, right),
    }
}

fn are_two_objects(x: &Place, y: &Place) -> bool
    ensures { result ≡ spec.are_two_objects x.now y.now }
{
    match x {
        Place::Variable(_) => false,
        Place::Object(object) => match y {
            Place::Variable(_) => false,
            Place::Object(other) => *object != *other,
        },
    }
}

// ---- atoms of the instance

/// The terms at the positions.
pub fn terms_at(
    alloc: Global,
    positions: &[u64],
    places: &[Place],
) -> Result<Vec<Place>, AllocError>
    ensures { IfOk result (λ terms. terms.items ≡ at_positions (Object 0) positions.now places.now) }
{
    positions
        .iter()
        .map(|position| term_at(*position, places))
        .collect(alloc)
}

/// The terms at the positions are the instance.
fn agrees(merges: &[TermPair], positions: &[u64], places: &[Place], instance: &[Place]) -> bool
    ensures { result ≡ spec.are_same_terms (have_one_leader merges.now) (at_positions (Object 0) positions.now places.now) instance.now }
{
    if positions.is_empty() {
        instance.is_empty()
    } else if instance.is_empty() {
        false
    } else {
        is_same(merges, &term_at(positions[0], places), &instance[0])
            && agrees(merges, &positions[1..], places, &instance[1..])
    }
}

fn is_of_instance(
    merges: &[TermPair],
    parts: &[Part],
    instance: &[Place],
    predicate: Predicate,
    places: &[Place],
) -> bool
    ensures { result ≡ list_any (λ part. spec.is_of_part (have_one_leader merges.now) instance.now predicate places.now part) parts.now }
{
    parts.iter().any(|part| part.predicate == predicate
        && agrees(merges, part.places.as_slice(), places, instance))
}

fn are_two_of_instance(
    merges: &[TermPair],
    candidate: &Candidate,
    instance: &[Place],
    one: &Literal,
    other: &Literal,
) -> bool
    ensures { result ≡ spec.are_two_of_instance (have_one_leader merges.now) candidate.now instance.now one.now other.now }
{
    match one {
        Literal::Holds(positive, predicate, places) => match other {
            Literal::Holds(other_positive, other, other_places) => {
                *positive
                    && *other_positive
                    && *predicate != *other
                    && is_of_instance(
                        merges,
                        candidate.parts.as_slice(),
                        instance,
                        *predicate,
                        places.as_slice(),
                    )
                    && is_of_instance(
                        merges,
                        candidate.parts.as_slice(),
                        instance,
                        *other,
                        other_places.as_slice(),
                    )
            }
            Literal::Equal(_, _, _) => false,
        },
        Literal::Equal(_, _, _) => false,
    }
}

fn denies_another(merges: &[TermPair], literals: &[Literal], one: &Literal) -> bool
    ensures { result ≡ list_any (spec.is_denied_by (have_one_leader merges.now) one.now) literals.now }
{
    literals
        .iter()
        .any(|other| is_denied_by(merges, one, other))
}

fn is_second_object(merges: &[TermPair], terms: &[Place], x: &Place) -> bool
    ensures { result ≡ list_any (λ y. spec.are_two_objects x.now y && have_one_leader merges.now x.now y) terms.now }
{
    terms
        .iter()
        .any(|y| are_two_objects(x, y) && is_same(merges, x, y))
}

fn has_second(
    merges: &[TermPair],
    candidate: &Candidate,
    instance: &[Place],
    literals: &[Literal],
    one: &Literal,
) -> bool
    ensures { result ≡ list_any (spec.are_two_of_instance (have_one_leader merges.now) candidate.now instance.now one.now) literals.now }
{
    literals.iter().any(|other| are_two_of_instance(merges, candidate, instance, one, other))
}

fn are_denied(merges: &[TermPair], literals: &[Literal]) -> bool
    ensures { result ≡ list_any (λ literal. list_any (spec.is_denied_by (have_one_leader merges.now) literal) literals.now) literals.now }
{
    literals
        .iter()
        .any(|literal| denies_another(merges, literals, literal))
}

fn are_two(merges: &[TermPair], terms: &[Place]) -> bool
    ensures { result ≡ list_any (λ x. list_any (λ y. spec.are_two_objects x y && have_one_leader merges.now x y) terms.now) terms.now }
{
    terms.iter().any(|x| is_second_object(merges, terms, x))
}

fn are_parted(merges: &[TermPair], literals: &[Literal]) -> bool
    ensures { result ≡ list_any (spec.parts_a_class (have_one_leader merges.now)) literals.now }
{
    literals
        .iter()
        .any(|literal| parts_a_class(merges, literal))
}

fn are_two_atoms(
    merges: &[TermPair],
    candidate: &Candidate,
    instance: &[Place],
    literals: &[Literal],
) -> bool
    ensures { result ≡ list_any (λ literal. list_any (spec.are_two_of_instance (have_one_leader merges.now) candidate.now instance.now literal) literals.now) literals.now }
{
    literals.iter().any(|literal| has_second(merges, candidate, instance, literals, literal))
}

/// The literals or terms are contradictory, but for a class with no object in common.
fn are_contradictory(
    merges: &[TermPair],
    candidate: &Candidate,
    case: &Case<'_>,
    terms: &[Place],
) -> bool
    ensures { result ≡ (list_any (λ literal. list_any (spec.is_denied_by (have_one_leader merges.now) literal) case.now.literals.now) case.now.literals.now
        || list_any (λ x. list_any (λ y. spec.are_two_objects x y && have_one_leader merges.now x y) terms.now) terms.now
        || list_any (spec.parts_a_class (have_one_leader merges.now)) case.now.literals.now
        || list_any (λ literal. list_any (spec.are_two_of_instance (have_one_leader merges.now) candidate.now case.now.instance.now literal) case.now.literals.now) case.now.literals.now) }
{
    are_denied(merges, case.literals)
        || are_two(merges, terms)
        || are_parted(merges, case.literals)
        || are_two_atoms(merges, candidate, case.instance, case.literals)
}

// ---- the classes, and the terms that they are over

/// The pairs that are equated, and those of positive equalities.
fn all_pairs(
    alloc: Global,
    literals: &[Literal],
    equated: &[TermPair],
) -> Result<Vec<TermPair>, AllocError>
    ensures { IfOk result (λ pairs. map as_pair pairs.items ≡ spec.all_pairs literals.now (map as_pair equated.now)) }
{
    let mut pairs = Vec::new(alloc);
    for pair in equated {
        pairs.push(TermPair {
            left: copy(&pair.left),
            right: copy(&pair.right),
        })?;
    }
    for literal in literals {
        push_equality(&mut pairs, literal)?;
    }
    Ok(pairs)
}

fn push_equality(pairs: &mut Vec<TermPair>, literal: &Literal) -> Result<(), AllocError>
    ensures { OnOk result (map as_pair pairs.new.items ≡ map as_pair pairs.old.items ++ spec.equality_of literal.now) }
{
    match literal {
        Literal::Holds(_, _, _) => Ok(()),
        Literal::Equal(positive, left, right) => {
            if *positive {
                pairs.push(TermPair {
                    left: copy(left),
                    right: copy(right),
                })?;
            }
            Ok(())
        }
    }
}

/// The terms that stand in the literals, in the pairs or in the instance.
fn standing(alloc: Global, case: &Case<'_>) -> Result<Vec<Place>, AllocError>
    ensures { IfOk result (λ terms. terms.items ≡ spec.standing case.now.literals.now (map as_pair case.now.equated.now) case.now.instance.now) }
{
    let mut terms = Vec::new(alloc);
    for literal in case.literals {
        push_terms(&mut terms, literal)?;
    }
    push_sides(&mut terms, case.equated)?;
    push_copies(&mut terms, case.instance)?;
    Ok(terms)
}

/// Adds the terms of the literal.
pub fn push_terms(terms: &mut Vec<Place>, literal: &Literal) -> Result<(), AllocError>
    ensures { OnOk result (terms.new.items ≡ terms.old.items ++ spec.terms_of literal.now) }
{
    match literal {
        Literal::Holds(_, _, places) => push_copies(terms, places.as_slice()),
        Literal::Equal(_, left, right) => {
            terms.push(copy(left))?;
            terms.push(copy(right))?;
            Ok(())
        }
    }
}

/// Adds copies of the places.
pub fn push_copies(terms: &mut Vec<Place>, places: &[Place]) -> Result<(), AllocError>
    ensures { OnOk result (terms.new.items ≡ terms.old.items ++ places.now) }
{
    for place in places {
        terms.push(copy(place))?;
    }
    Ok(())
}

fn push_sides(terms: &mut Vec<Place>, pairs: &[TermPair]) -> Result<(), AllocError>
    ensures { OnOk result (terms.new.items ≡ terms.old.items ++ flat_map spec.sides (map as_pair pairs.now)) }
{
    for pair in pairs {
        push_both(terms, pair)?;
    }
    Ok(())
}

fn push_both(terms: &mut Vec<Place>, pair: &TermPair) -> Result<(), AllocError>
    ensures { OnOk result (terms.new.items ≡ terms.old.items ++ spec.sides (as_pair pair.now)) }
{
    terms.push(copy(&pair.left))?;
    terms.push(copy(&pair.right))?;
    Ok(())
}

fn is_listed(terms: &[Place], term: &Place) -> bool
    ensures { result ≡ list_any (spec.is_same_place term.now) terms.now }
{
    terms.iter().any(|other| is_same_place(term, other))
}

/// Adds a copy of the term, unless it is there already.
fn push_new(terms: &mut Vec<Place>, term: &Place) -> Result<(), AllocError>
    ensures { OnOk result (terms.new.items ≡ (if list_any (spec.is_same_place term.now) terms.old.items then terms.old.items else terms.old.items ++ term.now ∷ [])) }
{
    if !is_listed(terms.as_slice(), term) {
        terms.push(copy(term))?;
    }
    Ok(())
}

/// The terms, each once.
fn each_once(alloc: Global, terms: &[Place]) -> Result<Vec<Place>, AllocError>
    ensures { IfOk result (λ once. SameMembers once.items terms.now) }
{
    let mut once = Vec::new(alloc);
    for term in terms {
        push_new(&mut once, term)?;
    }
    Ok(once)
}

/// The pairs of the first terms, the second, and so on.
pub fn zipped(alloc: Global, left: &[Place], right: &[Place]) -> Result<Vec<TermPair>, AllocError>
    ensures { IfOk result (λ pairs. pairs.items ≡ map pair_of (zip left.now right.now)) }
{
    left.iter()
        .zip(right)
        .map(|(one, other)| TermPair {
            left: copy(one),
            right: copy(other),
        })
        .collect(alloc)
}

/// Merges that tell the classes of the terms, with the pairs equated and those of positive equalities.
pub fn classes(
    alloc: Global,
    literals: &[Literal],
    equated: &[TermPair],
) -> Result<Vec<TermPair>, AllocError>
    ensures { IfOk result (λ merges. have_one_leader merges.items ≡ spec.in_one_class (spec.all_pairs literals.now (map as_pair equated.now))) }
{
    let pairs = all_pairs(alloc, literals, equated)?;
    merged(alloc, pairs.as_slice())
}

/// The merges tell a contradiction among the literals, in which these terms stand.
fn contradicts_over(
    alloc: Global,
    merges: &[TermPair],
    candidate: &Candidate,
    case: &Case<'_>,
    terms: &[Place],
) -> Result<bool, AllocError>
    ensures { IfOk result (λ answer. answer ≡ spec.has_contradiction (have_one_leader merges.now) candidate.now (all_ranges case.now.ranges) case.now.literals.now terms.now case.now.instance.now) }
{
    if are_contradictory(merges, candidate, case, terms) {
        return Ok(true);
    }
    some_has_no_object(alloc, merges, &case.ranges, terms)
}

/// The merges tell a contradiction among the literals.
pub fn contradicts(
    alloc: Global,
    merges: &[TermPair],
    candidate: &Candidate,
    case: &Case<'_>,
) -> Result<bool, AllocError>
    ensures { IfOk result (λ answer. answer ≡ spec.has_contradiction (have_one_leader merges.now) candidate.now (all_ranges case.now.ranges) case.now.literals.now
        (spec.standing case.now.literals.now (map as_pair case.now.equated.now) case.now.instance.now) case.now.instance.now) }
{
    let all = standing(alloc, case)?;
    let terms = each_once(alloc, all.as_slice())?;
    contradicts_over(alloc, merges, candidate, case, terms.as_slice())
}

/// The literals, with the pairs equated, are contradictory for the instance.
pub fn is_contradictory(
    alloc: Global,
    candidate: &Candidate,
    case: &Case<'_>,
) -> Result<bool, AllocError>
    ensures { IfOk result (λ answer. answer ≡ spec.is_contradictory candidate.now (all_ranges case.now.ranges) case.now.literals.now (map as_pair case.now.equated.now) case.now.instance.now) }
{
    let merges = classes(alloc, case.literals, case.equated)?;
    contradicts(alloc, merges.as_slice(), candidate, case)
}
