// Candidates with one part, and those with one part more than a candidate.
ghost use Rattle.std.specs.Prelude.{◌≡◌, ◌++◌, ◌∷◌, ◌≤◌, ◌-◌, ◌&&◌, [], not, nat_eq, length, map, get_or, take, IfOk, OnOk};
ghost use Rattle.std.specs.List.{IsDistinct, filter, list_any, flat_map, range_with_len, position, position_or_len};
ghost use Rattle.std.specs.Vec.{vec_len};
ghost use Rattle.itertools.specs.Odometer.{ways};
ghost use Rattle.itertools.specs.Pool.{permutation_can, permutation_left};
ghost use Rattle.invariant_check.specs.Extensions as spec;
ghost use Rattle.invariant_check.specs.Beside as beside;

use crate::parts::{arity_of, first_above, left_by, push_candidates};
use contradictions::{Candidate, Part, copies};
use itertools::{Itertools, Permutations};
use lists::List;
use normal_task::{EffectRow, Normal, Predicate, Schema};
use std::alloc::{AllocError, Global};

/// Whether effects change the predicate: it is basic and not static.
fn is_changing(normal: &Normal, predicate: Predicate) -> bool
    ensures { result ≡ spec.is_changing normal.now predicate }
{
    match normal.predicates.as_slice().get(predicate as usize) {
        Some(row) => !row.derived && !row.fixed,
        None => false,
    }
}

/// The predicates that effects change, in their order.
fn changing(alloc: Global, normal: &Normal) -> Result<Vec<Predicate>, AllocError>
    ensures { IfOk result (λ predicates. predicates.items ≡ spec.changing normal.now) }
{
    let count = normal.predicates.len() as u64;
    (0..count)
        .filter(|predicate| is_changing(normal, *predicate))
        .collect(alloc)
}

/// The candidates with one predicate, by predicate. Of one predicate, the one without a counted position comes first,
/// and the others follow by counted position.
pub fn one_predicate(alloc: Global, normal: &Normal) -> Result<List<Candidate>, AllocError>
    ensures { IfOk result (λ candidates. candidates ≡ spec.one_predicate normal.now) }
{
    let predicates = changing(alloc, normal)?;
    let mut candidates = Vec::new(alloc);
    for predicate in predicates.as_slice() {
        push_candidates(alloc, &mut candidates, normal, *predicate)?;
    }
    Ok(List::from_vec(candidates))
}

/// The orders of all the positions, compared from left to right.
fn orders(alloc: Global, positions: &[u64]) -> Result<Permutations<u64, Global>, AllocError>
    ensures can { IfOk result permutation_can }
    ensures pool { IfOk result (λ made. made.pool.items ≡ positions.now) }
    ensures places { IfOk result (λ made. permutation_left made ≡ ways (λ _. 0) (λ chosen. vec_len made.pool - length chosen) (length positions.now) []) }
{
    positions
        .iter()
        .copied()
        .permutations(alloc, positions.len())
}

/// The parts of a predicate that have the parameters at these positions, in every order.
fn push_orders(
    alloc: Global,
    parts: &mut Vec<Part>,
    predicate: Predicate,
    counted: Option<u64>,
    positions: &[u64],
) -> Result<(), AllocError>
    requires { IsDistinct nat_eq positions.now }
    ensures { OnOk result (parts.new.items ≡ parts.old.items ++ map (spec.part_at predicate counted) (spec.orders positions.now (length positions.now))) }
{
    for places in orders(alloc, positions)? {
        parts.push(Part {
            predicate,
            places: List::from_vec(places?),
            counted,
        })?;
    }
    Ok(())
}

/// The parts of a predicate with this counted, for so many parameters.
fn push_parts_counting(
    alloc: Global,
    parts: &mut Vec<Part>,
    predicate: Predicate,
    arity: u64,
    parameters: u64,
    counted: Option<u64>,
) -> Result<(), AllocError>
    ensures { OnOk result (parts.new.items ≡ parts.old.items ++ spec.parts_counting predicate arity parameters counted) }
{
    let positions = left_by(alloc, arity, counted)?;
    if positions.len() as u64 == parameters {
        push_orders(alloc, parts, predicate, counted, positions.as_slice())?;
    }
    Ok(())
}

/// The parts of a predicate for so many parameters.
fn push_parts(
    alloc: Global,
    parts: &mut Vec<Part>,
    normal: &Normal,
    parameters: u64,
    predicate: Predicate,
) -> Result<(), AllocError>
    ensures { OnOk result (parts.new.items ≡ parts.old.items ++ spec.parts_of normal.now parameters predicate) }
{
    let arity = arity_of(normal, predicate);
    push_parts_counting(alloc, parts, predicate, arity, parameters, None)?;
    for position in 0..arity {
        push_parts_counting(alloc, parts, predicate, arity, parameters, Some(position))?;
    }
    Ok(())
}

/// The candidate has a part of the predicate.
pub(crate) fn has_predicate(candidate: &Candidate, predicate: Predicate) -> bool
    ensures { result ≡ spec.has_predicate candidate.now predicate }
{
    candidate
        .parts
        .as_slice()
        .iter()
        .any(|part| part.predicate == predicate)
}

/// The predicates that effects change and of which the candidate has no part.
pub(crate) fn others(
    alloc: Global,
    normal: &Normal,
    candidate: &Candidate,
) -> Result<Vec<Predicate>, AllocError>
    ensures { IfOk result (λ predicates. predicates.items ≡ beside.others normal.now candidate.now) }
{
    let predicates = changing(alloc, normal)?;
    predicates
        .as_slice()
        .iter()
        .copied()
        .filter(|predicate| !has_predicate(candidate, *predicate))
        .collect(alloc)
}

/// The effect deletes atoms of a predicate that effects change and of which the candidate has no part.
fn is_new_delete(normal: &Normal, candidate: &Candidate, row: &EffectRow) -> bool
    ensures { result ≡ (not row.now.adds && spec.is_changing normal.now row.now.predicate && not (spec.has_predicate candidate.now row.now.predicate)) }
{
    !row.adds && is_changing(normal, row.predicate) && !has_predicate(candidate, row.predicate)
}

fn new_deletes(
    alloc: Global,
    normal: &Normal,
    candidate: &Candidate,
    schema: &Schema,
) -> Result<Vec<Predicate>, AllocError>
    ensures { IfOk result (λ predicates. predicates.items ≡ map (λ row. row.predicate) (filter (λ row. not row.adds && spec.is_changing normal.now row.predicate && not (spec.has_predicate candidate.now row.predicate)) schema.now.effects)) }
{
    schema
        .effects
        .as_slice()
        .iter()
        .filter(|row| is_new_delete(normal, candidate, row))
        .map(|row| row.predicate)
        .collect(alloc)
}

/// Of the predicates that effects change and of which the candidate has no part, those of which the schema deletes atoms.
pub(crate) fn deleted(
    alloc: Global,
    normal: &Normal,
    candidate: &Candidate,
    schema: &Schema,
) -> Result<Vec<Predicate>, AllocError>
    ensures { IfOk result (λ predicates. predicates.items ≡ filter (beside.deletes schema.now) (beside.others normal.now candidate.now)) }
{
    let mut predicates = new_deletes(alloc, normal, candidate, schema)?;
    predicates.sort_unstable();
    predicates.dedup();
    Ok(predicates)
}

/// The parts of these predicates that the candidate may be extended by.
pub(crate) fn parts_of(
    alloc: Global,
    normal: &Normal,
    candidate: &Candidate,
    predicates: &[Predicate],
) -> Result<Vec<Part>, AllocError>
    ensures { IfOk result (λ parts. parts.items ≡ flat_map (spec.parts_of normal.now candidate.now.parameters) predicates.now) }
{
    let mut parts = Vec::new(alloc);
    for predicate in predicates {
        push_parts(alloc, &mut parts, normal, candidate.parameters, *predicate)?;
    }
    Ok(parts)
}

/// The part put among the others, by predicate.
fn put_in(alloc: Global, part: &Part, others: &[Part]) -> Result<Vec<Part>, AllocError>
    ensures { IfOk result (λ parts. parts.items ≡ spec.put_in part.now others.now) }
{
    let mut parts = copies(alloc, others)?;
    let place = first_above(others, part.predicate).unwrap_or(others.len());
    parts.insert(place, part.copy(alloc)?)?;
    Ok(parts)
}

fn has_place(part: &Part, position: u64) -> bool
    ensures { result ≡ list_any (nat_eq position) part.now.places }
{
    part.places
        .as_slice()
        .iter()
        .any(|place| position == *place)
}

/// The positions that the part's parameters take, from the lowest on.
fn rising_places(alloc: Global, normal: &Normal, part: &Part) -> Result<Vec<u64>, AllocError>
    ensures { IfOk result (λ places. places.items ≡ spec.rising_places normal.now part.now) }
{
    let arity = arity_of(normal, part.predicate);
    (0..arity)
        .filter(|position| has_place(part, *position))
        .collect(alloc)
}

/// The parameter that stands at this position.
fn parameter_at(part: &Part, place: u64) -> Option<usize>
    ensures { result ≡ position (nat_eq place) part.now.places }
{
    part.places
        .as_slice()
        .iter()
        .position(|other| place == *other)
}

/// The position that a parameter takes.
fn place_of(part: &Part, parameter: usize) -> u64
    ensures { result ≡ get_or part.now.places parameter 0 }
{
    match part.places.as_slice().get(parameter) {
        Some(place) => *place,
        None => 0,
    }
}

/// Where the part has the parameter that stands at this place of the first part.
fn place_beside(first: &Part, part: &Part, place: u64) -> u64
    ensures { result ≡ get_or part.now.places (position_or_len (nat_eq place) first.now.places) 0 }
{
    let parameter = parameter_at(first, place).unwrap_or(first.places.len());
    place_of(part, parameter)
}

/// The part with its parameters in the order in which the first part has them at these places.
fn renamed(alloc: Global, rising: &[u64], first: &Part, part: &Part) -> Result<Part, AllocError>
    ensures { IfOk result (λ named. named ≡ spec.renamed rising.now first.now part.now) }
{
    let places = rising
        .iter()
        .map(|place| place_beside(first, part, *place))
        .collect(alloc)?;
    Ok(Part {
        predicate: part.predicate,
        places: List::from_vec(places),
        counted: part.counted,
    })
}

fn all_renamed(
    alloc: Global,
    normal: &Normal,
    first: &Part,
    parts: &[Part],
) -> Result<Vec<Part>, AllocError>
    ensures { IfOk result (λ named. named.items ≡ map (spec.renamed (spec.rising_places normal.now first.now) first.now) parts.now) }
{
    let rising = rising_places(alloc, normal, first)?;
    let mut named = Vec::new(alloc);
    for part in parts {
        named.push(renamed(alloc, rising.as_slice(), first, part)?)?;
    }
    Ok(named)
}

/// The parts with their parameters named such that the first part's places rise.
fn in_form(alloc: Global, normal: &Normal, parts: &[Part]) -> Result<Vec<Part>, AllocError>
    ensures { IfOk result (λ formed. formed.items ≡ spec.in_form normal.now parts.now) }
{
    match parts.first() {
        None => Ok(Vec::new(alloc)),
        Some(first) => all_renamed(alloc, normal, first, parts),
    }
}

/// The candidate with this part more.
pub(crate) fn with_part(
    alloc: Global,
    normal: &Normal,
    candidate: &Candidate,
    part: &Part,
) -> Result<Candidate, AllocError>
    ensures { IfOk result (λ extended. extended ≡ spec.with_part normal.now candidate.now part.now) }
{
    let parts = put_in(alloc, part, candidate.parts.as_slice())?;
    let formed = in_form(alloc, normal, parts.as_slice())?;
    Ok(Candidate {
        parameters: candidate.parameters,
        parts: List::from_vec(formed),
    })
}
