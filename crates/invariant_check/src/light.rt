// When a candidate is light: no two add effects of a schema add two atoms of one instance together.
ghost use Rattle.std.specs.Prelude.{◌≡◌, ◌++◌, ◌∷◌, [], ◌&&◌, map, length, IfOk, OnOk};
ghost use Rattle.std.specs.List.{list_all};
ghost use Rattle.normal_task.specs.declared.task.Place.TheVariants.{Object};
ghost use Rattle.contradictions.specs.Candidates.{at_positions};
ghost use Rattle.contradictions.specs.Contradictory as terms;
ghost use Rattle.contradictions.specs.Merges.{as_pair, all_ranges};
ghost use Rattle.contradictions.specs.Renamings.{denied_atom};
ghost use Rattle.contradictions.specs.declared.renaming.Renaming.TheVariants.{Apart};
ghost use Rattle.invariant_check.specs.Accepted as spec;
ghost use Rattle.invariant_check.specs.Attempts as words;
ghost use Rattle.invariant_check.specs.Touched as touched;

use crate::parts::{AddedAtom, are_one};
use contradictions::{
    Candidate, Case, Part, Ranges, Renamed, Renaming, classes, contradicts, is_same_place,
    push_denied, push_renamed, renamed_row, term_at, terms_at, zipped,
};
use normal_task::{EffectRow, Literal, Normal, Place, Predicate, Schema};
use std::alloc::{AllocError, Global};

/// Adds the literals as they are.
pub(crate) fn push_kept(
    alloc: Global,
    literals: &mut Vec<Literal>,
    more: &[Literal],
) -> Result<(), AllocError>
    ensures { OnOk result (literals.new.items ≡ literals.old.items ++ more.now) }
{
    push_renamed(alloc, literals, &Renaming::Kept, more)
}

/// The precondition joined with the effect's condition.
pub(crate) fn required(
    alloc: Global,
    schema: &Schema,
    row: &EffectRow,
) -> Result<Vec<Literal>, AllocError>
    ensures { IfOk result (λ literals. literals.items ≡ spec.required schema.now row.now) }
{
    let mut literals = Vec::new(alloc);
    push_kept(alloc, &mut literals, schema.condition.as_slice())?;
    push_kept(alloc, &mut literals, row.condition.as_slice())?;
    Ok(literals)
}

/// The precondition, both conditions and both negated atoms. The second effect is on the predicate.
fn both_added(
    alloc: Global,
    schema: &Schema,
    row: &EffectRow,
    predicate: Predicate,
    beside: &Renamed,
) -> Result<Vec<Literal>, AllocError>
    ensures { IfOk result (λ literals. literals.items ≡ schema.now.condition ++ (row.now.condition ++ (beside.now.condition.items
        ++ spec.denied row.now ∷ denied_atom predicate beside.now.places ∷ []))) }
{
    let mut literals = required(alloc, schema, row)?;
    push_kept(alloc, &mut literals, beside.condition.as_slice())?;
    push_denied(alloc, &mut literals, row.predicate, row.places.as_slice())?;
    push_denied(alloc, &mut literals, predicate, beside.places.as_slice())?;
    Ok(literals)
}

/// With the case's terms equated, the two are one atom, or are never added together.
fn are_one_or_apart(
    alloc: Global,
    candidate: &Candidate,
    case: &Case<'_>,
    one: &AddedAtom<'_>,
    other: &AddedAtom<'_>,
) -> Result<bool, AllocError>
    ensures { IfOk result (λ answer. answer ≡ words.are_one_or_apart candidate.now (all_ranges case.now.ranges) case.now.literals.now (map as_pair case.now.equated.now) case.now.instance.now
        one.now.predicate one.now.places.now other.now.predicate other.now.places.now) }
{
    let merges = classes(alloc, case.literals, case.equated)?;
    if are_one(merges.as_slice(), one, other) {
        return Ok(true);
    }
    contradicts(alloc, merges.as_slice(), candidate, case)
}

/// The ranges of the schema's parameters and of the variables of two of its effects.
pub(crate) fn ranges_of<'a>(
    schema: &'a Schema,
    first: &'a EffectRow,
    second: &'a EffectRow,
) -> Ranges<'a>
    ensures { all_ranges result ≡ schema.now.parameters ++ (first.now.variables ++ second.now.variables) }
{
    Ranges {
        parameters: schema.parameters.as_slice(),
        first: first.variables.as_slice(),
        second: second.variables.as_slice(),
    }
}

/// The second effect's variables are numbered behind those of the first.
pub(crate) fn apart(schema: &Schema, first: &EffectRow) -> Renaming<'static>
    ensures { result ≡ Apart (length schema.now.parameters) (length first.now.variables) }
{
    Renaming::Apart(schema.parameters.len() as u64, first.variables.len() as u64)
}

/// An add effect of a schema, with the part of its predicate.
#[derive(Clone, Copy)]
struct PartAdd<'a> {
    part: &'a Part,
    row: &'a EffectRow,
}

// ---- pairs of add effects that are light at once

/// The two places are one, which is a parameter or an object.
fn is_same_kept(parameters: u64, x: &Place, y: &Place) -> bool
    ensures { result ≡ (terms.is_same_place x.now y.now && words.is_kept parameters y.now) }
{
    is_same_place(x, y) && is_kept(parameters, y)
}

fn is_kept(parameters: u64, place: &Place) -> bool
    ensures { result ≡ words.is_kept parameters place.now }
{
    match place {
        Place::Variable(number) => *number < parameters,
        Place::Object(_) => true,
    }
}

fn are_kept(parameters: u64, xs: &[Place], ys: &[Place]) -> bool
    ensures { result ≡ words.are_kept parameters xs.now ys.now }
{
    if xs.is_empty() {
        ys.is_empty()
    } else if ys.is_empty() {
        false
    } else {
        is_same_kept(parameters, &xs[0], &ys[0]) && are_kept(parameters, &xs[1..], &ys[1..])
    }
}

/// Both effects add the same atom, of parameters and objects.
fn add_one_atom(schema: &Schema, one: &EffectRow, other: &EffectRow) -> bool
    ensures { result ≡ words.add_one_atom schema.now one.now other.now }
{
    one.predicate == other.predicate
        && are_kept(
            schema.parameters.len() as u64,
            one.places.as_slice(),
            other.places.as_slice(),
        )
}

fn are_two_objects(x: &Place, y: &Place) -> bool
    ensures { result ≡ terms.are_two_objects x.now y.now }
{
    match x {
        Place::Variable(_) => false,
        Place::Object(object) => match y {
            Place::Variable(_) => false,
            Place::Object(other) => *object != *other,
        },
    }
}

/// At some position the two instances have different objects.
fn name_two(positions: &[u64], places: &[Place], others: &[u64], other_places: &[Place]) -> bool
    ensures { result ≡ words.name_two (at_positions (Object 0) positions.now places.now) (at_positions (Object 0) others.now other_places.now) }
{
    if positions.is_empty() {
        false
    } else if others.is_empty() {
        false
    } else {
        are_two_objects(
            &term_at(positions[0], places),
            &term_at(others[0], other_places),
        ) || name_two(&positions[1..], places, &others[1..], other_places)
    }
}

// ---- light

/// The two add effects are light beside each other, if the second part is of its effect's predicate.
fn are_light(
    alloc: Global,
    candidate: &Candidate,
    schema: &Schema,
    one: &PartAdd<'_>,
    other: &PartAdd<'_>,
) -> Result<bool, AllocError>
    ensures { IfOk result (λ answer. answer ≡ spec.part_passes (spec.is_light_beside candidate.now schema.now one.now.part.now one.now.row.now) other.now.row.now other.now.part.now) }
{
    if name_two(
        one.part.places.as_slice(),
        one.row.places.as_slice(),
        other.part.places.as_slice(),
        other.row.places.as_slice(),
    ) {
        return Ok(true);
    }
    are_light_by_classes(alloc, candidate, schema, one, other)
}

/// Whether the two adds are light together, by the classes of terms.
fn are_light_by_classes(
    alloc: Global,
    candidate: &Candidate,
    schema: &Schema,
    one: &PartAdd<'_>,
    other: &PartAdd<'_>,
) -> Result<bool, AllocError>
    ensures { IfOk result (λ answer. answer ≡ spec.part_passes (spec.is_light_beside candidate.now schema.now one.now.part.now one.now.row.now) other.now.row.now other.now.part.now) }
{
    if other.part.predicate != other.row.predicate {
        return Ok(true);
    }
    let beside = renamed_row(alloc, &apart(schema, one.row), other.row)?;
    let literals = both_added(alloc, schema, one.row, other.row.predicate, &beside)?;
    let instance = terms_at(alloc, one.part.places.as_slice(), one.row.places.as_slice())?;
    let second = terms_at(
        alloc,
        other.part.places.as_slice(),
        beside.places.as_slice(),
    )?;
    let equated = zipped(alloc, instance.as_slice(), second.as_slice())?;
    let case = Case {
        ranges: ranges_of(schema, one.row, other.row),
        literals: literals.as_slice(),
        equated: equated.as_slice(),
        instance: instance.as_slice(),
    };
    let first = AddedAtom {
        predicate: one.row.predicate,
        places: one.row.places.as_slice(),
    };
    let second = AddedAtom {
        predicate: other.row.predicate,
        places: beside.places.as_slice(),
    };
    are_one_or_apart(alloc, candidate, &case, &first, &second)
}

/// The add effect is light beside the other one, with each part of its predicate.
fn is_light_beside_row(
    alloc: Global,
    candidate: &Candidate,
    schema: &Schema,
    one: &PartAdd<'_>,
    row: &EffectRow,
) -> Result<bool, AllocError>
    ensures { IfOk result (λ answer. answer ≡ list_all (spec.part_passes (spec.is_light_beside candidate.now schema.now one.now.part.now one.now.row.now) row.now) candidate.now.parts) }
{
    if add_one_atom(schema, one.row, row) {
        return Ok(true);
    }
    is_light_beside_parts(alloc, candidate, schema, one, row)
}

fn is_light_beside_parts(
    alloc: Global,
    candidate: &Candidate,
    schema: &Schema,
    one: &PartAdd<'_>,
    row: &EffectRow,
) -> Result<bool, AllocError>
    ensures { IfOk result (λ answer. answer ≡ list_all (spec.part_passes (spec.is_light_beside candidate.now schema.now one.now.part.now one.now.row.now) row.now) candidate.now.parts) }
{
    for part in candidate.parts.as_slice() {
        if !are_light(alloc, candidate, schema, one, &PartAdd { part, row })? {
            return Ok(false);
        }
    }
    Ok(true)
}

/// The add effect is light beside each add effect of the schema.
fn is_light_add(
    alloc: Global,
    candidate: &Candidate,
    schema: &Schema,
    one: &PartAdd<'_>,
) -> Result<bool, AllocError>
    ensures { IfOk result (λ answer. answer ≡ spec.is_light_add candidate.now schema.now one.now.part.now one.now.row.now) }
{
    for row in schema.effects.as_slice() {
        if row.adds && !is_light_beside_row(alloc, candidate, schema, one, row)? {
            return Ok(false);
        }
    }
    Ok(true)
}

/// The effect, an add, is light beside each add effect of the schema.
fn is_light_row(
    alloc: Global,
    candidate: &Candidate,
    schema: &Schema,
    row: &EffectRow,
) -> Result<bool, AllocError>
    ensures { IfOk result (λ answer. answer ≡ list_all (spec.part_passes (spec.is_light_add candidate.now schema.now) row.now) candidate.now.parts) }
{
    for part in candidate.parts.as_slice() {
        if part.predicate == row.predicate
            && !is_light_add(alloc, candidate, schema, &PartAdd { part, row })?
        {
            return Ok(false);
        }
    }
    Ok(true)
}

fn is_light_in(alloc: Global, candidate: &Candidate, schema: &Schema) -> Result<bool, AllocError>
    ensures { IfOk result (λ answer. answer ≡ spec.is_light_in candidate.now schema.now) }
{
    for row in schema.effects.as_slice() {
        if row.adds && !is_light_row(alloc, candidate, schema, row)? {
            return Ok(false);
        }
    }
    Ok(true)
}

/// The candidate is light in the schema with this number, if there is one.
fn is_light_at(
    alloc: Global,
    normal: &Normal,
    candidate: &Candidate,
    number: u64,
) -> Result<bool, AllocError>
    ensures { IfOk result (λ answer. answer ≡ touched.is_light_at normal.now candidate.now number) }
{
    match normal.schemas.as_slice().get(number as usize) {
        Some(schema) => is_light_in(alloc, candidate, schema),
        None => Ok(true),
    }
}

/// The candidate is light in each of the schemas with these numbers.
pub(crate) fn is_light(
    alloc: Global,
    normal: &Normal,
    candidate: &Candidate,
    numbers: &[u64],
) -> Result<bool, AllocError>
    ensures { IfOk result (λ answer. answer ≡ list_all (touched.is_light_at normal.now candidate.now) numbers.now) }
{
    for number in numbers {
        if !is_light_at(alloc, normal, candidate, *number)? {
            return Ok(false);
        }
    }
    Ok(true)
}
