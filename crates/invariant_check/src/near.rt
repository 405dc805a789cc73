// What of a candidate matters beside one schema: the parts whose predicates the schema mentions.
ghost use Rattle.std.specs.Prelude.{◌≡◌, ◌++◌, ◌∷◌, [], filter, IfOk, OnOk};
ghost use Rattle.std.specs.List.{list_any};
ghost use Rattle.invariant_check.specs.Beside as spec;

use crate::types::AddPlace;
use contradictions::{Candidate, Part};
use lists::List;
use normal_task::{EffectRow, Literal, Normal, Predicate, Schema};
use std::alloc::{AllocError, Global};

/// The literal is of the predicate.
fn is_on(predicate: Predicate, literal: &Literal) -> bool
    ensures { result ≡ spec.is_on predicate literal.now }
{
    match literal {
        Literal::Holds(_, other, _) => predicate == *other,
        Literal::Equal(_, _, _) => false,
    }
}

fn some_is_on(predicate: Predicate, literals: &[Literal]) -> bool
    ensures { result ≡ list_any (spec.is_on predicate) literals.now }
{
    literals.iter().any(|literal| is_on(predicate, literal))
}

/// The effect or its condition has an atom of the predicate.
fn row_mentions(predicate: Predicate, row: &EffectRow) -> bool
    ensures { result ≡ spec.row_mentions predicate row.now }
{
    predicate == row.predicate || some_is_on(predicate, row.condition.as_slice())
}

fn some_mentions(predicate: Predicate, rows: &[EffectRow]) -> bool
    ensures { result ≡ list_any (spec.row_mentions predicate) rows.now }
{
    rows.iter().any(|row| row_mentions(predicate, row))
}

fn mentions(schema: &Schema, predicate: Predicate) -> bool
    ensures { result ≡ spec.mentions schema.now predicate }
{
    some_is_on(predicate, schema.condition.as_slice())
        || some_mentions(predicate, schema.effects.as_slice())
}

/// Adds the part, if the schema mentions its predicate.
fn push_mentioned(
    alloc: Global,
    near: &mut Vec<Part>,
    schema: &Schema,
    part: &Part,
) -> Result<(), AllocError>
    ensures { OnOk result (near.new.items ≡ near.old.items ++ filter (λ part. spec.mentions schema.now part.predicate) (part.now ∷ [])) }
{
    if mentions(schema, part.predicate) {
        near.push(part.copy(alloc)?)?;
    }
    Ok(())
}

fn push_all_mentioned(
    alloc: Global,
    near: &mut Vec<Part>,
    schema: &Schema,
    parts: &[Part],
) -> Result<(), AllocError>
    ensures { OnOk result (near.new.items ≡ near.old.items ++ filter (λ part. spec.mentions schema.now part.predicate) parts.now) }
{
    for part in parts {
        push_mentioned(alloc, near, schema, part)?;
    }
    Ok(())
}

/// The first part, which gives the parameters their names, and those of the others whose predicates the schema mentions.
fn near_parts(alloc: Global, schema: &Schema, parts: &[Part]) -> Result<Vec<Part>, AllocError>
    ensures { IfOk result (λ near. near.items ≡ spec.near_parts schema.now parts.now) }
{
    let mut near = Vec::new(alloc);
    if parts.is_empty() {
        return Ok(near);
    }
    near.push(parts[0].copy(alloc)?)?;
    push_all_mentioned(alloc, &mut near, schema, &parts[1..])?;
    Ok(near)
}

fn near_schema(
    alloc: Global,
    candidate: &Candidate,
    schema: &Schema,
) -> Result<Candidate, AllocError>
    ensures { IfOk result (λ near. near ≡ spec.near_schema candidate.now schema.now) }
{
    let parts = near_parts(alloc, schema, candidate.parts.as_slice())?;
    Ok(Candidate {
        parameters: candidate.parameters,
        parts: List::from_vec(parts),
    })
}

/// The candidate with those parts alone that matter at the add. With one part more, it is balanced there where the
/// candidate with that part more is.
pub(crate) fn near(
    alloc: Global,
    normal: &Normal,
    candidate: &Candidate,
    place: &AddPlace,
) -> Result<Candidate, AllocError>
    ensures { IfOk result (λ near. spec.StandsFor normal.now place.now near candidate.now) }
{
    match normal.schemas.as_slice().get(place.schema as usize) {
        Some(schema) => near_schema(alloc, candidate, schema),
        None => candidate.copy(alloc),
    }
}
