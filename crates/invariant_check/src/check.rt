// The check of a candidate, and its repairs.
ghost use Rattle.std.specs.Prelude.{◌≡◌, ◌++◌, ◌∷◌, [], not, nat_eq, length, map, filter, Some, IfOk, OnOk};
ghost use Rattle.std.specs.List.{list_any, position_from};
ghost use Rattle.invariant_check.specs.Extensions.{with_part};
ghost use Rattle.invariant_check.specs.Beside as beside;
ghost use Rattle.invariant_check.specs.Repairs as spec;
ghost use Rattle.invariant_check.specs.Touched as touched;

use crate::adds::{AddTable, touching};
use crate::balanced::{has_balance, is_balanced_at};
use crate::extensions::{deleted, has_predicate, others, parts_of, with_part};
use crate::light::is_light;
use crate::near::near;
use crate::types::{AddPlace, Verdict};
use contradictions::{Candidate, Part};
use lists::List;
use normal_task::{EffectRow, Literal, Normal, Predicate, Schema};
use std::alloc::{AllocError, Global};

// ---- the first add that isn't balanced

/// The effect is an add on a predicate of the candidate, and isn't balanced.
fn is_unbalanced_add(
    alloc: Global,
    normal: &Normal,
    candidate: &Candidate,
    schema: &Schema,
    row: &EffectRow,
) -> Result<bool, AllocError>
    ensures { IfOk result (λ answer. answer ≡ spec.is_unbalanced_add normal.now candidate.now schema.now row.now) }
{
    if !row.adds {
        return Ok(false);
    }
    for part in candidate.parts.as_slice() {
        if part.predicate == row.predicate
            && !is_balanced_at(alloc, normal, candidate, schema, part, row)?
        {
            return Ok(true);
        }
    }
    Ok(false)
}

/// The first such effect of the schema.
fn first_row(
    alloc: Global,
    normal: &Normal,
    candidate: &Candidate,
    schema: &Schema,
) -> Result<Option<u64>, AllocError>
    ensures { IfOk result (λ first. first ≡ position_from (spec.is_unbalanced_add normal.now candidate.now schema.now) 0 schema.now.effects) }
{
    for (effect, row) in schema.effects.as_slice().iter().enumerate() {
        if is_unbalanced_add(alloc, normal, candidate, schema, row)? {
            return Ok(Some(effect as u64));
        }
    }
    Ok(None)
}

/// The first such effect of the schema with this number, if there is one.
fn first_row_at(
    alloc: Global,
    normal: &Normal,
    candidate: &Candidate,
    number: u64,
) -> Result<Option<u64>, AllocError>
    ensures { IfOk result (λ first. first ≡ touched.first_row_at normal.now candidate.now number) }
{
    match normal.schemas.as_slice().get(number as usize) {
        Some(schema) => first_row(alloc, normal, candidate, schema),
        None => Ok(None),
    }
}

/// The first such effect of the schemas with these numbers.
fn first_unbalanced(
    alloc: Global,
    normal: &Normal,
    candidate: &Candidate,
    numbers: &[u64],
) -> Result<Option<AddPlace>, AllocError>
    ensures { IfOk result (λ first. first ≡ touched.first_among normal.now candidate.now numbers.now) }
{
    for number in numbers {
        if let Some(effect) = first_row_at(alloc, normal, candidate, *number)? {
            return Ok(Some(AddPlace {
                schema: *number,
                effect,
            }));
        }
    }
    Ok(None)
}

// ---- adds that are balanced

/// Some delete effect of the candidate's predicates balances the row's add.
fn balances_row(
    alloc: Global,
    normal: &Normal,
    candidate: &Candidate,
    schema: &Schema,
    row: &EffectRow,
) -> Result<bool, AllocError>
    ensures { IfOk result (λ answer. answer ≡ spec.balances_row normal.now candidate.now schema.now row.now) }
{
    for part in candidate.parts.as_slice() {
        if part.predicate == row.predicate
            && has_balance(alloc, normal, candidate, schema, part, row)?
        {
            return Ok(true);
        }
    }
    Ok(false)
}

/// Some delete effect balances the add at the place.
fn balances_add(
    alloc: Global,
    normal: &Normal,
    candidate: &Candidate,
    place: &AddPlace,
) -> Result<bool, AllocError>
    ensures { IfOk result (λ answer. answer ≡ spec.balances_add normal.now place.now candidate.now) }
{
    match normal.schemas.as_slice().get(place.schema as usize) {
        Some(schema) => match schema.effects.as_slice().get(place.effect as usize) {
            Some(row) => balances_row(alloc, normal, candidate, schema, row),
            None => Ok(false),
        },
        None => Ok(false),
    }
}

// ---- the predicates that a repair may be of

/// The literal says that an atom of the predicate is true.
fn needs(predicate: Predicate, literal: &Literal) -> bool
    ensures { result ≡ beside.needs predicate literal.now }
{
    match literal {
        Literal::Holds(positive, other, _) => *positive && predicate == *other,
        Literal::Equal(_, _, _) => false,
    }
}

fn is_needed(literals: &[Literal], predicate: Predicate) -> bool
    ensures { result ≡ list_any (beside.needs predicate) literals.now }
{
    literals.iter().any(|literal| needs(predicate, literal))
}

/// The effect deletes atoms of a predicate of the candidate, of which one must be true where the row adds.
fn is_own_delete(
    candidate: &Candidate,
    schema: &Schema,
    row: &EffectRow,
    delete: &EffectRow,
) -> bool
    ensures { result ≡ beside.is_own_delete candidate.now schema.now row.now delete.now }
{
    !delete.adds
        && has_predicate(candidate, delete.predicate)
        && (is_needed(schema.condition.as_slice(), delete.predicate)
            || is_needed(row.condition.as_slice(), delete.predicate))
}

fn has_own_delete(candidate: &Candidate, schema: &Schema, row: &EffectRow) -> bool
    ensures { result ≡ list_any (beside.is_own_delete candidate.now schema.now row.now) schema.now.effects }
{
    schema
        .effects
        .as_slice()
        .iter()
        .any(|delete| is_own_delete(candidate, schema, row, delete))
}

/// Some delete effect on a predicate of the candidate itself may balance the add at the place, or there is no such add.
fn may_be_balanced(normal: &Normal, candidate: &Candidate, place: &AddPlace) -> bool
    ensures { result ≡ beside.may_be_balanced normal.now candidate.now place.now }
{
    match normal.schemas.as_slice().get(place.schema as usize) {
        Some(schema) => match schema.effects.as_slice().get(place.effect as usize) {
            Some(row) => has_own_delete(candidate, schema, row),
            None => true,
        },
        None => true,
    }
}

/// The predicates among which the repairs are looked for. Mostly these are those of which the add's schema deletes atoms:
/// only where some delete effect on a predicate of the candidate itself may come to balance the add by a part more, any other is.
fn predicates_beside(
    alloc: Global,
    normal: &Normal,
    candidate: &Candidate,
    place: &AddPlace,
) -> Result<Vec<Predicate>, AllocError>
    ensures { IfOk result (λ predicates. beside.repairs_among normal.now candidate.now place.now predicates.items ≡ spec.repairs_at normal.now candidate.now place.now) }
{
    if may_be_balanced(normal, candidate, place) {
        return others(alloc, normal, candidate);
    }
    match normal.schemas.as_slice().get(place.schema as usize) {
        Some(schema) => deleted(alloc, normal, candidate, schema),
        None => others(alloc, normal, candidate),
    }
}

/// The parts of these predicates.
fn parts_beside(
    alloc: Global,
    normal: &Normal,
    candidate: &Candidate,
    place: &AddPlace,
) -> Result<Vec<Part>, AllocError>
    ensures { IfOk result (λ parts. filter (spec.balances_add normal.now place.now) (map (with_part normal.now candidate.now) parts.items) ≡ spec.repairs_at normal.now candidate.now place.now) }
{
    let predicates = predicates_beside(alloc, normal, candidate, place)?;
    parts_of(alloc, normal, candidate, predicates.as_slice())
}

// ---- the repairs

/// Some delete effect balances the add at the place, under the candidate with this part more.
fn balances_with(
    alloc: Global,
    normal: &Normal,
    candidate: &Candidate,
    place: &AddPlace,
    part: &Part,
) -> Result<bool, AllocError>
    ensures { IfOk result (λ answer. answer ≡ spec.balances_add normal.now place.now (with_part normal.now candidate.now part.now)) }
{
    let extension = with_part(alloc, normal, candidate, part)?;
    balances_add(alloc, normal, &extension, place)
}

/// Adds the candidate with this part more, if some delete effect balances the add at the place under it. This is seen at
/// what of the candidate matters there.
fn push_repair(
    alloc: Global,
    repairs: &mut Vec<Candidate>,
    normal: &Normal,
    candidate: &Candidate,
    near: &Candidate,
    place: &AddPlace,
    part: &Part,
) -> Result<(), AllocError>
    ensures { OnOk result (repairs.new.items ≡ repairs.old.items ++ map (with_part normal.now candidate.now) (filter (λ part. spec.balances_add normal.now place.now (with_part normal.now near.now part)) (part.now ∷ []))) }
{
    if balances_with(alloc, normal, near, place, part)? {
        repairs.push(with_part(alloc, normal, candidate, part)?)?;
    }
    Ok(())
}

fn repairs_at(
    alloc: Global,
    normal: &Normal,
    candidate: &Candidate,
    place: &AddPlace,
) -> Result<Vec<Candidate>, AllocError>
    ensures { IfOk result (λ repairs. repairs.items ≡ spec.repairs_at normal.now candidate.now place.now) }
{
    let near = near(alloc, normal, candidate, place)?;
    let parts = parts_beside(alloc, normal, candidate, place)?;
    let mut repairs = Vec::new(alloc);
    for part in parts.as_slice() {
        push_repair(alloc, &mut repairs, normal, candidate, &near, place, part)?;
    }
    Ok(repairs)
}

/// The candidates that repair this one, where it is light and the place is its first add that isn't balanced: those with
/// one part more, for another predicate, under which some delete effect balances the add. They stand by the predicate of
/// that part, without a counted position first, then by counted position, then by placement.
pub fn repairs(
    alloc: Global,
    normal: &Normal,
    candidate: &Candidate,
    place: AddPlace,
) -> Result<List<Candidate>, AllocError>
    ensures { IfOk result (λ repairs. repairs ≡ spec.repairs_at normal.now candidate.now place) }
{
    Ok(List::from_vec(repairs_at(alloc, normal, candidate, &place)?))
}

// ---- the verdict

/// Some delete effect balances the add at the place, under the candidate with some one of the parts more.
fn some_repairs(
    alloc: Global,
    normal: &Normal,
    candidate: &Candidate,
    place: &AddPlace,
    parts: &[Part],
) -> Result<bool, AllocError>
    ensures { IfOk result (λ answer. answer ≡ list_any (λ part. spec.balances_add normal.now place.now (with_part normal.now candidate.now part)) parts.now) }
{
    for part in parts {
        if balances_with(alloc, normal, candidate, place, part)? {
            return Ok(true);
        }
    }
    Ok(false)
}

/// Some candidate repairs this one.
fn has_repair(
    alloc: Global,
    normal: &Normal,
    candidate: &Candidate,
    place: &AddPlace,
) -> Result<bool, AllocError>
    ensures { IfOk result (λ answer. answer ≡ not (nat_eq (length (spec.repairs_at normal.now candidate.now place.now)) 0)) }
{
    let near = near(alloc, normal, candidate, place)?;
    let parts = parts_beside(alloc, normal, candidate, place)?;
    some_repairs(alloc, normal, &near, place, parts.as_slice())
}

/// The verdict where the candidate is light, and this is its first add that isn't balanced.
fn unbalanced(
    alloc: Global,
    normal: &Normal,
    candidate: &Candidate,
    place: AddPlace,
) -> Result<Verdict, AllocError>
    ensures { IfOk result (λ verdict. verdict ≡ spec.verdict_by normal.now candidate.now (Some place)) }
{
    if has_repair(alloc, normal, candidate, &place)? {
        Ok(Verdict::Unbalanced(place))
    } else {
        Ok(Verdict::Dropped)
    }
}

/// What the check says of the candidate, by the schemas that add atoms of its predicates.
pub fn check_with(
    alloc: Global,
    table: &AddTable<'_>,
    candidate: &Candidate,
) -> Result<Verdict, AllocError>
    ensures { IfOk result (λ verdict. verdict ≡ spec.verdict table.now.normal.now candidate.now) }
{
    let numbers = touching(alloc, table, candidate)?;
    if !is_light(alloc, table.normal, candidate, numbers.as_slice())? {
        return Ok(Verdict::Dropped);
    }
    let first = first_unbalanced(alloc, table.normal, candidate, numbers.as_slice())?;
    match first {
        Some(place) => unbalanced(alloc, table.normal, candidate, place),
        None => Ok(Verdict::Accepted),
    }
}

/// What the check says of the candidate. Where many are checked, `check_with` makes the table of the task once.
pub fn check_candidate(
    alloc: Global,
    normal: &Normal,
    candidate: &Candidate,
) -> Result<Verdict, AllocError>
    ensures { IfOk result (λ verdict. verdict ≡ spec.verdict normal.now candidate.now) }
{
    check_with(alloc, &AddTable::new(alloc, normal)?, candidate)
}
