// When a candidate is balanced: each add effect's atom is true already, or an atom of the same instance is deleted.
ghost use Rattle.std.specs.Prelude.{◌≡◌, ◌++◌, ◌∷◌, [], ◌&&◌, not, true, drop, zip, length, IfOk};
ghost use Rattle.std.specs.Cmp.Lexicographic.{pointwise};
ghost use Rattle.std.specs.List.{list_all, list_any};
ghost use Rattle.normal_task.specs.declared.task.Literal.TheVariants.{Holds};
ghost use Rattle.normal_task.specs.declared.task.Place.TheVariants.{Object};
ghost use Rattle.normal_task.specs.Meaning.{choices};
ghost use Rattle.contradictions.specs.Candidates.{at_positions};
ghost use Rattle.contradictions.specs.Contradictory as terms;
ghost use Rattle.contradictions.specs.Merges.{as_pair, all_ranges};
ghost use Rattle.invariant_check.specs.Accepted as spec;
ghost use Rattle.invariant_check.specs.Attempts as words;

use crate::extensions::has_predicate;
use crate::light::{apart, push_kept, ranges_of, required};
use crate::parts::is_add_of;
use crate::tried::{are_fitting, tried};
use contradictions::{
    Candidate, Case, Part, Ranges, Renamed, Renaming, are_same, copy, is_contradictory,
    is_same_place, push_denied, renamed_row, terms_at, zipped,
};
use lists::List;
use normal_task::{EffectRow, Literal, Normal, Place, Predicate, Schema};
use std::alloc::{AllocError, Global};

/// An add effect of a schema: the literals that are required where it adds, and the terms of its instance.
#[derive(Clone, Copy)]
struct Add<'a> {
    schema: &'a Schema,
    row: &'a EffectRow,
    required: &'a [Literal],
    instance: &'a [Place],
}

// ---- literals that are required

/// With no terms merged, only equal ones are the same.
fn are_same_places(xs: &[Place], ys: &[Place]) -> bool
    ensures { result ≡ pointwise terms.is_same_place xs.now ys.now }
{
    are_same(&[], xs, ys)
}

fn is_same_literal(one: &Literal, other: &Literal) -> bool
    ensures { result ≡ spec.is_same_literal one.now other.now }
{
    match one {
        Literal::Holds(positive, predicate, places) => match other {
            Literal::Holds(other_positive, other, other_places) => {
                *positive == *other_positive
                    && *predicate == *other
                    && are_same_places(places.as_slice(), other_places.as_slice())
            }
            Literal::Equal(_, _, _) => false,
        },
        Literal::Equal(positive, left, right) => match other {
            Literal::Holds(_, _, _) => false,
            Literal::Equal(other_positive, other_left, other_right) => {
                *positive == *other_positive
                    && is_same_place(left, other_left)
                    && is_same_place(right, other_right)
            }
        },
    }
}

fn is_listed(literals: &[Literal], literal: &Literal) -> bool
    ensures { result ≡ spec.is_listed literals.now literal.now }
{
    literals.iter().any(|other| is_same_literal(literal, other))
}

fn are_listed(literals: &[Literal], some: &[Literal]) -> bool
    ensures { result ≡ list_all (spec.is_listed literals.now) some.now }
{
    some.iter().all(|literal| is_listed(literals, literal))
}

/// The literal says that the atom of the predicate with these places is true.
fn states(predicate: Predicate, places: &[Place], literal: &Literal) -> bool
    ensures { result ≡ spec.is_same_literal (Holds true predicate places.now) literal.now }
{
    match literal {
        Literal::Holds(positive, other, other_places) => {
            *positive && predicate == *other && are_same_places(places, other_places.as_slice())
        }
        Literal::Equal(_, _, _) => false,
    }
}

fn is_stated(literals: &[Literal], predicate: Predicate, places: &[Place]) -> bool
    ensures { result ≡ spec.is_listed literals.now (Holds true predicate places.now) }
{
    literals
        .iter()
        .any(|literal| states(predicate, places, literal))
}

// ---- atoms of the instance

/// The atom's places of the part are those of the instance.
fn is_at(positions: &[u64], places: &[Place], instance: &[Place]) -> bool
    ensures { result ≡ pointwise terms.is_same_place (at_positions (Object 0) positions.now places.now) instance.now }
{
    if positions.is_empty() {
        instance.is_empty()
    } else if instance.is_empty() {
        false
    } else {
        is_same_place(&contradictions::term_at(positions[0], places), &instance[0])
            && is_at(&positions[1..], places, &instance[1..])
    }
}

fn is_at_instance(
    candidate: &Candidate,
    instance: &[Place],
    predicate: Predicate,
    places: &[Place],
) -> bool
    ensures { result ≡ words.is_at_instance candidate.now instance.now predicate places.now }
{
    candidate.parts.as_slice().iter().any(|part| part.predicate == predicate
        && is_at(part.places.as_slice(), places, instance))
}

// ---- add effects that restore what is deleted

/// What is required, the other effect's condition, and the negated atom of the add effect.
fn added_beside(
    alloc: Global,
    add: &Add<'_>,
    condition: &[Literal],
) -> Result<Vec<Literal>, AllocError>
    ensures { IfOk result (λ literals. literals.items ≡ add.now.required.now ++ (condition.now ++ spec.denied add.now.row.now ∷ [])) }
{
    let row = add.row;
    let mut literals = Vec::new(alloc);
    push_kept(alloc, &mut literals, add.required)?;
    push_kept(alloc, &mut literals, condition)?;
    push_denied(alloc, &mut literals, row.predicate, row.places.as_slice())?;
    Ok(literals)
}

/// The effect doesn't add the atom of the predicate with these places where the other adds.
fn leaves_deleted(
    alloc: Global,
    candidate: &Candidate,
    add: &Add<'_>,
    predicate: Predicate,
    places: &[Place],
    row: &EffectRow,
) -> Result<bool, AllocError>
    ensures { IfOk result (λ answer. answer ≡ words.leaves_deleted candidate.now add.now.schema.now add.now.row.now add.now.required.now add.now.instance.now predicate places.now
        (spec.apart_from add.now.schema.now add.now.row.now row.now)) }
{
    if !is_add_of(row, predicate) {
        return Ok(true);
    }
    is_never_added(alloc, candidate, add, places, row)
}

/// The add effect never adds the atom of its predicate with these places where the other adds.
fn is_never_added(
    alloc: Global,
    candidate: &Candidate,
    add: &Add<'_>,
    places: &[Place],
    row: &EffectRow,
) -> Result<bool, AllocError>
    ensures { IfOk result (λ answer. answer ≡ terms.is_contradictory candidate.now (spec.ranges_with add.now.schema.now add.now.row.now row.now)
        (add.now.required.now ++ ((spec.apart_from add.now.schema.now add.now.row.now row.now).condition ++ spec.denied add.now.row.now ∷ []))
        (zip (spec.apart_from add.now.schema.now add.now.row.now row.now).places places.now) add.now.instance.now) }
{
    let beside = renamed_row(alloc, &apart(add.schema, add.row), row)?;
    let literals = added_beside(alloc, add, beside.condition.as_slice())?;
    let equated = zipped(alloc, beside.places.as_slice(), places)?;
    let case = Case {
        ranges: ranges_of(add.schema, add.row, row),
        literals: literals.as_slice(),
        equated: equated.as_slice(),
        instance: add.instance,
    };
    is_contradictory(alloc, candidate, &case)
}

/// No effect of the schema restores the atom of the predicate with these places.
fn is_left_deleted(
    alloc: Global,
    candidate: &Candidate,
    add: &Add<'_>,
    predicate: Predicate,
    places: &[Place],
) -> Result<bool, AllocError>
    ensures { IfOk result (λ answer. answer ≡ list_all (λ a. words.leaves_deleted candidate.now add.now.schema.now add.now.row.now add.now.required.now add.now.instance.now predicate places.now
        (spec.apart_from add.now.schema.now add.now.row.now a)) add.now.schema.now.effects) }
{
    for row in add.schema.effects.as_slice() {
        if !leaves_deleted(alloc, candidate, add, predicate, places, row)? {
            return Ok(false);
        }
    }
    Ok(true)
}

// ---- delete effects

/// The renamed delete effect is on an atom of the instance, it and its condition are required, and the terms fit.
fn is_required(
    normal: &Normal,
    candidate: &Candidate,
    add: &Add<'_>,
    delete: &EffectRow,
    given: &[Place],
    row: &Renamed,
) -> bool
    ensures { result ≡ (words.is_at_instance candidate.now add.now.instance.now delete.now.predicate row.now.places && spec.is_listed add.now.required.now (Holds true delete.now.predicate row.now.places)
        && list_all (spec.is_listed add.now.required.now) row.now.condition.items && words.are_fitting normal.now (add.now.schema.now.parameters ++ add.now.row.now.variables) given.now delete.now.variables) }
{
    is_at_instance(
        candidate,
        add.instance,
        delete.predicate,
        row.places.as_slice(),
    ) && is_stated(add.required, delete.predicate, row.places.as_slice())
        && are_listed(add.required, row.condition.as_slice())
        && are_fitting(
            normal,
            &ranges_of_one(add.schema, add.row),
            given,
            delete.variables.as_slice(),
        )
}

/// The delete effect, with these terms for its own variables, balances the add effect.
fn balances_given(
    alloc: Global,
    normal: &Normal,
    candidate: &Candidate,
    add: &Add<'_>,
    delete: &EffectRow,
    given: &[Place],
) -> Result<bool, AllocError>
    ensures { IfOk result (λ answer. answer ≡ words.balances_given normal.now candidate.now add.now.schema.now add.now.row.now add.now.required.now add.now.instance.now delete.now given.now) }
{
    let parameters = add.schema.parameters.len() as u64;
    let row = renamed_row(alloc, &Renaming::Given(parameters, given), delete)?;
    if !is_required(normal, candidate, add, delete, given, &row) {
        return Ok(false);
    }
    is_left_deleted(
        alloc,
        candidate,
        add,
        delete.predicate,
        row.places.as_slice(),
    )
}

/// The ranges of the parameters and of the effect's variables.
fn ranges_of_one<'a>(schema: &'a Schema, row: &'a EffectRow) -> Ranges<'a>
    ensures ranges { all_ranges result ≡ schema.now.parameters ++ row.now.variables }
    ensures parameters { result.parameters.now ≡ schema.now.parameters }
{
    Ranges {
        parameters: schema.parameters.as_slice(),
        first: row.variables.as_slice(),
        second: &[],
    }
}

/// The terms with one more.
fn with_term(alloc: Global, given: &[Place], term: &Place) -> Result<Vec<Place>, AllocError>
    ensures { IfOk result (λ longer. longer.items ≡ given.now ++ term.now ∷ []) }
{
    let mut longer = Vec::new(alloc);
    contradictions::push_copies(&mut longer, given)?;
    longer.push(copy(term))?;
    Ok(longer)
}

/// The delete effect balances the add effect with these terms for so many of its variables, and some of those that are
/// tried for the others.
fn balances_from(
    alloc: Global,
    normal: &Normal,
    candidate: &Candidate,
    add: &Add<'_>,
    delete: &EffectRow,
    given: &[Place],
    tried: &[List<Place>],
    variable: usize,
) -> Result<bool, AllocError>
    ensures { IfOk result (λ answer. answer ≡ list_any (λ others. words.balances_given normal.now candidate.now add.now.schema.now add.now.row.now add.now.required.now add.now.instance.now delete.now (given.now ++ others))
        (choices (drop variable tried.now))) }
{
    if variable >= tried.len() {
        return balances_given(alloc, normal, candidate, add, delete, given);
    }
    for term in tried[variable].as_slice() {
        let longer = with_term(alloc, given, term)?;
        if balances_from(
            alloc,
            normal,
            candidate,
            add,
            delete,
            longer.as_slice(),
            tried,
            variable + 1,
        )? {
            return Ok(true);
        }
    }
    Ok(false)
}

/// The effect deletes an atom of the candidate's predicates, and balances the add effect.
fn balances(
    alloc: Global,
    normal: &Normal,
    candidate: &Candidate,
    add: &Add<'_>,
    row: &EffectRow,
) -> Result<bool, AllocError>
    ensures { IfOk result (λ answer. answer ≡ words.balances_somehow normal.now candidate.now add.now.schema.now add.now.row.now add.now.required.now add.now.instance.now row.now) }
{
    if row.adds || !has_predicate(candidate, row.predicate) {
        return Ok(false);
    }
    let tried = tried(
        alloc,
        normal,
        &ranges_of_one(add.schema, add.row),
        add.required,
        row,
    )?;
    balances_from(alloc, normal, candidate, add, row, &[], tried.as_slice(), 0)
}

fn some_balances(
    alloc: Global,
    normal: &Normal,
    candidate: &Candidate,
    add: &Add<'_>,
) -> Result<bool, AllocError>
    ensures { IfOk result (λ answer. answer ≡ list_any (words.balances_somehow normal.now candidate.now add.now.schema.now add.now.row.now add.now.required.now add.now.instance.now) add.now.schema.now.effects) }
{
    for row in add.schema.effects.as_slice() {
        if balances(alloc, normal, candidate, add, row)? {
            return Ok(true);
        }
    }
    Ok(false)
}

// ---- add effects

/// Some delete effect balances the add effect, where these literals are required.
fn has_balance_with(
    alloc: Global,
    normal: &Normal,
    candidate: &Candidate,
    schema: &Schema,
    part: &Part,
    row: &EffectRow,
    required: &[Literal],
) -> Result<bool, AllocError>
    requires { required.now ≡ spec.required schema.now row.now }
    ensures { IfOk result (λ answer. answer ≡ spec.has_balance normal.now candidate.now schema.now part.now row.now) }
{
    let instance = terms_at(alloc, part.places.as_slice(), row.places.as_slice())?;
    let add = Add {
        schema,
        row,
        required,
        instance: instance.as_slice(),
    };
    some_balances(alloc, normal, candidate, &add)
}

/// Some delete effect balances the add effect. Where that has no condition of its own, the precondition isn't copied.
pub(crate) fn has_balance(
    alloc: Global,
    normal: &Normal,
    candidate: &Candidate,
    schema: &Schema,
    part: &Part,
    row: &EffectRow,
) -> Result<bool, AllocError>
    ensures { IfOk result (λ answer. answer ≡ spec.has_balance normal.now candidate.now schema.now part.now row.now) }
{
    if row.condition.as_slice().is_empty() {
        let required = schema.condition.as_slice();
        return has_balance_with(alloc, normal, candidate, schema, part, row, required);
    }
    let required = required(alloc, schema, row)?;
    has_balance_with(
        alloc,
        normal,
        candidate,
        schema,
        part,
        row,
        required.as_slice(),
    )
}

/// The add effect never adds a false atom.
fn is_never_new(
    alloc: Global,
    candidate: &Candidate,
    schema: &Schema,
    part: &Part,
    row: &EffectRow,
) -> Result<bool, AllocError>
    ensures { IfOk result (λ answer. answer ≡ terms.is_contradictory candidate.now (schema.now.parameters ++ row.now.variables) (spec.required schema.now row.now ++ spec.denied row.now ∷ []) [] (spec.instance_of part.now row.now)) }
{
    let mut literals = required(alloc, schema, row)?;
    push_denied(alloc, &mut literals, row.predicate, row.places.as_slice())?;
    let instance = terms_at(alloc, part.places.as_slice(), row.places.as_slice())?;
    let case = Case {
        ranges: ranges_of_one(schema, row),
        literals: literals.as_slice(),
        equated: &[],
        instance: instance.as_slice(),
    };
    is_contradictory(alloc, candidate, &case)
}

pub(crate) fn is_balanced_at(
    alloc: Global,
    normal: &Normal,
    candidate: &Candidate,
    schema: &Schema,
    part: &Part,
    row: &EffectRow,
) -> Result<bool, AllocError>
    ensures { IfOk result (λ answer. answer ≡ spec.is_balanced_at normal.now candidate.now schema.now part.now row.now) }
{
    if is_never_new(alloc, candidate, schema, part, row)? {
        return Ok(true);
    }
    has_balance(alloc, normal, candidate, schema, part, row)
}
