// The terms that are tried for the own variables of a delete effect.
ghost use Rattle.std.specs.Prelude.{◌≡◌, ◌++◌, map, length, IfOk, OnOk};
ghost use Rattle.std.specs.List.{flat_map, list_all, position, range_with_len};
ghost use Rattle.normal_task.specs.declared.task.Place.TheVariants.{Variable, Object};
ghost use Rattle.contradictions.specs.Contradictory as terms;
ghost use Rattle.contradictions.specs.Merges.{all_ranges};
ghost use Rattle.invariant_check.specs.Attempts as words;

use contradictions::{Ranges, is_among, is_same_place, push_terms, range_of, term_at};
use lists::List;
use normal_task::{EffectRow, Literal, Normal, ObjectRange, Place, Predicate};
use std::alloc::{AllocError, Global};

// ---- terms that fit

fn are_among(range: &[u64], objects: &[u64]) -> bool
    ensures { result ≡ list_all (terms.is_among range.now) objects.now }
{
    objects.iter().all(|object| is_among(range, *object))
}

/// How many parameters and variables there are.
fn count(ranges: &Ranges<'_>) -> u64
    ensures { result ≡ length (all_ranges ranges.now) }
{
    (ranges.parameters.len() + ranges.first.len() + ranges.second.len()) as u64
}

fn is_fitting(normal: &Normal, ranges: &Ranges<'_>, term: &Place, range: &[u64]) -> bool
    ensures { result ≡ words.is_fitting normal.now (all_ranges ranges.now) term.now range.now }
{
    match term {
        Place::Variable(number) => *number < count(ranges)
            && are_among(range, range_of(ranges, *number)),
        Place::Object(object) => *object < normal.objects.len() as u64 && is_among(range, *object),
    }
}

pub(crate) fn are_fitting(
    normal: &Normal,
    ranges: &Ranges<'_>,
    given: &[Place],
    variables: &[ObjectRange],
) -> bool
    ensures { result ≡ words.are_fitting normal.now (all_ranges ranges.now) given.now variables.now }
{
    if given.is_empty() {
        variables.is_empty()
    } else if variables.is_empty() {
        false
    } else {
        is_fitting(normal, ranges, &given[0], variables[0].as_slice())
            && are_fitting(normal, ranges, &given[1..], &variables[1..])
    }
}

// ---- terms that are tried

/// All terms: the parameters and variables, and the objects.
fn all_terms(alloc: Global, normal: &Normal, count: u64) -> Result<Vec<Place>, AllocError>
    ensures { IfOk result (λ all. all.items ≡ map Variable (range_with_len 0 count) ++ map Object (range_with_len 0 (length normal.now.objects))) }
{
    let mut all = Vec::new(alloc);
    for number in 0..count {
        all.push(Place::Variable(number))?;
    }
    for object in 0..normal.objects.len() as u64 {
        all.push(Place::Object(object))?;
    }
    Ok(all)
}

/// Adds an object of the range, for a variable that stands nowhere; where the range is empty, all terms.
fn push_some_terms(
    alloc: Global,
    terms: &mut Vec<Place>,
    normal: &Normal,
    ranges: &Ranges<'_>,
    range: &[u64],
) -> Result<(), AllocError>
    ensures { OnOk result (terms.new.items ≡ terms.old.items ++ words.some_terms normal.now (all_ranges ranges.now) range.now) }
{
    match range.first() {
        Some(object) if *object < normal.objects.len() as u64 => {
            terms.push(Place::Object(*object))?;
        }
        _ => {
            terms.append(&mut all_terms(alloc, normal, count(ranges))?)?;
        }
    }
    Ok(())
}

/// Adds the place at the index, where the literal says that an atom of the predicate is true.
fn push_stated(
    terms: &mut Vec<Place>,
    predicate: Predicate,
    index: usize,
    literal: &Literal,
) -> Result<(), AllocError>
    ensures { OnOk result (terms.new.items ≡ terms.old.items ++ words.stated_at predicate index literal.now) }
{
    match literal {
        Literal::Holds(positive, other, places) => {
            if *positive && predicate == *other {
                terms.push(term_at(index as u64, places.as_slice()))?;
            }
            Ok(())
        }
        Literal::Equal(_, _, _) => Ok(()),
    }
}

/// What the literals state at the index.
fn all_stated(
    alloc: Global,
    predicate: Predicate,
    index: usize,
    required: &[Literal],
) -> Result<Vec<Place>, AllocError>
    ensures { IfOk result (λ terms. terms.items ≡ flat_map (words.stated_at predicate index) required.now) }
{
    let mut terms = Vec::new(alloc);
    for literal in required {
        push_stated(&mut terms, predicate, index, literal)?;
    }
    Ok(terms)
}

/// What stands in the literals, and some other term that fits, if there is one.
fn all_standing(
    alloc: Global,
    normal: &Normal,
    ranges: &Ranges<'_>,
    required: &[Literal],
    range: &[u64],
) -> Result<Vec<Place>, AllocError>
    ensures { IfOk result (λ all. all.items ≡ flat_map terms.terms_of required.now ++ words.some_terms normal.now (all_ranges ranges.now) range.now) }
{
    let mut all = Vec::new(alloc);
    for literal in required {
        push_terms(&mut all, literal)?;
    }
    push_some_terms(alloc, &mut all, normal, ranges, range)?;
    Ok(all)
}

/// Where the term first stands among the places.
fn place_of(term: &Place, places: &[Place]) -> Option<usize>
    ensures { result ≡ position (terms.is_same_place term.now) places.now }
{
    places.iter().position(|place| is_same_place(term, place))
}

/// What is tried for the variable of the delete effect.
fn tried_for(
    alloc: Global,
    normal: &Normal,
    ranges: &Ranges<'_>,
    required: &[Literal],
    delete: &EffectRow,
    variable: &Place,
    range: &[u64],
) -> Result<Vec<Place>, AllocError>
    ensures { IfOk result (λ all. all.items ≡ words.tried_for normal.now (all_ranges ranges.now) required.now delete.now.predicate delete.now.places variable.now range.now) }
{
    match place_of(variable, delete.places.as_slice()) {
        Some(index) => all_stated(alloc, delete.predicate, index, required),
        None => all_standing(alloc, normal, ranges, required, range),
    }
}

/// What is tried for each own variable of the delete effect.
pub(crate) fn tried(
    alloc: Global,
    normal: &Normal,
    ranges: &Ranges<'_>,
    required: &[Literal],
    delete: &EffectRow,
) -> Result<Vec<List<Place>>, AllocError>
    ensures { IfOk result (λ all. all.items ≡ words.tried normal.now (all_ranges ranges.now) required.now delete.now (length ranges.now.parameters.now) delete.now.variables) }
{
    let mut all = Vec::new(alloc);
    for (index, range) in delete.variables.as_slice().iter().enumerate() {
        let variable = Place::Variable((ranges.parameters.len() + index) as u64);
        let some = tried_for(
            alloc,
            normal,
            ranges,
            required,
            delete,
            &variable,
            range.as_slice(),
        )?;
        all.push(List::from_vec(some))?;
    }
    Ok(all)
}
