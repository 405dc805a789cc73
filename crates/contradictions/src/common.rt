// Objects that the terms of a class have in common.
ghost use Rattle.std.specs.Prelude.{◌≡◌, ◌∷◌, map, filter, IfOk, IfSome};
ghost use Rattle.std.specs.List.{list_all, list_any};
ghost use Rattle.contradictions.specs.Common.{objects_in, IsNextShared, TellsShared};
ghost use Rattle.contradictions.specs.Contradictory as spec;
ghost use Rattle.contradictions.specs.FirstFrom.{IsFirstFrom};
ghost use Rattle.contradictions.specs.Merges.{all_ranges, have_one_leader};

use crate::ranges::{Ranges, range_of};
use crate::rising::Rising;
use crate::terms::{TermPair, is_same};
use normal_task::{Object, Place};
use std::alloc::{AllocError, Global};

// ---- one object after the other

/// The object is one that the term ranges over.
fn ranges_over(ranges: &Ranges<'_>, term: &Place, object: Object) -> bool
    ensures { result ≡ spec.is_among (spec.objects_of (all_ranges ranges.now) term.now) object }
{
    match term {
        Place::Variable(number) => is_among(range_of(ranges, *number), object),
        Place::Object(own) => object == *own,
    }
}

/// The object is one of these.
pub fn is_among(objects: &[Object], object: Object) -> bool
    ensures { result ≡ spec.is_among objects.now object }
{
    objects.iter().any(|other| object == *other)
}

/// The object isn't one of some term in the class.
fn is_lacked(
    merges: &[TermPair],
    ranges: &Ranges<'_>,
    terms: &[Place],
    term: &Place,
    object: Object,
) -> bool
    ensures { result ≡ spec.is_lacked (have_one_leader merges.now) (all_ranges ranges.now) terms.now term.now object }
{
    terms.iter().any(|other| is_same(merges, term, other) && !ranges_over(ranges, other, object))
}

fn are_lacked(
    merges: &[TermPair],
    ranges: &Ranges<'_>,
    terms: &[Place],
    term: &Place,
    objects: &[Object],
) -> bool
    ensures { result ≡ list_all (spec.is_lacked (have_one_leader merges.now) (all_ranges ranges.now) terms.now term.now) objects.now }
{
    objects
        .iter()
        .all(|object| is_lacked(merges, ranges, terms, term, *object))
}

// ---- leaps over ranges that rise

/// The objects of a term: one, or those of a range that rises.
#[derive(Clone, Copy)]
pub(crate) enum Member<'a> {
    One(u64),
    Many(Rising<'a>),
}

fn member_of<'a>(ranges: &Ranges<'a>, term: &Place) -> Option<Member<'a>>
    ensures { IfSome result (λ member. objects_in member ≡ spec.objects_of (all_ranges ranges.now) term.now) }
{
    match term {
        Place::Variable(number) => match Rising::new(range_of(ranges, *number)) {
            Some(rising) => Some(Member::Many(rising)),
            None => None,
        },
        Place::Object(own) => Some(Member::One(*own)),
    }
}

/// The first object of the term from this number on.
fn first_from(member: &Member<'_>, least: Object) -> Option<Object>
    ensures { IsFirstFrom (objects_in member.now) least result }
{
    match member {
        Member::One(object) => { if *object < least { None } else { Some(*object) } }
        Member::Many(rising) => rising.first_from(least),
    }
}

/// The least number from this one on that isn't passed over by some term; none where a term has no object left.
fn next_shared(class: &[Member<'_>], least: Object) -> Option<Object>
    ensures { IsNextShared (map objects_in class.now) least result }
{
    let mut next = least;
    for member in class {
        match first_from(member, next) {
            Some(object) => next = object,
            None => return None,
        }
    }
    Some(next)
}

/// Some object is one of each term.
fn share_some(class: &[Member<'_>]) -> bool
    ensures { TellsShared (map objects_in class.now) result }
{
    let mut least = 0;
    while let Some(next) = next_shared(class, least) {
        if next == least {
            return true;
        }
        least = next;
    }
    false
}

/// The objects of the term, and of each term in its class, where all ranges of these rise.
fn class_of<'a>(
    alloc: Global,
    merges: &[TermPair],
    ranges: &Ranges<'a>,
    terms: &[Place],
    term: &Place,
) -> Result<Option<Vec<Member<'a>>>, AllocError>
    ensures { IfOk result (λ found. IfSome found (λ class. map objects_in class.items
        ≡ spec.objects_of (all_ranges ranges.now) term.now ∷ map (spec.objects_of (all_ranges ranges.now)) (filter (have_one_leader merges.now term.now) terms.now))) }
{
    let mut class = Vec::new(alloc);
    match member_of(ranges, term) {
        Some(own) => class.push(own)?,
        None => return Ok(None),
    }
    for other in terms {
        if is_same(merges, term, other) {
            match member_of(ranges, other) {
                Some(one) => class.push(one)?,
                None => return Ok(None),
            }
        }
    }
    Ok(Some(class))
}

// ---- classes with no object in common

/// The term's class has no object in common. Mostly all its terms share the first object; where they don't, and their
/// ranges rise, as those of lawful tasks do, they are leapt over side by side.
fn has_no_object(
    alloc: Global,
    merges: &[TermPair],
    ranges: &Ranges<'_>,
    terms: &[Place],
    term: &Place,
) -> Result<bool, AllocError>
    ensures { IfOk result (λ answer. answer ≡ spec.has_no_object (have_one_leader merges.now) (all_ranges ranges.now) terms.now term.now) }
{
    match term {
        Place::Variable(number) => {
            let objects = range_of(ranges, *number);
            if !objects.is_empty() && !is_lacked(merges, ranges, terms, term, objects[0]) {
                return Ok(false);
            }
            match class_of(alloc, merges, ranges, terms, term)? {
                Some(class) => Ok(!share_some(class.as_slice())),
                None => Ok(are_lacked(merges, ranges, terms, term, objects)),
            }
        }
        Place::Object(own) => Ok(is_lacked(merges, ranges, terms, term, *own)),
    }
}

/// Some class has no object in common.
pub(crate) fn some_has_no_object(
    alloc: Global,
    merges: &[TermPair],
    ranges: &Ranges<'_>,
    terms: &[Place],
) -> Result<bool, AllocError>
    ensures { IfOk result (λ answer. answer ≡ list_any (spec.has_no_object (have_one_leader merges.now) (all_ranges ranges.now) terms.now) terms.now) }
{
    for term in terms {
        if has_no_object(alloc, merges, ranges, terms, term)? {
            return Ok(true);
        }
    }
    Ok(false)
}
