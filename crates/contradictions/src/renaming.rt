// Copies of places and literals, whose variables may be renamed.
ghost use Rattle.std.specs.Prelude.{◌≡◌, ◌++◌, ◌∷◌, [], IfOk, OnOk, get_or};
ghost use Rattle.normal_task.specs.Parts as parts;
ghost use Rattle.normal_task.specs.declared.task.Place.TheVariants.{Object};
ghost use Rattle.contradictions.specs.GivenTerms.{with_terms};
ghost use Rattle.contradictions.specs.Renamings as spec;

use crate::terms::{copy, term_at};
use lists::List;
use normal_task::{EffectRow, Literal, Place, Predicate};
use std::alloc::{AllocError, Global};

/// How the variables of a row are renamed.
#[derive(Clone, Copy)]
pub enum Renaming<'a> {
    /// They stay.
    Kept,
    /// Those from the first number on are numbered higher by the second.
    Apart(u64, u64),
    /// Those from the number on are given the terms.
    Given(u64, &'a [Place]),
}

/// The place, its variable numbered higher if it is one from the number on. The want of a number that is as great counts
/// as want of memory: a lawful task's numbers are positions in lists.
fn moved_place(from: u64, by: u64, place: &Place) -> Result<Place, AllocError>
    ensures { IfOk result (λ moved. moved ≡ parts.moved_place from by place.now) }
{
    match place {
        Place::Variable(number) => {
            if *number < from {
                Ok(Place::Variable(*number))
            } else {
                match number.checked_add(by) {
                    Some(sum) => Ok(Place::Variable(sum)),
                    None => Err(AllocError),
                }
            }
        }
        Place::Object(object) => Ok(Place::Object(*object)),
    }
}

/// The place, with the given terms for the variables from the number on.
fn given_place(from: u64, given: &[Place], place: &Place) -> Place
    ensures { result ≡ with_terms from given.now place.now }
{
    match place {
        Place::Variable(number) => {
            if *number < from {
                Place::Variable(*number)
            } else {
                term_at(*number - from, given)
            }
        }
        Place::Object(object) => Place::Object(*object),
    }
}

fn renamed_place(renaming: &Renaming<'_>, place: &Place) -> Result<Place, AllocError>
    ensures { IfOk result (λ renamed. renamed ≡ spec.renamed_place renaming.now place.now) }
{
    match renaming {
        Renaming::Kept => Ok(copy(place)),
        Renaming::Apart(from, by) => moved_place(*from, *by, place),
        Renaming::Given(from, given) => Ok(given_place(*from, given, place)),
    }
}

pub(crate) fn renamed_places(
    alloc: Global,
    renaming: &Renaming<'_>,
    places: &[Place],
) -> Result<List<Place>, AllocError>
    ensures { IfOk result (λ renamed. renamed ≡ spec.renamed_places renaming.now places.now) }
{
    let mut renamed = Vec::with_capacity(alloc, places.len())?;
    for place in places {
        renamed.push(renamed_place(renaming, place)?)?;
    }
    Ok(List::from_vec(renamed))
}

fn renamed_literal(
    alloc: Global,
    renaming: &Renaming<'_>,
    literal: &Literal,
) -> Result<Literal, AllocError>
    ensures { IfOk result (λ renamed. renamed ≡ spec.renamed_literal renaming.now literal.now) }
{
    match literal {
        Literal::Holds(positive, predicate, places) => {
            let places = renamed_places(alloc, renaming, places.as_slice())?;
            Ok(Literal::Holds(*positive, *predicate, places))
        }
        Literal::Equal(positive, left, right) => {
            Ok(Literal::Equal(
                *positive,
                renamed_place(renaming, left)?,
                renamed_place(renaming, right)?,
            ))
        }
    }
}

/// Adds the literals, their variables renamed.
pub fn push_renamed(
    alloc: Global,
    literals: &mut Vec<Literal>,
    renaming: &Renaming<'_>,
    more: &[Literal],
) -> Result<(), AllocError>
    ensures { OnOk result (literals.new.items ≡ literals.old.items ++ spec.renamed_literals renaming.now more.now) }
{
    for literal in more {
        literals.push(renamed_literal(alloc, renaming, literal)?)?;
    }
    Ok(())
}

/// Adds that the atom is false.
pub fn push_denied(
    alloc: Global,
    literals: &mut Vec<Literal>,
    predicate: Predicate,
    places: &[Place],
) -> Result<(), AllocError>
    ensures { OnOk result (literals.new.items ≡ literals.old.items ++ spec.denied_atom predicate places.now ∷ []) }
{
    let places = renamed_places(alloc, &Renaming::Kept, places)?;
    literals.push(Literal::Holds(false, predicate, places))?;
    Ok(())
}

/// The condition and the places of an effect, whose variables are renamed.
#[derive(Drop)]
pub struct Renamed {
    pub condition: Vec<Literal>,
    pub places: List<Place>,
}

/// The effect's condition and places, their variables renamed.
pub fn renamed_row(
    alloc: Global,
    renaming: &Renaming<'_>,
    row: &EffectRow,
) -> Result<Renamed, AllocError>
    ensures condition { IfOk result (λ renamed. renamed.condition.items ≡ spec.renamed_literals renaming.now row.now.condition) }
    ensures places { IfOk result (λ renamed. renamed.places ≡ spec.renamed_places renaming.now row.now.places) }
{
    let places = renamed_places(alloc, renaming, row.places.as_slice())?;
    let mut condition = Vec::new(alloc);
    push_renamed(alloc, &mut condition, renaming, row.condition.as_slice())?;
    Ok(Renamed { condition, places })
}
