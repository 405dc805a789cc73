// What stands at the places of literals and terms.
ghost use Rattle.std.specs.Prelude.{◌≡◌, ◌∷◌, IfOk, OnOk};
ghost use Rattle.normal_task.specs.Meaning.{answers as answers_so, object_at as object_of, objects_at as objects_of, atom_of};

use atom_objects::Objects;
use normal_task::{GroundAtom, Object, Place, Predicate};
use std::alloc::{AllocError, Global};

/// The object that stands at the place.
pub fn object_at(binding: &[Object], place: &Place) -> Object
    ensures { result ≡ object_of binding.now place.now }
{
    match place {
        Place::Variable(number) => match binding.get(*number as usize) {
            Some(object) => *object,
            None => 0,
        },
        Place::Object(object) => *object,
    }
}

/// The objects that stand at the places.
fn objects_at(alloc: Global, binding: &[Object], places: &[Place]) -> Result<Objects, AllocError>
    ensures { IfOk result (λ objects. objects ≡ objects_of binding.now places.now) }
{
    let mut objects = Objects::new(alloc);
    for place in places {
        objects.push(object_at(binding, place))?;
    }
    Ok(objects)
}

/// The atom of the predicate with the objects that stand at the places.
pub fn atom(
    alloc: Global,
    binding: &[Object],
    predicate: Predicate,
    places: &[Place],
) -> Result<GroundAtom, AllocError>
    ensures { IfOk result (λ atom. atom ≡ atom_of predicate (objects_of binding.now places.now)) }
{
    Ok(GroundAtom {
        predicate,
        objects: objects_at(alloc, binding, places)?,
    })
}

/// Makes it the key of the predicate or function with the objects that stand at the places.
pub fn set_key(
    key: &mut Vec<u64>,
    binding: &[Object],
    number: u64,
    places: &[Place],
) -> Result<(), AllocError>
    ensures { OnOk result (key.new.items ≡ number ∷ objects_of binding.now places.now) }
{
    key.clear();
    key.push(number)?;
    for place in places {
        key.push(object_at(binding, place))?;
    }
    Ok(())
}

/// The test, or its negation where it isn't `positive`.
pub fn answers(positive: bool, test: bool) -> bool
    ensures { result ≡ answers_so positive test }
{
    if positive { test } else { !test }
}
