// Facts as they are shown.

ghost use Rattle.std.specs.Prelude.{◌≡◌, ◌++◌, IfOk, OnOk, map, flat_map, codes};
ghost use Rattle.reached_task.specs.Reachable.{fact_of, object_of, joined, predicate_name, shown_atom};

use crate::atoms::Atoms;
use crate::types::Fact;
use atom_objects::Objects;
use ground_task::{Ground, is_derived};
use lists::{List, Text};
use normal_task::{GroundAtom, Object, Predicate};
use std::alloc::{AllocError, Global};

/// Adds the object's name to the text.
fn push_object(text: &mut Vec<u8>, task: &Ground, object: Object) -> Result<(), AllocError>
    ensures { OnOk result (text.new.items ≡ text.old.items ++ object_of task.now object) }
{
    if let Some(name) = task.objects.as_slice().get(object as usize) {
        text.extend_from_slice(name.as_slice())?;
    }
    Ok(())
}

/// Adds each object's name to the text, after a comma and a space.
fn push_more(text: &mut Vec<u8>, task: &Ground, objects: &[Object]) -> Result<(), AllocError>
    ensures { OnOk result (text.new.items ≡ text.old.items ++ flat_map (λ object. codes ", " ++ object_of task.now object) objects.now) }
{
    for object in objects {
        text.extend_from_slice(b", ")?;
        push_object(text, task, *object)?;
    }
    Ok(())
}

/// Adds the objects' names to the text, with a comma and a space between any two.
fn push_joined(text: &mut Vec<u8>, task: &Ground, objects: &[Object]) -> Result<(), AllocError>
    ensures { OnOk result (text.new.items ≡ text.old.items ++ joined task.now objects.now) }
{
    if let [first, more @ ..] = objects {
        push_object(text, task, *first)?;
        push_more(text, task, more)?;
    }
    Ok(())
}

/// The name of the atom's predicate.
fn push_predicate(text: &mut Vec<u8>, task: &Ground, predicate: Predicate) -> Result<(), AllocError>
    ensures { OnOk result (text.new.items ≡ text.old.items ++ predicate_name task.now predicate) }
{
    if let Some(row) = task.normal_predicates.as_slice().get(predicate as usize) {
        text.extend_from_slice(row.name.as_slice())?;
    }
    Ok(())
}

/// Writes the atom of this predicate and these objects, as `p(a, b)`, in place of the text.
fn show(
    text: &mut Vec<u8>,
    task: &Ground,
    predicate: Predicate,
    objects: &[Object],
) -> Result<(), AllocError>
    ensures { OnOk result (text.new.items ≡ shown_atom task.now (record { predicate = predicate; objects = objects.now })) }
{
    text.clear();
    push_predicate(text, task, predicate)?;
    text.extend_from_slice(b"(")?;
    push_joined(text, task, objects)?;
    text.extend_from_slice(b")")
}

/// The fact of the atom of this predicate and these objects. Its text is written in the room and copied.
fn fact(
    alloc: Global,
    room: &mut Vec<u8>,
    task: &Ground,
    predicate: Predicate,
    objects: &[Object],
) -> Result<Fact, AllocError>
    ensures { IfOk result (λ fact. fact ≡ fact_of task.now (record { predicate = predicate; objects = objects.now })) }
{
    show(room, task, predicate, objects)?;
    Ok(Fact {
        atom: GroundAtom {
            predicate,
            objects: Objects::from_slice(alloc, objects)?,
        },
        shown: Text::from_slice(alloc, room)?,
        derived: is_derived(task.normal_predicates.as_slice(), predicate),
    })
}

/// The facts of the atoms.
pub fn facts(alloc: Global, task: &Ground, atoms: &Atoms) -> Result<List<Fact>, AllocError>
    ensures { IfOk result (λ facts. facts ≡ map (fact_of task.now) atoms.now) }
{
    let mut facts = Vec::with_capacity(alloc, atoms.len())?;
    let mut room = Vec::new(alloc);
    for (predicate, objects) in atoms.as_slice() {
        facts.push(fact(alloc, &mut room, task, *predicate, objects)?)?;
    }
    Ok(List::from_vec(facts))
}
