// Instances of a candidate: the one that covers an atom, their weights, and the facts that they cover.
ghost use Rattle.std.specs.Prelude.{◌≡◌, ◌++◌, ◌∷◌, [], ℕ, List, nat_eq, true, IfOk, OnOk, if◌then◌else◌};
ghost use Rattle.std.specs.List.{find};
ghost use Rattle.std.specs.Option.{option_map, option_copied};
ghost use Rattle.contradictions.specs.Candidates.{at_positions, covers};
ghost use Rattle.ground_task.specs.Buckets.{numbers_in};
ghost use Rattle.mutex_groups.specs.Found.{parts_differ};
ghost use Rattle.mutex_groups.specs.Found as spec;

use crate::tables::Weights;
use contradictions::{Candidate, Part};
use ground_task::Buckets;
use normal_task::{GroundAtom, Object};
use reached_task::Fact;
use std::alloc::{AllocError, Global};

/// The objects at the places.
fn objects_at(alloc: Global, places: &[u64], objects: &[Object]) -> Result<Vec<Object>, AllocError>
    ensures { IfOk result (λ found. found.items ≡ at_positions 0 places.now objects.now) }
{
    places
        .iter()
        .map(|place| objects.get(*place as usize).copied().unwrap_or(0))
        .collect(alloc)
}

/// The part of the atom's predicate.
fn part_of<'a>(parts: &'a [Part], atom: &GroundAtom) -> Option<&'a Part>
    ensures { option_copied result ≡ find (λ part. nat_eq part.predicate atom.now.predicate) parts.now }
{
    parts.iter().find(|part| part.predicate == atom.predicate)
}

/// The instance of the candidate that covers the atom, if one does: the atom's objects at the places of the parameters.
pub(crate) fn instance_of(
    alloc: Global,
    candidate: &Candidate,
    atom: &GroundAtom,
) -> Result<Option<Vec<Object>>, AllocError>
    ensures { IfOk result (λ instance. option_map (λ objects. objects.items) instance ≡ spec.instance_of candidate.now atom.now) }
{
    match part_of(candidate.parts.as_slice(), atom) {
        Some(part) => Ok(Some(objects_at(alloc, part.places.as_slice(), atom.objects.as_slice())?)),
        None => Ok(None),
    }
}

/// Counts the atom for the instance that covers it.
fn count_atom(
    alloc: Global,
    candidate: &Candidate,
    atom: &GroundAtom,
    weights: &mut Weights,
) -> Result<(), AllocError>
    requires { parts_differ candidate.now ≡ true }
    ensures { OnOk result ((instance : List ℕ) → spec.weight_in weights.new instance ≡ (if covers candidate.now instance atom.now then spec.told_more (spec.weight_in weights.old instance) else spec.weight_in weights.old instance)) }
{
    match instance_of(alloc, candidate, atom)? {
        Some(instance) => weights.count(instance),
        None => Ok(()),
    }
}

/// The weights of the candidate's instances among the atoms.
pub(crate) fn weights(
    alloc: Global,
    candidate: &Candidate,
    atoms: &[GroundAtom],
) -> Result<Weights, AllocError>
    requires { parts_differ candidate.now ≡ true }
    ensures { IfOk result (spec.HoldsWeights candidate.now atoms.now) }
{
    let mut weights = Weights::new(alloc);
    for atom in atoms {
        count_atom(alloc, candidate, atom, &mut weights)?;
    }
    Ok(weights)
}

/// Adds the number of the fact to those of the instance that covers it.
fn add_fact(
    alloc: Global,
    candidate: &Candidate,
    fact: &Fact,
    number: u64,
    members: &mut Buckets,
) -> Result<(), AllocError>
    requires { parts_differ candidate.now ≡ true }
    ensures { OnOk result ((instance : List ℕ) → numbers_in members.new instance ≡ (if covers candidate.now instance fact.now.atom then numbers_in members.old instance ++ number ∷ [] else numbers_in members.old instance)) }
{
    match instance_of(alloc, candidate, &fact.atom)? {
        Some(instance) => members.add(alloc, instance, number),
        None => Ok(()),
    }
}

/// The numbers of the facts that the candidate's instances cover.
pub(crate) fn members(
    alloc: Global,
    candidate: &Candidate,
    facts: &[Fact],
) -> Result<Buckets, AllocError>
    requires { parts_differ candidate.now ≡ true }
    ensures { IfOk result (spec.HoldsNumbers candidate.now facts.now) }
{
    let mut members = Buckets::new(alloc);
    for (number, fact) in facts.iter().enumerate() {
        add_fact(alloc, candidate, fact, number as u64, &mut members)?;
    }
    Ok(members)
}
