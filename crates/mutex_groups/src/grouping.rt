// The groups.
ghost use Rattle.std.specs.Prelude.{◌≡◌, ◌||◌, ℕ, List, true, IfOk, OnOk};
ghost use Rattle.std.specs.List.{list_any, list_all};
ghost use Rattle.names.specs.Names.{is_same};
ghost use Rattle.normal_task.specs.Lawful.{IsLawful};
ghost use Rattle.invariant_check.specs.WellFormed.{is_well_formed};
ghost use Rattle.reached_task.specs.declared.types.Fact.{Fact as ReachedFact};
ghost use Rattle.mutex_groups.specs.Groups.{AreGroups};
ghost use Rattle.mutex_groups.specs.Laws.{AreExclusive};
ghost use Rattle.mutex_groups.specs.Found.{parts_differ, AddsGroup, HoldsNumbers, HoldsWeights, covers_just, has_group};

use crate::instances::{instance_of, members, weights};
use crate::tables::Weights;
use contradictions::Candidate;
use ground_task::Buckets;
use group_cover::Groups;
use normal_task::{GroundAtom, Normal, Object};
use number_lists::NumberLists;
use reached_task::{Fact, Reached};
use std::alloc::{AllocError, Global};

/// Adds the facts that the instance covers, if it weighs one.
fn add_covered(
    alloc: Global,
    instance: &[Object],
    weights: &Weights,
    members: &Buckets,
    groups: &mut NumberLists,
) -> Result<(), AllocError>
    ensures { OnOk result ((group : List ℕ) → list_any (is_same group) groups.new ≡ (covers_just weights.now members.now group instance.now || list_any (is_same group) groups.old)) }
{
    if weights.weighs_one(instance) {
        groups.add(alloc, members.numbers(instance))?;
    }
    Ok(())
}

/// Adds the facts of the instance that covers the atom, if it weighs one.
fn add_group(
    alloc: Global,
    candidate: &Candidate,
    atom: &GroundAtom,
    weights: &Weights,
    members: &Buckets,
    groups: &mut NumberLists,
) -> Result<(), AllocError>
    ensures { OnOk result (AddsGroup candidate.now atom.now weights.now members.now groups.old groups.new) }
{
    match instance_of(alloc, candidate, atom)? {
        Some(instance) => add_covered(alloc, instance.as_slice(), weights, members, groups),
        None => Ok(()),
    }
}

/// Adds the groups of the instances that cover the atoms, by the tables.
fn add_each_group(
    alloc: Global,
    candidate: &Candidate,
    init: &[GroundAtom],
    weights: &Weights,
    members: &Buckets,
    groups: &mut NumberLists,
) -> Result<(), AllocError>
    ensures { OnOk result ((facts : List ReachedFact) → HoldsWeights candidate.now init.now weights.now → HoldsNumbers candidate.now facts members.now → (group : List ℕ) → list_any (is_same group) groups.new ≡ (has_group init.now facts group candidate.now || list_any (is_same group) groups.old)) }
{
    for atom in init {
        add_group(alloc, candidate, atom, weights, members, groups)?;
    }
    Ok(())
}

/// Adds the groups of the candidate's instances. One of initial weight one covers an initial atom, so that all are met on
/// the way over these.
fn add_groups(
    alloc: Global,
    candidate: &Candidate,
    init: &[GroundAtom],
    facts: &[Fact],
    groups: &mut NumberLists,
) -> Result<(), AllocError>
    requires { parts_differ candidate.now ≡ true }
    ensures { OnOk result ((group : List ℕ) → list_any (is_same group) groups.new ≡ (has_group init.now facts.now group candidate.now || list_any (is_same group) groups.old)) }
{
    let weights = weights(alloc, candidate, init)?;
    let members = members(alloc, candidate, facts)?;
    add_each_group(alloc, candidate, init, &weights, &members, groups)
}

/// The groups of the candidates.
fn all_groups(
    alloc: Global,
    candidates: &[Candidate],
    init: &[GroundAtom],
    facts: &[Fact],
) -> Result<NumberLists, AllocError>
    requires { list_all parts_differ candidates.now ≡ true }
    ensures { IfOk result (λ groups. (group : List ℕ) → list_any (is_same group) groups ≡ list_any (has_group init.now facts.now group) candidates.now) }
{
    let mut groups = NumberLists::new(alloc);
    for candidate in candidates {
        add_groups(alloc, candidate, init, facts, &mut groups)?;
    }
    Ok(groups)
}

/// The mutex groups (Helmert 2009, invariants): for each candidate and each instance of it that covers exactly one
/// initial atom, the reachable facts that the instance covers, in order; equal groups once. They stand by candidate, and
/// those of one candidate by the initial atoms that their instances cover. The time is that of a pass over the initial atoms
/// and the facts for each part of a candidate, but for the look-ups of instances. The only error is want of memory.
pub fn groups(
    alloc: Global,
    normal: &Normal,
    candidates: &[Candidate],
    reached: &Reached,
) -> Result<Groups, AllocError>
    requires lawful { IsLawful normal.now }
    requires well_formed { list_all (is_well_formed normal.now) candidates.now ≡ true }
    ensures groups { IfOk result (λ groups. AreGroups normal.now candidates.now reached.now groups.groups) }
    ensures exclusive { IfOk result (λ groups. AreExclusive normal.now candidates.now reached.now groups.groups) }
{
    let groups = all_groups(
        alloc,
        candidates,
        normal.init.as_slice(),
        reached.facts.as_slice(),
    )?;
    Ok(Groups {
        groups: groups.into_list(alloc)?,
    })
}
