// Actions without the effects that can't take place.
ghost use Rattle.std.specs.Prelude.{◌≡◌, map, filter, All as Each, IfOk};
ghost use Rattle.std.specs.List.{flat_map};
ghost use Rattle.std.specs.Option.{option_to_list};
ghost use Rattle.ground_task.specs.GroundTask.{action_row, effect_row};
ghost use Rattle.static_matcher.specs.Candidates.{IsCandidate};
ghost use Rattle.reachable_instances.specs.Found.{is_found as is_found_among};
ghost use Rattle.reachable_instances.specs.Trimmed as spec;

use ground_task::{GroundAction, GroundEffect, is_derived};
use lists::List;
use normal_task::GroundAtom;
use number_lists::{NumberLists, write_key};
use static_matcher::{Candidate, Room, Tables};
use std::alloc::{AllocError, Global};

/// Whether the atom is derived, or was found.
fn is_found(
    tables: &Tables<'_>,
    facts: &NumberLists,
    key: &mut Vec<u64>,
    atom: &GroundAtom,
) -> Result<bool, AllocError>
    ensures { IfOk result (λ found. found ≡ is_found_among tables.now facts.now atom.now) }
{
    if is_derived(tables.predicates(), atom.predicate) {
        return Ok(true);
    }
    write_key(key, atom.predicate, atom.objects.as_slice())?;
    Ok(facts.has(key.as_slice()))
}

/// Whether all atoms that the effect's own condition needs were found.
fn can_take_place(
    tables: &Tables<'_>,
    facts: &NumberLists,
    key: &mut Vec<u64>,
    effect: &GroundEffect,
) -> Result<bool, AllocError>
    ensures { IfOk result (λ can. can ≡ spec.can_take_place tables.now facts.now (effect_row effect.now)) }
{
    for atom in effect.condition.positive.as_slice() {
        if !is_found(tables, facts, key, atom)? {
            return Ok(false);
        }
    }
    Ok(true)
}

/// The effects that can take place.
fn kept_effects(
    alloc: Global,
    tables: &Tables<'_>,
    facts: &NumberLists,
    key: &mut Vec<u64>,
    effects: List<GroundEffect>,
) -> Result<List<GroundEffect>, AllocError>
    ensures { IfOk result (λ kept. map effect_row kept ≡ filter (spec.can_take_place tables.now facts.now) (map effect_row effects)) }
{
    let mut kept = Vec::new(alloc);
    for effect in effects.into_vec() {
        if can_take_place(tables, facts, key, &effect)? {
            kept.push(effect)?;
        }
    }
    kept.shrink_to_fit();
    Ok(List::from_vec(kept))
}

/// The candidate's instance without the effects that can't take place, if its cost has a value.
fn action(
    alloc: Global,
    tables: &Tables<'_>,
    facts: &NumberLists,
    room: &mut Room,
    key: &mut Vec<u64>,
    candidate: &Candidate<'_>,
) -> Result<Option<GroundAction>, AllocError>
    requires { IsCandidate tables.now candidate.now }
    ensures { IfOk result (λ action. map action_row (option_to_list action) ≡ spec.rows_left tables.now facts.now candidate.now) }
{
    let Some(whole) = candidate.action(alloc, tables, room)? else {
        return Ok(None);
    };
    let GroundAction {
        name,
        condition,
        effects,
        cost,
    } = whole;
    Ok(Some(GroundAction {
        name,
        condition,
        effects: kept_effects(alloc, tables, facts, key, effects)?,
        cost,
    }))
}

/// The instances of these candidates, in their order, without the effects that can't take place. Each candidate is let go once its
/// instance is made.
pub(crate) fn actions(
    alloc: Global,
    tables: &Tables<'_>,
    facts: &NumberLists,
    candidates: Vec<Candidate<'_>>,
) -> Result<List<GroundAction>, AllocError>
    requires { Each (IsCandidate tables.now) candidates.items }
    ensures { IfOk result (λ actions. map action_row actions ≡ flat_map (spec.rows_left tables.now facts.now) candidates.entry.items) }
{
    let mut room = Room::new(alloc);
    let mut key = Vec::new(alloc);
    let mut actions = Vec::with_capacity(alloc, candidates.len())?;
    for candidate in candidates {
        if let Some(action) = action(alloc, tables, facts, &mut room, &mut key, &candidate)? {
            actions.push(action)?;
        }
    }
    Ok(List::from_vec(actions))
}
