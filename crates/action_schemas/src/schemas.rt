// The schemas of actions.
ghost use Rattle.std.specs.Prelude.{◌≡◌, [], map, IfOk};
ghost use Rattle.normal_rows.specs.MadeThings.{IsMadeOf};
ghost use Rattle.action_schemas.specs.SchemaRows.{schemas_in_scope, schemas_of_parts, shared_schema};
ghost use Rattle.normal_task.specs.Normalised as spec;
ghost use Rattle.normal_task.specs.Parts as parts;

use crate::conditions::{Here, cut};
use crate::effects::{Around, rows_of};
use lists::{List, Text, checked_sum};
use normal_rows::{
    Made, Scope, action_cost, joined_lists, joined_ranges, made_behind, moved_rows, nothing_made,
    scope_of,
};
use normal_task::{EffectRow, ObjectRange, Part, Schema};
use numbering::Numbering;
use pddl_syntax::Action;
use std::alloc::{AllocError, Global};

/// What the schemas of an action share: its parameters as variables, what they range over, and its effects.
#[derive(Clone, Copy)]
struct Shared<'s, 'n, 'a> {
    action: &'a Action,
    scope: &'s Scope<'n, 'a>,
    ranges: &'s [ObjectRange],
    rows: &'s [EffectRow],
}

/// The schema of the part.
fn schema(
    alloc: Global,
    numbering: &Numbering<'_>,
    shared: &Shared<'_, '_, '_>,
    part: Part,
) -> Result<Schema, AllocError>
    ensures { IfOk result (λ schema. schema ≡ shared_schema numbering.now.domain numbering.now.problem shared.now part) }
{
    let shown = shared.action.parameters.len() as u64;
    let more = part.variables.len() as u64;
    Ok(Schema {
        action: Text::from_slice(alloc, shared.action.name.name.as_slice())?,
        shown,
        parameters: joined_ranges(alloc, shared.ranges, part.variables)?,
        condition: part.literals,
        effects: moved_rows(alloc, shown, more, shared.rows)?,
        cost: action_cost(alloc, numbering, shared.scope, shared.action)?,
    })
}

/// A schema for each part.
fn schemas_with(
    alloc: Global,
    numbering: &Numbering<'_>,
    shared: &Shared<'_, '_, '_>,
    parts: List<Part>,
) -> Result<List<Schema>, AllocError>
    ensures { IfOk result (λ schemas. schemas ≡ map (shared_schema numbering.now.domain numbering.now.problem shared.now) parts) }
{
    let mut schemas = Vec::new(alloc);
    for part in parts.into_vec() {
        schemas.push(schema(alloc, numbering, shared, part)?)?;
    }
    Ok(List::from_vec(schemas))
}

/// A schema for each part of the precondition, which all have the same effects.
fn schemas_from<'n, 'a>(
    alloc: Global,
    numbering: &'n Numbering<'a>,
    action: &'a Action,
    scope: &Scope<'n, 'a>,
    parts: Made<Part>,
    rows: Made<EffectRow>,
) -> Result<Made<Schema>, AllocError>
    ensures { IfOk result (IsMadeOf (schemas_of_parts numbering.now.domain numbering.now.problem action.now scope.now (record { items = parts.items; fresh = parts.fresh }) (record { items = rows.items; fresh = rows.fresh }))) }
{
    let ranges = numbering.ranges(alloc, action.parameters.as_slice())?;
    let shared = Shared {
        action,
        scope,
        ranges: ranges.as_slice(),
        rows: rows.items.as_slice(),
    };
    let items = schemas_with(alloc, numbering, &shared, parts.items)?;
    let fresh = joined_lists(parts.fresh, rows.fresh)?;
    Ok(Made { items, fresh })
}

/// What is made of the precondition, and of the effect behind it.
fn schemas_in<'n, 'a>(
    alloc: Global,
    numbering: &'n Numbering<'a>,
    action: &'a Action,
    scope: &Scope<'n, 'a>,
    next: u64,
) -> Result<Made<Schema>, AllocError>
    ensures { IfOk result (IsMadeOf (schemas_in_scope numbering.now.domain numbering.now.problem action.now scope.now next)) }
{
    let around = action.parameters.len() as u64;
    let here = Here {
        numbering,
        scope,
        around,
    };
    let parts = cut(alloc, &here, &action.precondition, true, next)?;
    let start = checked_sum(next, parts.fresh.len() as u64)?;
    let around = Around {
        required: &[],
        scope,
        count: around,
    };
    let rows = rows_of(alloc, numbering, &action.effect, &around, start)?;
    schemas_from(alloc, numbering, action, scope, parts, rows)
}

/// A schema for each part of the precondition, which all have the same effects.
fn schemas<'n, 'a>(
    alloc: Global,
    numbering: &'n Numbering<'a>,
    action: &'a Action,
    next: u64,
) -> Result<Made<Schema>, AllocError>
    ensures { IfOk result (IsMadeOf (spec.schemas numbering.now.domain numbering.now.problem action.now next)) }
{
    let numbering = &*numbering;
    let action = &*action;
    let parameters = action.parameters.as_slice();
    let scope = scope_of(alloc, numbering, parameters)?;
    schemas_in(alloc, numbering, action, &scope, next)
}

/// The schemas of the actions, one action after another.
pub fn schemas_of<'n, 'a>(
    alloc: Global,
    numbering: &'n Numbering<'a>,
    actions: &'a [Action],
    next: u64,
) -> Result<Made<Schema>, AllocError>
    ensures { IfOk result (IsMadeOf (parts.in_turn (map (spec.schemas numbering.now.domain numbering.now.problem) actions.now) next)) }
{
    let mut made = nothing_made(alloc);
    for action in actions {
        let start = checked_sum(next, made.fresh.len() as u64)?;
        let more = schemas(alloc, numbering, action, start)?;
        made = made_behind(made, more)?;
    }
    Ok(made)
}
