// What instances of schemas are made of.
ghost use Rattle.std.specs.Prelude.{◌≡◌, IfOk, All as Each, map};
ghost use Rattle.std.specs.List.{flat_map};
ghost use Rattle.std.specs.Option.{option_to_list};
ghost use Rattle.ground_task.specs.GroundTask.{action_row};
ghost use Rattle.ground_task.specs.Instances.{actions_of, static_settling};
ghost use Rattle.ground_task.specs.Settled.{kept_actions};
ghost use Rattle.static_matcher.specs.Candidates.{candidate, rows_of, IsCandidate};
ghost use Rattle.static_matcher.specs.Partial.{HasRisingRanges, RisingSchemas};

use crate::grounding::{effects, name};
use crate::literals::{condition, cost};
use crate::matching::matches;
use crate::partial::Room;
use crate::shown::shown_objects;
use crate::tables::Tables;
use ground_task::GroundAction;
use lists::List;
use normal_task::{Object, Schema};
use std::alloc::{AllocError, Global};

/// A schema with an object for each parameter, of which an instance may be made.
#[derive(Drop)]
pub struct Candidate<'a> {
    pub schema: &'a Schema,
    pub objects: List<Object>,
}

impl<'a> Candidate<'a> {
    /// The instance, if its cost has a value.
    pub fn action(
        &self,
        alloc: Global,
        tables: &Tables<'_>,
        room: &mut Room,
    ) -> Result<Option<GroundAction>, AllocError>
        requires { IsCandidate tables.now self.now }
        ensures { IfOk result (λ action. map action_row (option_to_list action) ≡ rows_of tables.now self.now) }
    {
        let schema = self.schema;
        let objects = self.objects.as_slice();
        let Some(cost) = cost(tables, &mut room.key, objects, &schema.cost)? else {
            return Ok(None);
        };
        let shown = shown_objects(objects, schema.shown);
        let name = name(alloc, tables, schema.action.as_slice(), shown)?;
        let effects = effects(alloc, tables, room, objects, schema.effects.as_slice())?;
        let condition = condition(alloc, tables, objects, schema.condition.as_slice())?;
        Ok(Some(GroundAction {
            name,
            condition,
            effects,
            cost,
        }))
    }
}

/// The schema with each of these choices of objects.
pub fn with_choices<'a>(
    alloc: Global,
    schema: &'a Schema,
    choices: Vec<List<u64>>,
) -> Result<Vec<Candidate<'a>>, AllocError>
    ensures { IfOk result (λ candidates. candidates.items ≡ map (candidate schema.entry) choices.items) }
{
    choices
        .into_iter()
        .map(|objects| Candidate { schema, objects })
        .collect(alloc)
}

/// The schema with each choice of objects that makes no equality and no static literal of its condition false.
fn candidates_of<'a>(
    alloc: Global,
    tables: &Tables<'_>,
    room: &mut Room,
    schema: &'a Schema,
) -> Result<Vec<Candidate<'a>>, AllocError>
    requires { HasRisingRanges schema.now }
    ensures rows { IfOk result (λ candidates. flat_map (rows_of tables.now) candidates.items ≡ kept_actions (static_settling tables.now) (actions_of tables.now schema.now)) }
    ensures each { IfOk result (λ candidates. Each (IsCandidate tables.now) candidates.items) }
{
    let choices = matches(
        alloc,
        tables,
        room,
        schema.condition.as_slice(),
        &[],
        schema.parameters.as_slice(),
    )?;
    let candidates = with_choices(alloc, schema, choices)?;
    Ok(candidates)
}

/// The candidates of all schemas, which range over rising lists.
pub(crate) fn all_candidates<'a>(
    alloc: Global,
    tables: &Tables<'a>,
    room: &mut Room,
) -> Result<Vec<Candidate<'a>>, AllocError>
    requires { RisingSchemas tables.now.schemas }
    ensures rows { IfOk result (λ candidates. flat_map (rows_of tables.now) candidates.items ≡ kept_actions (static_settling tables.now) (flat_map (actions_of tables.now) tables.now.schemas)) }
    ensures each { IfOk result (λ candidates. Each (IsCandidate tables.now) candidates.items) }
{
    let mut candidates = Vec::new(alloc);
    for schema in tables.schemas() {
        let mut more = candidates_of(alloc, tables, room, schema)?;
        candidates.append(&mut more)?;
    }
    Ok(candidates)
}
