// The normal task of a checked pair.
ghost use Rattle.std.specs.Prelude.{◌≡◌, ◌++◌, [], map, true, IfOk, OnOk};
ghost use Rattle.pddl_syntax.specs.Objects.{objects};
ghost use Rattle.normaliser.specs.WholeTask.{IsMadeAll, goal_from};
ghost use Rattle.normal_rows.specs.MadeThings.{IsMadeOf};
ghost use Rattle.normal_task.specs.Lawful.{IsLawful};
ghost use Rattle.normal_task.specs.Normalised as spec;
ghost use Rattle.normal_task.specs.Numbers as numbers;

use crate::axioms::{axioms_of, push_fresh_axioms};
use crate::goal::goal_of;
use crate::initial::{stated_atoms, stated_values};
use crate::predicates::predicate_rows;
use action_schemas::{Here, cut, schemas_of};
use lists::{List, Text, checked_sum};
use normal_rows::{Made, Scope, joined_lists};
use normal_task::laws::lawful;
use normal_task::{AxiomRow, Fresh, Literal, Normal, Schema};
use numbering::Numbering;
use pddl_syntax::Typed;
use std::alloc::{AllocError, Global};
use type_checker::Checked;

/// Adds the names of the objects.
fn push_names(names: &mut Vec<Text>, objects: &[Typed]) -> Result<(), AllocError>
    ensures { OnOk result (names.new.items ≡ names.old.items ++ map (λ object. object.name.name) objects.now) }
{
    for object in objects {
        let alloc = *names.allocator();
        names.push(Text::from_slice(alloc, object.name.name.as_slice())?)?;
    }
    Ok(())
}

/// The names of all objects.
fn object_names(alloc: Global, numbering: &Numbering<'_>) -> Result<List<Text>, AllocError>
    ensures { IfOk result (λ names. names ≡ numbers.object_names numbering.now.domain numbering.now.problem) }
{
    let mut names = Vec::new(alloc);
    push_names(&mut names, numbering.domain().constants.as_slice())?;
    push_names(&mut names, numbering.problem().objects.as_slice())?;
    Ok(List::from_vec(names))
}

/// What comes of the actions, the axioms and the goal, and all new predicates.
#[derive(Drop)]
struct MadeAll {
    schemas: List<Schema>,
    axioms: List<AxiomRow>,
    goal: List<Literal>,
    fresh: List<Fresh>,
}

/// The literals of the goal, and the new predicates that they need.
fn goal_made(
    alloc: Global,
    numbering: &Numbering<'_>,
    next: u64,
) -> Result<Made<Literal>, AllocError>
    ensures { IfOk result (IsMadeOf (goal_from numbering.now.domain numbering.now.problem next)) }
{
    let scope = Scope::new(alloc);
    let here = Here {
        numbering,
        scope: &scope,
        around: 0,
    };
    let parts = cut(alloc, &here, &numbering.problem().goal, true, next)?;
    goal_of(alloc, numbering, parts, next)
}

/// All that was made, with all new predicates in one list.
fn all_made(
    schemas: Made<Schema>,
    axioms: Made<AxiomRow>,
    goal: Made<Literal>,
) -> Result<MadeAll, AllocError>
    ensures { IfOk result (λ all. (all.schemas ≡ schemas.items) × ((all.axioms ≡ axioms.items) × ((all.goal ≡ goal.items) × (all.fresh ≡ schemas.fresh ++ (axioms.fresh ++ goal.fresh))))) }
{
    let later = joined_lists(axioms.fresh, goal.fresh)?;
    let fresh = joined_lists(schemas.fresh, later)?;
    Ok(MadeAll {
        schemas: schemas.items,
        axioms: axioms.items,
        goal: goal.items,
        fresh,
    })
}

fn make_all(alloc: Global, numbering: &Numbering<'_>) -> Result<MadeAll, AllocError>
    ensures { IfOk result (IsMadeAll numbering.now.domain numbering.now.problem) }
{
    let domain = numbering.domain();
    let schemas = schemas_of(alloc, numbering, domain.actions.as_slice(), 0)?;
    let after_schemas = schemas.fresh.len() as u64;
    let axioms = axioms_of(alloc, numbering, domain.axioms.as_slice(), after_schemas)?;
    let after_axioms = checked_sum(after_schemas, axioms.fresh.len() as u64)?;
    let goal = goal_made(alloc, numbering, after_axioms)?;
    let all = all_made(schemas, axioms, goal)?;
    Ok(all)
}

/// The axioms of the files, and then those of the new predicates.
fn all_axioms(
    numbering: &Numbering<'_>,
    axioms: List<AxiomRow>,
    fresh: &[Fresh],
) -> Result<List<AxiomRow>, AllocError>
    ensures { IfOk result (λ all. all ≡ axioms ++ spec.fresh_rows numbering.now.domain numbering.now.problem 0 fresh.now) }
{
    let mut all = axioms.into_vec();
    push_fresh_axioms(&mut all, numbering, fresh)?;
    Ok(List::from_vec(all))
}

fn normal_of(alloc: Global, numbering: &Numbering<'_>, made: MadeAll) -> Result<Normal, AllocError>
    requires { IsMadeAll numbering.now.domain numbering.now.problem made }
    ensures { IfOk result (λ normal. normal ≡ spec.normal numbering.now.domain numbering.now.problem) }
{
    let MadeAll {
        schemas,
        axioms,
        goal,
        fresh,
    } = made;
    let entries = numbering.problem().init.as_slice();
    Ok(Normal {
        objects: object_names(alloc, numbering)?,
        predicates: predicate_rows(alloc, numbering.domain(), fresh.as_slice())?,
        schemas,
        axioms: all_axioms(numbering, axioms, fresh.as_slice())?,
        init: stated_atoms(alloc, numbering, entries)?,
        values: stated_values(alloc, numbering, entries)?,
        goal,
        metric: numbering.problem().metric,
    })
}

/// The normal task of the two files by their numbers.
fn numbered(alloc: Global, numbering: &Numbering<'_>) -> Result<Normal, AllocError>
    ensures { IfOk result (λ normal. normal ≡ spec.normal numbering.now.domain numbering.now.problem) }
{
    let made = make_all(alloc, numbering)?;
    normal_of(alloc, numbering, made)
}

/// The normal task of the checked pair is lawful.
fn lawful_task(task: &Checked)
    ensures { IsLawful (spec.normal task.now.domain task.now.problem) }
{
    lawful();
    task.domain();
}

/// The normal task of the two files (Helmert 2009, section 4): objects and predicates become numbers, and conditions,
/// effects and axioms become lists of literals, with a new derived predicate for each `forall`. The only error is want
/// of memory, also where numbers would exceed a `u64`.
pub fn normalise(alloc: Global, task: &Checked) -> Result<Normal, AllocError>
    ensures normal { IfOk result (λ normal. normal ≡ spec.normal task.now.domain task.now.problem) }
    ensures lawful { IfOk result IsLawful }
{
    lawful_task(task);
    let numbering = Numbering::of(alloc, task)?;
    numbered(alloc, &numbering)
}
