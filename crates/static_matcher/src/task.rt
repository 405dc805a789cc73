// The ground task of a normal task.
ghost use Rattle.std.specs.Prelude.{◌≡◌, IfOk, filter};
ghost use Rattle.normal_task.specs.Lawful.{IsLawful as IsLawfulNormal};
ghost use Rattle.ground_task.specs.Instances.{instance_task, static_settling, IsGroundTask};
ghost use Rattle.ground_task.specs.Lawful.{IsLawful};
ghost use Rattle.ground_task.specs.Settled.{kept_goal};
ghost use Rattle.static_matcher.specs.Schemas.{without_schemas};

use crate::grounding::{actions, axioms};
use crate::literals::{all_can_hold, condition};
use crate::tables::Tables;
use atom_objects::Objects;
use ground_task::{GoalRow, Ground};
use lists::{List, Text};
use normal_task::{GroundAtom, Normal, PredicateRow};
use std::alloc::{AllocError, Global};

/// A row of its own.
fn predicate(alloc: Global, row: &PredicateRow) -> Result<PredicateRow, AllocError>
    ensures { IfOk result (λ copy. copy ≡ row.now) }
{
    Ok(PredicateRow {
        name: Text::from_slice(alloc, row.name.as_slice())?,
        arity: row.arity,
        derived: row.derived,
        fixed: row.fixed,
    })
}

/// The rows, in a list of its own.
fn predicates(alloc: Global, rows: &[PredicateRow]) -> Result<List<PredicateRow>, AllocError>
    ensures { IfOk result (λ copy. copy ≡ rows.now) }
{
    let mut out = Vec::with_capacity(alloc, rows.len())?;
    for row in rows {
        out.push(predicate(alloc, row)?)?;
    }
    Ok(List::from_vec(out))
}

/// The names, in a list of its own.
fn objects(alloc: Global, names: &[Text]) -> Result<List<Text>, AllocError>
    ensures { IfOk result (λ copy. copy ≡ names.now) }
{
    let mut out = Vec::with_capacity(alloc, names.len())?;
    for name in names {
        out.push(Text::from_slice(alloc, name.as_slice())?)?;
    }
    Ok(List::from_vec(out))
}

/// An atom of its own.
fn copy(alloc: Global, atom: &GroundAtom) -> Result<GroundAtom, AllocError>
    ensures { IfOk result (λ copy. copy ≡ atom.now) }
{
    Ok(GroundAtom {
        predicate: atom.predicate,
        objects: Objects::from_slice(alloc, atom.objects.as_slice())?,
    })
}

/// The initial atoms that aren't static.
fn init(alloc: Global, tables: &Tables<'_>) -> Result<List<GroundAtom>, AllocError>
    ensures { IfOk result (λ init. init ≡ filter (static_settling tables.now).keeps tables.now.init) }
{
    let mut init = Vec::new(alloc);
    for atom in tables.init() {
        if !tables.is_fixed(atom.predicate) {
            init.push(copy(alloc, atom)?)?;
        }
    }
    Ok(List::from_vec(init))
}

/// The goal without static literals.
fn goal(alloc: Global, tables: &Tables<'_>) -> Result<GoalRow<GroundAtom>, AllocError>
    ensures { IfOk result (λ goal. goal ≡ kept_goal (static_settling tables.now) (instance_task tables.now).goal) }
{
    let mut key = Vec::new(alloc);
    let literals = tables.goal();
    let can = all_can_hold(tables, &mut key, &[], literals)?;
    if !can {
        return Ok(GoalRow::Never);
    }
    let condition = condition(alloc, tables, &[], literals)?;
    Ok(GoalRow::All(condition))
}

/// The ground task of the normal task without its schemas.
pub fn without_actions(alloc: Global, tables: &Tables<'_>) -> Result<Ground, AllocError>
    requires lawful { IsLawfulNormal tables.now }
    ensures { IfOk result (IsGroundTask (without_schemas tables.now)) }
{
    Ok(Ground {
        normal_predicates: predicates(alloc, tables.predicates())?,
        objects: objects(alloc, tables.objects())?,
        init: init(alloc, tables)?,
        actions: List::from_vec(Vec::new(alloc)),
        axioms: axioms(alloc, tables)?,
        goal: goal(alloc, tables)?,
        metric: tables.has_metric(),
    })
}

/// The ground task of the task with tables.
fn instances_by(alloc: Global, tables: &Tables<'_>) -> Result<Ground, AllocError>
    requires { IsLawfulNormal tables.now }
    ensures { IfOk result (IsGroundTask tables.now) }
{
    let mut ground = without_actions(alloc, tables)?;
    ground.actions = actions(alloc, tables)?;
    Ok(ground)
}

/// The ground task of a normal task (Helmert 2009, grounding): its schemas and axioms with each choice of objects of
/// their parameters, where static literals and equalities are true and, with the metric, the cost has a value. Each
/// instance stands once, and no atom in it is static. The only error is want of memory.
pub fn instances(alloc: Global, normal: &Normal) -> Result<Ground, AllocError>
    requires lawful { IsLawfulNormal normal.now }
    ensures instances { IfOk result (IsGroundTask normal.now) }
    ensures lawful { IfOk result IsLawful }
{
    let tables = Tables::of(alloc, normal)?;
    instances_by(alloc, &tables)
}
