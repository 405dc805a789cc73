// The goal.
ghost use Rattle.std.specs.Prelude.{◌≡◌, true, IfOk};
ghost use Rattle.normal_rows.specs.MadeThings.{IsMadeOf};
ghost use Rattle.normaliser.specs.WholeTask.{plain};
ghost use Rattle.normal_task.specs.Normalised as spec;

use crate::axioms::fresh_number;
use lists::{List, checked_sum};
use normal_rows::{Made, copied_literals};
use normal_task::{Fresh, Literal, Part};
use numbering::Numbering;
use std::alloc::{AllocError, Global};

/// The literals of the only part, if it has no variables.
fn plain_literals(alloc: Global, parts: &[Part]) -> Result<Option<List<Literal>>, AllocError>
    ensures { IfOk result (λ literals. literals ≡ plain parts.now) }
{
    match parts {
        [part] => {
            if part.variables.as_slice().is_empty() {
                Ok(Some(copied_literals(alloc, part.literals.as_slice())?))
            } else {
                Ok(None)
            }
        }
        _ => Ok(None),
    }
}

/// A new derived atom, whose axioms have the goal's parts.
fn goal_atom(
    alloc: Global,
    numbering: &Numbering<'_>,
    goal: Made<Part>,
    next: u64,
) -> Result<Made<Literal>, AllocError>
    ensures { IfOk result (IsMadeOf (spec.goal_atom numbering.now.domain numbering.now.problem (record { items = goal.items; fresh = goal.fresh }) next)) }
{
    let Made { items, fresh } = goal;
    let mut fresh = fresh.into_vec();
    let number = fresh_number(numbering, checked_sum(next, fresh.len() as u64)?)?;
    fresh.push(Fresh {
        arguments: List::from_vec(Vec::new(alloc)),
        parts: items,
    })?;
    let mut literals = Vec::new(alloc);
    literals.push(Literal::Holds(true, number, List::from_vec(Vec::new(alloc))))?;
    Ok(Made {
        items: List::from_vec(literals),
        fresh: List::from_vec(fresh),
    })
}

/// The literals of the goal.
pub(crate) fn goal_of(
    alloc: Global,
    numbering: &Numbering<'_>,
    goal: Made<Part>,
    next: u64,
) -> Result<Made<Literal>, AllocError>
    ensures { IfOk result (IsMadeOf (spec.goal_of numbering.now.domain numbering.now.problem (record { items = goal.items; fresh = goal.fresh }) goal.items next)) }
{
    match plain_literals(alloc, goal.items.as_slice())? {
        Some(literals) => Ok(Made {
            items: literals,
            fresh: goal.fresh,
        }),
        None => goal_atom(alloc, numbering, goal, next),
    }
}
