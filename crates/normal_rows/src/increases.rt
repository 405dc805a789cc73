// What actions cost.
ghost use Rattle.std.specs.Prelude.{◌≡◌, map, IfOk};
ghost use Rattle.std.specs.List.{flat_map};
ghost use Rattle.std.specs.Option.{option_map};
ghost use Rattle.pddl_syntax.specs.Step.{increases};
ghost use Rattle.normal_rows.specs.Costs.{first, cost_of};
ghost use Rattle.normal_task.specs.Normalised as spec;

use crate::scope::{Scope, places_of};
use normal_task::CostRow;
use numbering::Numbering;
use pddl_syntax::{Action, Cost, Effect};
use std::alloc::{AllocError, Global};

/// By how much the first increase of the effect increases the cost.
#[cycle(first_increase)]
fn first_increase<'a>(effect: &'a Effect) -> Option<&'a Cost>
    ensures { option_map (λ cost. cost.now) result ≡ first (increases effect.now) }
{
    match effect {
        Effect::Nothing(_) | Effect::Add(_) | Effect::Delete(_) => None,
        Effect::And(members, _) => first_increase_of(members.as_slice()),
        Effect::When(_, inside, _) | Effect::Forall(_, inside, _) => first_increase(inside.get()),
        Effect::Increase(_, cost, _) => Some(cost),
    }
}

#[cycle(first_increase)]
fn first_increase_of<'a>(members: &'a [Effect]) -> Option<&'a Cost>
    ensures { option_map (λ cost. cost.now) result ≡ first (flat_map (λ costs. costs) (map increases members.now)) }
{
    for member in members {
        if let Some(cost) = first_increase(member) {
            return Some(cost);
        }
    }
    None
}

fn cost_row(
    alloc: Global,
    numbering: &Numbering<'_>,
    scope: &Scope<'_, '_>,
    cost: &Cost,
) -> Result<CostRow, AllocError>
    ensures { IfOk result (λ row. row ≡ spec.cost_row numbering.now.domain numbering.now.problem scope.now cost.now) }
{
    match cost {
        Cost::Number(number) => Ok(CostRow::Number(*number)),
        Cost::Term(term) => {
            let function = numbering.function(term.predicate.name.as_slice());
            let places = places_of(alloc, numbering, scope, term.terms.as_slice())?;
            Ok(CostRow::Term(function, places))
        }
    }
}

/// What the action costs: its increase with the metric, and 1 without it.
pub fn action_cost(
    alloc: Global,
    numbering: &Numbering<'_>,
    scope: &Scope<'_, '_>,
    action: &Action,
) -> Result<CostRow, AllocError>
    ensures { IfOk result (λ row. row ≡ cost_of numbering.now.domain numbering.now.problem scope.now action.now) }
{
    if !numbering.problem().metric {
        return Ok(CostRow::Number(1));
    }
    match first_increase(&action.effect) {
        Some(cost) => cost_row(alloc, numbering, scope, cost),
        None => Ok(CostRow::Number(0)),
    }
}
