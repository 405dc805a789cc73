//! What effects change, and what they make true.

ghost use Rattle.std.specs.Prelude.{◌≡◌, map, IfOk};
ghost use Rattle.sas_task.specs.Effects.{fact_of};
ghost use Rattle.sas_task.specs.Effects as meaning;

use crate::parts::{Effect, Operator, Pair, Var};
use std::alloc::{AllocError, Global};

/// Whether the operator changes the variable: whether some effect of it is on the variable.
pub fn changes(operator: &Operator, var: Var) -> bool
    ensures { result ≡ meaning.changes operator.now var }
{
    operator
        .effects
        .as_slice()
        .iter()
        .any(|effect| effect.var == var)
}

/// The facts that the effects make true, in their order.
pub fn facts_set(alloc: Global, effects: &[Effect]) -> Result<Vec<Pair>, AllocError>
    ensures { IfOk result (λ facts. facts.items ≡ map fact_of effects.now) }
{
    effects
        .iter()
        .map(|effect| Pair {
            var: effect.var,
            val: effect.after,
        })
        .collect(alloc)
}
