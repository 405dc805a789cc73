// The relevant variables: what is reached from those of the goal.

ghost use Rattle.std.specs.Prelude.{◌≡◌, nat_lt, map, filter, IfOk};
ghost use Rattle.sas_task.specs.Valid.{IsValid};
ghost use Rattle.sas_restriction.specs.Relevant.{AreRelevant};

use crate::influences::influences;
use graph_search::reached;
use lists::checked_sum;
use sas_task::{Pair, SasTask, Var};
use std::alloc::{AllocError, Global};

/// The variables of the pairs.
fn variables_of(alloc: Global, pairs: &[Pair]) -> Result<Vec<Var>, AllocError>
    ensures { IfOk result (λ vars. vars.items ≡ map (λ p. p.var) pairs.now) }
{
    pairs.iter().map(|pair| pair.var).collect(alloc)
}

/// The numbers below the count, in their order.
fn below(alloc: Global, numbers: &[u64], count: u64) -> Result<Vec<u64>, AllocError>
    ensures { IfOk result (λ low. low.items ≡ filter (λ number. nat_lt number count) numbers.now) }
{
    numbers
        .iter()
        .copied()
        .filter(|number| *number < count)
        .collect(alloc)
}

/// The relevant variables, in order.
pub(crate) fn relevant_variables(alloc: Global, task: &SasTask) -> Result<Vec<Var>, AllocError>
    requires { IsValid task.now }
    ensures { IfOk result (λ vars. AreRelevant task.now vars.items) }
{
    let count = task.variables();
    let nodes = checked_sum(count, task.operators())?;
    let wanted = variables_of(alloc, task.goal())?;
    let influences = influences(alloc, task)?;
    let starts = wanted.as_slice();
    let arcs = influences.as_slice();
    let found = reached(alloc, nodes, starts, arcs)?;
    let numbers = found.as_slice();
    let vars = below(alloc, numbers, count)?;
    Ok(vars)
}
