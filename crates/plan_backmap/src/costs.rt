//! What the operators of a task cost, by their names.

ghost use Rattle.std.specs.Prelude.{◌≡◌, ◌≤◌, IfOk, OnOk, IfSome};
ghost use Rattle.plan_backmap.specs.Costs.{HoldsCosts, AreSmall};
ghost use Rattle.plan_backmap.specs.Plans.{cost_of};

use indexmap::IndexMap;
use sas_task::SasTask;
use std::alloc::{AllocError, Global};
use std::marker::Model;

/// A task with a table of its operators' costs. Contracts see the task.
#[derive(Drop)]
pub(crate) struct Costs<'a> {
    task: &'a SasTask,
    table: IndexMap<&'a [u8], u64>,
}

impl<'a> Model for Costs<'a> {
    ghost use Rattle.sas_task.specs.Task.{Task};
    ghost use Rattle.plan_backmap.specs.Costs.{HoldsCosts, AreSmall};

    ghost Value = { Task };

    ghost view = { λ costs. costs.task.now };

    ghost invariant = { λ costs. HoldsCosts costs.task.now.operators costs.table × AreSmall costs.task.now.operators };
}

/// The costs by the names. The last operators are put in first, so that the first of two with one name counts.
fn cost_table(alloc: Global, task: &SasTask) -> Result<IndexMap<&[u8], u64>, AllocError>
    ensures costs { IfOk result (HoldsCosts task.now.operators) }
    ensures small { OnOk result (AreSmall task.now.operators) }
{
    let mut table = IndexMap::new(alloc);
    let mut left = task.operators();
    while left > 0 {
        left -= 1;
        let operator = task.operator(left);
        table.insert(operator.name.as_slice(), operator.cost)?;
    }
    Ok(table)
}

impl<'a> Costs<'a> {
    /// The task with its table.
    pub(crate) fn of(alloc: Global, task: &'a SasTask) -> Result<Costs<'a>, AllocError>
        ensures { IfOk result (λ costs. costs ≡ task.now) }
    {
        let table = cost_table(alloc, task)?;
        Ok(Costs { task, table })
    }

    /// The cost of the first operator with the name.
    pub(crate) fn cost(&self, name: &[u8]) -> Option<u64>
        ensures small { IfSome result (λ cost. cost ≤ 2147483647) }
        ensures cost { result ≡ cost_of self.now.operators name.now }
    {
        self.table.get(name).copied()
    }
}
