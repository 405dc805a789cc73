// The task in the order of its variables.

ghost use Rattle.std.specs.Prelude.{IfOk};
ghost use Rattle.sas_restriction.specs.Reordered.{IsReordered};

use crate::counted::variable_order;
use sas_restriction::{Once, all_marks, all_values, restrict};
use sas_task::{SasTask, is_valid};
use std::alloc::{AllocError, Global};

/// The task with its variables ordered by how many operators have an effect on them, fewest first, and those with as
/// many by their old numbers. All lists are in order again. `sas_restriction::laws::reordering_keeps` says what this
/// keeps.
pub fn order_variables(alloc: Global, task: &SasTask) -> Result<SasTask, AllocError>
    ensures { IfOk result (λ new. IsReordered task.now new) }
{
    is_valid(task);
    let vars = variable_order(alloc, task)?;
    let shown = all_values(alloc, task, vars)?;
    let marks = all_marks(alloc, task)?;
    let once = Once {
        effects: false,
        operators: false,
        groups: false,
        rules: false,
    };
    let new = restrict(alloc, once, &shown, marks.as_slice(), task)?;
    Ok(new)
}
