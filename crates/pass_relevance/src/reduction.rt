// The task without what can't influence its goal.

ghost use Rattle.std.specs.Prelude.{◌≡◌, ◌==◌, length, IfOk};
ghost use Rattle.sas_restriction.specs.Reduced.{HasRelevantAlone, IsReduced};

use crate::search::relevant_variables;
use sas_restriction::{Once, all_values, busy_marks, restrict};
use sas_task::{SasTask, is_valid};
use std::alloc::{AllocError, Global};

/// The task with its relevant variables alone.
fn with_relevant_alone(alloc: Global, task: &SasTask) -> Result<SasTask, AllocError>
    ensures { IfOk result (HasRelevantAlone task.now) }
{
    is_valid(task);
    let vars = relevant_variables(alloc, task)?;
    let shown = all_values(alloc, task, vars)?;
    let marks = busy_marks(alloc, &shown, task)?;
    let once = Once {
        effects: false,
        operators: true,
        groups: true,
        rules: false,
    };
    let new = restrict(alloc, once, &shown, marks.as_slice(), task)?;
    Ok(new)
}

/// Whether the goal is empty.
fn wants_nothing(task: &SasTask) -> bool
    ensures { result ≡ (length task.now.goal == 0) }
{
    task.goal().is_empty()
}

/// The task without what can't influence its goal: with the variables alone that may, and the effects, operators, rules
/// and facts of groups on them. Operators and groups that are left twice are left once, and all lists are in order again.
/// A task with an empty goal stays as it is. `sas_restriction::laws::reduction_keeps` says what this keeps.
pub fn relevant(alloc: Global, task: &SasTask) -> Result<SasTask, AllocError>
    ensures { IfOk result (IsReduced task.now) }
{
    if wants_nothing(task) {
        task.copy(alloc)
    } else {
        with_relevant_alone(alloc, task)
    }
}
