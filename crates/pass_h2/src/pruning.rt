// The task with its possible operators and values alone.

ghost use Rattle.std.specs.Prelude.{◌≡◌, ◌==◌, ◌&&◌, ◌||◌, ◌<◌, true, length, map, filter, IfOk};
ghost use Rattle.std.specs.List.{list_any, range_with_len};
ghost use Rattle.sas_restriction.specs.Everything.{all_values};
ghost use Rattle.sas_restriction.specs.Listed.{with_operators};
ghost use Rattle.pass_possible.specs.Possible as possible;
ghost use Rattle.pass_possible.specs.Pruned.{HasPossibleAlone, IsPruned};
ghost use Rattle.pass_possible.specs.Pruned as pruned;
ghost use Rattle.pass_h2.specs.Finds.{found, nothing};

use crate::facts::{is_in_goal, is_plain};
use crate::search::{is_possible, mark_possible};
use crate::table::Table;
use lists::List;
use sas_restriction::{Chosen, Once, numbers_below, restrict};
use sas_task::{Operator, Pair, SasTask, Value, Var, is_valid};
use std::alloc::{AllocError, Global};

/// Whether the value is possible or in the goal.
fn is_wanted(table: &Table, goal: &[Pair], var: Var, val: Value) -> bool
    ensures { result ≡ (found table.now (record { var = var; val = val }) (record { var = var; val = val }) || list_any (λ p. (p.var == var) && (p.val == val)) goal.now) }
{
    let fact = Pair { var, val };
    table.has(&fact, &fact) || is_in_goal(goal, var, val)
}

/// The values of the variable, which has this many, that are possible or in the goal.
fn wanted_below(
    alloc: Global,
    table: &Table,
    goal: &[Pair],
    var: Var,
    count: u64,
) -> Result<Vec<Value>, AllocError>
    ensures { IfOk result (λ values. values.items ≡ filter (λ val. found table.now (record { var = var; val = val }) (record { var = var; val = val }) || list_any (λ p. (p.var == var) && (p.val == val)) goal.now) (range_with_len 0 count)) }
{
    (0..count)
        .filter(|val| is_wanted(table, goal, var, *val))
        .collect(alloc)
}

/// The values of the variable that are possible or in the goal.
fn wanted(alloc: Global, table: &Table, task: &SasTask, var: Var) -> Result<List<Value>, AllocError>
    requires { var < length task.now.variables }
    ensures { IfOk result (λ values. values ≡ filter (pruned.is_wanted (found table.now) task.now var) (all_values task.now var)) }
{
    let count = task.variable(var).facts.len() as u64;
    let values = wanted_below(alloc, table, task.goal(), var, count)?;
    Ok(List::from_vec(values))
}

/// Of each variable, the values that are possible or in the goal.
fn wanted_of_each(
    alloc: Global,
    table: &Table,
    task: &SasTask,
) -> Result<Vec<List<Value>>, AllocError>
    ensures { IfOk result (λ values. values.items ≡ map (λ var. filter (pruned.is_wanted (found table.now) task.now var) (all_values task.now var)) (range_with_len 0 (length task.now.variables))) }
{
    let mut values = Vec::new(alloc);
    for var in 0..task.variables() {
        let list = wanted(alloc, table, task, var)?;
        values.push(list)?;
    }
    Ok(values)
}

/// For each operator whether it is possible.
fn possible_marks(
    alloc: Global,
    table: &Table,
    operators: &[Operator],
) -> Result<Vec<bool>, AllocError>
    ensures { IfOk result (λ marks. marks.items ≡ map (possible.is_possible (found table.now)) operators.now) }
{
    operators
        .iter()
        .map(|operator| is_possible(table, operator))
        .collect(alloc)
}

/// All variables, each with its values that are possible or in the goal.
fn chosen(alloc: Global, table: &Table, task: &SasTask) -> Result<Chosen, AllocError>
    ensures { IfOk result (λ shown. with_operators shown (possible.is_possible (found table.now)) ≡ pruned.possible_alone (found table.now) task.now) }
{
    let vars = numbers_below(alloc, task.variables())?;
    let values = wanted_of_each(alloc, table, task)?;
    Chosen::new(alloc, vars, values, None)
}

/// The task with its possible operators and values alone. The possible pairs are marked in the table, where none is yet.
fn with_marked_alone(
    alloc: Global,
    table: &mut Table,
    task: &SasTask,
) -> Result<SasTask, AllocError>
    requires plain { possible.is_plain task.now ≡ true }
    requires open { table.now ≡ nothing task.now }
    ensures { IfOk result (HasPossibleAlone task.now) }
{
    is_valid(task);
    mark_possible(alloc, table, task)?;
    let marks = possible_marks(alloc, table, task.operator_slice())?;
    let shown = chosen(alloc, table, task)?;
    let once = Once {
        effects: false,
        operators: false,
        groups: true,
        rules: false,
    };
    restrict(alloc, once, &shown, marks.as_slice(), task)
}

/// The plain task with what is possible alone, by a table of its own.
fn with_possible_alone(alloc: Global, task: &SasTask) -> Result<SasTask, AllocError>
    requires { possible.is_plain task.now ≡ true }
    ensures { IfOk result (HasPossibleAlone task.now) }
{
    let mut table = Table::new(alloc, task)?;
    with_marked_alone(alloc, &mut table, task)
}

/// The task without what no pair of facts allows: operators that are never applicable, as far as pairs of facts show (h2,
/// Haslum and Geffner 2000), and values that are neither possible nor in the goal, with the facts of groups on them.
/// Groups that are left twice are left once, and all lists are in order again. A task with a derived variable, a rule or
/// an effect with a condition stays as it is. `pass_possible::laws::pruning_keeps` says what this keeps.
///
/// The pairs are marked in a table of facts times facts. An operator is looked at again only where a pair that it needs
/// was marked: each look goes once over the facts for each of its conditions and effects, 64 of them a step, and over the
/// pairs that it marks, and there are at most as many turns as pairs.
pub fn prune(alloc: Global, task: &SasTask) -> Result<SasTask, AllocError>
    ensures { IfOk result (IsPruned task.now) }
{
    if is_plain(task) {
        with_possible_alone(alloc, task)
    } else {
        task.copy(alloc)
    }
}
