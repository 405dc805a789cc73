// All variables, all values of each variable, and all operators.

ghost use Rattle.std.specs.Prelude.{◌≡◌, ◌<◌, true, map, length, All, IfOk};
ghost use Rattle.std.specs.List.{range_with_len};
ghost use Rattle.sas_restriction.specs.Everything as everything;

use crate::chosen::Chosen;
use lists::List;
use sas_task::{SasTask, Value, Var};
use std::alloc::{AllocError, Global};

/// The numbers below this one, in order.
pub fn numbers_below(alloc: Global, count: u64) -> Result<Vec<u64>, AllocError>
    ensures { IfOk result (λ numbers. numbers.items ≡ range_with_len 0 count) }
{
    (0..count).collect(alloc)
}

/// All values of the variable.
fn values_of(alloc: Global, task: &SasTask, var: Var) -> Result<List<Value>, AllocError>
    requires { var < length task.now.variables }
    ensures { IfOk result (λ values. values ≡ everything.all_values task.now var) }
{
    let count = task.variable(var).facts.len() as u64;
    Ok(List::from_vec(numbers_below(alloc, count)?))
}

/// All values of each variable.
fn values_of_each(alloc: Global, task: &SasTask) -> Result<Vec<List<Value>>, AllocError>
    ensures { IfOk result (λ values. values.items ≡ map (everything.all_values task.now) (range_with_len 0 (length task.now.variables))) }
{
    let mut values = Vec::new(alloc);
    for var in 0..task.variables() {
        let list = values_of(alloc, task, var)?;
        values.push(list)?;
    }
    Ok(values)
}

/// These variables of the task, by their old numbers in their new order, with all their values.
pub fn all_values(alloc: Global, task: &SasTask, vars: Vec<Var>) -> Result<Chosen, AllocError>
    requires { All (λ v. v < length task.now.variables) vars.items }
    ensures { IfOk result (λ new. new ≡ everything.everything_of task.now vars.items) }
{
    let values = values_of_each(alloc, task)?;
    Chosen::new(alloc, vars, values, None)
}

/// A mark for each operator. By these all operators are left.
pub fn all_marks(alloc: Global, task: &SasTask) -> Result<Vec<bool>, AllocError>
    ensures { IfOk result (λ marks. marks.items ≡ map (λ o. true) task.now.operators) }
{
    task.operator_slice().iter().map(|_| true).collect(alloc)
}
