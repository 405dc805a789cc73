//! The sizes that are printed of a task.

ghost use Rattle.std.specs.Prelude.{◌≡◌, length, sum_by};
ghost use Rattle.run_task.specs.RunTask.{summary_of};

use invariant_guess::Found;
use messages::Summary;
use sas_task::{SasTask, Variable};

/// The sizes of the search for invariants and of the task, which are the seven numbers that are printed.
pub fn summary(found: &Found, task: &SasTask) -> Summary
    ensures { result ≡ summary_of found.now task.now }
{
    Summary {
        candidates: found.tried,
        invariants: found.accepted.len() as u64,
        variables: task.variables(),
        facts: facts(task),
        mutex_groups: task.groups(),
        operators: task.operators(),
        axioms: task.rules(),
    }
}

/// The sum of the ranges of all variables.
fn facts(task: &SasTask) -> u128
    ensures { result ≡ sum_by (λ v. length v.facts) task.now.variables }
{
    let mut facts = 0;
    for i in 0..task.variables() {
        facts += range(task.variable(i)) as u128;
    }
    facts
}

/// How many values the variable has.
fn range(variable: &Variable) -> u64
    ensures { result ≡ length variable.now.facts }
{
    variable.facts.len() as u64
}
