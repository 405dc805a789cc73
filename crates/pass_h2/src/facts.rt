// The facts of a task and of its parts, and what is asked of a task and of its operators alone.

ghost use Rattle.std.specs.Prelude.{◌≡◌, ◌<◌, ◌++◌, ◌==◌, ◌&&◌, not, [], map, length, is_none, IfOk, OnOk};
ghost use Rattle.std.specs.List.{list_all, list_any, range_with_len};
ghost use Rattle.sas_task.specs.Pairs.{pair};
ghost use Rattle.pass_possible.specs.Possible as possible;
ghost use Rattle.pass_h2.specs.Facts as words;

use sas_task::{Effect, Operator, Pair, SasTask, Value, Var};
use std::alloc::{AllocError, Global};

/// Adds the facts of the variable with this many values.
fn add_facts(facts: &mut Vec<Pair>, var: Var, count: u64) -> Result<(), AllocError>
    ensures { OnOk result (facts.new.items ≡ facts.old.items ++ map (pair var) (range_with_len 0 count)) }
{
    for val in 0..count {
        facts.push(Pair { var, val })?;
    }
    Ok(())
}

fn add_facts_of(facts: &mut Vec<Pair>, task: &SasTask, var: Var) -> Result<(), AllocError>
    requires { var < length task.now.variables }
    ensures { OnOk result (facts.new.items ≡ facts.old.items ++ words.facts_at task.now var) }
{
    let count = task.variable(var).facts.len() as u64;
    add_facts(facts, var, count)?;
    Ok(())
}

/// Lists all facts, variable by variable, and for each variable how many facts come before its own.
pub(crate) fn list_facts(
    facts: &mut Vec<Pair>,
    starts: &mut Vec<u64>,
    task: &SasTask,
) -> Result<(), AllocError>
    requires no_facts { facts.now.items ≡ [] }
    requires no_starts { starts.now.items ≡ [] }
    ensures facts { OnOk result (facts.new.items ≡ words.all_facts task.now) }
    ensures starts { OnOk result (starts.new.items ≡ words.starts task.now) }
{
    for var in 0..task.variables() {
        starts.push(facts.len() as u64)?;
        add_facts_of(facts, task, var)?;
    }
    Ok(())
}

/// The facts of the written state.
pub(crate) fn initial_facts(alloc: Global, task: &SasTask) -> Result<Vec<Pair>, AllocError>
    ensures { IfOk result (λ facts. facts.items ≡ words.initial_facts task.now) }
{
    let mut facts = Vec::new(alloc);
    for var in 0..task.variables() {
        facts.push(Pair {
            var,
            val: task.state(var),
        })?;
    }
    Ok(facts)
}

/// Whether one of the effects gives the effect's variable another value.
fn disagrees(effect: &Effect, effects: &[Effect]) -> bool
    ensures { result ≡ list_any (λ b. (effect.now.var == b.var) && not (effect.now.after == b.after)) effects.now }
{
    effects.iter().any(|other| effect.var == other.var && effect.after != other.after)
}

/// Whether two effects give one variable two values.
pub(crate) fn is_mixed(operator: &Operator) -> bool
    ensures { result ≡ possible.is_mixed operator.now }
{
    let effects = operator.effects.as_slice();
    effects.iter().any(|effect| disagrees(effect, effects))
}

/// Whether no effect of the operator has a condition.
fn is_unconditional(operator: &Operator) -> bool
    ensures { result ≡ list_all (λ e. length e.conditions == 0) operator.now.effects }
{
    let mut effects = operator.effects.as_slice().iter();
    effects.all(|effect| effect.conditions.as_slice().is_empty())
}

/// Whether no variable is derived.
fn has_no_layer(task: &SasTask) -> bool
    ensures { result ≡ list_all (λ v. is_none v.layer) task.now.variables }
{
    for var in 0..task.variables() {
        if task.variable(var).layer.is_some() {
            return false;
        }
    }
    true
}

/// Whether no effect of an operator has a condition.
fn has_no_condition(task: &SasTask) -> bool
    ensures { result ≡ list_all (λ o. list_all (λ e. length e.conditions == 0) o.effects) task.now.operators }
{
    task.operator_slice()
        .iter()
        .all(|operator| is_unconditional(operator))
}

/// Whether no variable is derived, there is no rule, and no effect has a condition.
pub(crate) fn is_plain(task: &SasTask) -> bool
    ensures { result ≡ possible.is_plain task.now }
{
    has_no_layer(task) && task.rule_slice().is_empty() && has_no_condition(task)
}

/// Whether the value is in the goal.
pub(crate) fn is_in_goal(goal: &[Pair], var: Var, val: Value) -> bool
    ensures { result ≡ list_any (λ p. (p.var == var) && (p.val == val)) goal.now }
{
    goal.iter().any(|pair| pair.var == var && pair.val == val)
}
