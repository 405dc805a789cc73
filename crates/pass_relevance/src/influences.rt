// What influences what in a task, as arcs of a graph. Its nodes are the variables, by their numbers, and behind them the
// operators, by their places: what is relevant where something else is stands at the end of an arc from it.

ghost use Rattle.std.specs.Prelude.{◌≡◌, ◌++◌, ◌+◌, ◌<◌, length, IfOk, OnOk};
ghost use Rattle.std.specs.List.{flat_map, range_with_len};
ghost use Rattle.pass_relevance.specs.Influences.{arcs_to, arcs_of_effect, arcs_of_two, disagreements, arcs_of_operator, arcs_at, arcs_of_rule};
ghost use Rattle.pass_relevance.specs.Influences as words;

use lists::checked_sum;
use names::Arc;
use sas_task::{Effect, Operator, Pair, Rule, SasTask, arrange, facts_set};
use std::alloc::{AllocError, Global};

/// The arc between the two nodes.
fn arc(from: u64, to: u64) -> Arc
    ensures { result ≡ words.arc from to }
{
    Arc {
        from: from as usize,
        to: to as usize,
    }
}

/// Adds an arc from the node to the variable of each pair.
fn add_pairs(arcs: &mut Vec<Arc>, from: u64, pairs: &[Pair]) -> Result<(), AllocError>
    ensures { OnOk result (arcs.new.items ≡ arcs.old.items ++ arcs_to from pairs.now) }
{
    for pair in pairs {
        arcs.push(arc(from, pair.var))?;
    }
    Ok(())
}

/// Adds arcs from the effect's variable to its operator and to the variables of its conditions.
fn add_effect(arcs: &mut Vec<Arc>, node: u64, effect: &Effect) -> Result<(), AllocError>
    ensures { OnOk result (arcs.new.items ≡ arcs.old.items ++ arcs_of_effect node effect.now) }
{
    arcs.push(arc(effect.var, node))?;
    add_pairs(arcs, effect.var, effect.conditions.as_slice())?;
    Ok(())
}

fn add_effects(arcs: &mut Vec<Arc>, node: u64, effects: &[Effect]) -> Result<(), AllocError>
    ensures { OnOk result (arcs.new.items ≡ arcs.old.items ++ flat_map (arcs_of_effect node) effects.now) }
{
    for effect in effects {
        add_effect(arcs, node, effect)?;
    }
    Ok(())
}

/// The facts that the effects make true, in order, each once.
fn written(alloc: Global, effects: &[Effect]) -> Result<Vec<Pair>, AllocError>
    ensures { IfOk result (λ pairs. pairs.items ≡ words.written effects.now) }
{
    arrange(true, facts_set(alloc, effects)?)
}

/// Adds an arc from the operator to the variable of the pair at this place, if the next pair is of it too.
fn add_two(arcs: &mut Vec<Arc>, node: u64, pairs: &[Pair], place: usize) -> Result<(), AllocError>
    requires { place + 1 < length pairs.now }
    ensures { OnOk result (arcs.new.items ≡ arcs.old.items ++ arcs_of_two node pairs.now place) }
{
    let var = pairs[place].var;
    if var == pairs[place + 1].var {
        arcs.push(arc(node, var))?;
    }
    Ok(())
}

/// Adds arcs from the operator to the variables that it may set to two values, given the pairs that it writes, in order.
fn add_disagreements(arcs: &mut Vec<Arc>, node: u64, pairs: &[Pair]) -> Result<(), AllocError>
    ensures { OnOk result (arcs.new.items ≡ arcs.old.items ++ disagreements node pairs.now) }
{
    for place in 0..pairs.len().saturating_sub(1) {
        add_two(arcs, node, pairs, place)?;
    }
    Ok(())
}

fn add_operator(
    alloc: Global,
    arcs: &mut Vec<Arc>,
    node: u64,
    operator: &Operator,
) -> Result<(), AllocError>
    ensures { OnOk result (arcs.new.items ≡ arcs.old.items ++ arcs_of_operator node operator.now) }
{
    let effects = operator.effects.as_slice();
    let pairs = written(alloc, effects)?;
    add_pairs(arcs, node, operator.conditions.as_slice())?;
    add_effects(arcs, node, effects)?;
    add_disagreements(arcs, node, pairs.as_slice())?;
    Ok(())
}

fn add_operators(alloc: Global, arcs: &mut Vec<Arc>, task: &SasTask) -> Result<(), AllocError>
    ensures { OnOk result (arcs.new.items ≡ arcs.old.items ++ flat_map (arcs_at task.now) (range_with_len 0 (length task.now.operators))) }
{
    for i in 0..task.operators() {
        let node = checked_sum(task.variables(), i)?;
        add_operator(alloc, arcs, node, task.operator(i))?;
    }
    Ok(())
}

fn add_rules(arcs: &mut Vec<Arc>, rules: &[Rule]) -> Result<(), AllocError>
    ensures { OnOk result (arcs.new.items ≡ arcs.old.items ++ flat_map arcs_of_rule rules.now) }
{
    for rule in rules {
        add_pairs(arcs, rule.var, rule.conditions.as_slice())?;
    }
    Ok(())
}

/// The arcs of the task, found in one pass over the operators and the rules.
pub(crate) fn influences(alloc: Global, task: &SasTask) -> Result<Vec<Arc>, AllocError>
    ensures { IfOk result (λ arcs. arcs.items ≡ words.influences task.now) }
{
    let mut arcs = Vec::new(alloc);
    add_operators(alloc, &mut arcs, task)?;
    add_rules(&mut arcs, task.rule_slice())?;
    Ok(arcs)
}
