// The moves of each variable: from which of its values effects and rules take it to which other.

ghost use Rattle.std.specs.Prelude.{◌≡◌, ℕ, ◌<◌, length, IfOk, OnOk};
ghost use Rattle.std.specs.List.{flat_map};
ghost use Rattle.sas_task.specs.Output.{value_in};
ghost use Rattle.lists.specs.Rows.{row_of, Adds};
ghost use Rattle.task_simplifier.specs.Moves.{move_to, moves_on, moves_of_effect, moves_of_operator, moves_of_rule, moves_of};
ghost use Rattle.task_simplifier.specs.Moves as words;

use lists::Rows;
use sas_task::{Effect, Operator, Pair, Rule, SasTask, Value, Var};
use std::alloc::{AllocError, Global};

/// A move of a variable.
#[derive(Clone, Copy)]
pub(crate) struct Move {
    /// The value from which it leads, or none where it leads from each.
    pub(crate) from: Option<Value>,
    /// The value to which it leads.
    pub(crate) to: Value,
}

/// The first value that the conditions name for the variable.
fn named(conditions: &[Pair], var: Var) -> Option<Value>
    ensures { result ≡ value_in conditions.now var }
{
    conditions
        .iter()
        .find(|pair| pair.var == var)
        .map(|pair| pair.val)
}

/// Whether the conditions leave this value for the variable.
fn leave(conditions: &[Pair], var: Var, val: Value) -> bool
    ensures { result ≡ words.leave conditions.now var val }
{
    conditions
        .iter()
        .all(|pair| pair.var != var || pair.val == val)
}

/// The move of the variable to the value, from what both lists of conditions leave. There is none where they name
/// several values of the variable.
fn move_to(var: Var, to: Value, first: &[Pair], second: &[Pair]) -> Option<Move>
    ensures { result ≡ words.move_to var to first.now second.now }
{
    let from = named(first, var).or(named(second, var));
    match from {
        Some(val) if !leave(first, var, val) || !leave(second, var, val) => None,
        _ => Some(Move { from, to }),
    }
}

fn add_move(
    moves: &mut Rows<Move>,
    var: Var,
    to: Value,
    first: &[Pair],
    second: &[Pair],
) -> Result<(), AllocError>
    ensures { OnOk result (Adds (λ other. moves_on other var to first.now second.now) moves.old moves.new) }
{
    if let Some(step) = move_to(var, to, first, second) {
        moves.push(var, step)?;
    }
    Ok(())
}

fn add_effect(
    moves: &mut Rows<Move>,
    operator: &Operator,
    effect: &Effect,
) -> Result<(), AllocError>
    ensures { OnOk result (Adds (λ var. moves_of_effect var operator.now effect.now) moves.old moves.new) }
{
    let (first, second) = (operator.conditions.as_slice(), effect.conditions.as_slice());
    add_move(moves, effect.var, effect.after, first, second)?;
    Ok(())
}

fn add_operator(moves: &mut Rows<Move>, operator: &Operator) -> Result<(), AllocError>
    ensures { OnOk result (Adds (λ var. moves_of_operator var operator.now) moves.old moves.new) }
{
    for effect in operator.effects.as_slice() {
        add_effect(moves, operator, effect)?;
    }
    Ok(())
}

fn add_operators(moves: &mut Rows<Move>, operators: &[Operator]) -> Result<(), AllocError>
    ensures { OnOk result (Adds (λ var. flat_map (moves_of_operator var) operators.now) moves.old moves.new) }
{
    for operator in operators {
        add_operator(moves, operator)?;
    }
    Ok(())
}

fn add_rules(moves: &mut Rows<Move>, rules: &[Rule]) -> Result<(), AllocError>
    ensures { OnOk result (Adds (λ var. flat_map (moves_of_rule var) rules.now) moves.old moves.new) }
{
    for rule in rules {
        add_move(moves, rule.var, rule.after, rule.conditions.as_slice(), &[])?;
    }
    Ok(())
}

/// The moves of each variable, found in one pass over the operators and the rules.
pub(crate) fn moves_by_variable(alloc: Global, task: &SasTask) -> Result<Rows<Move>, AllocError>
    ensures { IfOk result (λ moves. (var : ℕ) → var < length task.now.variables → row_of moves var ≡ moves_of task.now var) }
{
    let mut moves = Rows::new(alloc, task.variables())?;
    add_operators(&mut moves, task.operator_slice())?;
    add_rules(&mut moves, task.rule_slice())?;
    Ok(moves)
}
