//! The section of the operators.

ghost use Rattle.std.specs.Prelude.{◌≡◌, ◌==◌, ◌++◌, [], ◌∷◌, ℕ, length, map, filter, not, find, OnOk, if◌then◌else◌};
ghost use Rattle.std.specs.List.{list_any};
ghost use Rattle.std.specs.List.Sorted.{IsNonDecreasing, IsStrictlyIncreasing};
ghost use Rattle.std.specs.Option.{option_map};
ghost use Rattle.sas_task.specs.Effects.{changes};
ghost use Rattle.sas_task.specs.Output.{bytes_of, counted, effect_line, operator_lines, prevail, required_value};

use crate::lines::{
    push_line, push_next_number, push_next_number_or_none, push_next_pairs, push_number,
    push_number_line, push_pairs,
};
use sas_task::{Effect, Operator, Pair, SasTask, Value, Var};
use std::alloc::{AllocError, Global};

/// What is found of an operator before its lines are written. The lists are filled again for each operator, so that none takes
/// memory of its own.
#[derive(Drop)]
struct Room {
    /// The variables that its effects change.
    changed: Vec<u64>,
    /// Its prevail conditions.
    prevail: Vec<Pair>,
}

/// Makes them the variables of the effects.
fn set_variables(variables: &mut Vec<u64>, effects: &[Effect]) -> Result<(), AllocError>
    ensures { OnOk result (variables.new.items ≡ map (λ e. e.var) effects.now) }
{
    variables.clear();
    for effect in effects {
        variables.push(effect.var)?;
    }
    Ok(())
}

/// Makes them the variables that the operator changes, sorted.
fn set_changed(changed: &mut Vec<u64>, operator: &Operator) -> Result<(), AllocError>
    ensures sorted { OnOk result (IsNonDecreasing changed.new.items) }
    ensures changed { OnOk result ((var : ℕ) →
        list_any (λ v. v == var) changed.new.items ≡ changes operator.now var) }
{
    set_variables(changed, operator.effects.as_slice())?;
    changed.sort_unstable();
    Ok(())
}

/// Whether the number is among the sorted ones.
fn is_among(sorted: &[u64], number: u64) -> bool
    requires { IsNonDecreasing sorted.now }
    ensures { result ≡ list_any (λ v. v == number) sorted.now }
{
    sorted.binary_search(&number).is_ok()
}

/// Adds the pair, if its variable isn't among the sorted ones.
fn push_without(kept: &mut Vec<Pair>, pair: &Pair, sorted: &[u64]) -> Result<(), AllocError>
    requires { IsNonDecreasing sorted.now }
    ensures { OnOk result (kept.new.items ≡ kept.old.items ++ (if not (list_any (λ v. v == pair.now.var) sorted.now) then pair.now ∷ [] else [])) }
{
    if !is_among(sorted, pair.var) {
        kept.push(*pair)?;
    }
    Ok(())
}

/// Makes them the pairs whose variable isn't among the sorted ones, in order.
fn set_without(kept: &mut Vec<Pair>, pairs: &[Pair], sorted: &[u64]) -> Result<(), AllocError>
    requires { IsNonDecreasing sorted.now }
    ensures { OnOk result (kept.new.items ≡ filter (λ p. not (list_any (λ v. v == p.var) sorted.now)) pairs.now) }
{
    kept.clear();
    for pair in pairs {
        push_without(kept, pair, sorted)?;
    }
    Ok(())
}

/// Finds the prevail conditions of an operator, in order.
fn find_prevail(room: &mut Room, operator: &Operator) -> Result<(), AllocError>
    ensures { OnOk result (room.new.prevail.items ≡ prevail operator.now) }
{
    set_changed(&mut room.changed, operator)?;
    set_without(
        &mut room.prevail,
        operator.conditions.as_slice(),
        room.changed.as_slice(),
    )?;
    Ok(())
}

/// The value that conditions, sorted by variable, require of a variable.
fn value_in(conditions: &[Pair], var: Var) -> Option<Value>
    requires { IsStrictlyIncreasing (map (λ p. p.var) conditions.now) }
    ensures { result ≡ option_map (λ p. p.val) (find (λ p. p.var == var) conditions.now) }
{
    match conditions.binary_search_by_key(&var, |pair| pair.var) {
        Ok(at) => Some(conditions[at].val),
        Err(_) => None,
    }
}

/// The line of an effect of the operator.
fn push_effect(out: &mut Vec<u8>, operator: &Operator, effect: &Effect) -> Result<(), AllocError>
    requires { IsStrictlyIncreasing (map (λ p. p.var) operator.now.conditions) }
    ensures { OnOk result (out.new.items ≡ out.old.items ++ bytes_of (effect_line operator.now effect.now ∷ [])) }
{
    let conditions = effect.conditions.as_slice();
    push_number(out, conditions.len() as u64)?;
    push_next_pairs(out, conditions)?;
    push_next_number(out, effect.var)?;
    push_next_number_or_none(out, value_in(operator.conditions.as_slice(), effect.var))?;
    push_next_number(out, effect.after)?;
    out.push(b'\n')?;
    Ok(())
}

/// The number of effects, and then a line for each.
fn push_effects(out: &mut Vec<u8>, operator: &Operator) -> Result<(), AllocError>
    requires { IsStrictlyIncreasing (map (λ p. p.var) operator.now.conditions) }
    ensures { OnOk result (out.new.items ≡ out.old.items ++ bytes_of (counted (λ e. effect_line operator.now e ∷ []) operator.now.effects)) }
{
    let effects = operator.effects.as_slice();
    push_number_line(out, effects.len() as u64)?;
    for effect in effects {
        push_effect(out, operator, effect)?;
    }
    Ok(())
}

fn push_operator(out: &mut Vec<u8>, room: &mut Room, operator: &Operator) -> Result<(), AllocError>
    requires { IsStrictlyIncreasing (map (λ p. p.var) operator.now.conditions) }
    ensures { OnOk result (out.new.items ≡ out.old.items ++ bytes_of (operator_lines operator.now)) }
{
    find_prevail(room, operator)?;
    push_line(out, b"begin_operator")?;
    push_line(out, operator.name.as_slice())?;
    push_pairs(out, room.prevail.as_slice())?;
    push_effects(out, operator)?;
    push_number_line(out, operator.cost)?;
    push_line(out, b"end_operator")
}

/// The number of operators, and then the lines of each.
pub fn push_operators(alloc: Global, out: &mut Vec<u8>, task: &SasTask) -> Result<(), AllocError>
    ensures { OnOk result (out.new.items ≡ out.old.items ++ bytes_of (counted operator_lines task.now.operators)) }
{
    let count = task.operators();
    push_number_line(out, count)?;
    let mut room = Room {
        changed: Vec::new(alloc),
        prevail: Vec::new(alloc),
    };
    for i in 0..count {
        push_operator(out, &mut room, task.operator(i))?;
    }
    Ok(())
}
