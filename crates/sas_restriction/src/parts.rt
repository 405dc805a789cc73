// What is left of variables, of the goal, of effects, operators and rules.

ghost use Rattle.std.specs.Prelude.{◌≡◌, ◌++◌, ◌<◌, ◌&&◌, Bool, [], ◌∷◌, map, filter, length, All, IfOk, OnOk, if◌then◌else◌, slice_index_or};
ghost use Rattle.std.specs.Option.{option_map_or};
ghost use Rattle.sas_task.specs.declared.parts.Operator.{Operator as AnOperator};
ghost use Rattle.sas_task.specs.Orders.{operator_cmp};
ghost use Rattle.sas_task.specs.InOrder.{arranged};
ghost use Rattle.sas_restriction.specs.Listed.{chosen, with_operators};
ghost use Rattle.sas_restriction.specs.Choice as choice;
ghost use Rattle.sas_restriction.specs.Restriction as restriction;

use crate::chosen::{Chosen, Once};
use lists::{List, Text};
use sas_task::{Effect, Operator, Pair, Rule, SasTask, Value, Var, Variable, arrange};
use std::alloc::{AllocError, Global};

/// A copy of the fact of this value.
fn fact_at(alloc: Global, facts: &[Text], val: Value) -> Result<Text, AllocError>
    ensures { IfOk result (λ fact. fact ≡ slice_index_or facts.now val []) }
{
    let fact = match facts.get(val as usize) {
        Some(fact) => fact.as_slice(),
        None => &[],
    };
    Text::from_slice(alloc, fact)
}

/// Copies of the facts of these values.
fn facts_at(alloc: Global, facts: &[Text], values: &[Value]) -> Result<Vec<Text>, AllocError>
    ensures { IfOk result (λ names. names.items ≡ map (λ val. slice_index_or facts.now val []) values.now) }
{
    let mut names = Vec::with_capacity(alloc, values.len())?;
    for val in values {
        names.push(fact_at(alloc, facts, *val)?)?;
    }
    Ok(names)
}

/// The variable with the facts of its values that are left.
fn new_variable(
    alloc: Global,
    shown: &Chosen,
    task: &SasTask,
    var: Var,
) -> Result<Variable, AllocError>
    requires { var < length task.now.variables }
    ensures { IfOk result (λ variable. variable ≡ choice.new_variable (chosen shown.now) task.now var) }
{
    let old = task.variable(var);
    let facts = facts_at(alloc, old.facts.as_slice(), shown.values(var))?;
    Ok(Variable {
        layer: old.layer,
        facts: List::from_vec(facts),
    })
}

/// The variables that are shown.
fn new_variables(alloc: Global, shown: &Chosen, task: &SasTask) -> Result<Vec<Variable>, AllocError>
    requires { All (λ v. v < length task.now.variables) shown.now.vars }
    ensures { IfOk result (λ variables. variables.items ≡ map (choice.new_variable (chosen shown.now) task.now) shown.now.vars) }
{
    let mut variables = Vec::with_capacity(alloc, shown.vars().len() + 1)?;
    for var in shown.vars() {
        variables.push(new_variable(alloc, shown, task, *var)?)?;
    }
    Ok(variables)
}

fn holder_variable(alloc: Global) -> Result<Variable, AllocError>
    ensures { IfOk result (λ variable. variable ≡ choice.holder_variable) }
{
    let met = Text::from_slice(alloc, b"Atom goal@holder()")?;
    let missed = Text::from_slice(alloc, b"NegatedAtom goal@holder()")?;
    Ok(Variable {
        layer: None,
        facts: List::from_vec(vec![in alloc; met, missed]?),
    })
}

fn add_holder(
    alloc: Global,
    variables: &mut Vec<Variable>,
    holder: Option<Value>,
) -> Result<(), AllocError>
    ensures { OnOk result (variables.new.items ≡ variables.old.items ++ option_map_or (λ start. choice.holder_variable ∷ []) holder []) }
{
    if holder.is_some() {
        variables.push(holder_variable(alloc)?)?;
    }
    Ok(())
}

/// The variables that are shown, and the holder's.
pub(crate) fn all_variables(
    alloc: Global,
    shown: &Chosen,
    task: &SasTask,
) -> Result<List<Variable>, AllocError>
    requires { All (λ v. v < length task.now.variables) shown.now.vars }
    ensures { IfOk result (λ all. all ≡ map (choice.new_variable (chosen shown.now) task.now) shown.now.vars ++ option_map_or (λ start. choice.holder_variable ∷ []) shown.now.holder []) }
{
    let mut all = new_variables(alloc, shown, task)?;
    add_holder(alloc, &mut all, shown.holder())?;
    Ok(List::from_vec(all))
}

/// What is left of the goal, or that the holder has its first value.
pub(crate) fn goal(alloc: Global, shown: &Chosen, task: &SasTask) -> Result<List<Pair>, AllocError>
    ensures { IfOk result (λ goal. goal ≡ option_map_or (λ start. record { var = length shown.now.vars; val = 0 } ∷ []) shown.now.holder (choice.new_pairs (chosen shown.now) task.now.goal)) }
{
    match shown.holder() {
        Some(_) => {
            let var = shown.vars().len() as u64;
            Ok(List::from_vec(vec![in alloc; Pair { var, val: 0 }]?))
        }
        None => shown.new_pairs(alloc, task.goal()),
    }
}

fn new_effect(shown: &Chosen, effect: Effect) -> Result<Effect, AllocError>
    ensures { IfOk result (λ new. new ≡ choice.new_effect (chosen shown.now) effect) }
{
    let Effect {
        conditions,
        var,
        after,
    } = effect;
    Ok(Effect {
        conditions: shown.conditions_left(conditions.into_vec())?,
        var: shown.new_var(var),
        after: shown.new_val(var, after),
    })
}

impl Chosen {
    /// Whether the effect stays: what it needs and its new value are left, and its variable is shown.
    pub fn keeps_effect(&self, effect: &Effect) -> bool
        ensures { result ≡ choice.effect_stays (chosen self.now) effect.now }
    {
        self.has_all(effect.conditions.as_slice())
            && self.has(effect.var, effect.after)
            && self.shows(effect.var)
    }
}

fn add_effect(shown: &Chosen, effects: &mut Vec<Effect>, effect: Effect) -> Result<(), AllocError>
    ensures { OnOk result (effects.new.items ≡ effects.old.items ++ (if choice.effect_stays (chosen shown.now) effect then choice.new_effect (chosen shown.now) effect ∷ [] else [])) }
{
    if shown.keeps_effect(&effect) {
        effects.push(new_effect(shown, effect)?)?;
    }
    Ok(())
}

fn effects_left(alloc: Global, shown: &Chosen, old: Vec<Effect>) -> Result<Vec<Effect>, AllocError>
    ensures { IfOk result (λ effects. effects.items ≡ map (choice.new_effect (chosen shown.now)) (filter (choice.effect_stays (chosen shown.now)) old.items)) }
{
    let mut effects = Vec::with_capacity(alloc, old.len())?;
    for effect in old {
        add_effect(shown, &mut effects, effect)?;
    }
    Ok(effects)
}

fn new_operator(
    alloc: Global,
    once: Once,
    shown: &Chosen,
    operator: Operator,
) -> Result<Operator, AllocError>
    ensures { IfOk result (λ new. new ≡ restriction.new_operator once (chosen shown.now) operator) }
{
    let Operator {
        name,
        conditions,
        effects,
        cost,
    } = operator;
    let conditions = shown.conditions_left(conditions.into_vec())?;
    let effects = effects_left(alloc, shown, effects.into_vec())?;
    let effects = List::from_vec(arrange(once.effects, effects)?);
    Ok(Operator {
        name,
        conditions,
        effects,
        cost,
    })
}

fn add_operator(
    alloc: Global,
    once: Once,
    shown: &Chosen,
    operators: &mut Vec<Operator>,
    operator: Operator,
    is_left: bool,
) -> Result<(), AllocError>
    ensures { OnOk result (operators.new.items ≡ operators.old.items ++ (if choice.all_left (chosen shown.now) operator.conditions && is_left then restriction.new_operator once (chosen shown.now) operator ∷ [] else [])) }
{
    if shown.has_all(operator.conditions.as_slice()) && is_left {
        operators.push(new_operator(alloc, once, shown, operator)?)?;
    }
    Ok(())
}

/// What is left of the operators that stay, whose lists are handed on. The marks tell which operators are left.
fn operators_left(
    alloc: Global,
    once: Once,
    shown: &Chosen,
    marks: &[bool],
    old: Vec<Operator>,
) -> Result<Vec<Operator>, AllocError>
    requires { length marks.now ≡ length old.items }
    ensures { IfOk result (λ operators. (leaves : AnOperator → Bool) → marks.now ≡ map leaves old.items →
        operators.items ≡ map (restriction.new_operator once (with_operators shown.now leaves)) (filter (choice.operator_stays (with_operators shown.now leaves)) old.items)) }
{
    let mut operators = Vec::with_capacity(alloc, old.len())?;
    let mut i = 0;
    for operator in old {
        add_operator(alloc, once, shown, &mut operators, operator, marks[i])?;
        i += 1;
    }
    Ok(operators)
}

/// What is left of the operators that stay, in order. The marks tell which operators are left.
pub(crate) fn whole_operators(
    alloc: Global,
    once: Once,
    shown: &Chosen,
    marks: &[bool],
    old: List<Operator>,
) -> Result<List<Operator>, AllocError>
    requires { length marks.now ≡ length old }
    ensures { IfOk result (λ operators. (leaves : AnOperator → Bool) → marks.now ≡ map leaves old →
        operators ≡ arranged once.operators operator_cmp (map (restriction.new_operator once (with_operators shown.now leaves)) (filter (choice.operator_stays (with_operators shown.now leaves)) old))) }
{
    let operators = operators_left(alloc, once, shown, marks, old.into_vec())?;
    Ok(List::from_vec(arrange(once.operators, operators)?))
}

fn new_rule(alloc: Global, shown: &Chosen, rule: &Rule) -> Result<Rule, AllocError>
    ensures { IfOk result (λ new. new ≡ choice.new_rule (chosen shown.now) rule.now) }
{
    Ok(Rule {
        conditions: shown.new_pairs(alloc, rule.conditions.as_slice())?,
        var: shown.new_var(rule.var),
        before: shown.new_val(rule.var, rule.before),
        after: shown.new_val(rule.var, rule.after),
    })
}

fn add_rule(
    alloc: Global,
    shown: &Chosen,
    rules: &mut Vec<Rule>,
    rule: &Rule,
) -> Result<(), AllocError>
    ensures { OnOk result (rules.new.items ≡ rules.old.items ++ (if choice.rule_stays (chosen shown.now) rule.now then choice.new_rule (chosen shown.now) rule.now ∷ [] else [])) }
{
    if shown.has_all(rule.conditions.as_slice()) && shown.shows(rule.var) {
        rules.push(new_rule(alloc, shown, rule)?)?;
    }
    Ok(())
}

/// What is left of the rules that stay.
pub(crate) fn rules_left(
    alloc: Global,
    shown: &Chosen,
    task: &SasTask,
) -> Result<Vec<Rule>, AllocError>
    ensures { IfOk result (λ rules. rules.items ≡ restriction.new_rules (chosen shown.now) task.now) }
{
    let mut rules = Vec::new(alloc);
    for i in 0..task.rules() {
        add_rule(alloc, shown, &mut rules, task.rule(i))?;
    }
    Ok(rules)
}
