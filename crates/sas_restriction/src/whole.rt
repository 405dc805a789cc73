// The restriction as a whole, with what is left of the values at the start and of the groups.

ghost use Rattle.std.specs.Prelude.{◌≡◌, ◌++◌, ◌<◌, Bool, nat_lt, [], ◌∷◌, map, length, All, IfOk, OnOk, if◌then◌else◌, slice_index};
ghost use Rattle.std.specs.Option.{option_map_or};
ghost use Rattle.sas_task.specs.declared.parts.Operator.{Operator as AnOperator};
ghost use Rattle.sas_task.specs.Task.{of_parts};
ghost use Rattle.sas_task.specs.Valid.{IsValid};
ghost use Rattle.sas_restriction.specs.Listed.{chosen, with_operators};
ghost use Rattle.sas_restriction.specs.Choice.{IsChoice};
ghost use Rattle.sas_restriction.specs.Choice as choice;
ghost use Rattle.sas_restriction.specs.Restriction as restriction;

use crate::chosen::{Chosen, Once};
use crate::parts::{all_variables, goal, rules_left, whole_operators};
use lists::List;
use sas_task::{Group, Operator, Pair, Rule, SasTask, Value, Variable, arrange, is_valid};
use std::alloc::{AllocError, Global};

/// The initial values of the variables that are shown.
fn new_state(alloc: Global, shown: &Chosen, task: &SasTask) -> Result<Vec<Value>, AllocError>
    requires { All (λ v. v < length task.now.variables) shown.now.vars }
    ensures { IfOk result (λ state. state.items ≡ map (λ var. choice.new_val (chosen shown.now) var (slice_index task.now.state var)) shown.now.vars) }
{
    let mut state = Vec::new(alloc);
    for var in shown.vars() {
        state.push(shown.new_val(*var, task.state(*var)))?;
    }
    Ok(state)
}

fn add_start(state: &mut Vec<Value>, holder: Option<Value>) -> Result<(), AllocError>
    ensures { OnOk result (state.new.items ≡ state.old.items ++ option_map_or (λ start. start ∷ []) holder []) }
{
    if let Some(start) = holder {
        state.push(start)?;
    }
    Ok(())
}

/// The values at the start, and the holder's.
fn whole_state(alloc: Global, shown: &Chosen, task: &SasTask) -> Result<List<Value>, AllocError>
    requires { All (λ v. v < length task.now.variables) shown.now.vars }
    ensures { IfOk result (λ state. state ≡ map (λ var. choice.new_val (chosen shown.now) var (slice_index task.now.state var)) shown.now.vars ++ option_map_or (λ start. start ∷ []) shown.now.holder []) }
{
    let mut state = new_state(alloc, shown, task)?;
    add_start(&mut state, shown.holder())?;
    Ok(List::from_vec(state))
}

fn add_group(
    alloc: Global,
    shown: &Chosen,
    groups: &mut Vec<Group>,
    group: &Group,
) -> Result<(), AllocError>
    ensures { OnOk result (let new = choice.new_group (chosen shown.now) group.now in groups.new.items ≡ groups.old.items ++ (if nat_lt 1 (length new.facts) then new ∷ [] else [])) }
{
    let facts = shown.new_facts(alloc, group.facts.as_slice())?;
    if facts.len() > 1 {
        groups.push(Group {
            facts: List::from_vec(facts),
        })?;
    }
    Ok(())
}

/// What is left of the groups that have two facts left.
fn groups_left(alloc: Global, shown: &Chosen, task: &SasTask) -> Result<Vec<Group>, AllocError>
    ensures { IfOk result (λ groups. groups.items ≡ restriction.new_groups (chosen shown.now) task.now) }
{
    let mut groups = Vec::new(alloc);
    for i in 0..task.groups() {
        add_group(alloc, shown, &mut groups, task.group(i))?;
    }
    Ok(groups)
}

/// Whether some effect of the operator stays.
fn is_busy(shown: &Chosen, operator: &Operator) -> bool
    ensures { result ≡ choice.is_busy (chosen shown.now) operator.now }
{
    let effects = operator.effects.as_slice();
    effects.iter().any(|effect| shown.keeps_effect(effect))
}

/// For each operator whether some effect of it stays.
pub fn busy_marks(alloc: Global, shown: &Chosen, task: &SasTask) -> Result<Vec<bool>, AllocError>
    ensures { IfOk result (λ marks. marks.items ≡ map (choice.is_busy (chosen shown.now)) task.now.operators) }
{
    task.operator_slice()
        .iter()
        .map(|operator| is_busy(shown, operator))
        .collect(alloc)
}

/// What a restriction has beside its operators.
struct Beside {
    metric: bool,
    variables: List<Variable>,
    groups: List<Group>,
    state: List<Value>,
    goal: List<Pair>,
    rules: List<Rule>,
}

impl Drop for Beside {
    fn drop(self) {
        let Beside {
            metric: _,
            variables: _,
            groups: _,
            state: _,
            goal: _,
            rules: _,
        } = self;
    }
}

impl Beside {
    /// The task with these operators too.
    fn with(self, operators: List<Operator>) -> SasTask
        requires { IsValid (of_parts self.metric self.variables self.groups self.state self.goal operators self.rules) }
        ensures { result ≡ of_parts self.metric self.variables self.groups self.state self.goal operators self.rules }
    {
        let Beside {
            metric,
            variables,
            groups,
            state,
            goal,
            rules,
        } = self;
        SasTask::from_parts(metric, variables, groups, state, goal, operators, rules)
    }
}

/// What the restriction has beside its operators.
fn beside_operators(
    alloc: Global,
    once: Once,
    shown: &Chosen,
    task: &SasTask,
) -> Result<Beside, AllocError>
    requires { All (λ v. v < length task.now.variables) shown.now.vars }
    ensures { IfOk result (λ beside. let new = restriction.restriction once (chosen shown.now) task.now in
        beside ≡ record { metric = new.metric; variables = new.variables; groups = new.groups; state = new.state; goal = new.goal; rules = new.rules }) }
{
    let metric = task.metric();
    let variables = all_variables(alloc, shown, task)?;
    let groups = arrange(once.groups, groups_left(alloc, shown, task)?)?;
    let state = whole_state(alloc, shown, task)?;
    let goal = goal(alloc, shown, task)?;
    let rules = arrange(once.rules, rules_left(alloc, shown, task)?)?;
    Ok(Beside {
        metric,
        variables,
        groups: List::from_vec(groups),
        state,
        goal,
        rules: List::from_vec(rules),
    })
}

/// The restriction of the task to these variables, values and operators, with all lists in order. The marks tell which
/// operators are left; the lists of those are handed on. `laws::restriction_keeps` says when the
/// restriction may stand for the task. Where memory is wanting, the task is dropped.
pub fn into_restriction(
    alloc: Global,
    once: Once,
    shown: &Chosen,
    marks: &[bool],
    task: SasTask,
) -> Result<SasTask, AllocError>
    requires marks { (leaves : AnOperator → Bool) × (marks.now ≡ map leaves task.operators) × IsChoice (with_operators shown.now leaves) task }
    ensures { IfOk result (λ new. (leaves : AnOperator → Bool) → marks.now ≡ map leaves task.operators →
        new ≡ restriction.restriction once (with_operators shown.now leaves) task) }
{
    is_valid(&task);
    let beside = beside_operators(alloc, once, shown, &task)?;
    let operators = whole_operators(alloc, once, shown, marks, task.into_operators())?;
    Ok(beside.with(operators))
}

/// What is left of a copy of the task, which stays.
pub fn restrict(
    alloc: Global,
    once: Once,
    shown: &Chosen,
    marks: &[bool],
    task: &SasTask,
) -> Result<SasTask, AllocError>
    requires marks { (leaves : AnOperator → Bool) × (marks.now ≡ map leaves task.now.operators) × IsChoice (with_operators shown.now leaves) task.now }
    ensures { IfOk result (λ new. (leaves : AnOperator → Bool) → marks.now ≡ map leaves task.now.operators →
        new ≡ restriction.restriction once (with_operators shown.now leaves) task.now) }
{
    let copy = task.copy(alloc)?;
    let new = into_restriction(alloc, once, shown, marks, copy)?;
    Ok(new)
}
