// What the goal adds to the task.

ghost use Rattle.std.specs.Prelude.{◌≡◌, ℕ, ◌++◌, IfOk, OnOk};
ghost use Rattle.fdr_encoder.specs.Encoding as parts;
ghost use Rattle.fdr_encoder.specs.GoalForms as words;

use crate::operators::push_rules;
use fdr_effects::{Index, split};
use ground_task::GoalRow;
use lists::{List, Text};
use reached_task::FactNumber;
use sas_task::{Pair, Rule, Var, Variable};
use std::alloc::{AllocError, Global};

/// The form that the goal has in the task.
#[derive(Drop)]
pub(crate) enum GoalForm {
    /// The goal is in one part, which is the goal of the task.
    OnePart(List<Pair>),
    /// The goal is that a last derived variable is true, `goal@split()`. It has a rule for each of these parts.
    Split(List<List<Pair>>),
}

/// The form of a goal.
pub(crate) fn goal_form(
    alloc: Global,
    index: &Index,
    goal: &GoalRow<FactNumber>,
) -> Result<GoalForm, AllocError>
    ensures { (var layer : ℕ) → IfOk result (λ form. words.goal_part_in var layer form ≡ parts.goal_part var layer (parts.goal_split index.now goal.now)) }
{
    let members = goal_split(alloc, index, goal)?;
    Ok(form_of(members))
}

/// The split of the goal.
fn goal_split(
    alloc: Global,
    index: &Index,
    goal: &GoalRow<FactNumber>,
) -> Result<Vec<List<Pair>>, AllocError>
    ensures { IfOk result (λ all. all.items ≡ parts.goal_split index.now goal.now) }
{
    match goal {
        GoalRow::Never => Ok(Vec::new(alloc)),
        GoalRow::All(literals) => split(alloc, index, literals),
    }
}

/// The form of a goal in these parts.
fn form_of(members: Vec<List<Pair>>) -> GoalForm
    ensures { (var layer : ℕ) → words.goal_part_in var layer result ≡ parts.goal_part var layer members.items }
{
    let mut members = members;
    if members.len() == 1 {
        GoalForm::OnePart(members.swap_remove(0))
    } else {
        GoalForm::Split(List::from_vec(members))
    }
}

fn goal_variable(alloc: Global, layer: u64) -> Result<Variable, AllocError>
    ensures { IfOk result (λ variable. variable ≡ parts.goal_variable layer) }
{
    let mut facts = Vec::with_capacity(alloc, 2)?;
    facts.push(Text::from_slice(alloc, b"Atom goal@split()")?)?;
    facts.push(Text::from_slice(alloc, b"NegatedAtom goal@split()")?)?;
    Ok(Variable {
        layer: Some(layer),
        facts: List::from_vec(facts),
    })
}

impl GoalForm {
    /// Adds the goal's variable, with this layer, if it has one.
    pub(crate) fn push_variable(
        &self,
        alloc: Global,
        out: &mut Vec<Variable>,
        layer: u64,
    ) -> Result<(), AllocError>
        ensures { (var : ℕ) → OnOk result (out.new.items ≡ out.old.items ++ (words.goal_part_in var layer self.now).variables) }
    {
        if let GoalForm::Split(_) = self {
            out.push(goal_variable(alloc, layer)?)?;
        }
        Ok(())
    }

    /// Adds the default of the goal's variable, if it has one.
    pub(crate) fn push_value(&self, out: &mut Vec<u64>) -> Result<(), AllocError>
        ensures { (var layer : ℕ) → OnOk result (out.new.items ≡ out.old.items ++ (words.goal_part_in var layer self.now).values) }
    {
        if let GoalForm::Split(_) = self {
            out.push(1)?;
        }
        Ok(())
    }

    /// Adds the rules of the goal's variable, which is `var`, if it has one.
    pub(crate) fn push_rules(
        &self,
        alloc: Global,
        out: &mut Vec<Rule>,
        var: Var,
    ) -> Result<(), AllocError>
        ensures { (layer : ℕ) → OnOk result (out.new.items ≡ out.old.items ++ (words.goal_part_in var layer self.now).rules) }
    {
        if let GoalForm::Split(members) = self {
            push_rules(alloc, out, var, members.as_slice())?;
        }
        Ok(())
    }

    /// The goal of the task, where the goal's variable, if it has one, is `var`.
    pub(crate) fn pairs(&self, alloc: Global, var: Var) -> Result<List<Pair>, AllocError>
        ensures { (layer : ℕ) → IfOk result (λ goal. goal ≡ (words.goal_part_in var layer self.now).goal) }
    {
        let pairs = match self {
            GoalForm::OnePart(pairs) => Vec::from_slice(alloc, pairs.as_slice())?,
            GoalForm::Split(_) => vec![in alloc; Pair { var, val: 0 }]?,
        };
        Ok(List::from_vec(pairs))
    }
}
