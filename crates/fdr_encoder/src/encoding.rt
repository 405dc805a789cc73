// The encoding, put together.

ghost use Rattle.std.specs.Prelude.{◌≡◌, ℕ, Bool, ◌^◌, ◌<◌, ◌++◌, length, map, All, IfOk};
ghost use Rattle.std.specs.List.{flat_map};
ghost use Rattle.std.specs.List.Sorted.{IsStrictlyIncreasing};
ghost use Rattle.sas_task.specs.Valid.{IsValid};
ghost use Rattle.ground_task.specs.Literals.{initial};
ghost use Rattle.reached_task.specs.ReachedTask.{reached_task};
ghost use Rattle.fdr_effects.specs.Places.{values_in};
ghost use Rattle.group_cover.specs.Cover.{IsCover};
ghost use Rattle.fdr_encoder.specs.Encoding as parts;
ghost use Rattle.fdr_encoder.specs.Framed.{with_operators, Frames};
ghost use Rattle.fdr_encoder.specs.GoalForms.{goal_part_in};
ghost use Rattle.reached_task.specs.Lawful.{IsLawful};
ghost use Rattle.reached_task.specs.Layers.{AreLayers};
ghost use Rattle.fdr_encoder.specs.Covers.{MakesVariables, IsBasicGroup};

use crate::goal::{GoalForm, goal_form};
use crate::operators::{into_operators, operators, rules};
use crate::variables::{layer_above, start, variables};
use fdr_effects::Index;
use fdr_effects::flags::flags;
use fdr_effects::groups::groups;
use group_cover::{Cover, Groups};
use lists::List;
use reached_task::Reached;
use sas_task::{Group, Operator, Pair, Rule, SasTask, Value, Variable};
use std::alloc::{AllocError, Global};
use std::mem::replace;

/// The parts of an encoding beside its operators, and the index of the facts' places.
#[derive(Drop)]
struct Frame<'a> {
    index: Index<'a>,
    variables: List<Variable>,
    groups: List<Group>,
    state: List<u64>,
    goal: List<Pair>,
    rules: List<Rule>,
}

impl<'a> Frame<'a> {
    /// The task with these operators.
    fn with(self, metric: bool, operators: List<Operator>) -> SasTask
        requires { IsValid (with_operators self metric operators) }
        ensures { result ≡ with_operators self.entry metric operators }
    {
        let Frame {
            index: _,
            variables,
            groups,
            state,
            goal,
            rules,
        } = self;
        SasTask::from_parts(metric, variables, groups, state, goal, operators, rules)
    }
}

/// The encoding over a cover of the facts (Helmert 2009, section 6). The variable of a set of two or more facts has a
/// value for each fact, in order, and then `<none of those>`; that of a single fact has the values `Atom` (0) and
/// `NegatedAtom` (1). A goal that isn't in one part has the variable `goal@split()` behind them. Each group of at least
/// two facts is a mutex group of the task. `layers` has one number for each fact, the layer of its variable where the
/// fact is derived.
///
/// No order of groups, operators, effects or rules is promised. An operator without effects is one too. The time is
/// linear in the task and in what the splits give before anything is left out, but for look-ups and the sorting of places.
/// It fails only where memory is refused.
pub fn encode(
    alloc: Global,
    reached: &Reached,
    cover: &Cover,
    groups: &Groups,
    layers: &[u64],
) -> Result<SasTask, AllocError>
    requires lawful { IsLawful reached.now }
    requires cover { (full : Bool) × IsCover full (length reached.now.facts) groups.now.groups cover.now.sets }
    requires groups { All (IsBasicGroup reached.now) groups.now.groups }
    requires layers { AreLayers reached.now layers.now }
    ensures encoding { IfOk result (parts.IsEncoding cover.now.sets groups.now.groups layers.now reached.now) }
    ensures valid { IfOk result IsValid }
{
    let frame = framed(alloc, reached, cover, groups, layers)?;
    let operators = operators(alloc, reached, &frame.index)?;
    Ok(frame.with(reached.metric, operators))
}

/// The encoding as `encode` makes it, of a reached task that nothing needs any more: each of its actions is let go once its
/// operators are made, and gives one of them its name.
pub fn into_encoding(
    alloc: Global,
    reached: Reached,
    cover: &Cover,
    groups: &Groups,
    layers: &[u64],
) -> Result<SasTask, AllocError>
    requires lawful { IsLawful reached }
    requires cover { (full : Bool) × IsCover full (length reached.facts) groups.now.groups cover.now.sets }
    requires groups { All (IsBasicGroup reached) groups.now.groups }
    requires layers { AreLayers reached layers.now }
    ensures encoding { IfOk result (parts.IsEncoding cover.now.sets groups.now.groups layers.now reached) }
    ensures valid { IfOk result IsValid }
{
    let frame = framed(alloc, &reached, cover, groups, layers)?;
    let mut reached = reached;
    let actions = replace(&mut reached.actions, List::from_vec(Vec::new(alloc)));
    let operators = into_operators(alloc, actions, &frame.index)?;
    Ok(frame.with(reached.metric, operators))
}

/// The encoding's parts beside its operators.
fn framed<'a>(
    alloc: Global,
    reached: &Reached,
    cover: &'a Cover,
    groups: &Groups,
    layers: &[u64],
) -> Result<Frame<'a>, AllocError>
    requires lawful { IsLawful reached.now }
    requires cover { (full : Bool) × IsCover full (length reached.now.facts) groups.now.groups cover.now.sets }
    requires groups { All (IsBasicGroup reached.now) groups.now.groups }
    requires layers { AreLayers reached.now layers.now }
    ensures index { IfOk result (λ frame. frame.index ≡ cover.now.sets) }
    ensures frames { IfOk result (Frames cover.now.sets groups.now.groups layers.now reached.now) }
{
    let facts = reached.facts.len() as u64;
    let index = Index::new(alloc, facts, cover.sets.as_slice())?;
    let goal = goal_form(alloc, &index, &reached.goal)?;
    frame_over(
        alloc,
        reached,
        layers,
        index,
        groups.groups.as_slice(),
        &goal,
    )
}

/// The encoding's parts over the sets of the index, with the goal in this form.
fn frame_over<'a>(
    alloc: Global,
    reached: &Reached,
    layers: &[u64],
    index: Index<'a>,
    mutexes: &[List<u64>],
    goal: &GoalForm,
) -> Result<Frame<'a>, AllocError>
    requires lawful { IsLawful reached.now }
    requires layers { AreLayers reached.now layers.now }
    requires cover { MakesVariables reached.now index }
    requires apart { All IsStrictlyIncreasing index }
    requires groups { All (IsBasicGroup reached.now) mutexes.now }
    requires few { length reached.now.facts < 2 ^ 64 }
    requires goal { (var layer : ℕ) → goal_part_in var layer goal.now ≡ parts.goal_part var layer (parts.goal_split index reached.now.goal) }
    ensures index { IfOk result (λ frame. frame.index ≡ index.entry) }
    ensures frames { IfOk result (Frames index.entry mutexes.now layers.now reached.now) }
{
    let variables = all_variables(alloc, reached, layers, &index, goal)?;
    let groups = groups(alloc, &index, mutexes)?;
    let state = state(alloc, reached, &index, goal)?;
    let pairs = goal.pairs(alloc, index.variables())?;
    let rules = all_rules(alloc, reached, &index, goal)?;
    Ok(Frame {
        index,
        variables,
        groups,
        state,
        goal: pairs,
        rules,
    })
}

/// The variables over the sets, and the goal's.
fn all_variables(
    alloc: Global,
    reached: &Reached,
    layers: &[u64],
    index: &Index,
    goal: &GoalForm,
) -> Result<List<Variable>, AllocError>
    requires { AreLayers reached.now layers.now }
    ensures { (var : ℕ) → IfOk result (λ all. all ≡ map (parts.variable_over reached.now layers.now) index.now ++ (goal_part_in var (parts.layer_above reached.now layers.now) goal.now).variables) }
{
    let mut all = variables(alloc, reached, layers, index.sets())?;
    goal.push_variable(alloc, &mut all, layer_above(reached, layers))?;
    Ok(List::from_vec(all))
}

/// The values at the start.
fn state(
    alloc: Global,
    reached: &Reached,
    index: &Index,
    goal: &GoalForm,
) -> Result<List<Value>, AllocError>
    requires { IsLawful reached.now }
    ensures { (var layer : ℕ) → IfOk result (λ all. all ≡ values_in index.now (initial (reached_task reached.now)) ++ (goal_part_in var layer goal.now).values) }
{
    let truths = flags(alloc, reached.init.as_slice(), reached.facts.len())?;
    let mut all = start(alloc, truths.as_slice(), index.sets())?;
    goal.push_value(&mut all)?;
    Ok(List::from_vec(all))
}

/// The rules of the axioms, and the goal's.
fn all_rules(
    alloc: Global,
    reached: &Reached,
    index: &Index,
    goal: &GoalForm,
) -> Result<List<Rule>, AllocError>
    ensures { (layer : ℕ) → IfOk result (λ all. all ≡ flat_map (parts.rules_at index.now) reached.now.axioms ++ (goal_part_in (length index.now) layer goal.now).rules) }
{
    let mut all = rules(alloc, index, reached.axioms.as_slice())?;
    goal.push_rules(alloc, &mut all, index.variables())?;
    Ok(List::from_vec(all))
}
