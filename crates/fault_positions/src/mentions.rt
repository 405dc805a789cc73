// What a domain and a problem mention, one after another.
ghost use Rattle.std.specs.Prelude.{◌≡◌, ◌++◌, ◌∷◌, [], map, IfOk, OnOk};
ghost use Rattle.std.specs.List.{flat_map};
ghost use Rattle.fault_positions.specs.Mentions as spec;
ghost use Rattle.fault_positions.specs.Seen.{seen, all_seen};

use pddl_syntax::{
    Action, Atom, Condition, Cost, Derived, Domain, Effect, Head, Init, Problem, Term, Typed,
};
use std::alloc::{AllocError, Global};

/// What is mentioned at one place.
#[derive(Clone, Copy)]
pub enum Mention<'a> {
    /// A list of variables.
    Variables(&'a [Typed]),
    /// The head of an axiom.
    Derives(&'a Head),
    /// An atom of a condition.
    Asked(&'a Atom),
    /// An atom that an effect or `:init` adds or denies.
    Written(&'a Atom),
    /// A function with its arguments.
    Function(&'a Atom),
    /// The two sides of an equality.
    Compared(&'a Term, &'a Term),
}

impl<'a> Mention<'a> {
    /// The variables of the list, where one is mentioned.
    pub(crate) fn listed_variables(&self) -> &'a [Typed]
        ensures { result.now ≡ spec.listed_variables (seen self.now) }
    {
        match self {
            Mention::Variables(variables) => variables,
            _ => &[],
        }
    }
}

/// What the condition mentions.
pub(crate) fn mentions_in_condition(
    alloc: Global,
    condition: &Condition,
) -> Result<Vec<Mention<'_>>, AllocError>
    ensures { IfOk result (λ mentions. all_seen mentions.items ≡ spec.in_condition condition.now) }
{
    let mut mentions = Vec::new(alloc);
    add_in_condition(&mut mentions, condition)?;
    Ok(mentions)
}

/// What the domain mentions.
pub fn mentions_in_domain(alloc: Global, domain: &Domain) -> Result<Vec<Mention<'_>>, AllocError>
    ensures { IfOk result (λ mentions. all_seen mentions.items ≡ spec.in_domain domain.now) }
{
    let mut mentions = Vec::new(alloc);
    add_in_heads(&mut mentions, domain.predicates.as_slice())?;
    add_in_heads(&mut mentions, domain.functions.as_slice())?;
    add_in_actions(&mut mentions, domain.actions.as_slice())?;
    add_in_axioms(&mut mentions, domain.axioms.as_slice())?;
    Ok(mentions)
}

/// What the problem mentions.
pub fn mentions_in_problem(alloc: Global, problem: &Problem) -> Result<Vec<Mention<'_>>, AllocError>
    ensures { IfOk result (λ mentions. all_seen mentions.items ≡ spec.in_problem problem.now) }
{
    let mut mentions = Vec::new(alloc);
    add_in_init(&mut mentions, problem.init.as_slice())?;
    add_in_condition(&mut mentions, &problem.goal)?;
    Ok(mentions)
}

/// Puts one mention at the end of the list.
fn add<'a>(mentions: &mut Vec<Mention<'a>>, mention: Mention<'a>) -> Result<(), AllocError>
    ensures { OnOk result (all_seen mentions.new.items ≡ all_seen mentions.old.items ++ seen mention.entry ∷ []) }
{
    mentions.push(mention)?;
    Ok(())
}

/// Puts what the condition mentions at the end of the list.
#[cycle(in_condition)]
fn add_in_condition<'a>(
    mentions: &mut Vec<Mention<'a>>,
    condition: &'a Condition,
) -> Result<(), AllocError>
    ensures { OnOk result (all_seen mentions.new.items ≡ all_seen mentions.old.items ++ spec.in_condition condition.now) }
{
    match condition {
        Condition::True(_) => Ok(()),
        Condition::Atom(atom) => add(mentions, Mention::Asked(atom)),
        Condition::Equal(left, right, _) => add(mentions, Mention::Compared(left, right)),
        Condition::Not(inside, _) => add_in_condition(mentions, inside.get()),
        Condition::And(members, _) | Condition::Or(members, _) => {
            add_in_conditions(mentions, members.as_slice())
        }
        Condition::Imply(premise, conclusion, _) => {
            add_in_condition(mentions, premise.get())?;
            add_in_condition(mentions, conclusion.get())
        }
        Condition::Forall(variables, inside, _) | Condition::Exists(variables, inside, _) => {
            add(mentions, Mention::Variables(variables.as_slice()))?;
            add_in_condition(mentions, inside.get())
        }
    }
}

/// Puts what each of the conditions mentions at the end of the list.
#[cycle(in_condition)]
fn add_in_conditions<'a>(
    mentions: &mut Vec<Mention<'a>>,
    members: &'a [Condition],
) -> Result<(), AllocError>
    ensures { OnOk result (all_seen mentions.new.items ≡ all_seen mentions.old.items ++ flat_map (λ member. member) (map spec.in_condition members.now)) }
{
    for member in members {
        add_in_condition(mentions, member)?;
    }
    Ok(())
}

/// Puts what the effect mentions at the end of the list.
#[cycle(in_effect)]
fn add_in_effect<'a>(mentions: &mut Vec<Mention<'a>>, effect: &'a Effect) -> Result<(), AllocError>
    ensures { OnOk result (all_seen mentions.new.items ≡ all_seen mentions.old.items ++ spec.in_effect effect.now) }
{
    match effect {
        Effect::Nothing(_) => Ok(()),
        Effect::Add(atom) | Effect::Delete(atom) => add(mentions, Mention::Written(atom)),
        Effect::And(members, _) => add_in_effects(mentions, members.as_slice()),
        Effect::When(condition, inside, _) => {
            add_in_condition(mentions, condition)?;
            add_in_effect(mentions, inside.get())
        }
        Effect::Forall(variables, inside, _) => {
            add(mentions, Mention::Variables(variables.as_slice()))?;
            add_in_effect(mentions, inside.get())
        }
        Effect::Increase(term, cost, _) => {
            add(mentions, Mention::Function(term))?;
            add_in_cost(mentions, cost)
        }
    }
}

/// Puts what each of the effects mentions at the end of the list.
#[cycle(in_effect)]
fn add_in_effects<'a>(
    mentions: &mut Vec<Mention<'a>>,
    members: &'a [Effect],
) -> Result<(), AllocError>
    ensures { OnOk result (all_seen mentions.new.items ≡ all_seen mentions.old.items ++ flat_map (λ member. member) (map spec.in_effect members.now)) }
{
    for member in members {
        add_in_effect(mentions, member)?;
    }
    Ok(())
}

/// Puts what the cost mentions at the end of the list.
fn add_in_cost<'a>(mentions: &mut Vec<Mention<'a>>, cost: &'a Cost) -> Result<(), AllocError>
    ensures { OnOk result (all_seen mentions.new.items ≡ all_seen mentions.old.items ++ spec.in_cost cost.now) }
{
    match cost {
        Cost::Number(_) => Ok(()),
        Cost::Term(term) => add(mentions, Mention::Function(term)),
    }
}

/// Puts what the heads of predicates or functions mention at the end of the list.
fn add_in_heads<'a>(mentions: &mut Vec<Mention<'a>>, heads: &'a [Head]) -> Result<(), AllocError>
    ensures { OnOk result (all_seen mentions.new.items ≡ all_seen mentions.old.items ++ flat_map spec.in_head heads.now) }
{
    for head in heads {
        add(mentions, Mention::Variables(head.variables.as_slice()))?;
    }
    Ok(())
}

/// Puts what the actions mention at the end of the list.
fn add_in_actions<'a>(
    mentions: &mut Vec<Mention<'a>>,
    actions: &'a [Action],
) -> Result<(), AllocError>
    ensures { OnOk result (all_seen mentions.new.items ≡ all_seen mentions.old.items ++ flat_map spec.in_action actions.now) }
{
    for action in actions {
        add_in_action(mentions, action)?;
    }
    Ok(())
}

/// Puts what the action mentions at the end of the list.
fn add_in_action<'a>(mentions: &mut Vec<Mention<'a>>, action: &'a Action) -> Result<(), AllocError>
    ensures { OnOk result (all_seen mentions.new.items ≡ all_seen mentions.old.items ++ spec.in_action action.now) }
{
    add(mentions, Mention::Variables(action.parameters.as_slice()))?;
    add_in_condition(mentions, &action.precondition)?;
    add_in_effect(mentions, &action.effect)
}

/// Puts what the axioms mention at the end of the list.
fn add_in_axioms<'a>(
    mentions: &mut Vec<Mention<'a>>,
    axioms: &'a [Derived],
) -> Result<(), AllocError>
    ensures { OnOk result (all_seen mentions.new.items ≡ all_seen mentions.old.items ++ flat_map spec.in_axiom axioms.now) }
{
    for rule in axioms {
        add_in_axiom(mentions, rule)?;
    }
    Ok(())
}

/// Puts what the axiom mentions at the end of the list.
fn add_in_axiom<'a>(mentions: &mut Vec<Mention<'a>>, rule: &'a Derived) -> Result<(), AllocError>
    ensures { OnOk result (all_seen mentions.new.items ≡ all_seen mentions.old.items ++ spec.in_axiom rule.now) }
{
    add(mentions, Mention::Derives(&rule.head))?;
    add(mentions, Mention::Variables(rule.head.variables.as_slice()))?;
    add_in_condition(mentions, &rule.body)
}

/// Puts what the entries of `:init` mention at the end of the list.
fn add_in_init<'a>(mentions: &mut Vec<Mention<'a>>, init: &'a [Init]) -> Result<(), AllocError>
    ensures { OnOk result (all_seen mentions.new.items ≡ all_seen mentions.old.items ++ flat_map spec.in_init init.now) }
{
    for entry in init {
        add(mentions, mention_in_entry(entry))?;
    }
    Ok(())
}

/// What an entry of `:init` mentions.
fn mention_in_entry(entry: &Init) -> Mention<'_>
    ensures { seen result ∷ [] ≡ spec.in_init entry.now }
{
    match entry {
        Init::Holds(atom) | Init::HoldsNot(atom, _) => Mention::Written(atom),
        Init::Value(term, _, _) => Mention::Function(term),
    }
}
